//! Which facilities and years there are.

/// The facilities are numbered from 1 to this.
pub const FACILITIES: u64 = 4;

/// The first year that is filed for.
pub const FIRST_YEAR: u64 = 2017;

/// The last year that is filed for.
pub const LAST_YEAR: u64 = 2036;

/// How many years there are from the first to the last.
pub const YEARS: usize = (LAST_YEAR - FIRST_YEAR + 1) as usize;
