//! The standards of electricity from gaseous fuel, in tonnes per GWh.
ghost use Rattle.std.specs.Prelude.{◌≡◌, ◌≤◌};
ghost use Rattle.standard.specs.Decreasing.{decreasing};

/// The standard of capacity that triggers no decrease.
pub(crate) const STEADY: u64 = 370;

/// The first year of the table.
const FIRST: u64 = 2021;

/// The decreasing standard, a year each.
const DECREASING: [u64; 9] = [370, 329, 288, 247, 206, 164, 123, 82, 41];

/// The decreasing standard of a year: that of the first for years before the table, and 0 for years after it.
pub fn decreasing_standard(year: u64) -> u64
    ensures value { result ≡ decreasing year }
    ensures bound { result ≤ 370 }
{
    let i = year.saturating_sub(FIRST) as usize;
    DECREASING.get(i).copied().unwrap_or(0)
}
