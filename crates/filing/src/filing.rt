//! A filing with all that every draft and every signed filing keeps.
//! Nothing cited here names the type, so that definitions above may.
ghost use Rattle.std.specs.Prelude.{◌≡◌, ℕ, ◌≤◌, true, length};
ghost use Rattle.filing.specs.Checks.{most_lines};
ghost use Rattle.filing.specs.Emissions.{total};
ghost use Rattle.filing.specs.Filing.{head_in_range, lines_in_range, apart, attributed_sum};
ghost use Rattle.filing.specs.Parts.{head_fields, entered};

use crate::parts::{Head, Line};

/// The most lines that a filing has.
pub const MOST_LINES: usize = 6;

/// A head and the first `count` of its lines.
// Not an `ArrayVec`, which is not `Copy`, and a register holds signed filings by value; nor a `Vec`: a draft takes no memory that can run out.
#[derive(Clone, Copy)]
pub struct Filing {
    pub(crate) head: Head,
    pub(crate) lines: [Line; MOST_LINES],
    pub(crate) count: usize,
    ghost room: { length lines ≡ most_lines },
    ghost few: { count ≤ most_lines },
    ghost head_in_range: { head_in_range (head_fields head) ≡ true },
    ghost lines_in_range: { lines_in_range (entered lines count) ≡ true },
    ghost lines_apart: { apart (entered lines count) ≡ true },
    ghost within: { attributed_sum (entered lines count) ≤ total (head_fields head) },
}
