//! The ranges of the fields, in the order of their codes.
ghost use Rattle.std.specs.Prelude.{◌≡◌, ◌+◌, ◌<◌, ◌≤◌, map, IfSome, IfOk, IfErr, Some, None};
ghost use Rattle.std.specs.List.{position};
ghost use Rattle.filing.specs.Checks.{out_of_range};
ghost use Rattle.filing.specs.Ranges.{◌to◌, head_numbers, head_ranges, line_numbers, line_ranges, outside, beside_outside};
ghost use Rattle.filing.specs.Told.{told};

use crate::faults::FilingFault;
use crate::fields::{HeadFields, LineFields};
use crate::kinds::LineKind;
use crate::places::{FACILITIES, FIRST_YEAR, LAST_YEAR};
use quantity::units::{Kilograms, Megawatts, Production, Standard};

/// The least and the most that a field may be.
// Not a `RangeInclusive`, which is also spent or not: each contract over ranges would have to say that none is.
#[derive(Clone, Copy)]
pub(crate) struct Range {
    pub least: u64,
    pub most: u64,
}

impl Range {
    fn misses(&self, value: u64) -> bool
        ensures { result ≡ outside value self.now }
    {
        !(self.least..=self.most).contains(&value)
    }
}

/// The range from 0 to `most`.
fn up_to(most: u64) -> Range
    ensures { result ≡ (0 to most) }
{
    Range { least: 0, most }
}

/// The fields of a head beside their ranges, codes 1 to 7.
pub(crate) fn head_ranged(fields: &HeadFields) -> [(u64, Range); 7]
    ensures numbers { map (λ p. p.0) result ≡ head_numbers fields.now }
    ensures ranges { map (λ p. p.1) result ≡ head_ranges fields.now }
{
    let facility = Range {
        least: 1,
        most: FACILITIES,
    };
    let year = Range {
        least: FIRST_YEAR,
        most: LAST_YEAR,
    };
    [
        (fields.facility, facility),
        (fields.year, year),
        (fields.co2, up_to(100_000_000_000)),
        (fields.ch4, up_to(1_000_000_000)),
        (fields.n2o, up_to(100_000_000)),
        (fields.sf6, up_to(1_000_000)),
        (fields.captured, up_to(fields.co2)),
    ]
}

/// The fields of a line after its kind beside their ranges, codes 22 to 27.
pub(crate) fn line_ranged(kind: LineKind, fields: &LineFields) -> [(u64, Range); 6]
    ensures numbers { map (λ p. p.0) result ≡ line_numbers fields.now }
    ensures ranges { map (λ p. p.1) result ≡ line_ranges kind }
{
    let made = Range {
        least: 1,
        most: Production::MOST,
    };
    let absent = up_to(0);
    let (production, standard, added, ratio) = match kind {
        LineKind::Numerical => (made, up_to(Standard::MOST), absent, absent),
        LineKind::Calculated => (made, absent, absent, absent),
        LineKind::Gaseous => {
            let generated = up_to(100_000_000);
            (generated, absent, up_to(Megawatts::MOST), up_to(10_000))
        }
    };
    [
        (fields.number, up_to(65_535)),
        (fields.production, production),
        (fields.standard, standard),
        (fields.attributed, up_to(Kilograms::MOST)),
        (fields.added, added),
        (fields.ratio, ratio),
    ]
}

/// The place, from 0, of the first value outside its range.
fn place_outside<const N: usize>(ranged: &[(u64, Range); N]) -> Option<usize>
    ensures place { result ≡ position (λ p. outside p.0 p.1) ranged.now }
    ensures bound { IfSome result (λ i. i < N) }
{
    ranged
        .iter()
        .position(|(value, range)| range.misses(*value))
}

/// Refuses the first value outside the range beside it by its code, where the first value has the code `from`, and the line.
#[tactic(auto, using(crate::proofs::Outside::outside_at))]
pub(crate) fn check_ranges<const N: usize>(
    from: usize,
    ranged: &[(u64, Range); N],
    line: usize,
) -> Result<(), FilingFault>
    requires { from + N ≤ 100 }
    ensures passes { IfOk result (λ u. beside_outside from ranged.now ≡ None) }
    ensures refuses { IfErr result (λ e. out_of_range (beside_outside from ranged.now) line ≡ Some (told e)) }
{
    match place_outside(ranged) {
        Some(i) => Err(FilingFault::Range {
            code: from + i,
            line,
        }),
        None => Ok(()),
    }
}
