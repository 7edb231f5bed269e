//! What a unit that makes electricity from gaseous fuel yields.
ghost use Rattle.std.specs.Prelude.{◌≡◌, ◌+◌, ◌*◌, ◌≤◌};
ghost use Rattle.quantity.specs.Rounding.{nearest};
ghost use Rattle.standard.specs.Contribution.{weighed, unit_yield};
ghost use Rattle.standard.specs.Ranges.{most_capacity};
ghost use Rattle.standard.specs.Views.{contributed};

use crate::causes::Cause;
use crate::decreasing::{STEADY, decreasing_standard};
use crate::units::{Capacity, Contribution};
use quantity::rounding::nearest_whole;
use quantity::units::{Production, Quotient};

/// Ten-millionths of a tonne in a thousandth.
const IN_THOUSANDTH: u64 = 10_000;

/// Megawatts times tonnes per GWh: what triggers at the year's decreasing standard, the rest at the steady one.
fn weight_in(year: u64, capacity: Capacity) -> u64
    ensures value { result ≡ weighed capacity.triggering capacity.other year }
    ensures bound { result ≤ 370 * (capacity.triggering + capacity.other) }
{
    let decreasing = decreasing_standard(year);
    capacity.triggering * decreasing + capacity.other * STEADY
}

/// Thousandths of a tonne as ten-millionths, a half up.
fn in_ten_millionths(exact: Quotient) -> u64
    requires few { exact.den ≤ most_capacity }
    requires small { exact.num ≤ 37000000000000 * exact.den }
    ensures value { result ≡ nearest (exact.num * 10000) exact.den }
    ensures bound { result ≤ 370000000000000000 }
{
    // In two parts, since `exact.num` times ten thousand may not fit 64 bits. The whole thousandths
    // are exact, so that only the rest is rounded.
    let whole = exact.num / exact.den * IN_THOUSANDTH;
    let rest = Quotient {
        num: exact.num % exact.den * IN_THOUSANDTH,
        den: exact.den,
    };
    whole + nearest_whole(rest)
}

/// What rounded production of a unit of that capacity yields in a year.
pub(crate) fn unit_yield(
    production: Production,
    capacity: Capacity,
    year: u64,
) -> Result<Contribution, Cause>
    ensures { contributed result ≡ unit_yield production.thousandths capacity.triggering capacity.other year }
{
    let all = capacity.triggering + capacity.other;
    if all == 0 {
        if production.thousandths == 0 {
            return Ok(Contribution { ten_millionths: 0 });
        }
        return Err(Cause::Capacity);
    }
    let weight = weight_in(year, capacity);
    let exact = Quotient {
        num: production.thousandths * weight,
        den: all,
    };
    Ok(Contribution {
        ten_millionths: in_ten_millionths(exact),
    })
}
