//! The limit of a filing: its lines taken in their order.
ghost use Rattle.std.specs.Prelude.{◌≡◌};
ghost use Rattle.filing.specs.Views.{fields_of};
ghost use Rattle.standard.specs.Contribution.{contribution as contribution_of};
ghost use Rattle.standard.specs.Seen.{by_year};
ghost use Rattle.limit.specs.Lines.{limit_of, Means};
ghost use Rattle.limit.specs.Outcome.{told};

use crate::outcome::Outcome;
use filing::filing::Filing;
use quantity::rounding::nearest_whole;
use quantity::units::{Quotient, Tonnes};
use standard::calculation::Calculation;
use standard::facility::FacilityYear;

/// Ten-millionths to a tonne.
const TO_A_TONNE: u64 = 10_000_000;

/// The sum of what the lines contribute, rounded once to whole tonnes, or the fault of the first line that has one.
pub fn limit_of(calculation: Calculation, at: FacilityYear<'_>, filing: &Filing) -> Outcome
    ensures value { told result ≡ limit_of (by_year (contribution_of calculation) at.entry) (fields_of filing.now).lines }
    ensures means { Means (by_year (contribution_of calculation) at.entry) (fields_of filing.now).lines (told result) }
{
    let lines = filing.lines();
    let mut sum = 0;
    // A `for`, as the project asks: it stops at the first fault, and names its line.
    for (place, line) in (1usize..).zip(lines) {
        match at.contribution(calculation, line) {
            Ok(part) => sum += part.ten_millionths,
            Err(cause) => return Outcome::Fault { cause, line: place },
        }
    }
    let exact = Quotient {
        num: sum,
        den: TO_A_TONNE,
    };
    Outcome::Limit(Tonnes {
        tonnes: nearest_whole(exact),
    })
}
