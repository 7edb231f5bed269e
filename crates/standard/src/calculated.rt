//! The calculated standard of an activity, from its reference years.
ghost use Rattle.std.specs.Prelude.{◌≡◌, ◌*◌, ◌<◌, ◌≤◌};
ghost use Rattle.quantity.specs.Figures.{three_figures};
ghost use Rattle.quantity.specs.Ranges.{most_kilograms};
ghost use Rattle.standard.specs.Calculated.{not_large, calculated};
ghost use Rattle.standard.specs.Seen.{as_seen};
ghost use Rattle.standard.specs.Views.{standard_number};

use crate::causes::Cause;
use crate::facility::FacilityYear;
use crate::units::ReferenceYears;
use quantity::rounding::three_figures;
use quantity::units::{Quotient, Standard};

/// Ten-thousandths in a hundredth.
const SCALE: u64 = 100;

/// The standard of kilograms by thousandths of production, at a factor in per cent.
fn standard_from(kg: u64, thousandths: u64, factor: u8) -> Result<Standard, Cause>
    requires kilograms { kg ≤ 2 * most_kilograms }
    requires produced { 0 < thousandths }
    requires percent { factor ≤ 100 }
    ensures { standard_number result ≡ not_large (three_figures (kg * factor * 100) thousandths) }
{
    let rounded = three_figures(Quotient {
        num: kg * u64::from(factor) * SCALE,
        den: thousandths,
    });
    Standard::new(rounded).ok_or(Cause::Large)
}

impl FacilityYear<'_> {
    /// The calculated standard of an activity, as the year sees it.
    pub fn calculated_standard(self, activity: u16) -> Result<Standard, Cause>
        ensures { standard_number result ≡ as_seen calculated self.entry activity }
    {
        let years = self.reference_years(activity).ok_or(Cause::Reference)?;
        let (kg, thousandths) = match years {
            ReferenceYears::One(a) => (a.kg, a.thousandths),
            ReferenceYears::Two(a, b) => (a.kg + b.kg, a.thousandths + b.thousandths),
        };
        standard_from(kg, thousandths, self.enrolment.factor)
    }
}
