//! What a line contributes to a year's limit.
ghost use Rattle.std.specs.Prelude.{◌≡◌, ◌*◌};
ghost use Rattle.filing.specs.Parts.{line_fields};
ghost use Rattle.standard.specs.Contribution.{contribution as contribution_of};
ghost use Rattle.standard.specs.Seen.{by_year};
ghost use Rattle.standard.specs.Views.{contributed};

use crate::calculation::Calculation;
use crate::causes::Cause;
use crate::facility::FacilityYear;
use crate::gaseous::unit_yield;
use crate::units::Contribution;
use filing::kinds::LineKind;
use filing::parts::Line;
use quantity::units::{Production, Standard};

/// What rounded production yields at a standard.
fn at_standard(production: Production, standard: Standard) -> Contribution
    ensures { result.ten_millionths ≡ production.thousandths * standard.ten_thousandths }
{
    Contribution {
        ten_millionths: production.thousandths * standard.ten_thousandths,
    }
}

impl FacilityYear<'_> {
    /// What a line contributes to the limit of the year, from the places of the years up to it.
    #[tactic(auto, unfolding(crate::specs::Contribution::contribution))]
    pub fn contribution(self, calculation: Calculation, line: &Line) -> Result<Contribution, Cause>
        ensures { contributed result ≡ by_year (contribution_of calculation) self.entry (line_fields line.now) }
    {
        let production = line.production.rounded();
        match line.kind {
            LineKind::Numerical => Ok(at_standard(production, line.standard)),
            LineKind::Calculated => match calculation {
                Calculation::FromYears => {
                    let standard = self.calculated_standard(line.number)?;
                    Ok(at_standard(production, standard))
                }
                Calculation::Barred => Err(Cause::Method),
            },
            LineKind::Gaseous => {
                let capacity = self.capacity(line.number);
                unit_yield(production, capacity, self.year)
            }
        }
    }
}
