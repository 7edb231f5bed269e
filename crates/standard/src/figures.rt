//! What the filing at a year's place has of an activity.
ghost use Rattle.std.specs.Prelude.{◌≡◌, ◌≤◌, not, sum_by, filter, Some};
ghost use Rattle.std.specs.List.{list_any};
ghost use Rattle.filing.specs.Parts.{line_fields};
ghost use Rattle.filing.specs.Views.{fields_of, filed};
ghost use Rattle.standard.specs.Found.{YearOf};
ghost use Rattle.standard.specs.Places.{standing};
ghost use Rattle.standard.specs.Reference.{of_activity, made_by, qualifies};
ghost use Rattle.standard.specs.Seen.{lines_of, seen};

use crate::activity::Activity;
use crate::units::ReferenceYear;
use filing::filing::Filing;
use filing::kinds::LineKind;
use filing::signed::Signed;

/// The production of an activity that has no line.
const WITHOUT_LINE: u64 = 0;

impl Activity<'_> {
    /// Whether a line of the filing is of the activity.
    fn is_in(self, filing: &Filing) -> bool
        ensures { result ≡ list_any (λ l. of_activity self.entry.number (line_fields l)) (lines_of filing.now) }
    {
        filing
            .lines()
            .iter()
            .any(|line| line.is(LineKind::Calculated, self.number))
    }

    /// The kilograms attributed to the lines that are not of the activity, and the production in thousandths of those
    /// that are.
    fn sums(self, filing: &Filing) -> (u64, u64)
        ensures others { result.0 ≡ sum_by (λ l. l.attributed) (filter (λ l. not (of_activity self.entry.number l)) (fields_of filing.now).lines) }
        ensures made { result.1 ≡ made_by self.entry.number (fields_of filing.now) }
    {
        let lines = filing.lines();
        let mut others = 0;
        let mut made = 0;
        // One `for`: two chains, one for each sum, would walk the lines twice.
        for line in lines {
            if line.is(LineKind::Calculated, self.number) {
                made += line.production.thousandths;
            } else {
                others += line.attributed.kg;
            }
        }
        (others, made)
    }

    /// What the filing of a year has of the activity, or nothing where no line is of it.
    fn filed(self, signed: &Signed, year: u64) -> Option<ReferenceYear>
        ensures { YearOf self.entry.number year (Some (filed signed.now)) result }
    {
        let filing = signed.filing();
        let (others, made) = self.sums(filing);
        if made == WITHOUT_LINE {
            return None;
        }
        let total = filing.total();
        Some(ReferenceYear {
            year,
            kg: total.kg.saturating_sub(others),
            thousandths: made,
        })
    }

    /// Whether a year has a line of the activity. Unlike `of_year`, it works out no figures.
    #[tactic(auto, using(crate::proofs::Filed::among))]
    pub(crate) fn has(self, year: u64) -> bool
        ensures { result ≡ qualifies (seen self.entry.at) self.entry.number year }
    {
        match self.at.seen(year) {
            Some(signed) => self.is_in(signed.filing()),
            None => false,
        }
    }

    /// What a year has of the activity.
    pub(crate) fn of_year(self, year: u64) -> Option<ReferenceYear>
        ensures { YearOf self.entry.number year (standing (seen self.entry.at) year) result }
    {
        self.filed(self.at.seen(year)?, year)
    }
}
