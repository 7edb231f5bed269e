//! A filing that is being drawn up.
ghost use Rattle.std.specs.Prelude.{◌≡◌};
ghost use Rattle.filing.specs.Checks.{heading, adding};
ghost use Rattle.filing.specs.Filing.{blank as blank_filing};
ghost use Rattle.filing.specs.Sound.{Sound};
ghost use Rattle.filing.specs.Views.{fields_of, drafted, filed, Wrote, Numbered};

use crate::faults::FilingFault;
use crate::fields::{HeadFields, LineFields};
use crate::filing::Filing;
use crate::signed::Signed;

/// A filing that lines may still be added to. It is moved when it is signed.
#[derive(Drop)]
pub struct Draft {
    pub(crate) filing: Filing,
}

impl Draft {
    /// Facility 1, year 2017, all figures 0, no lines.
    pub fn blank() -> Draft
        ensures { drafted result ≡ blank_filing }
    {
        Draft {
            filing: Filing::blank(),
        }
    }

    /// What is drawn up so far.
    pub fn filing(&self) -> &Filing
        ensures is { result.now ≡ self.now.filing }
        ensures sound { Sound (fields_of result.now) }
    {
        &self.filing
    }

    /// Replaces all seven fields of the head; a refusal changes nothing.
    pub fn set_head(&mut self, fields: HeadFields) -> Result<(), FilingFault>
        ensures { Wrote result (heading (drafted self.old) fields) self.old self.new }
    {
        self.filing = self.filing.with_head(fields)?;
        Ok(())
    }

    /// Adds a line after those that are there, and answers its place; a refusal changes nothing.
    pub fn add_line(&mut self, fields: LineFields) -> Result<usize, FilingFault>
        ensures wrote { Wrote result (adding (drafted self.old) fields) self.old self.new }
        ensures place { Numbered result (drafted self.new) }
    {
        let filing = self.filing.with_line(fields)?;
        let place = filing.count();
        self.filing = filing;
        Ok(place)
    }

    /// The same filing, signed.
    pub fn sign(self) -> Signed
        ensures { filed result ≡ drafted self }
    {
        Signed {
            filing: self.filing,
        }
    }
}
