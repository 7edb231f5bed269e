//! A filing that is drawn up and signed: nothing of it changes any more.
ghost use Rattle.std.specs.Prelude.{◌≡◌};
ghost use Rattle.filing.specs.Sound.{Sound};
ghost use Rattle.filing.specs.Views.{fields_of};

use crate::filing::Filing;

/// A signed filing.
#[derive(Clone, Copy)]
pub struct Signed {
    pub(crate) filing: Filing,
}

impl Signed {
    // As of a `Draft`: a trait for the two would be two impls with this same line.
    /// What is filed.
    pub fn filing(&self) -> &Filing
        ensures is { result.now ≡ self.now.filing }
        ensures sound { Sound (fields_of result.now) }
    {
        &self.filing
    }
}
