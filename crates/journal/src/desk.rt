//! The desk: the draft that a journal's steps work on, and what they are answered.
ghost use Rattle.std.specs.Prelude.{◌≡◌};
ghost use Rattle.filing.specs.Filing.{blank};
ghost use Rattle.filing.specs.Views.{drafted};
ghost use Rattle.journal.specs.Desk.{replied, performing, RefusedUnchanged};

use crate::steps::Step;
use filing::draft::Draft;
use filing::faults::FilingFault;
use filing::signed::Signed;

/// What a step that is not refused is answered.
#[derive(Clone, Copy)]
pub enum Answer {
    /// The head is set.
    Set,
    /// The line stands at this place.
    Line(usize),
    /// The draft is blank again.
    Blank,
    /// The draft is signed, and the next one is blank.
    Signed(Signed),
}

/// A draft that is being drawn up.
#[derive(Drop)]
pub struct Desk {
    draft: Draft,
}

impl Desk {
    /// A desk with a blank draft.
    pub fn new() -> Desk
        ensures { drafted result.draft ≡ blank }
    {
        Desk {
            draft: Draft::blank(),
        }
    }

    /// Performs one step and answers it, or refuses it and leaves the draft as it was.
    pub fn perform(&mut self, step: Step) -> Result<Answer, FilingFault>
        ensures answer { (replied result, drafted self.new.draft) ≡ performing step (drafted self.old.draft) }
        ensures refused { RefusedUnchanged result self.old self.new }
    {
        match step {
            Step::Head(fields) => {
                self.draft.set_head(fields)?;
                Ok(Answer::Set)
            }
            Step::Line(fields) => {
                let place = self.draft.add_line(fields)?;
                Ok(Answer::Line(place))
            }
            Step::Blank => {
                self.draft = Draft::blank();
                Ok(Answer::Blank)
            }
            Step::Sign => {
                let draft = std::mem::replace(&mut self.draft, Draft::blank());
                Ok(Answer::Signed(draft.sign()))
            }
        }
    }
}
