//! The undo log: the acts since the last close that no take-back has struck.
ghost use Rattle.std.specs.Prelude.{◌≡◌, ◌+◌, ◌-◌, ◌<◌, ◌≤◌, [], ◌∷◌, ◌++◌, take, IfOk, MatchOption, vec_len, vec_capacity};

use crate::places::Place;
use filing::signed::Signed;
use std::alloc::{AllocError, Global};

/// The most acts that the undo log holds.
pub(crate) const MOST_ACTS: usize = 32;

/// An act: its place, and what stood there before it.
#[derive(Clone, Copy)]
pub(crate) struct Entry {
    pub(crate) place: Place,
    pub(crate) before: Option<Signed>,
}

/// The acts, the latest last. Their room is reserved when the log is made.
// No model: what a register has lived is said of the entries themselves, as of its plants.
#[derive(Drop)]
pub(crate) struct UndoLog {
    entries: Vec<Entry>,
    ghost room: { 32 ≤ vec_capacity entries },
}

impl UndoLog {
    /// An empty log.
    pub(crate) fn new(heap: Global) -> Result<UndoLog, AllocError>
        ensures { IfOk result (λ b. b.entries.items ≡ []) }
    {
        let entries = Vec::with_capacity(heap, MOST_ACTS)?;
        Ok(UndoLog { entries })
    }

    /// How many acts it holds.
    pub(crate) fn len(&self) -> usize
        ensures { result ≡ vec_len self.now.entries }
    {
        self.entries.len()
    }

    /// Adds the latest act.
    pub(crate) fn write(&mut self, entry: Entry)
        requires { vec_len self.old.entries < 32 }
        ensures { self.new.entries.items ≡ self.old.entries.items ++ entry ∷ [] }
    {
        self.entries.push_reserved(entry);
    }

    /// The latest act.
    pub(crate) fn latest(&self) -> Option<Entry>
        ensures { MatchOption result (vec_len self.now.entries ≡ 0) (λ e. (0 < vec_len self.now.entries) × (self.now.entries.items ≡ take (vec_len self.now.entries - 1) self.now.entries.items ++ e ∷ [])) }
    {
        self.entries.last().copied()
    }

    /// Removes the latest act, where there is one.
    pub(crate) fn strike(&mut self)
        ensures { self.new.entries.items ≡ take (vec_len self.old.entries - 1) self.old.entries.items }
    {
        let _ = self.entries.pop();
    }

    /// Removes all acts.
    pub(crate) fn clear(&mut self)
        ensures { self.new.entries.items ≡ [] }
    {
        self.entries.clear();
    }
}
