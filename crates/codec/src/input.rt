//! The bytes of a record as they are read.
//! Nothing cited at the ghost field names the type, so that definitions above may.
ghost use Rattle.std.specs.Prelude.{◌≡◌, ℕ, ◌+◌, ◌≤◌, length, IfOk};
ghost use Rattle.codec.specs.Reading.{part as part_of};

use crate::faults::ReadFault;

/// Bytes that are read from the front, one part after another.
// Bytes and a place, and not a slice that shrinks: `Cut` tells how long all bytes are.
#[derive(Drop)]
pub(crate) struct Input<'a> {
    pub bytes: &'a [u8],
    pub at: usize,
    ghost within: { at ≤ length bytes.now },
}

impl<'a> Input<'a> {
    ghost use Rattle.codec.specs.Answers.{Took};

    /// The bytes of the next part, where all of them are there.
    pub fn part(&mut self, size: usize) -> Result<&'a [u8], ReadFault>
        ensures says { Took (λ x. x.now) result (part_of self.old.at size self.old.bytes.now) self.old self.new (self.old.at + size) }
        ensures long { IfOk result (λ b. length b.now ≡ size) }
    {
        let length = self.bytes.len();
        let found = self.bytes[self.at..]
            .get(..size)
            .ok_or(ReadFault::Cut { length })?;
        self.at += size;
        Ok(found)
    }
}
