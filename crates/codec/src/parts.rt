//! The parts of a record, one after another.
ghost use Rattle.std.specs.Prelude.{◌≡◌, ℕ, ◌+◌, ◌*◌, ◌≤◌, length, IfOk};
ghost use Rattle.filing.specs.Views.{drafted, filed};
ghost use Rattle.codec.specs.Answers.{Says, Took};
ghost use Rattle.codec.specs.Reading.{opening as opening_of, schema as schema_of, head_at, headed as headed_of, counted as counted_of, lined as lined_of, body as body_of};

use crate::faults::ReadFault;
use crate::fields::Values;
use crate::input::Input;
use crate::table::{Codes, first_off};
use filing::draft::Draft;
use filing::faults::FilingFault;
use filing::fields::{HeadFields, LineFields};
use filing::filing::MOST_LINES;
use filing::signed::Signed;

/// Where the count of the schema's codes stands.
pub(crate) const COUNT_AT: usize = 5;

/// The version, once the mark is seen.
pub(crate) fn opening(bytes: &[u8]) -> Result<u16, ReadFault>
    ensures says { Says (λ v. v) result (opening_of bytes.now) }
    ensures long { IfOk result (λ v. 5 ≤ length bytes.now) }
{
    let length = bytes.len();
    // The project asks for this pattern. It can name no array, so the writer says the mark once more.
    let [0x4F, 0x42, 0x46, rest @ ..] = bytes else {
        if length < 3 {
            return Err(ReadFault::Cut { length });
        }
        return Err(ReadFault::Mark);
    };
    let version = rest.first_chunk().ok_or(ReadFault::Cut { length })?;
    Ok(u16::from_be_bytes(*version))
}

impl Input<'_> {
    /// Compares the schema, which stands next, with the row of the version.
    #[tactic(auto, using(crate::proofs::Steps::schema_passed))]
    pub(crate) fn schema(&mut self, row: Codes) -> Result<(), ReadFault>
        requires { self.old.at ≡ 5 }
        ensures { Took (λ x. x) result (schema_of row.list.now self.old.bytes.now) self.old self.new (6 + length row.list.now) }
    {
        let count = self.part(1)?;
        let codes = self.part(usize::from(count[0]))?;
        match first_off(codes, row.list) {
            Some(line) => Err(ReadFault::Schema { line }),
            None => Ok(()),
        }
    }

    /// A draft with the head that stands next.
    fn headed(&mut self, codes: Codes) -> Result<Draft, ReadFault>
        ensures { Took drafted result (headed_of codes.list.now self.old.at self.old.bytes.now) self.old self.new (self.old.at + 8 * length codes.list.now) }
    {
        let bytes = self.part(codes.size())?;
        let mut draft = Draft::blank();
        draft.set_head(HeadFields::from(&Values { codes, bytes }))?;
        Ok(draft)
    }

    /// The count of lines that stands next.
    fn counted(&mut self) -> Result<usize, ReadFault>
        ensures { Took (λ n. n) result (counted_of self.old.at self.old.bytes.now) self.old self.new (self.old.at + 1) }
    {
        // A byte as in `schema`: a method for the two would need a definition beside theirs, and lemmas between them.
        let found = self.part(1)?;
        let count = usize::from(found[0]);
        if count > MOST_LINES {
            return Err(ReadFault::Filing(FilingFault::Lines));
        }
        Ok(count)
    }

    /// A draft with the lines that stand next added.
    #[tactic(auto, using(crate::proofs::Steps::lined_cut))]
    fn lined(&mut self, codes: Codes, count: usize, draft: Draft) -> Result<Draft, ReadFault>
        ensures { Says (λ full. (self.new.at, drafted full)) result (lined_of codes.list.now count self.old.at self.old.bytes.now (drafted draft)) }
    {
        let size = codes.size();
        let mut full = draft;
        for _line in 0..count {
            let bytes = self.part(size)?;
            full.add_line(LineFields::from(&Values { codes, bytes }))?;
        }
        Ok(full)
    }

    /// The filing, from the head on.
    #[tactic(auto, using(crate::proofs::Steps::body_count, crate::proofs::Steps::body_lines))]
    pub(crate) fn body(&mut self, row: Codes) -> Result<Signed, ReadFault>
        requires { self.old.at ≡ head_at row.list.now }
        ensures { Says (λ signed. (self.new.at, filed signed)) result (body_of row.list.now self.old.bytes.now) }
    {
        let (head, line) = row.split();
        let draft = self.headed(head)?;
        let count = self.counted()?;
        let full = self.lined(line, count, draft)?;
        Ok(full.sign())
    }
}
