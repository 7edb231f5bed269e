//! Records, read from the front of bytes one after another.
ghost use Rattle.std.specs.Prelude.{◌≡◌, ℕ, ◌<◌, ◌≤◌, length, IfOk, Ok, Err};
ghost use Rattle.std.specs.Iterator.{YieldsFirstBy, item_count};
ghost use Rattle.filing.specs.Views.{filed};
ghost use Rattle.codec.specs.Answers.{Says};
ghost use Rattle.codec.specs.Laws.{Matches, Differs, Followed, Cuts, WritesBack};
ghost use Rattle.codec.specs.Reading.{reading};
ghost use Rattle.codec.specs.Records.{records_of, records_left, said};
ghost use Rattle.codec.specs.Table.{written_version};
ghost use Rattle.codec.specs.declared.faults.ReadFault.TheVariants.{Schema};

use crate::faults::ReadFault;
use crate::input::Input;
use crate::parts::{COUNT_AT, opening};
use crate::table::row_of;
use filing::signed::Signed;

/// What a record says, and how many bytes it takes.
#[derive(Clone, Copy)]
pub struct Record {
    pub used: usize,
    pub version: u16,
    pub signed: Signed,
}

impl Record {
    /// The record at the front of `bytes`. Bytes after it are left alone.
    pub fn read(bytes: &[u8]) -> Result<Record, ReadFault>
        ensures says { Says (λ r. (r.used, r.version, filed r.signed)) result (reading bytes.now) }
        ensures within { IfOk result (λ r. (0 < r.used) × (r.used ≤ length bytes.now)) }
        ensures matches { IfOk result (λ r. Matches bytes.now r.version) }
        ensures differs { (n : ℕ) → result ≡ Err (Schema n) → Differs bytes.now n }
        ensures followed { IfOk result (λ r. Followed bytes.now r.used) }
        ensures cuts { IfOk result (λ r. Cuts bytes.now r.used) }
        ensures back { IfOk result (λ r. r.version ≡ written_version → WritesBack (filed r.signed) bytes.now r.used) }
    {
        let version = opening(bytes)?;
        let row = row_of(version).ok_or(ReadFault::Version)?;
        let mut input = Input {
            bytes,
            at: COUNT_AT,
        };
        input.schema(row.codes)?;
        let signed = input.body(row.codes)?;
        Ok(Record {
            used: input.at,
            version,
            signed,
        })
    }
}

/// The records of some bytes, up to their end or to the first that is refused.
#[derive(Drop)]
pub struct Records<'a> {
    rest: &'a [u8],
}

impl<'a> From<&'a [u8]> for Records<'a> {
    ghost from_gives = { λ bytes records. records_left records ≡ records_of bytes.now };

    fn from(bytes: &'a [u8]) -> Records<'a> {
        Records { rest: bytes }
    }
}

impl Iterator for Records<'_> {
    type Item = Result<Record, ReadFault>;

    ghost next_gives = { YieldsFirstBy said records_left };

    ghost remaining = { item_count records_left };

    #[tactic(auto, using(crate::proofs::Following::refusal_last))]
    fn next(&mut self) -> Option<Result<Record, ReadFault>> {
        if self.rest.is_empty() {
            return None;
        }
        match Record::read(self.rest) {
            Ok(record) => {
                self.rest = &self.rest[record.used..];
                Some(Ok(record))
            }
            Err(fault) => {
                self.rest = &[];
                Some(Err(fault))
            }
        }
    }
}
