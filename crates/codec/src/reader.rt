//! Reads a record into its caller's place.
ghost use Rattle.std.specs.Prelude.{◌≡◌, ℕ, ◌<◌, ◌≤◌, length, IfOk, Ok, Err};
ghost use Rattle.filing.specs.Views.{filed};
ghost use Rattle.codec.specs.Answers.{Placed};
ghost use Rattle.codec.specs.Laws.{Matches, Differs, Followed, Cuts, WritesBack};
ghost use Rattle.codec.specs.Reading.{reading};
ghost use Rattle.codec.specs.Table.{written_version};
ghost use Rattle.codec.specs.declared.faults.ReadFault.TheVariants.{Schema};

use crate::faults::ReadFault;
use crate::record::Record;
use filing::signed::Signed;

/// Reads the record at the front of `bytes` into the caller's place, and answers the bytes used and the version.
/// Bytes after the record are left alone, and a refusal leaves the place as it was.
// The caller's place and a pair of numbers: the project asks for this form.
pub fn read(bytes: &[u8], into: &mut Signed) -> Result<(usize, u16), ReadFault>
    ensures says { Placed result (reading bytes.now) into.old into.new }
    ensures within { IfOk result (λ x. (0 < x.0) × (x.0 ≤ length bytes.now)) }
    ensures matches { (n v : ℕ) → result ≡ Ok (n, v) → Matches bytes.now v }
    ensures differs { (n : ℕ) → result ≡ Err (Schema n) → Differs bytes.now n }
    ensures followed { (n v : ℕ) → result ≡ Ok (n, v) → Followed bytes.now n }
    ensures cuts { (n v : ℕ) → result ≡ Ok (n, v) → Cuts bytes.now n }
    ensures back { (n : ℕ) → result ≡ Ok (n, written_version) → WritesBack (filed into.new) bytes.now n }
{
    let record = Record::read(bytes)?;
    *into = record.signed;
    Ok((record.used, record.version))
}
