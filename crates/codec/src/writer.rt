//! Writes the record of a filing.
ghost use Rattle.std.specs.Prelude.{◌≡◌, ℕ, ◌+◌, ◌*◌, map, length};
ghost use Rattle.std.specs.List.{flat_map};
ghost use Rattle.filing.specs.Parts.{line_fields};
ghost use Rattle.filing.specs.Views.{filed};
ghost use Rattle.codec.specs.Laws.{ReadsBack};
ghost use Rattle.codec.specs.Writing.{field_bytes, line_bytes, opening_bytes, written as written_of, Room, Put, Written};

use crate::faults::WriteFault;
use crate::fields::Coded;
use crate::parts::COUNT_AT;
use crate::table::{Codes, Row, written};
use filing::fields::{HeadFields, LineFields};
use filing::parts::Line;
use filing::signed::Signed;

/// How many bytes stand before the schema's codes: the mark, the version and the count of the codes.
const FRONT: usize = COUNT_AT + 1;

/// A buffer that is filled from the front, one part after another.
// No `Vec`: the writer takes no memory. No `Write` for `&mut [u8]`: std's says nothing of the bytes that it wrote,
// and a slice that shrinks can't say where it stands.
#[derive(Drop)]
struct Output<'a> {
    buffer: &'a mut [u8],
    at: usize,
}

impl Output<'_> {
    /// Puts bytes.
    fn put(&mut self, bytes: &[u8])
        requires { Room self.old (length bytes.now) }
        ensures { Put self.old self.new bytes.now }
    {
        let end = self.at + bytes.len();
        self.buffer[self.at..end].copy_from_slice(bytes);
        self.at = end;
    }

    /// Puts the mark, the version, and the schema after its count.
    fn put_opening(&mut self, row: Row)
        requires { Room self.old (6 + length row.codes.list.now) }
        ensures { Put self.old self.new (opening_bytes row.version row.codes.list.now) }
    {
        self.put(b"OBF");
        self.put(&row.version.to_be_bytes());
        self.put(&[row.codes.list.len() as u8]);
        self.put(row.codes.list);
    }

    /// Puts the fields with some codes.
    fn put_fields<F: Coded>(&mut self, codes: Codes, fields: &F)
        requires { Room self.old (8 * length codes.list.now) }
        ensures { Put self.old self.new (field_bytes codes.list.now (F.field fields.now)) }
    {
        for code in codes.list {
            self.put(&fields.value(*code).to_be_bytes());
        }
    }

    /// Puts lines, one after another.
    fn put_lines(&mut self, codes: Codes, lines: &[Line])
        requires { Room self.old (8 * length codes.list.now * length lines.now) }
        ensures { Put self.old self.new (flat_map (line_bytes codes.list.now) (map line_fields lines.now)) }
    {
        for line in lines {
            self.put_fields(codes, &LineFields::from(*line));
        }
    }
}

/// Writes the record of a filing to the front of the buffer, and answers how many bytes it has.
/// No byte beyond it is touched, and a buffer that is too small is left as it was.
#[tactic(auto, using(crate::proofs::ReadBack::signed_back))]
pub fn write(filing: &Signed, buffer: &mut [u8]) -> Result<usize, WriteFault>
    ensures says { Written result (written_of (filed filing.now)) buffer.old buffer.new }
    ensures back { ReadsBack (filed filing.now) (written_of (filed filing.now)) }
{
    let report = filing.filing();
    let row = written();
    let (head, line) = row.codes.split();
    let size = FRONT + row.codes.list.len() + head.size() + 1 + line.size() * report.count();
    if buffer.len() < size {
        return Err(WriteFault::Short);
    }
    let mut output = Output { buffer, at: 0 };
    output.put_opening(row);
    output.put_fields(head, &HeadFields::from(report.head()));
    output.put(&[report.count() as u8]);
    output.put_lines(line, report.lines());
    Ok(size)
}
