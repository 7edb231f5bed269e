//! The versions of the format, and the field codes that each has.
//! Nothing cited at `Codes` names the type, so that definitions above may.
ghost use Rattle.std.specs.Prelude.{◌≡◌, ℕ, ◌*◌, ◌≤◌, length};
ghost use Rattle.std.specs.Option.{option_map};
ghost use Rattle.codec.specs.Table.{row_of, written_version, written_row, heads as heads_of, head_codes, line_codes, first_off};

/// How many bytes a field has.
pub(crate) const FIELD: usize = 8;

/// The least code of a line's field.
const FIRST_OF_LINE: u8 = 21;

// Codes stay numbers, since a schema may hold any byte and is compared with them as it is.
/// Codes of fields, in the order in which the fields come.
#[derive(Clone, Copy)]
pub(crate) struct Codes {
    pub list: &'static [u8],
    ghost few: { length list.now ≤ 20 },
}

/// A version and the codes of its fields, the head's before the line's.
#[derive(Clone, Copy)]
pub(crate) struct Row {
    pub version: u16,
    pub codes: Codes,
}

const ROWS: [Row; 3] = [
    // The industrial program.
    Row {
        version: 1,
        codes: Codes {
            list: &[1, 2, 3, 4, 5, 6, 7, 21, 22, 23, 24, 25],
        },
    },
    // The station program.
    Row {
        version: 2,
        codes: Codes {
            list: &[1, 2, 3, 4, 5, 21, 22, 23, 24, 26, 27],
        },
    },
    // The engine.
    Row {
        version: 3,
        codes: Codes {
            list: &[1, 2, 3, 4, 5, 6, 7, 21, 22, 23, 24, 25, 26, 27],
        },
    },
];

impl Codes {
    /// How many bytes the fields have.
    pub fn size(self) -> usize
        ensures { result ≡ 8 * length self.list.now }
    {
        FIELD * self.list.len()
    }

    /// How many codes stand before the first of a line's.
    fn heads(self) -> usize
        ensures counts { result ≡ heads_of self.list.now }
        ensures within { result ≤ length self.list.now }
    {
        self.list
            .iter()
            .take_while(|code| **code < FIRST_OF_LINE)
            .count()
    }

    /// The codes of the head, and those of a line.
    pub fn split(self) -> (Codes, Codes)
        ensures head { result.0.list.now ≡ head_codes self.list.now }
        ensures line { result.1.list.now ≡ line_codes self.list.now }
    {
        let (head, line) = self.list.split_at(self.heads());
        (Codes { list: head }, Codes { list: line })
    }
}

/// The row of a version.
pub(crate) fn row_of(version: u16) -> Option<Row>
    ensures { option_map (λ row. row.codes.list.now) result ≡ row_of version }
{
    ROWS.iter().find(|row| row.version == version).copied()
}

/// The row of the version that is written.
pub(crate) fn written() -> Row
    ensures version { result.version ≡ written_version }
    ensures codes { result.codes.list.now ≡ written_row }
{
    ROWS[2]
}

/// The first line, from 1, at which a schema is not the row.
pub(crate) fn first_off(schema: &[u8], row: &[u8]) -> Option<usize>
    ensures { result ≡ first_off 1 schema.now row.now }
{
    let same = schema.iter().zip(row).take_while(|(s, r)| s == r).count();
    let longest = schema.len().max(row.len());
    (same < longest).then_some(same + 1)
}
