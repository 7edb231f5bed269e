//! The fields of a head and of a line by their codes, eight bytes each.
ghost use Rattle.std.specs.Prelude.{◌≡◌, ℕ, ◌*◌, ◌≤◌, length};
ghost use Rattle.codec.specs.Fields.{field as field_of, head_of, line_of, head_field, line_field};
ghost use Rattle.codec.specs.Numbers.{number as number_of};

use crate::table::{Codes, FIELD};
use filing::fields::{HeadFields, LineFields};

/// Bytes in which each of some codes has its field.
#[derive(Clone, Copy)]
pub(crate) struct Values<'a> {
    pub codes: Codes,
    pub bytes: &'a [u8],
    ghost long: { 8 * length codes.list.now ≤ length bytes.now },
}

/// The fields of one part of a record, each with its code.
pub(crate) trait Coded {
    // The field with a code.
    ghost field: { Self → ℕ → ℕ };

    /// The field with a code, and 0 where there is none.
    // By number, as the schema has codes; 0, and no `Option`, as that is what the format says of a field that lacks.
    fn value(&self, code: u8) -> u64
        ensures { result ≡ field self.now code };
}

/// The number that a field's bytes write.
fn number(bytes: &[u8; FIELD]) -> u64
    ensures { result ≡ number_of bytes.now }
{
    u64::from_be_bytes(*bytes)
}

impl Values<'_> {
    /// The field with a code, and 0 where the codes lack it.
    // By the place of the code: by a `zip` of the codes with their bytes, reading a record took a quarter more instructions.
    fn field(&self, code: u8) -> u64
        ensures { result ≡ field_of self.now.codes.list.now self.now.bytes.now code }
    {
        let (fields, _) = self.bytes.as_chunks::<FIELD>();
        match self.codes.list.iter().position(|own| *own == code) {
            Some(i) => number(&fields[i]),
            None => 0,
        }
    }
}

impl Coded for HeadFields {
    ghost field = { head_field };

    fn value(&self, code: u8) -> u64 {
        match code {
            1 => self.facility,
            2 => self.year,
            3 => self.co2,
            4 => self.ch4,
            5 => self.n2o,
            6 => self.sf6,
            7 => self.captured,
            _ => 0,
        }
    }
}

/// What the values make: a field whose code they lack is 0.
impl From<&Values<'_>> for HeadFields {
    ghost from_gives = { λ values head. head ≡ head_of values.now.codes.list.now values.now.bytes.now };

    fn from(values: &Values<'_>) -> HeadFields {
        HeadFields {
            facility: values.field(1),
            year: values.field(2),
            co2: values.field(3),
            ch4: values.field(4),
            n2o: values.field(5),
            sf6: values.field(6),
            captured: values.field(7),
        }
    }
}

impl Coded for LineFields {
    ghost field = { line_field };

    fn value(&self, code: u8) -> u64 {
        match code {
            21 => self.kind,
            22 => self.number,
            23 => self.production,
            24 => self.standard,
            25 => self.attributed,
            26 => self.added,
            27 => self.ratio,
            _ => 0,
        }
    }
}

/// What the values make: a field whose code they lack is 0.
impl From<&Values<'_>> for LineFields {
    ghost from_gives = { λ values line. line ≡ line_of values.now.codes.list.now values.now.bytes.now };

    fn from(values: &Values<'_>) -> LineFields {
        LineFields {
            kind: values.field(21),
            number: values.field(22),
            production: values.field(23),
            standard: values.field(24),
            attributed: values.field(25),
            added: values.field(26),
            ratio: values.field(27),
        }
    }
}
