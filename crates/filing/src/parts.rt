//! A head and a line as a filing keeps them: each quantity of a type of its own.
ghost use Rattle.std.specs.Prelude.{◌≡◌, Some};
ghost use Rattle.filing.specs.Filing.{named};
ghost use Rattle.filing.specs.Kinds.{kind_number, kind_of};
ghost use Rattle.filing.specs.Parts.{head_fields, line_fields, HeadMade, LineMade};

use crate::faults::FilingFault;
use crate::fields::{HeadFields, LineFields};
use crate::kinds::LineKind;
use crate::ranges::{check_ranges, head_ranged, line_ranged};
use quantity::units::{Kilograms, Megawatts, Production, Standard};

/// Who files for which year, and what was emitted and captured.
#[derive(Clone, Copy, Debug, PartialEq, Eq)]
pub struct Head {
    pub facility: u8,
    pub year: u16,
    pub co2: Kilograms,
    pub ch4: Kilograms,
    pub n2o: Kilograms,
    pub sf6: Kilograms,
    pub captured: Kilograms,
}

/// One activity or unit: what it made, and what is said of it.
#[derive(Clone, Copy, Debug, PartialEq, Eq)]
pub struct Line {
    pub kind: LineKind,
    pub number: u16,
    pub production: Production,
    pub standard: Standard,
    pub attributed: Kilograms,
    pub added: Megawatts,
    /// Design thermal to electricity ratio, in thousandths.
    pub ratio: u16,
}

/// The head as bare numbers.
impl From<Head> for HeadFields {
    ghost from_gives = { λ head fields. fields ≡ head_fields head };

    fn from(head: Head) -> HeadFields {
        HeadFields {
            facility: u64::from(head.facility),
            year: u64::from(head.year),
            co2: head.co2.kg,
            ch4: head.ch4.kg,
            n2o: head.n2o.kg,
            sf6: head.sf6.kg,
            captured: head.captured.kg,
        }
    }
}

/// The line as bare numbers.
impl From<Line> for LineFields {
    ghost from_gives = { λ line fields. fields ≡ line_fields line };

    fn from(line: Line) -> LineFields {
        LineFields {
            kind: u64::from(line.kind),
            number: u64::from(line.number),
            production: line.production.thousandths,
            standard: line.standard.ten_thousandths,
            attributed: line.attributed.kg,
            added: line.added.mw,
            ratio: u64::from(line.ratio),
        }
    }
}

/// The head with these fields, if each is in its range.
impl TryFrom<HeadFields> for Head {
    type Error = FilingFault;

    ghost try_from_gives = { HeadMade };

    fn try_from(fields: HeadFields) -> Result<Head, FilingFault> {
        check_ranges(1, &head_ranged(&fields), 0)?;
        Ok(Head {
            facility: fields.facility as u8,
            year: fields.year as u16,
            co2: Kilograms { kg: fields.co2 },
            ch4: Kilograms { kg: fields.ch4 },
            n2o: Kilograms { kg: fields.n2o },
            sf6: Kilograms { kg: fields.sf6 },
            captured: Kilograms {
                kg: fields.captured,
            },
        })
    }
}

impl Line {
    /// Whether the line is of a kind and has a number.
    pub fn is(&self, kind: LineKind, number: u16) -> bool
        ensures { result ≡ named (kind_number kind) number (line_fields self.now) }
    {
        self.kind == kind && self.number == number
    }

    /// The line with these fields after its kind, if each is in its range; `place` is where it would stand.
    // No `TryFrom`: a refusal names the place, which the fields don't have.
    pub(crate) fn checked(
        kind: LineKind,
        fields: LineFields,
        place: usize,
    ) -> Result<Line, FilingFault>
        requires { kind_of fields.kind ≡ Some kind }
        ensures { LineMade kind fields place result }
    {
        check_ranges(22, &line_ranged(kind, &fields), place)?;
        Ok(Line {
            kind,
            number: fields.number as u16,
            production: Production {
                thousandths: fields.production,
            },
            standard: Standard {
                ten_thousandths: fields.standard,
            },
            attributed: Kilograms {
                kg: fields.attributed,
            },
            added: Megawatts { mw: fields.added },
            ratio: fields.ratio as u16,
        })
    }
}
