//! How a filing comes from another: another head, or one line more.
ghost use Rattle.std.specs.Prelude.{◌≡◌};
ghost use Rattle.filing.specs.Checks.{heading, adding};
ghost use Rattle.filing.specs.Filing.{blank as blank_filing};
ghost use Rattle.filing.specs.Views.{fields_of, Built, LineChecked};

use crate::faults::FilingFault;
use crate::fields::{HeadFields, LineFields};
use crate::filing::{Filing, MOST_LINES};
use crate::kinds::LineKind;
use crate::parts::{Head, Line};
use crate::places::FIRST_YEAR;
use crate::sums::{attributed_kg, holds, total_kg};
use quantity::units::{Kilograms, Megawatts, Production, Standard};

fn blank_line() -> Line {
    Line {
        kind: LineKind::Numerical,
        number: 0,
        production: Production { thousandths: 0 },
        standard: Standard { ten_thousandths: 0 },
        attributed: Kilograms { kg: 0 },
        added: Megawatts { mw: 0 },
        ratio: 0,
    }
}

impl Filing {
    /// Facility 1, year 2017, all figures 0, no lines.
    pub(crate) fn blank() -> Filing
        ensures { fields_of result ≡ blank_filing }
    {
        let none = Kilograms { kg: 0 };
        Filing {
            head: Head {
                facility: 1,
                year: FIRST_YEAR as u16,
                co2: none,
                ch4: none,
                n2o: none,
                sf6: none,
                captured: none,
            },
            lines: [blank_line(); MOST_LINES],
            count: 0,
        }
    }

    /// The filing with another head.
    pub(crate) fn with_head(&self, fields: HeadFields) -> Result<Filing, FilingFault>
        ensures { Built result (heading (fields_of self.now) fields) }
    {
        let head = Head::try_from(fields)?;
        if total_kg(&head) < attributed_kg(self.lines()) {
            return Err(FilingFault::Attributed);
        }
        // Field by field, not `..*self`: tried, and the check takes no `..` where the struct has ghost fields.
        Ok(Filing {
            head,
            lines: self.lines,
            count: self.count,
        })
    }

    /// The line that these fields make after those that are there, or the first refusal.
    fn checked_line(&self, fields: LineFields) -> Result<Line, FilingFault>
        ensures { LineChecked (fields_of self.now) fields result }
    {
        if self.count >= MOST_LINES {
            return Err(FilingFault::Lines);
        }
        let place = self.count + 1;
        let kind = LineKind::try_from(fields.kind).map_err(|_| FilingFault::Kind { line: place })?;
        let line = Line::checked(kind, fields, place)?;
        let earlier = self.lines();
        if holds(earlier, &line) {
            return Err(FilingFault::Twice { line: place });
        }
        if total_kg(&self.head) < attributed_kg(earlier) + line.attributed.kg {
            return Err(FilingFault::Attributed);
        }
        Ok(line)
    }

    /// The filing with one line more, put into a copy of its lines.
    pub(crate) fn with_line(&self, fields: LineFields) -> Result<Filing, FilingFault>
        ensures { Built result (adding (fields_of self.now) fields) }
    {
        let line = self.checked_line(fields)?;
        let mut lines = self.lines;
        lines[self.count] = line;
        // Field by field, as for a head: no `..` where the struct has ghost fields.
        Ok(Filing {
            head: self.head,
            lines,
            count: self.count + 1,
        })
    }
}
