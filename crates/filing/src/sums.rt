//! Sums and searches over a head and lines.
ghost use Rattle.std.specs.Prelude.{◌≡◌, ◌≤◌, true, map, length};
ghost use Rattle.std.specs.List.{list_any};
ghost use Rattle.filing.specs.Checks.{most_lines};
ghost use Rattle.filing.specs.Emissions.{total};
ghost use Rattle.filing.specs.Filing.{head_in_range, same, attributed_sum};
ghost use Rattle.filing.specs.Parts.{head_fields, line_fields};
ghost use Rattle.quantity.specs.Ranges.{most_kilograms};

use crate::parts::{Head, Line};

/// All gases as kilograms of carbon dioxide equivalent, less what was captured and stored.
pub(crate) fn total_kg(head: &Head) -> u64
    requires { head_in_range (head_fields head.now) ≡ true }
    ensures value { result ≡ total (head_fields head.now) }
    ensures bound { result ≤ most_kilograms }
{
    head.co2.kg + 25 * head.ch4.kg + 298 * head.n2o.kg + 22_800 * head.sf6.kg - head.captured.kg
}

/// Whether one of the lines has the kind and number of `line`.
pub(crate) fn holds(lines: &[Line], line: &Line) -> bool
    ensures { result ≡ list_any (λ own. same (line_fields line.now) (line_fields own)) lines.now }
{
    lines.iter().any(|own| line.is(own.kind, own.number))
}

/// The lines' attributed kilograms together.
pub(crate) fn attributed_kg(lines: &[Line]) -> u64
    requires { length lines.now ≤ most_lines }
    ensures { result ≡ attributed_sum (map line_fields lines.now) }
{
    lines.iter().map(|line| line.attributed.kg).sum()
}
