//! What can be read of a filing, drafted or signed.
ghost use Rattle.std.specs.Prelude.{◌≡◌, ◌≤◌, map, length, take};
ghost use Rattle.filing.specs.Checks.{most_lines};
ghost use Rattle.filing.specs.Emissions.{total as total_of, emissions as emissions_of};
ghost use Rattle.filing.specs.Filing.{attributed_sum};
ghost use Rattle.filing.specs.Parts.{head_fields, line_fields};
ghost use Rattle.filing.specs.Views.{fields_of};

use crate::filing::Filing;
use crate::parts::{Head, Line};
use crate::sums::{attributed_kg, total_kg};
use quantity::units::{Kilograms, Tonnes};

impl Filing {
    /// The head.
    pub fn head(&self) -> Head
        ensures { head_fields result ≡ (fields_of self.now).head }
    {
        self.head
    }

    /// The lines in their order.
    pub fn lines(&self) -> &[Line]
        ensures fields { map line_fields result.now ≡ (fields_of self.now).lines }
        ensures kept { result.now ≡ take self.now.count self.now.lines }
        ensures few { length result.now ≤ most_lines }
    {
        &self.lines[..self.count]
    }

    /// How many lines there are.
    pub fn count(&self) -> usize
        ensures { result ≡ length (fields_of self.now).lines }
    {
        self.count
    }

    /// The total of all gases, less what was captured.
    pub fn total(&self) -> Kilograms
        ensures { result.kg ≡ total_of (fields_of self.now).head }
    {
        Kilograms {
            kg: total_kg(&self.head),
        }
    }

    /// The year's emissions: the total in whole tonnes, a half up.
    pub fn emissions(&self) -> Tonnes
        ensures { result.tonnes ≡ emissions_of (fields_of self.now).head }
    {
        self.total().in_tonnes()
    }

    /// The kilograms attributed to the lines together.
    pub fn attributed(&self) -> Kilograms
        ensures { result.kg ≡ attributed_sum (fields_of self.now).lines }
    {
        Kilograms {
            kg: attributed_kg(self.lines()),
        }
    }
}
