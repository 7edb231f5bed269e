//! What the program says of itself.
use crate::failures::Failure;

const TEXT: &str = "\
obps: emissions limits under output-based pricing

  obps run JOURNAL     performs a journal and answers each of its lines
  obps run             the same, from standard input
  obps show FILE       prints the records of a file, up to the first that is refused
  obps upgrade FILE OUT    writes the records of FILE to OUT in version 3, or,
                       where one is refused, nothing
  obps help            prints this

A journal is a text file with one step to a line. '#' starts a comment.

  head FACILITY YEAR CO2 CH4 N2O SF6 CAPTURED
  line KIND NUMBER PRODUCTION STANDARD ATTRIBUTED ADDED RATIO
  blank                starts a new draft
  sign                 signs the draft, and starts a new one
  sign FILE            takes a signed filing from the record in FILE
  sign 0xHEX           takes it from the record that is written in hexadecimal

Gases and ATTRIBUTED are in kilograms, PRODUCTION in thousandths of a unit,
STANDARD in ten-thousandths of a tonne per unit, ADDED in megawatts and RATIO in
thousandths. KIND is 1 (numerical), 2 (calculated) or 3 (gaseous electricity).

  $ printf 'head 1 2022 5000000 0 0 0 0\\nsign\\n' | obps run
  1\thead\tset
  2\tsign\tsigned facility 1 year 2022 total 5000000 kg emissions 5000 t lines 0

Status 1: a line was not understood, or a file can't be read or written.";

pub(crate) fn help(rt: &HostRuntime) -> Result<(), Failure> {
    rt.println(TEXT).map_err(Failure::Output)
}
