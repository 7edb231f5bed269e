//! Answers as the program prints them.
use filing::faults::FilingFault;
use filing::fields::LineFields;
use filing::filing::Filing;
use filing::parts::Line;
use journal::desk::Answer;
use journal::excerpt::Excerpt;
use journal::steps::Misread;
use std::fmt;

/// What a step is answered, in words.
#[derive(Clone, Copy)]
pub struct Said(pub Result<Answer, FilingFault>);

/// A signed filing in one line.
#[derive(Clone, Copy)]
pub struct Summary<'a>(pub &'a Filing);

#[derive(Clone, Copy)]
struct Entry<'a>(&'a Line);

/// The first word of a line that says no step, a tab, and why it says none.
#[derive(Clone, Copy, Debug)]
pub struct Misreading<'a> {
    step: &'a [u8],
    wrong: &'a [u8],
    misread: Misread,
}

impl<'a> Misreading<'a> {
    /// The misreading of a line with these words.
    pub(crate) fn of(words: &[&'a [u8]], misread: Misread) -> Misreading<'a> {
        Misreading {
            step: words.first().copied().unwrap_or_default(),
            wrong: word(words, misread.at()).unwrap_or_default(),
            misread,
        }
    }
}

impl fmt::Display for Entry<'_> {
    fn fmt<W: fmt::Write>(&self, f: &mut fmt::Formatter<W>) -> fmt::Result {
        let LineFields {
            kind,
            number,
            production,
            standard,
            attributed,
            added,
            ratio,
        } = LineFields::from(*self.0);
        write!(
            f,
            "kind {kind} number {number} production {production} standard {standard} attributed {attributed} added {added} ratio {ratio}"
        )
    }
}

impl fmt::Display for Summary<'_> {
    fn fmt<W: fmt::Write>(&self, f: &mut fmt::Formatter<W>) -> fmt::Result {
        let filing = self.0;
        write!(
            f,
            "facility {} year {} total {} kg emissions {} t lines {}",
            filing.head().facility,
            filing.head().year,
            filing.total().kg,
            filing.emissions().tonnes,
            filing.count()
        )?;
        for (place, line) in (1u64..).zip(filing.lines()) {
            write!(f, "; line {place} {}", Entry(line))?;
        }
        Ok(())
    }
}

impl fmt::Display for Said {
    fn fmt<W: fmt::Write>(&self, f: &mut fmt::Formatter<W>) -> fmt::Result {
        match self.0 {
            Ok(Answer::Set) => write!(f, "set"),
            Ok(Answer::Line(place)) => write!(f, "line {place}"),
            Ok(Answer::Blank) => write!(f, "blank"),
            Ok(Answer::Signed(signed)) => write!(f, "signed {}", Summary(signed.filing())),
            Err(fault) => write!(f, "refused {fault}"),
        }
    }
}

/// The steps that have numbers: the word of each, and what the words after it are called.
// The reader of steps keeps places only: the names are the program's, in its messages and its help.
// The help says them once more: its text is one literal, which is printed as it is and can name no other.
const USAGES: &[&[&str]] = &[
    &[
        "head", "FACILITY", "YEAR", "CO2", "CH4", "N2O", "SF6", "CAPTURED",
    ],
    &[
        "line",
        "KIND",
        "NUMBER",
        "PRODUCTION",
        "STANDARD",
        "ATTRIBUTED",
        "ADDED",
        "RATIO",
    ],
];

/// The word at a place, counted from 1.
pub(crate) fn word<T: Copy>(words: &[T], at: usize) -> Option<T> {
    words.get(at.checked_sub(1)?).copied()
}

/// What the word at a place of a step's line is called; the step's own word is at 1.
fn expected(step: &[u8], at: usize) -> Option<&'static str> {
    let usage = USAGES.iter().find(|usage| matches!(usage, [own, ..] if own.as_bytes() == step))?;
    word(usage, at)
}

impl fmt::Display for Misreading<'_> {
    fn fmt<W: fmt::Write>(&self, f: &mut fmt::Formatter<W>) -> fmt::Result {
        let name = expected(self.step, self.misread.at()).unwrap_or("a word");
        let shown = Excerpt(self.step);
        let wrong = Excerpt(self.wrong);
        write!(f, "{shown}\tnot understood: ")?;
        match self.misread {
            Misread::UnknownStep => write!(f, "no step is called '{wrong}'"),
            Misread::Missing { .. } => write!(f, "{name} is missing"),
            Misread::NoNumber { .. } => write!(f, "{name} is no number: '{wrong}'"),
            Misread::TooLarge { .. } => write!(f, "{name} is too large: '{wrong}'"),
            Misread::Extra { .. } => write!(f, "a word too many: '{wrong}'"),
        }
    }
}
