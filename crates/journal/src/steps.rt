//! The steps that the lines of a journal say.
ghost use Rattle.std.specs.Prelude.{◌≡◌, ◌≤◌, Some, Ok};
ghost use Rattle.std.specs.Str.{bytes_eq};
ghost use Rattle.journal.specs.Numbers.{decimal as decimal_of};
ghost use Rattle.journal.specs.Words.{contents};
ghost use Rattle.journal.specs.Meaning.{Means, Spells};
ghost use Rattle.journal.specs.Steps.{place as place_of, placed, numbers as numbers_of, headed, lined, lone, named as named_of, step as step_of};

use crate::numbers::{NumberFault, decimal};
use filing::fields::{HeadFields, LineFields};

/// What one line of a journal asks for.
#[derive(Clone, Copy, Debug, PartialEq, Eq)]
pub enum Step {
    Head(HeadFields),
    Line(LineFields),
    Blank,
    Sign,
}

/// Why a line says no step. `at` counts the words of the line from 1, so that the step's own word is at 1.
// No struct of a place and a cause: an unknown step is always at 1, and such a struct could put it elsewhere.
#[derive(Clone, Copy, Debug, PartialEq, Eq)]
pub enum Misread {
    UnknownStep,
    Missing { at: usize },
    NoNumber { at: usize },
    TooLarge { at: usize },
    Extra { at: usize },
}

impl Misread {
    /// The place of the word that is wrong or missing.
    pub fn at(&self) -> usize
        ensures { result ≡ place_of self.now }
    {
        match self {
            Misread::UnknownStep => 1,
            Misread::Missing { at }
            | Misread::NoNumber { at }
            | Misread::TooLarge { at }
            | Misread::Extra { at } => *at,
        }
    }
}

/// The number that the word at the place `at` of its line writes.
fn number(word: &[u8], at: usize) -> Result<u64, Misread>
    ensures { result ≡ placed at (decimal_of word.now) }
{
    // No From can make a misreading of a fault, which does not know its place.
    decimal(word).map_err(|fault| match fault {
        NumberFault::NoNumber => Misread::NoNumber { at },
        NumberFault::TooLarge => Misread::TooLarge { at },
    })
}

/// The numbers that the words after a step's own write. N are due, few enough that the place of each is a `usize`.
fn numbers<const N: usize>(words: &[&[u8]]) -> Result<[u64; N], Misread>
    requires { N ≤ 7 }
    ensures { result ≡ numbers_of 2 N (contents words.now) }
{
    // `array::try_from_fn` does not say that the fault it gives is that of the first word that has one.
    // By `enumerate` and `get`: tried `(2..).zip(&mut found)` and the next of `words`, and after the loop nothing is known of what `found` holds.
    let mut found = [0; N];
    for (i, figure) in found.iter_mut().enumerate() {
        let word = words.get(i).ok_or(Misread::Missing { at: i + 2 })?;
        *figure = number(word, i + 2)?;
    }
    match words.get(N) {
        Some(_) => Err(Misread::Extra { at: N + 2 }),
        None => Ok(found),
    }
}

// `head` and `line` put seven numbers into the named fields of two structs: what is one for both would need, for each, a conversion from an array, and those write the same names.
fn head(words: &[&[u8]]) -> Result<Step, Misread>
    ensures { result ≡ headed (contents words.now) }
{
    let [facility, year, co2, ch4, n2o, sf6, captured] = numbers::<7>(words)?;
    Ok(Step::Head(HeadFields {
        facility,
        year,
        co2,
        ch4,
        n2o,
        sf6,
        captured,
    }))
}

fn line(words: &[&[u8]]) -> Result<Step, Misread>
    ensures { result ≡ lined (contents words.now) }
{
    let [kind, number, production, standard, attributed, added, ratio] = numbers::<7>(words)?;
    Ok(Step::Line(LineFields {
        kind,
        number,
        production,
        standard,
        attributed,
        added,
        ratio,
    }))
}

/// A step whose own word stands alone.
fn alone(words: &[&[u8]], step: Step) -> Result<Step, Misread>
    ensures { result ≡ lone (contents words.now) step }
{
    let [] = numbers::<0>(words)?;
    Ok(step)
}

/// The step that a word names, with the words after it.
fn named(word: &[u8], rest: &[&[u8]]) -> Result<Step, Misread>
    ensures { result ≡ named_of word.now (contents rest.now) }
{
    match word {
        b"head" => head(rest),
        b"line" => line(rest),
        b"blank" => alone(rest, Step::Blank),
        b"sign" => alone(rest, Step::Sign),
        _ => Err(Misread::UnknownStep),
    }
}

/// The step that the words of a line say: None where there are no words.
pub fn read_step(words: &[&[u8]]) -> Result<Option<Step>, Misread>
    ensures says { result ≡ step_of (contents words.now) }
    ensures means { Means (contents words.now) result }
    ensures reads { (s : Step) → Spells s (contents words.now) → result ≡ Ok (Some s) }
{
    words
        .split_first()
        .map(|(word, rest)| named(word, rest))
        .transpose()
}
