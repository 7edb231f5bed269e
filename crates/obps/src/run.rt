//! A journal, performed line by line.
use crate::answers::{Misreading, Said, Summary};
use crate::failures::Failure;
use codec::record::Record;
use journal::desk::Desk;
use journal::excerpt::Excerpt;
use journal::lines::Lines;
use journal::sources::{is_hex, record_word, unhexed};
use journal::steps::read_step;
use journal::words::words;
use std::alloc::{AllocError, Global};
use std::io::{BufWriter, Write};
use std::{fmt, fs, io};

/// Why a line is not understood.
#[derive(Debug, Drop)]
pub(crate) enum NotUnderstood<'a> {
    Step(Misreading<'a>),
    FileName(Excerpt<'a>),
    File(Excerpt<'a>, io::Error),
    Hex(Excerpt<'a>),
}

impl fmt::Display for NotUnderstood<'_> {
    fn fmt<W: fmt::Write>(&self, f: &mut fmt::Formatter<W>) -> fmt::Result {
        match self {
            NotUnderstood::Step(misreading) => write!(f, "{misreading}"),
            NotUnderstood::FileName(word) => {
                write!(f, "sign\tnot understood: no file name: '{word}'")
            }
            NotUnderstood::File(word, error) => {
                write!(f, "sign\tnot understood: cannot read '{word}': {error}")
            }
            NotUnderstood::Hex(word) => {
                write!(f, "sign\tnot understood: no bytes in hexadecimal: '{word}'")
            }
        }
    }
}

/// Why a line is not answered.
#[derive(Debug, Drop)]
pub(crate) enum LineError<'a> {
    Memory,
    NotUnderstood(NotUnderstood<'a>),
}

impl<'a> From<NotUnderstood<'a>> for LineError<'a> {
    fn from(why: NotUnderstood<'a>) -> LineError<'a> {
        LineError::NotUnderstood(why)
    }
}

impl<'a> From<AllocError> for LineError<'a> {
    fn from(_error: AllocError) -> LineError<'a> {
        LineError::Memory
    }
}

/// The answer to `sign`, where the filing is the record at the front of some bytes.
fn signed(heap: Global, bytes: &[u8]) -> Result<String, AllocError> {
    match Record::read(bytes) {
        Ok(record) => format!(in heap;
            "sign\tsigned version {} bytes {} of {} {}",
            record.version,
            record.used,
            bytes.len(),
            Summary(record.signed.filing())
        ),
        Err(fault) => format!(in heap; "sign\trefused {fault}"),
    }
}

/// The answer to `sign` with a file of a record.
fn signed_file<'a>(rt: &HostRuntime, word: &'a [u8]) -> Result<String, LineError<'a>> {
    let path = std::str::from_utf8(word).map_err(|_| NotUnderstood::FileName(Excerpt(word)))?;
    let bytes = fs::read(rt, path).map_err(|error| NotUnderstood::File(Excerpt(word), error))?;
    Ok(signed(rt.alloc(), &bytes)?)
}

/// The answer to `sign` with a record in hexadecimal.
fn signed_hex<'a>(heap: Global, word: &'a [u8]) -> Result<String, LineError<'a>> {
    let bytes = unhexed(heap, word)?.ok_or(NotUnderstood::Hex(Excerpt(word)))?;
    Ok(signed(heap, &bytes)?)
}

/// What the words of a line are answered: the step's word, a tab, and the answer. None where there are no words.
fn respond<'a>(
    heap: Global,
    desk: &mut Desk,
    words: &[&'a [u8]],
) -> Result<Option<String>, LineError<'a>> {
    let asked = read_step(words)
        .map_err(|misread| Misreading::of(words, misread))
        .map_err(NotUnderstood::Step)?;
    let text = asked.map(|step| {
        let said = Said(desk.perform(step));
        format!(in heap;
            "{}\t{said}",
            Excerpt(words.first().copied().unwrap_or_default())
        )
    });
    Ok(text.transpose()?)
}

/// The answer to one line. None where the line has no words.
pub(crate) fn answer<'a>(
    rt: &HostRuntime,
    desk: &mut Desk,
    line: &'a [u8],
) -> Result<Option<String>, LineError<'a>> {
    let found = words(rt.alloc(), line)?;
    match record_word(found.as_slice()) {
        Some(word) if is_hex(word) => signed_hex(rt.alloc(), word).map(Some),
        Some(word) => signed_file(rt, word).map(Some),
        None => respond(rt.alloc(), desk, found.as_slice()),
    }
}

/// Performs a journal and prints the answer to each of its lines.
// No helper for this frame and `show`'s: its closure would hand a count here and a refusal there through the flush.
pub(crate) fn run(rt: &HostRuntime, text: &[u8]) -> Result<(), Failure> {
    let mut out = BufWriter::new(rt.alloc(), rt.stdout()).map_err(|_| Failure::Memory)?;
    let mut desk = Desk::new();
    let mut misread: u64 = 0;
    for (number, line) in (1u64..).zip(Lines::from(text)) {
        match answer(rt, &mut desk, line) {
            Ok(None) => {}
            Ok(Some(text)) => writeln!(out, "{number}\t{text}").map_err(Failure::Output)?,
            Err(LineError::NotUnderstood(why)) => {
                misread = misread.saturating_add(1);
                writeln!(out, "{number}\t{why}").map_err(Failure::Output)?;
            }
            Err(LineError::Memory) => return Err(Failure::Memory),
        }
    }
    out.flush().map_err(Failure::Output)?;
    if misread > 0 {
        return Err(Failure::Misread(misread));
    }
    Ok(())
}
