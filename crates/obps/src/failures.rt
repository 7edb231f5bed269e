//! Why the program ends with status 1.
use crate::records::RefusedRecord;
use std::alloc::{AllocError, AllocFailed};
use std::{fmt, io};

#[derive(Drop)]
pub enum Failure {
    NoCommand,
    UnknownCommand(String),
    Usage(&'static str),
    Arguments(io::Error),
    Unreadable(String, io::Error),
    Input(io::Error),
    Output(io::Error),
    Unwritable(String, io::Error),
    Memory,
    /// A record is longer than the room that is kept for one.
    Room,
    Refused(RefusedRecord),
    /// So many lines of a journal say no step.
    Misread(u64),
}

impl fmt::Display for Failure {
    fn fmt<W: fmt::Write>(&self, f: &mut fmt::Formatter<W>) -> fmt::Result {
        match self {
            Failure::NoCommand => write!(f, "no command; 'obps help' lists them"),
            Failure::UnknownCommand(word) => write!(
                f,
                "no command is called '{word}'; 'obps help' lists them"
            ),
            Failure::Usage(expected) => write!(f, "{expected}"),
            Failure::Arguments(error) => write!(f, "cannot read the arguments: {error}"),
            Failure::Unreadable(path, error) => write!(f, "cannot read '{path}': {error}"),
            Failure::Input(error) => write!(f, "cannot read standard input: {error}"),
            Failure::Output(error) => write!(f, "cannot write the answers: {error}"),
            Failure::Unwritable(path, error) => write!(f, "cannot write '{path}': {error}"),
            Failure::Room => write!(f, "a record is too long to be written"),
            Failure::Refused(record) => write!(f, "{record}"),
            Failure::Memory => write!(f, "out of memory"),
            Failure::Misread(1) => write!(f, "1 line was not understood"),
            Failure::Misread(lines) => write!(f, "{lines} lines were not understood"),
        }
    }
}

impl From<AllocError> for Failure {
    fn from(_error: AllocError) -> Failure {
        Failure::Memory
    }
}

impl<T: Drop> From<AllocFailed<T>> for Failure {
    fn from(_refused: AllocFailed<T>) -> Failure {
        Failure::Memory
    }
}
