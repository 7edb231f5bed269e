//! What can be done with an engine, and what is answered.
use register::answers::Answer;
use register::calls::Call;

/// A call, or a call whose filing is the record in some bytes.
#[derive(Clone, Copy)]
pub enum Step<'a> {
    Call(Call),
    FileRecord(&'a [u8]),
    AmendRecord(&'a [u8]),
}

/// A record that was filed.
#[derive(Clone, Copy, Debug, PartialEq, Eq)]
pub struct Recorded {
    /// How many bytes it took.
    pub used: usize,
    pub version: u16,
    pub number: u64,
}

/// The answer to an accepted step.
#[derive(Clone, Copy, Debug, PartialEq, Eq)]
pub enum StepAnswer {
    Call(Answer),
    Recorded(Recorded),
}
