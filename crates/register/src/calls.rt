//! The calls that can be made on a register.
use enrolment::fields::EnrolmentFields;
use filing::signed::Signed;

/// One of the seven calls, with its arguments.
#[derive(Clone, Copy)]
pub enum Call {
    Enrol(EnrolmentFields),
    File(Signed),
    Amend(Signed),
    // Bare numbers here and below: a caller may ask for a facility or a year that there is not.
    Withdraw { facility: u64, year: u64 },
    TakeBack,
    Close,
    LookUp { facility: u64, year: u64 },
}
