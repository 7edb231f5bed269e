//! Two methods as one.
ghost use Rattle.std.specs.Prelude.{if◌then◌else◌, nat_eq};
ghost use Rattle.limit.specs.Either.{either_same, either_vacant, either_small};

use crate::method::LimitMethod;
use crate::outcome::Outcome;
use enrolment::kinds::EnrolmentKind;
use standard::facility::FacilityYear;

/// A method for industrial facilities and one for stations.
#[derive(Drop)]
pub struct Joined<A, B> {
    pub first: A,
    pub second: B,
}

impl<A: LimitMethod, B: LimitMethod> LimitMethod for Joined<A, B> {
    ghost meaning = { λ j e ps y. (if nat_eq e.kind 1 then A.LimitMethod.meaning j.first e ps y else B.LimitMethod.meaning j.second e ps y) };

    ghost later = { λ j e ps qs y h. either_same (nat_eq e.kind 1) _ _ _ _ (A.LimitMethod.later j.first e ps qs y h) (B.LimitMethod.later j.second e ps qs y h) };

    ghost vacant = { λ j e ps y h. either_vacant (nat_eq e.kind 1) _ _ (A.LimitMethod.vacant j.first e ps y h) (B.LimitMethod.vacant j.second e ps y h) };

    ghost most = { λ j e ps y h. either_small (nat_eq e.kind 1) _ _ (A.LimitMethod.most j.first e ps y h) (B.LimitMethod.most j.second e ps y h) };

    fn outcome(&self, at: FacilityYear<'_>) -> Outcome {
        match at.enrolment.kind {
            EnrolmentKind::Industrial => self.first.outcome(at),
            EnrolmentKind::Station => self.second.outcome(at),
        }
    }
}
