//! Tables of calls and what they are answered.
use enrolment::fields::EnrolmentFields;
use filing::draft::Draft;
use filing::faults::FilingFault;
use filing::fields::{HeadFields, LineFields};
use filing::signed::Signed;
use limit::joined::Joined;
use limit::methods::{Industrial, Station};
use limit::outcome::{NoLimit, Outcome};
use register::answers::Answer;
use register::calls::Call;
use register::perform::run;
use register::refusals::Refusal;
use register::table::Register;
use standard::causes::Cause;
use std::alloc::Global;
use std::process::Abort;
use std::test::Fail;

const METHOD: Joined<Industrial, Station> = Joined {
    first: Industrial,
    second: Station,
};

/// Facility 1.
const STATION: EnrolmentFields = EnrolmentFields {
    facility: 1,
    kind: 2,
    year: 2010,
    day: 1,
    choice: 1,
    factor: 100,
};

/// Facility 2.
const MILL: EnrolmentFields = EnrolmentFields {
    facility: 2,
    kind: 1,
    year: 2000,
    day: 1,
    choice: 2,
    factor: 100,
};

/// Of no kind that there is.
const ODD: EnrolmentFields = EnrolmentFields { kind: 3, ..STATION };

/// Beyond the last facility.
const FAR: EnrolmentFields = EnrolmentFields {
    facility: 5,
    ..STATION
};

fn line(kind: u64, number: u64, production: u64) -> LineFields {
    LineFields {
        kind,
        number,
        production,
        standard: 0,
        attributed: 0,
        added: 0,
        ratio: 0,
    }
}

fn unit(number: u64, production: u64, added: u64, ratio: u64) -> LineFields {
    LineFields {
        added,
        ratio,
        ..line(3, number, production)
    }
}

fn signed(facility: u64, year: u64, co2: u64, lines: &[LineFields]) -> Result<Signed, FilingFault> {
    let mut draft = Draft::blank();
    draft.set_head(HeadFields {
        facility,
        year,
        co2,
        ch4: 0,
        n2o: 0,
        sf6: 0,
        captured: 0,
    })?;
    for &line in lines {
        let _ = draft.add_line(line)?;
    }
    Ok(draft.sign())
}

/// A year of the station with one unit.
fn station_year(year: u64, production: u64, added: u64, ratio: u64) -> Result<Signed, FilingFault> {
    signed(1, year, 0, &[unit(1, production, added, ratio)])
}

fn mill_year(year: u64, co2: u64) -> Result<Signed, FilingFault> {
    signed(2, year, co2, &[line(2, 7, 1_000_000)])
}

fn at(facility: u64, year: u64) -> Call {
    Call::LookUp { facility, year }
}

fn withdraw(facility: u64, year: u64) -> Call {
    Call::Withdraw { facility, year }
}

/// What an accepted call is answered, the number of an assessment last.
#[derive(Clone, Copy, Debug, PartialEq)]
enum Told {
    Enrolled,
    Number(u64),
    Closed,
    Limit(u64, u64),
    Unlimited(NoLimit, u64),
    Fault(Cause, usize, u64),
}

use Told::{Closed, Enrolled, Fault, Limit, Number, Unlimited};

impl From<Answer> for Told {
    fn from(answer: Answer) -> Told {
        match answer {
            Answer::Enrolled => Enrolled,
            Answer::Number(number) => Number(number),
            Answer::Closed => Closed,
            Answer::Assessed(assessment) => match assessment.outcome {
                Outcome::Limit(limit) => Limit(limit.tonnes, assessment.number),
                Outcome::NoLimit(cause) => Unlimited(cause, assessment.number),
                Outcome::Fault { cause, line } => Fault(cause, line, assessment.number),
            },
        }
    }
}

type Seen = Result<Told, Refusal>;

fn tell(answer: Result<Answer, Refusal>) -> Seen {
    answer.map(Told::from)
}

type Table = Register<Joined<Industrial, Station>>;

/// A register that a test performs calls on.
#[derive(Drop)]
struct History<'a, R> {
    rt: &'a R,
    heap: Global,
    register: Table,
}

impl<'a, R: Abort> History<'a, R> {
    /// A new register with these calls, each answered as the table says.
    fn new(rt: &'a R, heap: Global, table: &[(Call, Seen)]) -> Result<Self, Fail> {
        let calls: Vec<Call> = table.iter().map(|(call, _)| *call).collect(heap)?;
        let (register, answers) = run(heap, METHOD, &calls)?;
        assert_eq!(rt; answers.len(), table.len());
        for (i, (&answer, &(_, expected))) in answers.iter().zip(table).enumerate() {
            assert_eq!(rt; tell(answer), expected, "row {i}");
        }
        Ok(History { rt, heap, register })
    }

    /// The history goes on.
    fn then(&mut self, table: &[(Call, Seen)]) {
        for (i, &(call, expected)) in table.iter().enumerate() {
            assert_eq!(self.rt; tell(self.register.perform(call)), expected, "row {i}");
        }
    }

    /// All look-ups of all facilities.
    fn view(&mut self) -> Result<Vec<Seen>, Fail> {
        let mut seen = Vec::new(self.heap);
        for facility in 1..=4 {
            for year in 2017..=2036 {
                seen.push(tell(self.register.perform(at(facility, year))))?;
            }
        }
        Ok(seen)
    }

    /// Each call is refused as the table says, and no look-up changes.
    fn refuses(&mut self, table: &[(Call, Refusal)]) -> Result<(), Fail> {
        let before = self.view()?;
        for (i, &(call, refusal)) in table.iter().enumerate() {
            assert_eq!(self.rt; tell(self.register.perform(call)), Err(refusal), "row {i}");
            let after = self.view()?;
            assert!(self.rt; after.as_slice() == before.as_slice(), "row {i}");
        }
        Ok(())
    }

    /// The same call many times.
    fn repeat(&mut self, call: Call, times: u64) {
        for _ in 0..times {
            let _ = self.register.perform(call);
        }
    }
}

/// The station is enrolled and files.
fn opening(filing: Signed) -> [(Call, Seen); 2] {
    [
        (Call::Enrol(STATION), Ok(Enrolled)),
        (Call::File(filing), Ok(Number(1))),
    ]
}

/// The numbers of the refusals and causes that the tables name.
#[test]
fn numbers(rt: HostRuntime) {
    assert_eq!(rt; Refusal::Unknown.number(), 11);
    assert_eq!(rt; Refusal::Enrolled.number(), 12);
    assert_eq!(rt; Refusal::Enrolment.number(), 13);
    assert_eq!(rt; Refusal::Stands.number(), 14);
    assert_eq!(rt; Refusal::Vacant.number(), 15);
    assert_eq!(rt; Refusal::Book.number(), 16);
    assert_eq!(rt; Refusal::Bare.number(), 17);
    assert_eq!(rt; Refusal::Spent.number(), 18);
    assert_eq!(rt; Cause::Capacity.number(), 34);
    assert_eq!(rt; NoLimit::Early.number(), 41);
}

#[test]
fn history_of_the_station(rt: HostRuntime) -> Result<(), Fail> {
    let table = [
        (Call::Enrol(STATION), Ok(Enrolled)),
        (Call::File(station_year(2018, 0, 100, 0)?), Ok(Number(1))),
        (
            Call::File(station_year(2022, 300_000, 50, 899)?),
            Ok(Number(2)),
        ),
        (
            Call::File(station_year(2023, 300_000, 0, 0)?),
            Ok(Number(3)),
        ),
        (at(1, 2018), Ok(Unlimited(NoLimit::Early, 1))),
        (at(1, 2022), Ok(Limit(106_900, 2))),
        (at(1, 2023), Ok(Limit(102_800, 3))),
        (withdraw(1, 2018), Ok(Number(4))),
        (at(1, 2018), Err(Refusal::Vacant)),
        (at(1, 2022), Ok(Limit(98_700, 4))),
        (at(1, 2023), Ok(Limit(86_400, 4))),
        (Call::TakeBack, Ok(Number(5))),
        (at(1, 2018), Ok(Unlimited(NoLimit::Early, 5))),
        (at(1, 2022), Ok(Limit(106_900, 5))),
        (at(1, 2023), Ok(Limit(102_800, 5))),
        (withdraw(1, 2018), Ok(Number(6))),
        (withdraw(1, 2022), Ok(Number(7))),
        (at(1, 2023), Ok(Fault(Cause::Capacity, 1, 7))),
    ];
    let _ = History::new(&rt, rt.alloc(), &table)?;
    Ok(())
}

/// A take-back after later years were filed brings back their figures too.
#[test]
fn early_year_filed_late(rt: HostRuntime) -> Result<(), Fail> {
    let table = [
        (Call::Enrol(STATION), Ok(Enrolled)),
        (
            Call::File(station_year(2022, 300_000, 50, 899)?),
            Ok(Number(1)),
        ),
        (
            Call::File(station_year(2023, 300_000, 0, 0)?),
            Ok(Number(2)),
        ),
        (at(1, 2022), Ok(Limit(98_700, 1))),
        (at(1, 2023), Ok(Limit(86_400, 2))),
        (Call::File(station_year(2018, 0, 100, 0)?), Ok(Number(3))),
        (at(1, 2018), Ok(Unlimited(NoLimit::Early, 3))),
        (at(1, 2022), Ok(Limit(106_900, 3))),
        (at(1, 2023), Ok(Limit(102_800, 3))),
        (Call::TakeBack, Ok(Number(4))),
        (at(1, 2018), Err(Refusal::Vacant)),
        (at(1, 2022), Ok(Limit(98_700, 4))),
        (at(1, 2023), Ok(Limit(86_400, 4))),
    ];
    let _ = History::new(&rt, rt.alloc(), &table)?;
    Ok(())
}

#[test]
fn base_year_withdrawn(rt: HostRuntime) -> Result<(), Fail> {
    let table = [
        (Call::Enrol(MILL), Ok(Enrolled)),
        (Call::File(mill_year(2019, 2_000_000)?), Ok(Number(1))),
        (Call::File(mill_year(2020, 3_000_000)?), Ok(Number(2))),
        (Call::File(mill_year(2021, 4_000_000)?), Ok(Number(3))),
        (at(2, 2019), Ok(Limit(2_000, 1))),
        (at(2, 2020), Ok(Limit(2_000, 2))),
        (at(2, 2021), Ok(Limit(2_000, 3))),
        (withdraw(2, 2019), Ok(Number(4))),
        (at(2, 2019), Err(Refusal::Vacant)),
        (at(2, 2020), Ok(Limit(3_000, 4))),
        (at(2, 2021), Ok(Limit(3_000, 4))),
    ];
    let history = History::new(&rt, rt.alloc(), &table)?;
    let assessment = history.register.look_up(2, 2021)?;
    assert_eq!(rt; assessment.emissions.tonnes, 4_000);
    assert_eq!(rt; assessment.balance, -1_000);
    Ok(())
}

/// With each share rounded before the product, the limit would be a tonne more.
#[test]
fn shares_kept_exact(rt: HostRuntime) -> Result<(), Fail> {
    let diesel = LineFields {
        standard: 5_500_000,
        ..line(1, 1, 600_000)
    };
    let grown = [diesel, unit(3, 200_000, 80, 800), unit(2, 500_000, 60, 750)];
    let table = [
        (Call::Enrol(STATION), Ok(Enrolled)),
        (
            Call::File(signed(1, 2018, 0, &[unit(2, 0, 160, 0)])?),
            Ok(Number(1)),
        ),
        (Call::File(signed(1, 2022, 0, &grown)?), Ok(Number(2))),
        (at(1, 2022), Ok(Limit(575_209, 2))),
    ];
    let _ = History::new(&rt, rt.alloc(), &table)?;
    Ok(())
}

#[test]
fn undo_log_filled(rt: HostRuntime) -> Result<(), Fail> {
    let heap = rt.alloc();
    let filing = station_year(2017, 0, 100, 0)?;
    let amend = Call::Amend(filing);
    let mut history = History::new(&rt, heap, &opening(filing))?;
    history.repeat(amend, 30);
    let table = [
        (amend, Ok(Number(32))),
        (amend, Err(Refusal::Book)),
        (Call::TakeBack, Ok(Number(33))),
        (amend, Ok(Number(34))),
        (amend, Err(Refusal::Book)),
        (Call::Close, Ok(Closed)),
        (Call::TakeBack, Err(Refusal::Bare)),
        (amend, Ok(Number(35))),
        (Call::TakeBack, Ok(Number(36))),
        (Call::TakeBack, Err(Refusal::Bare)),
    ];
    history.then(&table);
    history.repeat(amend, 31);
    history.then(&[(amend, Ok(Number(68))), (amend, Err(Refusal::Book))]);
    Ok(())
}

/// The station's filing stands, the number 999,998 is used, and the log holds thirty acts.
fn nearly_spent<'a, R: Abort>(
    rt: &'a R,
    heap: Global,
    filing: Signed,
) -> Result<History<'a, R>, Fail> {
    let amend = Call::Amend(filing);
    let mut history = History::new(rt, heap, &opening(filing))?;
    for _ in 0..33_332 {
        history.repeat(amend, 30);
        history.repeat(Call::Close, 1);
    }
    history.repeat(amend, 7);
    history.repeat(Call::Close, 1);
    history.repeat(amend, 30);
    Ok(history)
}

/// The log is full when the last number is used.
#[test]
fn last_number(rt: HostRuntime) -> Result<(), Fail> {
    let heap = rt.alloc();
    let filing = station_year(2036, 0, 100, 0)?;
    let other = station_year(2035, 0, 100, 0)?;
    let amend = Call::Amend(filing);
    let mut history = nearly_spent(&rt, heap, filing)?;
    let last = [
        (at(1, 2036), Ok(Limit(0, 999_998))),
        (amend, Ok(Number(999_999))),
        (amend, Ok(Number(1_000_000))),
    ];
    history.then(&last);
    let full = [
        (Call::File(filing), Refusal::Stands),
        (Call::File(other), Refusal::Book),
        (amend, Refusal::Book),
        (withdraw(1, 2036), Refusal::Book),
        (Call::TakeBack, Refusal::Spent),
    ];
    history.refuses(&full)?;
    history.then(&[(Call::Close, Ok(Closed))]);
    let spent = [
        (Call::File(filing), Refusal::Stands),
        (Call::File(other), Refusal::Spent),
        (Call::Amend(other), Refusal::Vacant),
        (amend, Refusal::Spent),
        (withdraw(1, 2036), Refusal::Spent),
        (Call::TakeBack, Refusal::Bare),
    ];
    history.refuses(&spent)?;
    let after = [
        (at(1, 2036), Ok(Limit(0, 1_000_000))),
        (Call::Enrol(MILL), Ok(Enrolled)),
        (Call::Close, Ok(Closed)),
    ];
    history.then(&after);
    Ok(())
}

/// Refused before a facility is enrolled.
fn refused_at_first(filing: Signed) -> [(Call, Refusal); 11] {
    [
        (Call::File(filing), Refusal::Unknown),
        (Call::Amend(filing), Refusal::Unknown),
        (withdraw(1, 2022), Refusal::Unknown),
        (withdraw(0, 2022), Refusal::Unknown),
        (withdraw(5, 2037), Refusal::Unknown),
        (at(1, 2022), Refusal::Unknown),
        (at(1, 2016), Refusal::Unknown),
        (at(u64::MAX, 2022), Refusal::Unknown),
        (Call::TakeBack, Refusal::Bare),
        (Call::Enrol(ODD), Refusal::Enrolment),
        (Call::Enrol(FAR), Refusal::Enrolment),
    ]
}

/// Refused while the filing stands alone.
fn refused_after_one(filing: Signed, next: Signed, mill: Signed) -> [(Call, Refusal); 13] {
    [
        (Call::Enrol(STATION), Refusal::Enrolled),
        (Call::Enrol(ODD), Refusal::Enrolment),
        (Call::File(filing), Refusal::Stands),
        (Call::File(mill), Refusal::Unknown),
        (Call::Amend(mill), Refusal::Unknown),
        (Call::Amend(next), Refusal::Vacant),
        (withdraw(1, 2023), Refusal::Vacant),
        (withdraw(1, 2016), Refusal::Vacant),
        (withdraw(1, 2037), Refusal::Vacant),
        (at(1, 2023), Refusal::Vacant),
        (at(1, 2016), Refusal::Vacant),
        (at(1, 2037), Refusal::Vacant),
        (at(1, u64::MAX), Refusal::Vacant),
    ]
}

/// Refused when the log is full.
fn refused_when_full(filing: Signed, next: Signed, mill: Signed) -> [(Call, Refusal); 7] {
    [
        (Call::File(filing), Refusal::Stands),
        (Call::File(next), Refusal::Book),
        (Call::File(mill), Refusal::Unknown),
        (Call::Amend(filing), Refusal::Book),
        (Call::Amend(next), Refusal::Vacant),
        (withdraw(1, 2022), Refusal::Book),
        (withdraw(1, 2023), Refusal::Vacant),
    ]
}

/// Where two checks would refuse, the first in their order does.
#[test]
fn refusals_in_order(rt: HostRuntime) -> Result<(), Fail> {
    let heap = rt.alloc();
    let filing = station_year(2022, 300_000, 50, 899)?;
    let next = station_year(2023, 300_000, 0, 0)?;
    let mill = mill_year(2019, 2_000_000)?;
    let mut history = History::new(&rt, heap, &[])?;
    history.refuses(&refused_at_first(filing))?;
    history.then(&opening(filing));
    let standing = refused_after_one(filing, next, mill);
    history.refuses(&standing)?;
    history.repeat(Call::Amend(filing), 30);
    history.then(&[(Call::Amend(filing), Ok(Number(32)))]);
    let full = refused_when_full(filing, next, mill);
    history.refuses(&full)?;
    let closing = [
        (Call::Enrol(MILL), Ok(Enrolled)),
        (Call::TakeBack, Ok(Number(33))),
        (Call::File(mill), Ok(Number(34))),
        (at(1, 2022), Ok(Limit(98_700, 33))),
        (at(2, 2019), Ok(Limit(2_000, 34))),
        (Call::Close, Ok(Closed)),
    ];
    history.then(&closing);
    history.refuses(&[(Call::TakeBack, Refusal::Bare)])
}
