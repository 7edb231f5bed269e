//! Every edge of every range, both sides, and the order of the checks.
use crate::draft::Draft;
use crate::faults::FilingFault;
use crate::fields::{HeadFields, LineFields};
use std::test::Fail;

const HEAD: HeadFields = HeadFields {
    facility: 2,
    year: 2022,
    co2: 1_000,
    ch4: 0,
    n2o: 0,
    sf6: 0,
    captured: 0,
};

const LINE: LineFields = LineFields {
    kind: 1,
    number: 1,
    production: 1,
    standard: 0,
    attributed: 0,
    added: 0,
    ratio: 0,
};

// By a write and not by `..`: the code chooses the field, and a literal for each would be three lines where one is.
fn head_with(code: usize, value: u64) -> HeadFields {
    let mut head = HEAD;
    match code {
        1 => head.facility = value,
        2 => head.year = value,
        3 => head.co2 = value,
        4 => head.ch4 = value,
        5 => head.n2o = value,
        6 => head.sf6 = value,
        _ => head.captured = value,
    }
    head
}

// By a write, as for a head.
fn line_with(kind: u64, code: usize, value: u64) -> LineFields {
    let mut line = LineFields { kind, ..LINE };
    match code {
        22 => line.number = value,
        23 => line.production = value,
        24 => line.standard = value,
        25 => line.attributed = value,
        26 => line.added = value,
        _ => line.ratio = value,
    }
    line
}

fn head_refusal(fields: HeadFields) -> Option<FilingFault> {
    Draft::blank().set_head(fields).err()
}

/// A draft whose total is the largest that there is.
fn largest() -> Result<Draft, FilingFault> {
    let mut draft = Draft::blank();
    draft.set_head(HeadFields {
        facility: 4,
        year: 2036,
        co2: 100_000_000_000,
        ch4: 1_000_000_000,
        n2o: 100_000_000,
        sf6: 1_000_000,
        captured: 0,
    })?;
    Ok(draft)
}

fn line_refusal(fields: LineFields) -> Option<FilingFault> {
    largest().and_then(|mut draft| draft.add_line(fields)).err()
}

/// Values on both sides of both ends of a range, and whether each is within. Below 0 comes the largest of all.
fn edges(least: u64, most: u64) -> [(u64, bool); 5] {
    [
        (least, true),
        (most, true),
        (most.saturating_add(1), false),
        (u64::MAX, false),
        (least.wrapping_sub(1), false),
    ]
}

#[test]
fn head_edges(rt: HostRuntime) {
    let ranges = [
        (1, 1, 4),
        (2, 2017, 2036),
        (3, 0, 100_000_000_000),
        (4, 0, 1_000_000_000),
        (5, 0, 100_000_000),
        (6, 0, 1_000_000),
        (7, 0, 1_000),
    ];
    for (code, least, most) in ranges {
        let fault = FilingFault::Range { code, line: 0 };
        for (value, within) in edges(least, most) {
            let refused = (!within).then_some(fault);
            assert_eq!(rt; head_refusal(head_with(code, value)), refused);
        }
    }
}

#[test]
fn line_edges(rt: HostRuntime) {
    let ranges = [
        (1, 22, 0, 65_535),
        (1, 23, 1, 100_000_000_000),
        (1, 24, 0, 10_000_000),
        (1, 26, 0, 0),
        (1, 27, 0, 0),
        (2, 22, 0, 65_535),
        (2, 23, 1, 100_000_000_000),
        (2, 24, 0, 0),
        (2, 26, 0, 0),
        (2, 27, 0, 0),
        (3, 22, 0, 65_535),
        (3, 23, 0, 100_000_000),
        (3, 24, 0, 0),
        (3, 26, 0, 1_000),
        (3, 27, 0, 10_000),
    ];
    for (kind, code, least, most) in ranges {
        let fault = FilingFault::Range { code, line: 1 };
        for (value, within) in edges(least, most) {
            let refused = (!within).then_some(fault);
            assert_eq!(rt; line_refusal(line_with(kind, code, value)), refused);
        }
    }
}

/// The attributed kilograms may be as many as the total, which is below the field's own range.
#[test]
fn attributed_edges(rt: HostRuntime) {
    for kind in 1..4 {
        assert_eq!(rt; line_refusal(line_with(kind, 25, 177_600_000_000)), None);
        assert_eq!(rt;
            line_refusal(line_with(kind, 25, 177_600_000_001)),
            Some(FilingFault::Attributed)
        );
        assert_eq!(rt;
            line_refusal(line_with(kind, 25, 200_000_000_000)),
            Some(FilingFault::Attributed)
        );
        let refused = Some(FilingFault::Range { code: 25, line: 1 });
        assert_eq!(rt; line_refusal(line_with(kind, 25, 200_000_000_001)), refused);
    }
    assert_eq!(rt;
        line_refusal(line_with(0, 22, 1)),
        Some(FilingFault::Kind { line: 1 })
    );
    assert_eq!(rt;
        line_refusal(line_with(4, 22, 1)),
        Some(FilingFault::Kind { line: 1 })
    );
    assert_eq!(rt;
        line_refusal(line_with(u64::MAX, 22, 1)),
        Some(FilingFault::Kind { line: 1 })
    );
}

/// Where several checks would refuse, the first in their order does.
#[test]
fn order_of_checks(rt: HostRuntime) -> Result<(), Fail> {
    let mut draft = largest()?;
    let first = line_with(1, 25, 177_600_000_000);
    assert_eq!(rt; draft.add_line(first), Ok(1));
    let other = LineFields {
        kind: 9,
        ..line_with(1, 24, 10_000_001)
    };
    assert_eq!(rt; draft.add_line(other), Err(FilingFault::Kind { line: 2 }));
    let second = LineFields {
        attributed: 1,
        ..LINE
    };
    let outside = LineFields {
        production: 0,
        standard: 10_000_001,
        ..second
    };
    assert_eq!(rt;
        draft.add_line(outside),
        Err(FilingFault::Range { code: 23, line: 2 })
    );
    assert_eq!(rt; draft.add_line(second), Err(FilingFault::Twice { line: 2 }));
    let above = LineFields { kind: 2, ..second };
    assert_eq!(rt; draft.add_line(above), Err(FilingFault::Attributed));
    let within = LineFields { kind: 2, ..LINE };
    assert_eq!(rt; draft.add_line(within), Ok(2));
    let range = head_with(6, 1_000_001);
    assert_eq!(rt;
        draft.set_head(range),
        Err(FilingFault::Range { code: 6, line: 0 })
    );
    assert_eq!(rt; draft.set_head(HEAD), Err(FilingFault::Attributed));
    for number in 3..7 {
        assert!(rt; draft.add_line(line_with(1, 22, number)).is_ok());
    }
    assert_eq!(rt; draft.add_line(other), Err(FilingFault::Lines));
    let signed = draft.sign();
    assert_eq!(rt; signed.filing().count(), 6);
    assert_eq!(rt; signed.filing().total().kg, 177_600_000_000);
    assert_eq!(rt; signed.filing().emissions().tonnes, 177_600_000);
    assert_eq!(rt; signed.filing().attributed().kg, 177_600_000_000);
    Ok(())
}
