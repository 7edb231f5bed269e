//! Records of every version, made from their fields with no help of the codec.
use filing::fields::{HeadFields, LineFields};
use std::alloc::{AllocError, Global};

pub(crate) const INDUSTRIAL: [u8; 12] = [1, 2, 3, 4, 5, 6, 7, 21, 22, 23, 24, 25];

pub(crate) const STATION: [u8; 11] = [1, 2, 3, 4, 5, 21, 22, 23, 24, 26, 27];

pub(crate) const ENGINE: [u8; 14] = [1, 2, 3, 4, 5, 6, 7, 21, 22, 23, 24, 25, 26, 27];

/// A file of two records in one version: those of a year without lines, and of one with two.
#[derive(Clone, Copy)]
pub struct Sample {
    pub name: &'static str,
    pub version: u16,
    pub codes: &'static [u8],
    pub head: HeadFields,
    pub lines: [LineFields; 2],
}

const PLANT: HeadFields = HeadFields {
    facility: 1,
    year: 2018,
    co2: 412_000_500,
    ch4: 5_200,
    n2o: 310,
    sf6: 0,
    captured: 0,
};

const KILNS: LineFields = LineFields {
    kind: 2,
    number: 31,
    production: 351_250_000,
    standard: 0,
    attributed: 0,
    added: 0,
    ratio: 0,
};

const STEAM: LineFields = LineFields {
    kind: 1,
    number: 12,
    production: 1_204_500,
    standard: 5_200,
    ..KILNS
};

const TURBINE: LineFields = LineFields {
    kind: 3,
    number: 4,
    production: 86_400,
    added: 60,
    ratio: 750,
    ..KILNS
};

const BOILER: LineFields = LineFields {
    number: 5,
    production: 300_000,
    added: 100,
    ratio: 0,
    ..TURBINE
};

/// The shipped files.
pub(crate) fn samples() -> [Sample; 3] {
    let captured = HeadFields {
        year: 2022,
        sf6: 2,
        captured: 12_000_000,
        ..PLANT
    };
    let shared = LineFields {
        attributed: 61_000_000,
        ..STEAM
    };
    [
        Sample {
            name: "industrial.rec",
            version: 1,
            codes: &INDUSTRIAL,
            head: captured,
            lines: [KILNS, shared],
        },
        Sample {
            name: "station.rec",
            version: 2,
            codes: &STATION,
            head: HeadFields {
                facility: 3,
                ..PLANT
            },
            lines: [TURBINE, BOILER],
        },
        Sample {
            name: "engine.rec",
            version: 3,
            codes: &ENGINE,
            head: captured,
            lines: [shared, TURBINE],
        },
    ]
}

// The codes stand here once more, as samples are made with no help of the codec.

/// The field of a head that a code names.
fn head_value(head: &HeadFields, code: u8) -> Option<u64> {
    match code {
        1 => Some(head.facility),
        2 => Some(head.year),
        3 => Some(head.co2),
        4 => Some(head.ch4),
        5 => Some(head.n2o),
        6 => Some(head.sf6),
        7 => Some(head.captured),
        _ => None,
    }
}

/// The field of a line that a code names.
fn line_value(line: &LineFields, code: u8) -> Option<u64> {
    match code {
        21 => Some(line.kind),
        22 => Some(line.number),
        23 => Some(line.production),
        24 => Some(line.standard),
        25 => Some(line.attributed),
        26 => Some(line.added),
        27 => Some(line.ratio),
        _ => None,
    }
}

/// Appends the value of each code that names one, its most significant byte first.
fn put<F: Fn(u8) -> Option<u64>>(
    all: &mut Vec<u8>,
    codes: &[u8],
    value: F,
) -> Result<(), AllocError>
    requires { F.IsAlwaysCallable value }
{
    for code in codes {
        if let Some(number) = value(*code) {
            all.extend_from_slice(&number.to_be_bytes())?;
        }
    }
    Ok(())
}

/// Appends the record of a sample's head and of some lines.
fn put_record(all: &mut Vec<u8>, sample: &Sample, lines: &[LineFields]) -> Result<(), AllocError> {
    let codes = sample.codes;
    all.extend_from_slice(b"OBF")?;
    all.extend_from_slice(&sample.version.to_be_bytes())?;
    all.push((codes.len() & 0xff) as u8)?;
    all.extend_from_slice(codes)?;
    put(all, codes, |code| head_value(&sample.head, code))?;
    all.push((lines.len() & 0xff) as u8)?;
    for line in lines {
        put(all, codes, |code| line_value(line, code))?;
    }
    Ok(())
}

/// The record with both lines.
pub(crate) fn record(heap: Global, sample: Sample) -> Result<Vec<u8>, AllocError> {
    let mut all = Vec::new(heap);
    put_record(&mut all, &sample, &sample.lines)?;
    Ok(all)
}

/// The record without lines, and after it the one with both.
pub(crate) fn file(heap: Global, sample: Sample) -> Result<Vec<u8>, AllocError> {
    let mut all = Vec::new(heap);
    put_record(&mut all, &sample, &[])?;
    put_record(&mut all, &sample, &sample.lines)?;
    Ok(all)
}
