//! Files of records: shown, and written anew in the engine's version.
use crate::answers::Summary;
use crate::failures::Failure;
use codec::faults::ReadFault;
use codec::record::{Record, Records};
use codec::writer::write;
use filing::fields::HeadFields;
use filing::signed::Signed;
use std::alloc::Global;
use std::io::{BufWriter, Write};
use std::{fmt, fs};

/// More bytes than any record has.
const ROOM: usize = 512;

/// A record of a file: where it begins, and what it says.
#[derive(Clone, Copy)]
struct Placed {
    offset: usize,
    record: Record,
}

impl fmt::Display for Placed {
    fn fmt<W: fmt::Write>(&self, f: &mut fmt::Formatter<W>) -> fmt::Result {
        let Placed { offset, record } = *self;
        let Record {
            used,
            version,
            signed,
        } = record;
        let filing = signed.filing();
        let HeadFields {
            co2,
            ch4,
            n2o,
            sf6,
            captured,
            ..
        } = HeadFields::from(filing.head());
        write!(
            f,
            "offset {offset} version {version} bytes {used} co2 {co2} ch4 {ch4} n2o {n2o} sf6 {sf6} captured {captured} {}",
            Summary(filing)
        )
    }
}

/// A record that is refused: where it begins, and why, and the layer that refuses it.
#[derive(Clone, Copy, Debug, PartialEq, Eq)]
pub struct RefusedRecord {
    pub offset: usize,
    pub fault: ReadFault,
}

impl fmt::Display for RefusedRecord {
    fn fmt<W: fmt::Write>(&self, f: &mut fmt::Formatter<W>) -> fmt::Result {
        let RefusedRecord { offset, fault } = *self;
        let layer = match fault {
            ReadFault::Filing(_) => "filing",
            _ => "reader",
        };
        write!(f, "offset {offset} refused {fault} layer {layer}")
    }
}

/// A record with where it begins; the next begins where it ends.
fn with_offset(
    next: &mut usize,
    record: Result<Record, ReadFault>,
) -> Option<Result<Placed, RefusedRecord>> {
    let offset = *next;
    Some(match record {
        Ok(record) => {
            *next = offset.saturating_add(record.used);
            Ok(Placed { offset, record })
        }
        Err(fault) => Err(RefusedRecord { offset, fault }),
    })
}

/// Prints each record from the front, up to the end or to the first that is refused.
pub(crate) fn show(rt: &HostRuntime, bytes: &[u8]) -> Result<(), Failure> {
    let mut out = BufWriter::new(rt.alloc(), rt.stdout()).map_err(|_| Failure::Memory)?;
    for record in Records::from(bytes).scan(0, with_offset) {
        match record {
            Ok(record) => writeln!(out, "{record}").map_err(Failure::Output)?,
            Err(refused) => {
                writeln!(out, "{refused}").map_err(Failure::Output)?;
                out.flush().map_err(Failure::Output)?;
                return Err(Failure::Refused(refused));
            }
        }
    }
    out.flush().map_err(Failure::Output)
}

/// The records of a file one after another in the engine's version, or the first refusal.
pub(crate) fn upgraded(heap: Global, bytes: &[u8]) -> Result<Vec<u8>, Failure> {
    let mut all = Vec::new(heap);
    let mut offset: usize = 0;
    // No `scan` by `with_offset`, as in `show`, and no `?`: each would copy every record once more.
    for record in Records::from(bytes) {
        match &record {
            Ok(record) => {
                append(&mut all, &record.signed)?;
                offset = offset.saturating_add(record.used);
            }
            Err(fault) => {
                return Err(Failure::Refused(RefusedRecord {
                    offset,
                    fault: *fault,
                }));
            }
        }
    }
    Ok(all)
}

/// Appends the record of a filing.
fn append(all: &mut Vec<u8>, signed: &Signed) -> Result<(), Failure> {
    // The codec's `write` fills a buffer of its caller's, and takes no memory of its own.
    let mut buffer = [0u8; ROOM];
    let length = write(signed, &mut buffer).map_err(|_| Failure::Room)?;
    Ok(all.extend_from_slice(&buffer[..length])?)
}

/// Puts bytes into a file, by way of a new file beside it, so that the old one stays whole until the new one is.
pub(crate) fn replace(rt: &HostRuntime, path: &str, bytes: &[u8]) -> Result<(), Failure> {
    let beside = format!(in rt.alloc(); "{path}.new")?;
    // A closure for `map_err` would take the name, which `rename` still needs.
    if let Err(error) = fs::write(rt, beside.as_str(), bytes) {
        return Err(Failure::Unwritable(beside, error));
    }
    fs::rename(rt, beside.as_str(), path).try_map_err(|error| {
        Ok(Failure::Unwritable(String::from_str(rt.alloc(), path)?, error))
    })
}
