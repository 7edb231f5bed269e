//! The sample files of records, made anew and compared with the files that are shipped.
//!
//! `samples make` writes the files; without a word it compares them and prints what their records say.
#![tactic(auto)]

mod making;
#[cfg(test)]
mod tests;

use crate::making::{Sample, file, samples};
use anyhow::{anyhow, ensure};
use codec::record::{Record, Records};
use std::{env, fs};

/// Prints what each record of a file says.
fn tell(rt: &HostRuntime, bytes: &[u8]) -> anyhow::Result<()> {
    for record in Records::from(bytes) {
        let Record {
            used,
            version,
            signed,
        } = record.try_map_err(|fault| {
            println!(rt; "  refused {fault}")?;
            Ok(anyhow!("a sample record is refused"))
        })?;
        let filing = signed.filing();
        println!(rt;
            "  version {version} bytes {used} facility {} year {} total {} kg lines {}",
            filing.head().facility,
            filing.head().year,
            filing.total().kg,
            filing.count()
        )?;
    }
    Ok(())
}

fn compare(rt: &HostRuntime, sample: Sample) -> anyhow::Result<()> {
    let made = file(rt.alloc(), sample)?;
    let shipped = fs::read(rt, sample.name)?;
    ensure!(made == shipped, "a sample file is not as it is made");
    println!(rt; "{}: {} bytes, as they are made", sample.name, made.len())?;
    tell(rt, &made)
}

fn compare_all(rt: &HostRuntime) -> anyhow::Result<()> {
    let make = env::args(rt)?.nth(1).is_some();
    for sample in samples() {
        if make {
            fs::write(rt, sample.name, &file(rt.alloc(), sample)?)?;
        }
        compare(rt, sample)?;
    }
    Ok(())
}

fn main(rt: HostRuntime) -> anyhow::Result<()> {
    compare_all(&rt)
}
