//! The program: its commands, its files, and what it prints.
#![tactic(auto)]

mod answers;
mod failures;
mod help;
mod records;
mod run;
#[cfg(test)]
mod tests;

use crate::failures::Failure;
use std::io::Read;
use std::process::ExitCode;
use std::{env, fs};

/// The words after the program's own name.
fn arguments(rt: &HostRuntime) -> Result<Vec<String>, Failure> {
    let all = env::args(rt).map_err(Failure::Arguments)?;
    Ok(all.skip(1).collect(rt.alloc())?)
}

fn file(rt: &HostRuntime, path: &str) -> Result<Vec<u8>, Failure> {
    fs::read(rt, path).try_map_err(|error| {
        Ok(Failure::Unreadable(String::from_str(rt.alloc(), path)?, error))
    })
}

fn standard_input(rt: &HostRuntime) -> Result<Vec<u8>, Failure> {
    let mut bytes = Vec::new(rt.alloc());
    rt.stdin().read_to_end(&mut bytes).map_err(Failure::Input)?;
    Ok(bytes)
}

fn obey(rt: &HostRuntime) -> Result<(), Failure> {
    let words = arguments(rt)?;
    let (command, operands) = words.split_first().ok_or(Failure::NoCommand)?;
    match (command.as_str(), operands) {
        ("run", []) => run::run(rt, &standard_input(rt)?),
        ("run", [path]) => run::run(rt, &file(rt, path)?),
        ("run", _) => Err(Failure::Usage("obps run takes one JOURNAL, or none")),
        ("show", [path]) => records::show(rt, &file(rt, path)?),
        ("show", _) => Err(Failure::Usage("obps show takes one FILE of records")),
        ("upgrade", [from, to]) => {
            let all = records::upgraded(rt.alloc(), &file(rt, from)?)?;
            records::replace(rt, to, &all)
        }
        ("upgrade", _) => Err(Failure::Usage(
            "obps upgrade takes a FILE of records and the file OUT to write",
        )),
        ("help", _) => help::help(rt),
        (other, _) => Err(Failure::UnknownCommand(String::from_str(rt.alloc(), other)?)),
    }
}

fn main(rt: HostRuntime) -> ExitCode {
    match obey(&rt) {
        Ok(()) => ExitCode::SUCCESS,
        Err(failure) => {
            let _ = eprintln!(rt; "obps: {failure}");
            ExitCode::FAILURE
        }
    }
}
