//! What is answered to steps, to lines that say none, to records, and to hostile bytes.
use crate::run::{LineError, answer};
use journal::desk::Desk;
use std::test::Fail;

#[test]
fn steps_and_refusals(rt: HostRuntime) -> Result<(), Fail> {
    let mut desk = Desk::new();
    let lines: [(&[u8], &str); 10] = [
        (b"head 1 2022 1000 0 0 0 0", "head\tset"),
        (
            b"line 1 7 0 0 0 0 0",
            "line\trefused 5 range code 23 line 1",
        ),
        (b"line 4 7 0 0 0 0 0", "line\trefused 6 kind line 1"),
        (b"line 1 7 1 0 1000 0 0", "line\tline 1"),
        (b"line 1 7 1 0 0 0 0", "line\trefused 8 twice line 2"),
        (b"line 2 7 1 0 1 0 0", "line\trefused 9 attributed"),
        (
            b"head 5 2022 1000 0 0 0 0",
            "head\trefused 5 range code 1 line 0",
        ),
        (b"head 1 2022 999 0 0 0 0", "head\trefused 9 attributed"),
        (
            b"sign",
            "sign\tsigned facility 1 year 2022 total 1000 kg emissions 1 t lines 1; line 1 kind 1 number 7 production 1 standard 0 attributed 1000 added 0 ratio 0",
        ),
        (b"blank", "blank\tblank"),
    ];
    for (line, expected) in lines {
        let text = answer(&rt, &mut desk, line)?;
        assert_eq!(rt; text.as_deref().unwrap_or(""), expected);
    }
    Ok(())
}

#[test]
fn lines_that_say_no_step(rt: HostRuntime) -> Result<(), Fail> {
    let mut desk = Desk::new();
    let lines: [(&[u8], &str); 8] = [
        (b"haed 1", "haed\tnot understood: no step is called 'haed'"),
        (b"head 1", "head\tnot understood: YEAR is missing"),
        (
            b"line 1 2 x",
            "line\tnot understood: PRODUCTION is no number: 'x'",
        ),
        (
            b"line 1 2 18446744073709551616",
            "line\tnot understood: PRODUCTION is too large: '18446744073709551616'",
        ),
        (
            b"sign here now",
            "sign\tnot understood: a word too many: 'here'",
        ),
        (
            b"sign 0x4f4",
            "sign\tnot understood: no bytes in hexadecimal: '0x4f4'",
        ),
        (
            b"sign \xff.rec",
            "sign\tnot understood: no file name: '\\xff.rec'",
        ),
        (
            b"\xff\x00 1",
            "\\xff\\x00\tnot understood: no step is called '\\xff\\x00'",
        ),
    ];
    for (line, expected) in lines {
        let reply = answer(&rt, &mut desk, line);
        let Err(LineError::NotUnderstood(why)) = reply else {
            panic!(rt; "understood: {expected}");
        };
        let text = format!(in rt.alloc(); "{why}")?;
        assert_eq!(rt; text.as_str(), expected);
    }
    Ok(())
}

#[test]
fn records_and_silence(rt: HostRuntime) -> Result<(), Fail> {
    let mut desk = Desk::new();
    let lines: [(&[u8], &str); 8] = [
        (b"sign 0x4f42", "sign\trefused 1 cut length 2"),
        (b"sign 0x4f424700", "sign\trefused 2 mark"),
        (b"sign 0x4f42460004", "sign\trefused 3 version"),
        (
            b"sign 0x4f424600020b0102030405061516171a1b",
            "sign\trefused 4 schema line 6",
        ),
        (b"", ""),
        (b" \t\r", ""),
        (b"# head 1", ""),
        (b"  # \xff", ""),
    ];
    for (line, expected) in lines {
        let text = answer(&rt, &mut desk, line)?;
        assert_eq!(rt; text.as_deref().unwrap_or(""), expected);
    }
    Ok(())
}
