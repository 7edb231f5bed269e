use crate::excerpt::Excerpt;
use crate::lines::first_line;
use crate::numbers::{NumberFault, decimal};
use crate::sources::{is_hex, record_word, unhexed};
use crate::steps::{Misread, Step, read_step};
use crate::words::words;
use filing::fields::{HeadFields, LineFields};
use std::test::Fail;

#[test]
fn texts(rt: HostRuntime) -> Result<(), Fail> {
    let (line, rest) = first_line(b"a b\nc");
    assert!(rt; line == b"a b".as_slice() && rest == b"c".as_slice());
    let lines: [(&'static [u8], &'static [&'static [u8]]); 6] = [
        (b"head 1\t 2", &[b"head", b"1", b"2"]),
        (b" \t \r", &[]),
        (b"sign\r", &[b"sign"]),
        (b"a#b c", &[b"a"]),
        (b"# all", &[]),
        (b"\xff\x80 x", &[b"\xff\x80", b"x"]),
    ];
    for (line, expected) in lines {
        let found = words(rt.alloc(), line)?;
        assert!(rt; found.as_slice() == expected, "words");
    }
    let shown = format!(in rt.alloc(); "{}", Excerpt(b"a \xe9\x00"))?;
    assert_eq!(rt; shown.as_str(), "a \\xe9\\x00");
    Ok(())
}

#[test]
fn numerals(rt: HostRuntime) {
    let words: [(&[u8], Result<u64, NumberFault>); 8] = [
        (b"0", Ok(0)),
        (b"007", Ok(7)),
        (b"18446744073709551615", Ok(u64::MAX)),
        (b"18446744073709551616", Err(NumberFault::TooLarge)),
        (b"", Err(NumberFault::NoNumber)),
        (b"1x", Err(NumberFault::NoNumber)),
        (b"+1", Err(NumberFault::NoNumber)),
        (b"18446744073709551616x", Err(NumberFault::NoNumber)),
    ];
    for (word, expected) in words {
        assert_eq!(rt; decimal(word), expected);
    }
}

#[test]
fn steps(rt: HostRuntime) -> Result<(), Fail> {
    let head = HeadFields {
        facility: 1,
        year: 2,
        co2: 3,
        ch4: 4,
        n2o: 5,
        sf6: 6,
        captured: 7,
    };
    let line = LineFields {
        kind: 1,
        number: 2,
        production: 3,
        standard: 4,
        attributed: 5,
        added: 6,
        ratio: 7,
    };
    let lines: [(&[u8], Result<Option<Step>, Misread>); 10] = [
        (b"", Ok(None)),
        (b"head 1 2 3 4 5 6 7", Ok(Some(Step::Head(head)))),
        (b"line 1 2 3 4 5 6 7", Ok(Some(Step::Line(line)))),
        (b"blank", Ok(Some(Step::Blank))),
        (b" sign # now", Ok(Some(Step::Sign))),
        (b"Head 1", Err(Misread::UnknownStep)),
        (b"head 1 2", Err(Misread::Missing { at: 4 })),
        (b"line 1 -2", Err(Misread::NoNumber { at: 3 })),
        (
            b"head 18446744073709551616",
            Err(Misread::TooLarge { at: 2 }),
        ),
        (b"sign 1", Err(Misread::Extra { at: 2 })),
    ];
    for (line, expected) in lines {
        let found = words(rt.alloc(), line)?;
        assert_eq!(rt; read_step(found.as_slice()), expected);
    }
    Ok(())
}

#[test]
fn records(rt: HostRuntime) -> Result<(), Fail> {
    let lines: [(&[&[u8]], &[u8]); 4] = [
        (&[b"sign", b"a"], b"a"),
        (&[b"sign"], b"none"),
        (&[b"sign", b"a", b"b"], b"none"),
        (&[b"file", b"a"], b"none"),
    ];
    for (words, expected) in lines {
        assert!(rt;
            record_word(words).unwrap_or(b"none") == expected,
            "record_word"
        );
    }
    let hexes: [(&[u8], bool, &[u8]); 6] = [
        (b"0x", true, b""),
        (b"0x4f4246", true, b"OBF"),
        (b"0x4F4", true, b"none"),
        (b"0xzz", true, b"none"),
        (b"4f", false, b"none"),
        (b"", false, b"none"),
    ];
    for (word, begins, expected) in hexes {
        assert_eq!(rt; is_hex(word), begins);
        let found = unhexed(rt.alloc(), word)?;
        assert!(rt; found.as_deref().unwrap_or(b"none") == expected, "unhexed");
    }
    Ok(())
}
