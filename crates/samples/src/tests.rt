//! Every refusal of the reader, at every byte where it can come.
use crate::making::{file, record, samples};
use codec::faults::ReadFault;
use codec::reader::read;
use codec::record::Records;
use codec::writer::write;
use filing::draft::Draft;
use std::alloc::{AllocError, Global};
use std::test::Fail;

// Texts and no values: what a refusal prints is promised too, and with values it would need tests of its own.
/// A reading in words: the bytes used and the version, or the refusal.
fn told(heap: Global, reading: Result<(usize, u16), ReadFault>) -> Result<String, AllocError> {
    match reading {
        Ok((used, version)) => format!(in heap; "{used} bytes in version {version}"),
        Err(fault) => format!(in heap; "{fault}"),
    }
}

/// What the reader answers, in words.
fn answer(heap: Global, bytes: &[u8]) -> Result<String, AllocError> {
    told(heap, read(bytes, &mut Draft::blank().sign()))
}

/// What the records answer one after another, each in a line.
fn answers(heap: Global, bytes: &[u8]) -> Result<String, AllocError> {
    let mut all = String::new(heap);
    for record in Records::from(bytes) {
        let reading = record.map(|record| (record.used, record.version));
        all.push_str(&told(heap, reading)?)?;
        all.push('\n')?;
    }
    Ok(all)
}

/// The first `count` bytes, or all where there are fewer.
fn front(bytes: &[u8], count: usize) -> &[u8] {
    bytes.get(..count).unwrap_or(bytes)
}

/// What the reader answers where the bytes from a place on are others.
fn answer_with(heap: Global, bytes: &[u8], at: usize, others: &[u8]) -> Result<String, AllocError> {
    let mut turned = bytes.to_vec(heap)?;
    for (byte, other) in turned.iter_mut().skip(at).zip(others) {
        *byte = *other;
    }
    answer(heap, &turned)
}

#[test]
fn cut_at_every_length(rt: HostRuntime) -> Result<(), Fail> {
    let heap = rt.alloc();
    for sample in samples() {
        let whole = record(heap, sample)?;
        let version = sample.version;
        let length = whole.len();
        for k in 0..length {
            let expected = format!(in heap; "1 cut length {k}")?;
            assert_eq!(rt; answer(heap, &whole[..k])?.as_str(), expected.as_str());
        }
        let expected = format!(in heap; "{length} bytes in version {version}")?;
        assert_eq!(rt; answer(heap, &whole)?.as_str(), expected.as_str());
        let mut more = record(heap, sample)?;
        more.push(0xff)?;
        assert_eq!(rt; answer(heap, &more)?.as_str(), expected.as_str());
    }
    Ok(())
}

#[test]
fn opening_turned(rt: HostRuntime) -> Result<(), Fail> {
    let heap = rt.alloc();
    for sample in samples() {
        let whole = record(heap, sample)?;
        for at in 0..3 {
            assert_eq!(rt; answer_with(heap, &whole, at, &[0])?.as_str(), "2 mark");
        }
        assert_eq!(rt; answer_with(heap, &whole, 3, &[1])?.as_str(), "3 version");
        assert_eq!(rt; answer_with(heap, &whole, 4, &[0])?.as_str(), "3 version");
        assert_eq!(rt; answer_with(heap, &whole, 4, &[4])?.as_str(), "3 version");
        let codes = sample.codes.len();
        for i in 0..codes {
            let expected = format!(in heap; "4 schema line {}", i.saturating_add(1))?;
            assert_eq!(rt;
                answer_with(heap, &whole, i.saturating_add(6), &[99])?.as_str(),
                expected.as_str()
            );
            assert_eq!(rt;
                answer_with(heap, &whole, 5, &[(i & 0xff) as u8])?.as_str(),
                expected.as_str()
            );
        }
        let longer = codes.saturating_add(1);
        let expected = format!(in heap; "4 schema line {longer}")?;
        assert_eq!(rt;
            answer_with(heap, &whole, 5, &[(longer & 0xff) as u8])?.as_str(),
            expected.as_str()
        );
    }
    Ok(())
}

/// One past its range, for each field of version 3; the head begins at 20, the lines at 77.
#[test]
fn fields_past_their_ranges(rt: HostRuntime) -> Result<(), Fail> {
    let heap = rt.alloc();
    let [_, _, sample] = samples();
    let whole = record(heap, sample)?;
    let fields: [(usize, u64, &str); 23] = [
        (20, 0, "5 range code 1 line 0"),
        (20, 5, "5 range code 1 line 0"),
        (28, 2016, "5 range code 2 line 0"),
        (28, 2037, "5 range code 2 line 0"),
        (36, 100_000_000_001, "5 range code 3 line 0"),
        (44, 1_000_000_001, "5 range code 4 line 0"),
        (52, 100_000_001, "5 range code 5 line 0"),
        (60, 1_000_001, "5 range code 6 line 0"),
        (68, 412_000_501, "5 range code 7 line 0"),
        (77, 0, "6 kind line 1"),
        (77, 4, "6 kind line 1"),
        (85, 65_536, "5 range code 22 line 1"),
        (93, 0, "5 range code 23 line 1"),
        (93, 100_000_000_001, "5 range code 23 line 1"),
        (101, 10_000_001, "5 range code 24 line 1"),
        (109, 200_000_000_001, "5 range code 25 line 1"),
        (109, 400_268_481, "9 attributed"),
        (117, 1, "5 range code 26 line 1"),
        (125, 1, "5 range code 27 line 1"),
        (149, 100_000_001, "5 range code 23 line 2"),
        (157, 1, "5 range code 24 line 2"),
        (173, 1_001, "5 range code 26 line 2"),
        (181, 10_001, "5 range code 27 line 2"),
    ];
    for (at, number, expected) in fields {
        assert_eq!(rt;
            answer_with(heap, &whole, at, &number.to_be_bytes())?.as_str(),
            expected
        );
    }
    assert_eq!(rt; answer_with(heap, &whole, 76, &[7])?.as_str(), "7 lines");
    Ok(())
}

/// The head is checked before the count is read, and the count before any line; the place keeps what it held.
#[test]
fn order_and_place(rt: HostRuntime) -> Result<(), Fail> {
    let heap = rt.alloc();
    let [_, _, sample] = samples();
    let whole = record(heap, sample)?;
    assert!(rt; whole.len() == 189);
    assert_eq!(rt;
        answer_with(heap, front(&whole, 76), 20, &9u64.to_be_bytes())?.as_str(),
        "5 range code 1 line 0"
    );
    let mut signed = Draft::blank().sign();
    assert!(rt; read(&whole, &mut signed).is_ok());
    assert!(rt; read(front(&whole, 188), &mut signed).is_err());
    assert_eq!(rt; signed.filing().count(), 2);
    let mut buffer = [7u8; 200];
    assert!(rt; write(&signed, &mut buffer).is_ok());
    assert!(rt; buffer.starts_with(&whole) && buffer[189] == 7 && buffer[199] == 7);
    let mut small = [7u8; 188];
    assert!(rt; write(&signed, &mut small).is_err());
    assert!(rt; small[0] == 7 && small[187] == 7);
    Ok(())
}

/// The records come up to the end, or to the first that is refused.
#[test]
fn one_after_another(rt: HostRuntime) -> Result<(), Fail> {
    let heap = rt.alloc();
    let [_, _, sample] = samples();
    let mut both = file(heap, sample)?;
    assert!(rt; both.len() == 266);
    assert_eq!(rt; answers(heap, &[])?.as_str(), "");
    assert_eq!(rt;
        answers(heap, &both)?.as_str(),
        "77 bytes in version 3\n189 bytes in version 3\n"
    );
    assert_eq!(rt;
        answers(heap, front(&both, 265))?.as_str(),
        "77 bytes in version 3\n1 cut length 188\n"
    );
    both[0] = 0;
    assert_eq!(rt; answers(heap, &both)?.as_str(), "2 mark\n");
    Ok(())
}
