//! Worked rows of lines, numbers and texts that grow.

use std::test::Fail;
use symk_text::{Text, lines_of, number, push_bytes, push_number};

#[test]
fn cuts_lines(rt: HostRuntime) -> Result<(), Fail> {
    let alloc = rt.alloc();
    let lines = lines_of(alloc, b"a\r\n\nb")?;
    let lines = lines.as_slice();
    assert_eq!(rt; lines.len(), 3);
    assert_eq!(rt; lines[0].as_slice(), b"a".as_slice());
    assert_eq!(rt; lines[1].as_slice(), b"".as_slice());
    assert_eq!(rt; lines[2].as_slice(), b"b".as_slice());

    let lines = lines_of(alloc, b"a\r\r\n\nb\r")?;
    let lines = lines.as_slice();
    assert_eq!(rt; lines.len(), 3);
    assert_eq!(rt; lines[0].as_slice(), b"a\r".as_slice());
    assert_eq!(rt; lines[2].as_slice(), b"b".as_slice());

    assert_eq!(rt; lines_of(alloc, b"")?.as_slice().len(), 0);
    assert_eq!(rt; lines_of(alloc, b"\r")?.as_slice().len(), 1);
    assert_eq!(rt; lines_of(alloc, b"\n\n")?.as_slice().len(), 2);
    Ok(())
}

#[test]
fn reads_numbers(rt: HostRuntime) {
    assert_eq!(rt; number(b" 007 x", 1), Some((7, 4)));
    assert_eq!(rt; number(b"18446744073709551616", 0), None);
    assert_eq!(rt; number(b"x", 0), None);
    assert_eq!(rt; number(b"18446744073709551615", 0), Some((u64::MAX, 20)));
    assert_eq!(rt; number(b"00000000000000000001", 0), Some((1, 20)));
    assert_eq!(rt; number(b"000000000000000000001", 0), None);
    assert_eq!(rt; number(b"7", 1), None);
    assert_eq!(rt; number(b"7", 2), None);
}

#[test]
fn texts_grow(rt: HostRuntime) -> Result<(), Fail> {
    let mut text = Text::new(rt.alloc());
    push_bytes(&mut text, b"x")?;
    push_number(&mut text, u64::MAX)?;
    assert_eq!(rt; text.as_slice(), b"x18446744073709551615".as_slice());
    push_bytes(&mut text, b")")?;
    let bytes = text.into_vec();
    assert_eq!(rt; bytes.as_slice(), b"x18446744073709551615)".as_slice());
    Ok(())
}
