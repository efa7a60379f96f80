//! Each call that takes memory, once, and the separators on texts whose parts are written by hand.
use crate::given::given;
use hgs_bytes::bytes::Bytes;
use hgs_bytes::names::Names;
use hgs_bytes::parts::{below, next_line, split_at_byte, starts};
use std::cmp::Ordering;
use std::test::Fail;

#[test]
fn bytes_are_copied_cut_and_joined(rt: HostRuntime) -> Result<(), Fail> {
    let alloc = rt.alloc();
    let mut bytes = Bytes::from_slice(alloc, b"abc")?;
    let copy = bytes.copy(alloc)?;
    given(bytes.append(b"de"))?;
    assert_eq!(rt; bytes.as_slice(), b"abcde".as_slice());
    let all = bytes.clone()?.into_vec();
    assert_eq!(rt; all.as_slice(), b"abcde".as_slice());
    bytes.cut(3);
    assert!(rt; bytes == copy);
    bytes.cut(9);
    assert_eq!(rt; bytes.len(), 3);
    let none = Bytes::new(alloc);
    assert!(rt; none.is_empty() && none < bytes);
    Ok(())
}

#[test]
fn order_is_by_the_first_byte_that_differs_then_by_length(rt: HostRuntime) -> Result<(), Fail> {
    let alloc = rt.alloc();
    let table = [
        (b"ab".as_slice(), b"b".as_slice(), Ordering::Less),
        (b"b", b"ab", Ordering::Greater),
        (b"a", b"ab", Ordering::Less),
        (b"\xff", b"\x7f", Ordering::Greater),
        (b"", b"", Ordering::Equal),
    ];
    for (a, b, wanted) in table {
        let first = Bytes::from_slice(alloc, a)?;
        let second = Bytes::from_slice(alloc, b)?;
        assert!(rt; first.cmp(&second) == wanted && below(a, b) == (wanted == Ordering::Less));
    }
    Ok(())
}

#[test]
fn names_stand_in_order(rt: HostRuntime) -> Result<(), Fail> {
    let alloc = rt.alloc();
    let mut names = Names::new(alloc);
    let first = Bytes::from_slice(alloc, b"x")?;
    let second = Bytes::from_slice(alloc, b"y/z")?;
    names.push(first)?;
    names.push(second)?;
    assert_eq!(rt; names.len(), 2);
    if names.len() == 2 {
        assert_eq!(rt; names.get(1).as_slice(), b"y/z".as_slice());
    }
    let all = names.into_vec();
    assert_eq!(rt; all.len(), 2);
    Ok(())
}

/// Whether a text is split at its first NUL so.
fn is_split(text: &[u8], wanted: Option<(&[u8], &[u8])>) -> bool {
    match (split_at_byte(text, 0), wanted) {
        (Some((front, rest)), Some((first, behind))) => front == first && rest == behind,
        (None, None) => true,
        _ => false,
    }
}

/// Whether the first line of a text, that it is whole, and what stands behind it are these.
fn is_line(text: &[u8], line: &[u8], is_whole: bool, behind: &[u8]) -> bool {
    if text.is_empty() {
        return false;
    }
    let (found, whole, rest) = next_line(text);
    found == line && whole == is_whole && rest == behind
}

#[test]
fn texts_are_split(rt: HostRuntime) {
    assert!(rt;
        is_split(b"abc", None)
            && is_split(b"a\0b\0", Some((b"a", b"b\0")))
            && is_line(b"\nx", b"", true, b"x")
            && is_line(b"x", b"x", false, b"")
            && starts(b"store/", b"store")
            && !starts(b"stor", b"store")
    );
}
