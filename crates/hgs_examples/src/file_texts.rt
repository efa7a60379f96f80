use crate::given::given;
use hgs_filelog::file_text::{pack, unpack};
use std::test::Fail;

/// A body, the metadata before it, the block that is stored, and the text.
type Case = (
    &'static [u8],
    Option<&'static [u8]>,
    &'static [u8],
    &'static [u8],
);

const CASES: [Case; 5] = [
    (b"a\n", None, b"", b"a\n"),
    (b"", None, b"", b""),
    (b"\x01\nq", None, b"\x01\n\x01\n", b"\x01\n\x01\n\x01\nq"),
    (
        b"q",
        Some(b"copy: a\n"),
        b"\x01\ncopy: a\n\x01\n",
        b"\x01\ncopy: a\n\x01\nq",
    ),
    (b"\x01", None, b"", b"\x01"),
];

#[test]
fn blocks_and_bodies(rt: HostRuntime) -> Result<(), Fail> {
    for (body, meta, block, text) in CASES {
        let packed = given(pack(rt.alloc(), meta, body))?;
        assert_eq!(rt; packed.as_slice(), text);
        let parts = unpack(text);
        assert!(rt; parts.meta.len == block.len() as u64 && parts.body.from == block.len() as u64);
    }
    Ok(())
}

#[test]
fn a_block_without_end_is_body(rt: HostRuntime) {
    let parts = unpack(b"\x01\ncopy: a\n");
    assert!(rt; parts.meta.len == 0 && parts.body.len == 10);
}
