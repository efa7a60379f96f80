use crate::given::given;
use hgs_changelog::text::ChangeText;
use hgs_index::node::{Node, node_of};
use std::alloc::Global;
use std::test::Fail;

const NULL: Node = Node([0; 20]);

/// The first changeset of a repository: its node is what Mercurial gives it.
const FIRST: &[u8; 54] = b"a0c8bcbbb45c63b90b70ad007bf38961f64f2af0\ntest\n0 0\na\n\na";

const NODE: [u8; 20] = [
    0xcb, 0x9a, 0x9f, 0x31, 0x4b, 0x8b, 0x07, 0xba, 0x71, 0x01, 0x2f, 0xcd, 0xbc, 0x54, 0x4b, 0x5a,
    0x4d, 0x82, 0xff, 0x5b,
];

/// Whether that is what the first changeset says.
fn is_first(change: &ChangeText) -> bool {
    change.manifest.0[0] == 0xa0
        && change.user.as_slice() == b"test".as_slice()
        && change.seconds == 0
        && change.files.len() == 1
        && change.description.as_slice() == b"a".as_slice()
}

/// What is printed of a text that is read.
fn printed_again(alloc: Global, text: &[u8]) -> Result<Vec<u8>, Fail> {
    let change = given(ChangeText::read(alloc, text))?;
    let mut printed = Vec::new(alloc);
    given(change.print(&mut printed))?;
    Ok(printed)
}

#[test]
fn the_first_changeset(rt: HostRuntime) -> Result<(), Fail> {
    let change = given(ChangeText::read(rt.alloc(), FIRST))?;
    assert!(rt; is_first(&change) && node_of(&NULL, &NULL, FIRST).0 == NODE);
    let printed = printed_again(rt.alloc(), FIRST)?;
    assert!(rt; printed.as_slice() == FIRST.as_slice());
    Ok(())
}

/// Texts at the bounds of their parts, the last as Mercurial wrote it.
const TAKEN: [&[u8]; 3] = [
    b"0000000000000000000000000000000000000000\ntest\n-1099511627776 50400 branch:x\n\n\n",
    b"0000000000000000000000000000000000000000\ntest\n1099511627776 -50400\n\n\xf0\x9d\x84\x9e",
    b"4060c64b877f9572a19aed0b397340287dcb8014\nZo\xc3\xab <z@e>\n1000000000 -3600 branch:x y\nc\ne\nm\nu\nz\n\n\xc3\xbcml\xc3\xa4ut",
];

#[test]
fn bounds_are_taken(rt: HostRuntime) -> Result<(), Fail> {
    for text in TAKEN {
        let printed = printed_again(rt.alloc(), text)?;
        assert!(rt; printed.as_slice() == text);
    }
    Ok(())
}
