use crate::given::given;
use hgs_index::kinds::Flag;
use hgs_index::node::{Node, node_of};
use hgs_manifest::manifest::Manifest;
use std::alloc::Global;
use std::test::Fail;

/// The manifest of a repository with one file, whose node Mercurial gives as in `NODE`.
const FIRST: &[u8; 43] = b"a\0b789fdd96dc2f3bd229c1dd8eedf0fc60e2b68e3\n";

const FILE: Node = Node([
    0xb7, 0x89, 0xfd, 0xd9, 0x6d, 0xc2, 0xf3, 0xbd, 0x22, 0x9c, 0x1d, 0xd8, 0xee, 0xdf, 0x0f, 0xc6,
    0x0e, 0x2b, 0x68, 0xe3,
]);

const NODE: [u8; 20] = [
    0xa0, 0xc8, 0xbc, 0xbb, 0xb4, 0x5c, 0x63, 0xb9, 0x0b, 0x70, 0xad, 0x00, 0x7b, 0xf3, 0x89, 0x61,
    0xf6, 0x4f, 0x2a, 0xf0,
];

const NULL: Node = Node([0; 20]);

/// The text of a manifest of the file `a` alone.
fn printed(alloc: Global) -> Result<Vec<u8>, Fail> {
    let mut manifest = Manifest::empty(alloc);
    given(manifest.push(b"a", FILE, Flag::Plain))?;
    let mut text = Vec::new(alloc);
    given(manifest.print(&mut text))?;
    Ok(text)
}

/// Whether that is what the first manifest says.
fn is_first(manifest: &Manifest) -> bool {
    manifest.len() == 1
        && manifest.get(b"a") == Some((FILE, Flag::Plain))
        && manifest.get(b"b").is_none()
}

#[test]
fn the_first_manifest(rt: HostRuntime) -> Result<(), Fail> {
    let text = printed(rt.alloc())?;
    assert!(rt; text.as_slice() == FIRST.as_slice() && node_of(&NULL, &NULL, FIRST).0 == NODE);
    let read = given(Manifest::read(rt.alloc(), FIRST))?;
    assert!(rt; is_first(&read));
    Ok(())
}
