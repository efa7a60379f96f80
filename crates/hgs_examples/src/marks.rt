// Values that Mercurial wrote.
use crate::given::given;
use hgs_bytes::bytes::Bytes;
use hgs_bytes::names::Names;
use hgs_index::node::Node;
use hgs_index::texts::node_from;
use hgs_marks::bookmarks::Bookmarks;
use hgs_marks::dirstate::Dirstate;
use hgs_marks::fault::MarkFault;
use std::test::Fail;

/// Three bookmarks, as Mercurial wrote them.
const MARKS: &[u8; 133] =
    b"8ee1361ba8a6f3509956bd4d13d877d6c8dded87 -m\n1ac31ebb88eb6cf1f0f24f3831d19398711045af 0x\n2ac2ecd314a54d7c896fc5e4c2f83aff6a0ea28e a b\n";

#[test]
fn bookmarks_of_a_repository(rt: HostRuntime) -> Result<(), Fail> {
    let mut marks = given(Bookmarks::read(rt.alloc(), MARKS))?;
    assert_eq!(rt; marks.len(), 3);
    let before = marks.copy()?;
    let mut text = Vec::new(rt.alloc());
    given(marks.print(&mut text))?;
    assert!(rt; text.as_slice() == MARKS.as_slice() && marks.delete(b"-m") && !marks.delete(b"-m"));
    given(marks.set(b"0x", Node([9; 20])))?;
    assert!(rt;
        marks.get(b"0x") == Some(Node([9; 20]))
            && marks.get(b"-m") == None
            && marks.len() == 2
            && before.len() == 3
    );
    let fault = marks.set(b"12", Node([9; 20])).err();
    assert_eq!(rt; fault, Some(MarkFault::Name(0)));
    Ok(())
}

#[test]
fn a_later_line_wins(rt: HostRuntime) -> Result<(), Fail> {
    let text =
        b"bbbbbbbbbbbbbbbbbbbbbbbbbbbbbbbbbbbbbbbb b\ncccccccccccccccccccccccccccccccccccccccc a\naaaaaaaaaaaaaaaaaaaaaaaaaaaaaaaaaaaaaaaa b";
    let marks = given(Bookmarks::read(rt.alloc(), text))?;
    assert!(rt; marks.len() == 2 && marks.get(b"b") == Some(Node([0xaa; 20])));
    Ok(())
}

/// The working parent of a repository of one changeset with one file.
const WORKING: [u8; 58] =
    *b"\xcb\x9a\x9f1K\x8b\x07\xbaq\x01/\xcd\xbcTKZM\x82\xff[\x00\x00\x00\x00\x00\x00\x00\x00\x00\x00\x00\x00\x00\x00\x00\x00\x00\x00\x00\x00n\x00\x00\x00\x00\xff\xff\xff\xff\xff\xff\xff\xff\x00\x00\x00\x01a";

#[test]
fn the_first_dirstate(rt: HostRuntime) -> Result<(), Fail> {
    let mut node = [0; 20];
    node.copy_from_slice(&WORKING[..20]);
    let path = Bytes::from_slice(rt.alloc(), b"a")?;
    let mut paths = Names::new(rt.alloc());
    paths.push(path)?;
    let read = given(Dirstate::read(rt.alloc(), &WORKING))?;
    assert!(rt;
        read.p1 == Node(node)
            && read.p2 == Node([0; 20])
            && read.paths.as_slice() == paths.as_slice()
    );
    Ok(())
}

#[test]
fn a_dirstate_is_printed(rt: HostRuntime) -> Result<(), Fail> {
    let mut node = [0; 20];
    node.copy_from_slice(&WORKING[..20]);
    let path = Bytes::from_slice(rt.alloc(), b"a")?;
    let mut paths = Names::new(rt.alloc());
    paths.push(path)?;
    let dirstate = Dirstate {
        p1: Node(node),
        p2: Node([0; 20]),
        paths,
    };
    let mut text = Vec::new(rt.alloc());
    given(dirstate.print(&mut text))?;
    assert_eq!(rt; text.as_slice(), WORKING.as_slice());
    Ok(())
}

/// The working parents of a merge that is not committed yet, as Mercurial wrote them: a file is removed, two are merged, and
/// `newname` is added as a copy.
const FOUR_STATES: [u8; 279] =
    *b"\xc0\x91\x9ds\xf1b\xec|Xb\x12\x1d\x97\xd6\xc9\xfa\xe8\x87\x85\xe9\xc5\xe6(2\xe0\xb3\x89\"\x01q\x9e.\xea\xb0X6\xe1\x8f\xe9wr\x00\x00\x00\x00\x00\x00\x00\x00\x00\x00\x00\x00\x00\x00\x00\x10src/d0/file0.txtn\x00\x00\xa1\xff\x00\x00\x00\x09k\x09\x15\x04\x00\x00\x00\x10src/d1/file1.txtm\x00\x00\x00\x00\xff\xff\xff\xfe\xff\xff\xff\xff\x00\x00\x00\x10src/d2/file2.txtn\x00\x00\x81\xa4\x00\x00\x01&k\x09\x15\x04\x00\x00\x00\x10src/d3/file3.txtm\x00\x00\x00\x00\xff\xff\xff\xfe\xff\xff\xff\xff\x00\x00\x00\x10src/d4/file4.txtn\x00\x00\x81\xa4\x00\x00\x01xk\x09\x15\x04\x00\x00\x00\x10src/d5/file5.txta\x00\x00\x00\x00\xff\xff\xff\xff\xff\xff\xff\xff\x00\x00\x00\x18newname\x00src/d2/file2.txt";

const NOT_REMOVED: [&[u8]; 6] = [
    b"src/d1/file1.txt",
    b"src/d2/file2.txt",
    b"src/d3/file3.txt",
    b"src/d4/file4.txt",
    b"src/d5/file5.txt",
    b"newname",
];

#[test]
fn a_dirstate_of_all_states(rt: HostRuntime) -> Result<(), Fail> {
    let mut paths = Names::new(rt.alloc());
    for path in NOT_REMOVED {
        let path = Bytes::from_slice(rt.alloc(), path)?;
        paths.push(path)?;
    }
    let read = given(Dirstate::read(rt.alloc(), &FOUR_STATES))?;
    assert!(rt;
        Some(read.p1) == node_from(b"c0919d73f162ec7c5862121d97d6c9fae88785e9")
            && Some(read.p2) == node_from(b"c5e62832e0b3892201719e2eeab05836e18fe977")
            && read.paths.as_slice() == paths.as_slice()
    );
    Ok(())
}

/// The working parent of a repository of seven files, as Mercurial wrote it.
const SEPARATE: [u8; 271] =
    *b"?\x89\x04\x14X/\x19\xf7\xc7\x16\"\xdd\xa1\x18\x93\x87C\xe8\x0ff\x00\x00\x00\x00\x00\x00\x00\x00\x00\x00\x00\x00\x00\x00\x00\x00\x00\x00\x00\x00n\x00\x00\x00\x00\xff\xff\xff\xff\xff\xff\xff\xff\x00\x00\x00\x10src/d0/file0.txtn\x00\x00\x00\x00\xff\xff\xff\xff\xff\xff\xff\xff\x00\x00\x00\x10src/d2/file2.txtn\x00\x00\x00\x00\xff\xff\xff\xff\xff\xff\xff\xff\x00\x00\x00\x10src/d3/file3.txtn\x00\x00\x00\x00\xff\xff\xff\xff\xff\xff\xff\xff\x00\x00\x00\x10src/d4/file4.txtn\x00\x00\x00\x00\xff\xff\xff\xff\xff\xff\xff\xff\x00\x00\x00\x10src/d5/file5.txtn\x00\x00\x00\x00\xff\xff\xff\xff\xff\xff\xff\xff\x00\x00\x00\x10src/d6/file6.txtn\x00\x00\x00\x00\xff\xff\xff\xff\xff\xff\xff\xff\x00\x00\x00\x10src/d7/file7.txt";

#[test]
fn a_dirstate_is_printed_as_it_was(rt: HostRuntime) -> Result<(), Fail> {
    let read = given(Dirstate::read(rt.alloc(), &SEPARATE))?;
    let mut text = Vec::new(rt.alloc());
    given(read.print(&mut text))?;
    assert_eq!(rt; text.as_slice(), SEPARATE.as_slice());
    Ok(())
}
