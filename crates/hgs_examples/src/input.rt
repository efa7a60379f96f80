// Records that are read. What they say was worked out by hand.
use crate::given::given;
use hgs_index::kinds::Flag;
use hgs_input::record::read_commit;
use hgs_model::files::NewFile;
use hgs_model::phase::Phase;
use std::test::Fail;

/// The record of a first changeset: one file `a`.
const FIRST: &[u8; 53] = b"commit\nuser test\ndate 0 0\ndesc 1\na\nfile - 2 a\na\n\nend\n";

/// Of a second one, on it: with a file `b` more.
const SECOND: &[u8] =
    b"commit\nparent tip\nuser test\ndate 60 0\ndesc 1\nb\nfile - 2 a\na\n\nfile - 2 b\nb\n\nend\n";

fn is_file(file: Option<&NewFile>, path: &[u8], flag: Flag, body: &[u8]) -> bool {
    match file {
        Some(file) => {
            file.path.as_slice() == path && file.flag == flag && file.body.as_slice() == body
        }
        None => false,
    }
}

#[test]
fn two_changesets(rt: HostRuntime) -> Result<(), Fail> {
    let first = given(read_commit(rt.alloc(), FIRST))?;
    assert!(rt;
        first.parents.len() == 0
            && first.user.as_slice() == b"test".as_slice()
            && (first.seconds, first.offset) == (0, 0)
            && first.phase == Phase::Draft
            && first.bookmark.is_none()
            && first.description.as_slice() == b"a".as_slice()
            && first.files.len() == 1
    );
    let second = given(read_commit(rt.alloc(), SECOND))?;
    assert!(rt; second.parents.len() == 1 && second.seconds == 60);
    let files = second.files.as_slice();
    assert!(rt;
        is_file(files.first(), b"a", Flag::Plain, b"a\n")
            && is_file(files.last(), b"b", Flag::Plain, b"b\n")
    );
    Ok(())
}

/// A merge with all lines: a name of a parent that is empty, a bookmark with a space, a description with `end` in it, files
/// of all flags, and between a path and what begins with it no directory.
const WHOLE: &[u8] =
    b"commit\nparent .\nparent \nuser Zo\xc3\xab <z@e>\ndate -1099511627776 50400\nphase secret\nbookmark a b\ndesc 6\n\xc3\xbc\nend\nfile - 0 a\n\nfile x 3 a-b\n\0\n\xff\nfile l 1 b/c d\nx\nend\n";

#[test]
fn all_lines(rt: HostRuntime) -> Result<(), Fail> {
    let read = given(read_commit(rt.alloc(), WHOLE))?;
    assert!(rt;
        read.parents.len() == 2
            && read.user.as_slice() == b"Zo\xc3\xab <z@e>".as_slice()
            && (read.seconds, read.offset) == (-1_099_511_627_776, 50_400)
            && read.phase == Phase::Secret
            && read.description.as_slice() == b"\xc3\xbc\nend".as_slice()
    );
    let files = read.files.as_slice();
    assert!(rt;
        is_file(files.get(0), b"a", Flag::Plain, b"")
            && is_file(files.get(1), b"a-b", Flag::Exec, b"\0\n\xff")
            && is_file(files.get(2), b"b/c d", Flag::Link, b"x")
    );
    match &read.bookmark {
        Some(name) => assert_eq!(rt; name.as_slice(), b"a b".as_slice()),
        None => assert!(rt; false),
    }
    Ok(())
}
