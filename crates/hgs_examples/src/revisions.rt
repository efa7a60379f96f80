//! A revision with two parents goes through load, add and push, and is found again.
ghost use Rattle.std.specs.Prelude.{◌≡◌, ◌<◌, ◌≤◌, false, length};

use hgs_index::node::Node;
use hgs_revlog::add::Added;
use hgs_revlog::fault::{RevFault, Tail};
use hgs_revlog::laws::{loaded_entries, new_revision};
use hgs_revlog::revlog::Revlog;
use std::test::Fail;

/// The entries of `a` and on it `b`, made by Python's `struct` and `hashlib`.
const INDEX: [u8; 128] =
    *b"\x00\x00\x00\x01\x00\x00\x00\x00\x00\x00\x00\x03\x00\x00\x00\x02\x00\x00\x00\x00\x00\x00\x00\x00\xff\xff\xff\xff\xff\xff\xff\xff\xb7\x89\xfd\xd9m\xc2\xf3\xbd\"\x9c\x1d\xd8\xee\xdf\x0f\xc6\x0e+h\xe3\x00\x00\x00\x00\x00\x00\x00\x00\x00\x00\x00\x00\x00\x00\x00\x00\x00\x03\x00\x00\x00\x00\x00\x03\x00\x00\x00\x02\x00\x00\x00\x01\x00\x00\x00\x01\x00\x00\x00\x00\xff\xff\xff\xff\xbc~\xbe-&\x0c\xff0\xd2\xa3\x9a\x13\x0d\x84\xad\xd3b\x16\xf7\x91\x00\x00\x00\x00\x00\x00\x00\x00\x00\x00\x00\x00";

/// The entry of `c` with both as its parents.
const MERGED: [u8; 64] =
    *b"\x00\x00\x00\x00\x00\x06\x00\x00\x00\x00\x00\x03\x00\x00\x00\x02\x00\x00\x00\x02\x00\x00\x00\x02\x00\x00\x00\x00\x00\x00\x00\x01i\xe2\xcb\x1d\x0c_\xff\xd3\x90Tnz\xdf\xb8\xb49\x82\xc6\xee\x18\x00\x00\x00\x00\x00\x00\x00\x00\x00\x00\x00\x00";

/// The revision that a text with these parents is, with its entry where it is new; a new one is taken.
///
/// No text is known whose node is the null node: that case is here only so that `push` can be called.
fn taken(
    log: &mut Revlog,
    text: &[u8],
    p1: u32,
    p2: u32,
    chunk: &[u8],
) -> Result<(u32, Option<[u8; 64]>), RevFault>
    requires separate { log.old.inline ≡ false }
    requires first { p1 < length log.old.entries }
    requires second { p2 < length log.old.entries }
    ensures separate { log.new.inline ≡ false }
    ensures grown { length log.old.entries ≤ length log.new.entries }
{
    let given = match log.standing(text, Some(p1), Some(p2)) {
        None => None,
        Some(rev) => {
            if chunk.len() > log.entry(rev).stored as usize {
                return Err(RevFault::Short(rev));
            }
            Some(chunk)
        }
    };
    let (entry, node) = match log.add(text, Some(p1), Some(p2), 2, given)? {
        Added::Old(rev) => return Ok((rev, None)),
        Added::New {
            entry,
            chunk: _,
            node,
        } => (entry, node),
    };
    let rev = log.len();
    if Node([0; 20]) == node {
        return Err(RevFault::Twice(rev));
    }
    new_revision();
    log.push(&entry)?;
    Ok((rev, Some(entry)))
}

#[test]
fn two_parents(rt: HostRuntime) -> Result<(), Fail> {
    let alloc = rt.alloc();
    loaded_entries();
    let mut log = match Revlog::load(alloc, &INDEX, Tail::Refuse) {
        Ok(log) => log,
        Err(_) => return Err(Fail::new("no revlog")),
    };
    if log.len() < 2 {
        assert!(rt; false, "too short");
        return Ok(());
    }
    let first = taken(&mut log, b"c\n", 0, 1, b"");
    let second = taken(&mut log, b"c\n", 0, 1, b"uc\n");
    // The parents in the other order are the same ones.
    let turned = taken(&mut log, b"c\n", 1, 0, b"uc\n");
    let copy = log.copy()?;
    assert!(rt; first == Ok((2, Some(MERGED))));
    assert!(rt; second == Ok((2, None)) && turned == Ok((2, None)));
    assert!(rt; log.len() == 3 && copy.len() == 3);
    Ok(())
}
