//! The calls of this crate on small values, and each that takes memory once.
use crate::given::given;
use hgs_bytes::bytes::Bytes;
use hgs_index::kinds::Flag;
use hgs_model::ancestor::ancestor;
use hgs_model::files::{NewFile, NewFiles};
use hgs_model::phase::Phase;
use std::test::Fail;

#[test]
fn ancestors_beside_a_merge(rt: HostRuntime) -> Result<(), Fail> {
    let parents = [
        (None, None),
        (Some(0), None),
        (Some(0), None),
        (Some(1), Some(2)),
        (None, Some(2)),
    ];
    let table = [
        (0, 0, true),
        (0, 3, true),
        (1, 3, true),
        (2, 3, true),
        (2, 4, true),
        (1, 4, false),
        (1, 2, false),
        (3, 0, false),
        (3, 4, false),
        (5, 4, false),
    ];
    for (a, b, wanted) in table {
        if b < 5 {
            let found = given(ancestor(rt.alloc(), &parents, a, b))?;
            assert_eq!(rt; found, wanted, "{a} of {b}");
        }
    }
    Ok(())
}

#[test]
fn phases_have_numbers_and_names(rt: HostRuntime) {
    let table = [
        (Phase::Public, 0, b"public".as_slice()),
        (Phase::Draft, 1, b"draft"),
        (Phase::Secret, 2, b"secret"),
    ];
    for (phase, number, name) in table {
        assert!(rt; phase.number() == number && phase.name() == name);
    }
}

#[test]
fn files_stand_in_order(rt: HostRuntime) -> Result<(), Fail> {
    let alloc = rt.alloc();
    let mut files = NewFiles::new(alloc);
    for path in [b"a".as_slice(), b"b/c"] {
        let path = Bytes::from_slice(alloc, path)?;
        files.push(NewFile {
            path,
            flag: Flag::Plain,
            body: Bytes::new(alloc),
            from: None,
        })?;
    }
    assert_eq!(rt; files.len(), 2);
    let Some(last) = files.as_slice().last() else {
        assert!(rt; false);
        return Ok(());
    };
    assert_eq!(rt; last.path.as_slice(), b"b/c".as_slice());
    Ok(())
}
