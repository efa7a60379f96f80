use crate::given::given;
use hgs_files::path::{NameFault, StorePath};
use std::test::Fail;

#[test]
fn names_that_are_paths_and_names_that_are_not(rt: HostRuntime) -> Result<(), Fail> {
    let good: [&[u8]; 7] = [
        b"a",
        b".hg",
        b"store/data/~2e.i",
        b"a//b",
        b"a/",
        b"...",
        b"a/..b/.c.",
    ];
    for name in good {
        let path = given(StorePath::new(rt.alloc(), name))?;
        let copy = path.copy(rt.alloc())?;
        assert_eq!(rt; copy.bytes(), name);
    }
    let bad: [&[u8]; 10] = [
        b"", b"/a", b".", b"..", b"a/.", b"../a", b"a/./b", b"a\0", b"a\nb", b"\r",
    ];
    for name in bad {
        let fault = StorePath::new(rt.alloc(), name).err();
        assert_eq!(rt; fault, Some(NameFault::Shape), "{name:?}");
    }
    Ok(())
}

#[test]
fn paths_have_at_most_4096_bytes(rt: HostRuntime) -> Result<(), Fail> {
    let mut name = Vec::new(rt.alloc());
    for _ in 0..4096 {
        name.push(b'a')?;
    }
    given(StorePath::new(rt.alloc(), name.as_slice()))?;
    name.push(b'a')?;
    let fault = StorePath::new(rt.alloc(), name.as_slice()).err();
    assert_eq!(rt; fault, Some(NameFault::Shape));
    Ok(())
}
