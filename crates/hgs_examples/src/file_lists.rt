use crate::given::given;
use hgs_path::fncache::Fncache;
use hgs_path::name::Ext;
use std::test::Fail;

#[test]
fn listed_files(rt: HostRuntime) -> Result<(), Fail> {
    let fncache = given(Fncache::read(
        rt.alloc(),
        b"data/a.i.hg/b.i\ndata/c.i\ndata/c.d\ndata/x.i/y.i\ndata/c.i\n",
    ))?;
    for (path, ext, want) in [
        (b"a.i/b".as_slice(), Ext::I, true),
        (b"a.i/b", Ext::D, false),
        (b"c", Ext::I, true),
        (b"c", Ext::D, true),
        (b"x.i/y", Ext::I, false),
        (b"x", Ext::I, false),
    ] {
        assert_eq!(rt; fncache.contains(path, ext), want);
    }
    Ok(())
}

// The digest in a hashed name is that of the name in the list, and no two names are known that begin with `data/` and
// have one digest. So only paths that do not clash can be tried: those whose hashed names differ in the digest alone.
#[test]
fn no_clashes(rt: HostRuntime) -> Result<(), Fail> {
    let (upper, lower) = ([b'A'; 120], [b'a'; 120]);
    let mut text = Vec::new(rt.alloc());
    given(Fncache::add_line(&upper, Ext::D, &mut text))?;
    given(Fncache::add_line(&upper, Ext::I, &mut text))?;
    given(Fncache::add_line(b"a.i/b", Ext::I, &mut text))?;
    let fncache = given(Fncache::read(rt.alloc(), &text))?;
    assert!(rt; fncache.contains(&upper, Ext::I));
    for path in [b"a.i/b".as_slice(), b"c", &upper, &lower] {
        let clash = given(fncache.clash(path))?;
        assert!(rt; clash.is_none());
    }
    Ok(())
}

#[test]
fn paths_that_are_added(rt: HostRuntime) -> Result<(), Fail> {
    let (upper, lower) = ([b'A'; 120], [b'a'; 120]);
    let empty = Fncache::empty(rt.alloc());
    let one = given(empty.with_path(&upper))?;
    let fncache = given(one.with_path(b"c"))?;
    for path in [b"c".as_slice(), &upper] {
        assert!(rt; fncache.contains(path, Ext::I) && fncache.contains(path, Ext::D));
    }
    assert!(rt; !fncache.contains(&lower, Ext::I));
    let clash = given(fncache.clash(&lower))?;
    assert!(rt; clash.is_none());
    Ok(())
}

#[test]
fn line_of_a_file(rt: HostRuntime) -> Result<(), Fail> {
    let mut text = Vec::new(rt.alloc());
    given(Fncache::add_line(b"a.i/b", Ext::I, &mut text))?;
    assert!(rt; text.as_slice() == b"data/a.i.hg/b.i\n".as_slice());
    Ok(())
}

// The list of a store that Mercurial 6.3.2 wrote, and the paths of its files in this order.
const WRITTEN: &[u8] = b"data/A_b/f.i\n\
    data/d.i.hg/f.i\n\
    data/aux.c.i\n\
    data/aaaaaaaaaaaaaaaaaaaaaaaaaaaaaaaaaaaaaaaaaaaaaaaaaaaaaaaaaaaaaaaaaaaaaaaaaaaaaaaaaaaaaaaaaaaaaaaaaaaaaaaaaaaaaaaaaa.i\n\
    data/d.hg.hg/f.i\n\
    data/.x/y.i\n\
    data/d.d.hg/f.i\n";

const PATHS: [&[u8]; 7] = [
    b"A_b/f",
    b"d.i/f",
    b"aux.c",
    b"aaaaaaaaaaaaaaaaaaaaaaaaaaaaaaaaaaaaaaaaaaaaaaaaaaaaaaaaaaaaaaaaaaaaaaaaaaaaaaaaaaaaaaaaaaaaaaaaaaaaaaaaaaaaaaaaaa",
    b"d.hg/f",
    b".x/y",
    b"d.d/f",
];

#[test]
fn written_list(rt: HostRuntime) -> Result<(), Fail> {
    let fncache = given(Fncache::read(rt.alloc(), WRITTEN))?;
    let mut text = Vec::new(rt.alloc());
    for path in PATHS {
        assert!(rt; fncache.contains(path, Ext::I) && !fncache.contains(path, Ext::D));
        given(Fncache::add_line(path, Ext::I, &mut text))?;
    }
    assert!(rt; text.as_slice() == WRITTEN);
    Ok(())
}

// The lists of two stores with the same eight files, as Mercurial wrote them: with data files and with none.
const SEPARATE: &[u8] = b"data/src/d6/file6.txt.i\n\
    data/src/d5/file5.txt.d\n\
    data/src/d6/file6.txt.d\n\
    data/src/d2/file2.txt.i\n\
    data/src/d7/file7.txt.i\n\
    data/src/d4/file4.txt.d\n\
    data/src/d1/file1.txt.d\n\
    data/src/d2/file2.txt.d\n\
    data/src/d0/file0.txt.d\n\
    data/src/d7/file7.txt.d\n\
    data/src/d1/file1.txt.i\n\
    data/src/d3/file3.txt.d\n\
    data/src/d4/file4.txt.i\n\
    data/src/d5/file5.txt.i\n\
    data/src/d0/file0.txt.i\n\
    data/src/d3/file3.txt.i\n";

const ORDINARY: &[u8] = b"data/src/d5/file5.txt.i\n\
    data/src/d0/file0.txt.i\n\
    data/src/d3/file3.txt.i\n\
    data/src/d1/file1.txt.i\n\
    data/src/d6/file6.txt.i\n\
    data/src/d4/file4.txt.i\n\
    data/src/d7/file7.txt.i\n\
    data/src/d2/file2.txt.i\n";

const FILES: [&[u8]; 8] = [
    b"src/d0/file0.txt",
    b"src/d1/file1.txt",
    b"src/d2/file2.txt",
    b"src/d3/file3.txt",
    b"src/d4/file4.txt",
    b"src/d5/file5.txt",
    b"src/d6/file6.txt",
    b"src/d7/file7.txt",
];

#[test]
fn lists_with_and_without_data_files(rt: HostRuntime) -> Result<(), Fail> {
    let separate = given(Fncache::read(rt.alloc(), SEPARATE))?;
    let ordinary = given(Fncache::read(rt.alloc(), ORDINARY))?;
    for path in FILES {
        assert!(rt; separate.contains(path, Ext::I) && separate.contains(path, Ext::D));
        assert!(rt; ordinary.contains(path, Ext::I) && !ordinary.contains(path, Ext::D));
    }
    Ok(())
}
