use hgs_path::check::{PathFault, check};

#[test]
fn first_faults(rt: HostRuntime) {
    for (path, want) in [
        (b"".as_slice(), Err(PathFault::Empty)),
        (b"a//b", Err(PathFault::Component(2))),
        (b"x/.HG/y", Err(PathFault::Component(2))),
        (b"/a", Err(PathFault::Component(0))),
        (b"a/..", Err(PathFault::Component(2))),
        (b"./a\nb\0", Err(PathFault::Byte(3))),
        (&[b'/'; 1025], Err(PathFault::Long)),
        (&[b'a'; 1024], Ok(())),
        (b"a.hg/.hgignore/...", Ok(())),
    ] {
        assert_eq!(rt; check(path), want);
    }
}
