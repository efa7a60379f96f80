use hgs_index::entry::{EntryFault, Header};
use hgs_index::head::header;

const fn header_with(inline: bool, generaldelta: bool) -> Header {
    Header {
        inline,
        generaldelta,
    }
}

#[test]
fn headers(rt: HostRuntime) {
    for (bytes, want) in [
        ([0, 0, 0, 1], Ok(header_with(false, false))),
        ([0, 2, 0, 1], Ok(header_with(false, true))),
        ([0, 1, 0, 1], Ok(header_with(true, false))),
        ([0, 3, 0, 1], Ok(header_with(true, true))),
        ([0, 4, 0, 1], Err(EntryFault::HeaderFlags)),
        ([0, 4, 0, 2], Err(EntryFault::Version)),
    ] {
        assert_eq!(rt; header(&bytes), want, "{bytes:?}");
    }
}
