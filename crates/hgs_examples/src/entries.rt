use crate::given::given;
use hex::FromHex;
use hgs_index::entry::{Entry, Header, decode, encode};
use hgs_index::node::Node;
use std::test::Fail;

/// Digits that an index has, and what they say: offset, stored length, text length, base and link, both parents, node.
struct Row(
    &'static str,
    u64,
    u32,
    u32,
    u32,
    Option<u32>,
    Option<u32>,
    &'static str,
);

// The first is of a store with one changeset, the others are the first, the third and a merge of stores that Mercurial made.
const ROWS: [Row; 4] = [
    Row(
        "000000010000000000000037000000360000000000000000ffffffffffffffffcb9a9f314b8b07ba71012fcdbc544b5a4d82ff5b000000000000000000000000",
        0,
        55,
        54,
        0,
        None,
        None,
        "cb9a9f314b8b07ba71012fcdbc544b5a4d82ff5b",
    ),
    Row(
        "0000000100000000000000a5000000a40000000000000000ffffffffffffffff3f96c076ae9cef57ed0d71fd2e0f9f7a80c3643e000000000000000000000000",
        0,
        165,
        164,
        0,
        None,
        None,
        "3f96c076ae9cef57ed0d71fd2e0f9f7a80c3643e",
    ),
    Row(
        "00000000011700000000006100000060000000020000000200000001ffffffff2ac2ecd314a54d7c896fc5e4c2f83aff6a0ea28e000000000000000000000000",
        279,
        97,
        96,
        2,
        Some(1),
        None,
        "2ac2ecd314a54d7c896fc5e4c2f83aff6a0ea28e",
    ),
    Row(
        "0000000002210000000000600000005f00000005000000050000000400000003c0919d73f162ec7c5862121d97d6c9fae88785e9000000000000000000000000",
        545,
        96,
        95,
        5,
        Some(4),
        Some(3),
        "c0919d73f162ec7c5862121d97d6c9fae88785e9",
    ),
];

fn entry_of(row: &Row) -> Result<Entry, Fail> {
    let Row(_, offset, stored, size, rev, p1, p2, digits) = row;
    let node = given(<[u8; 20] as FromHex>::from_hex(*digits))?;
    Ok(Entry {
        offset: *offset,
        flags: 0,
        stored: *stored,
        size: *size,
        base: *rev,
        link: *rev,
        p1: *p1,
        p2: *p2,
        node: Node(node),
    })
}

#[test]
fn entries_of_stores(rt: HostRuntime) -> Result<(), Fail> {
    for row in &ROWS {
        let bytes = given(<[u8; 64] as FromHex>::from_hex(row.0))?;
        let wanted = entry_of(row)?;
        assert_eq!(rt; decode(&bytes, row.4), Ok(wanted), "{}", row.0);
    }
    Ok(())
}

#[test]
fn first_entry_written(rt: HostRuntime) -> Result<(), Fail> {
    let header = Header {
        inline: false,
        generaldelta: false,
    };
    let node = given(<[u8; 20] as FromHex>::from_hex(ROWS[1].7))?;
    let entry = Entry {
        offset: 0,
        flags: 0,
        stored: 165,
        size: 164,
        base: 0,
        link: 0,
        p1: None,
        p2: None,
        node: Node(node),
    };
    let bytes = given(<[u8; 64] as FromHex>::from_hex(ROWS[1].0))?;
    assert_eq!(rt; encode(&entry, Some(header)), bytes);
    Ok(())
}

#[test]
fn later_entry_written(rt: HostRuntime) -> Result<(), Fail> {
    let node = given(<[u8; 20] as FromHex>::from_hex(ROWS[2].7))?;
    let entry = Entry {
        offset: 279,
        flags: 0,
        stored: 97,
        size: 96,
        base: 2,
        link: 2,
        p1: Some(1),
        p2: None,
        node: Node(node),
    };
    let bytes = given(<[u8; 64] as FromHex>::from_hex(ROWS[2].0))?;
    assert_eq!(rt; encode(&entry, None), bytes);
    Ok(())
}
