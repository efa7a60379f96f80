//! Entries and texts that Mercurial wrote, and what is refused of them.
ghost use Rattle.std.specs.Prelude.{◌≡◌, false};

use hgs_index::entry::EntryFault;
use hgs_index::kinds::Which;
use hgs_index::node::{Node, node_of};
use hgs_revlog::add::Added;
use hgs_revlog::fault::{RevFault, Tail};
use hgs_revlog::revlog::Revlog;
use std::alloc::Global;
use std::fmt::InlineText;
use std::test::Fail;

// The first three entries of a changelog, and their chunks.
const INDEX: [u8; 192] =
    *b"\x00\x00\x00\x01\x00\x00\x00\x00\x00\x00\x00\xa5\x00\x00\x00\xa4\x00\x00\x00\x00\x00\x00\x00\x00\xff\xff\xff\xff\xff\xff\xff\xff?\x96\xc0v\xae\x9c\xefW\xed\x0dq\xfd.\x0f\x9fz\x80\xc3d>\x00\x00\x00\x00\x00\x00\x00\x00\x00\x00\x00\x00\x00\x00\x00\x00\x00\xa5\x00\x00\x00\x00\x00r\x00\x00\x00q\x00\x00\x00\x01\x00\x00\x00\x01\x00\x00\x00\x00\xff\xff\xff\xff\xd5:.\xf4\xee)\x05\xff\xb4\xf1\xb4oR\x05\xaa8v\"\x18\xf2\x00\x00\x00\x00\x00\x00\x00\x00\x00\x00\x00\x00\x00\x00\x00\x00\x01\x17\x00\x00\x00\x00\x00a\x00\x00\x00`\x00\x00\x00\x02\x00\x00\x00\x02\x00\x00\x00\x01\xff\xff\xff\xff*\xc2\xec\xd3\x14\xa5M|\x89o\xc5\xe4\xc2\xf8:\xffj\x0e\xa2\x8e\x00\x00\x00\x00\x00\x00\x00\x00\x00\x00\x00\x00";

const FIRST: [u8; 165] =
    *b"u1b93023f08cdd3b3193a8962f45c4e7b64417e9d\nx: y\n1000000000 0\nsrc/d0/file0.txt\nsrc/d1/file1.txt\nsrc/d2/file2.txt\nsrc/d3/file3.txt\nsrc/d4/file4.txt\nsrc/d5/file5.txt\n\nc0";

const SECOND: [u8; 114] =
    *b"u96c74325eae32970d71a2d189334951b9763689c\nZo\xc3\xab \xc3\x9cn\xc3\xaf <z@ex.org>\n1000000060 0\nsrc/d1/file1.txt\nsrc/d5/file5.txt\n\nc1";

const THIRD: [u8; 97] =
    *b"ue52e97bca918f8fd4c11986042f99ec1d8a25224\nx: y\n1000000120 0\nsrc/d1/file1.txt\nsrc/d5/file5.txt\n\nc2";

const NEVER: Node = Node([7; 20]);

// The index with one byte changed.
fn edited(at: usize, byte: u8) -> [u8; 192] {
    let mut index = INDEX;
    if at < 192 {
        index[at] = byte;
    }
    index
}

fn revisions(alloc: Global, index: &[u8], tail: Tail) -> Result<u32, RevFault> {
    match Revlog::load(alloc, index, tail) {
        Ok(log) => Ok(log.len()),
        Err(fault) => Err(fault),
    }
}

#[test]
fn loads(rt: HostRuntime) -> Result<(), Fail> {
    let alloc = rt.alloc();
    let mut node = [0u8; 20];
    node.copy_from_slice(&INDEX[96..116]);
    let second = Node(node);
    let cases = [
        (192, Tail::Ignore, Ok(3)),
        (191, Tail::Ignore, Ok(2)),
        (63, Tail::Ignore, Ok(0)),
        (191, Tail::Refuse, Err(RevFault::Tail(2))),
        (128, Tail::Refuse, Ok(2)),
        (192, Tail::Until(second), Ok(2)),
        (127, Tail::Until(second), Err(RevFault::Missing)),
        (191, Tail::Until(NEVER), Err(RevFault::Missing)),
    ];
    for (len, tail, want) in cases {
        if len <= 192 {
            assert_eq!(rt; revisions(alloc, &INDEX[..len], tail), want, "{len}");
        }
    }
    Ok(())
}

#[test]
fn refuses_entries(rt: HostRuntime) -> Result<(), Fail> {
    let alloc = rt.alloc();
    let mut twice = INDEX;
    twice[96..116].copy_from_slice(&INDEX[32..52]);
    let mut null = INDEX;
    null[160..180].copy_from_slice(&[0; 20]);
    let cases = [
        (edited(3, 2), RevFault::Entry(0, EntryFault::Version)),
        (edited(69, 0xa6), RevFault::Offset(1)),
        (edited(91, 1), RevFault::Parent(1)),
        (twice, RevFault::Twice(1)),
        (null, RevFault::Twice(2)),
    ];
    for (index, want) in cases {
        assert_eq!(rt; revisions(alloc, &index, Tail::Refuse), Err(want));
    }
    // Nothing behind the wanted node is looked at.
    let mut node = [0u8; 20];
    node.copy_from_slice(&INDEX[96..116]);
    assert!(rt;
        revisions(alloc, &null, Tail::Until(Node(node))) == Ok(2)
            && revisions(alloc, &null, Tail::Until(NEVER)) == Err(RevFault::Twice(2))
    );
    Ok(())
}

// The length of the text that a chunk stands for.
fn text_len(alloc: Global, index: &[u8], rev: u32, chunk: &[u8]) -> Result<usize, RevFault> {
    let log = match Revlog::load(alloc, index, Tail::Refuse) {
        Ok(log) => log,
        Err(fault) => return Err(fault),
    };
    if rev >= log.len() || chunk.len() > log.entry(rev).stored as usize {
        return Err(RevFault::Missing);
    }
    match log.text(rev, chunk) {
        Ok(text) => Ok(text.len()),
        Err(fault) => Err(fault),
    }
}

#[test]
fn reads_texts(rt: HostRuntime) -> Result<(), Fail> {
    let alloc = rt.alloc();
    let mut zipped = SECOND;
    zipped[0] = 0x78;
    let mut changed = SECOND;
    changed[113] = b'2';
    assert!(rt;
        text_len(alloc, &INDEX, 0, &FIRST) == Ok(164)
            && text_len(alloc, &INDEX, 2, &THIRD) == Ok(96)
    );
    let cases = [
        (INDEX, SECOND, 114, Ok(113)),
        (edited(71, 1), SECOND, 114, Err(RevFault::Flagged(1))),
        (edited(83, 0), SECOND, 114, Err(RevFault::Delta(1))),
        (INDEX, SECOND, 113, Err(RevFault::Short(1))),
        (INDEX, zipped, 114, Err(RevFault::Compressed(1))),
        (edited(79, 0x72), SECOND, 114, Err(RevFault::Length(1))),
        (INDEX, changed, 114, Err(RevFault::Hash(1))),
    ];
    for (index, chunk, len, want) in cases {
        if len <= 114 {
            assert_eq!(rt; text_len(alloc, &index, 1, &chunk[..len]), want);
        }
    }
    Ok(())
}

// Adds a text without parents, told the chunk that stands where its node is there.
fn added(log: &Revlog, text: &[u8], chunk: &[u8]) -> Result<Added, RevFault>
    requires { log.now.inline ≡ false }
{
    let null = Node([0; 20]);
    let node = node_of(&null, &null, text);
    match log.rev_of(&node) {
        None => log.add(text, None, None, 0, None),
        Some(rev) => {
            if chunk.len() > log.entry(rev).stored as usize {
                return Err(RevFault::Missing);
            }
            log.add(text, None, None, 0, Some(chunk))
        }
    }
}

#[test]
fn a_first_entry(rt: HostRuntime) -> Result<(), Fail> {
    let log = Revlog::empty(rt.alloc(), false);
    let node = [
        0xb7, 0x89, 0xfd, 0xd9, 0x6d, 0xc2, 0xf3, 0xbd, 0x22, 0x9c, 0x1d, 0xd8, 0xee, 0xdf, 0x0f,
        0xc6, 0x0e, 0x2b, 0x68, 0xe3,
    ];
    let mut want = [0u8; 64];
    want[..32].copy_from_slice(
        b"\0\0\0\x01\0\0\0\0\0\0\0\x03\0\0\0\x02\0\0\0\0\0\0\0\0\xff\xff\xff\xff\xff\xff\xff\xff",
    );
    want[32..52].copy_from_slice(&node);
    match added(&log, b"a\n", b"") {
        Ok(
            Added::New {
                entry,
                chunk,
                node: _,
            },
        ) => {
            assert!(rt; entry == want && chunk.as_slice() == b"ua\n".as_slice());
        }
        _ => assert!(rt; false, "not new"),
    }
    Ok(())
}

#[test]
fn a_fault_says_what_it_is(rt: HostRuntime) {
    let cases = [
        (
            RevFault::Entry(3, EntryFault::Padding),
            "revision 3: a byte without meaning is not zero",
        ),
        (
            RevFault::Compressed(0),
            "the chunk of revision 0 is compressed",
        ),
        (RevFault::Limit(Which::Text), "limit 4 is passed"),
    ];
    for (fault, line) in cases {
        let text: InlineText<64> = InlineText::of(fault);
        assert_eq!(rt; text.as_str(), line);
    }
}
