use crate::given::given;
use hex::FromHex;
use hgs_index::node::{Node, node_of};
use std::test::Fail;

const NULL: &str = "0000000000000000000000000000000000000000";

const EMPTY: &str = "b80de5d138758541c5f05265ad144ab9fa86d1db";

const LETTER: &str = "b789fdd96dc2f3bd229c1dd8eedf0fc60e2b68e3";

// First parent, second parent, text, node. The last is a merge that Mercurial made, whose first parent is the greater node.
const ROWS: [(&str, &str, &[u8], &str); 5] = [
    (NULL, NULL, b"", EMPTY),
    (NULL, NULL, b"a\n", LETTER),
    (
        EMPTY,
        LETTER,
        b"b\n",
        "a7c7da5e1db8795f2843e19874b10883d7a4031a",
    ),
    (
        LETTER,
        EMPTY,
        b"b\n",
        "a7c7da5e1db8795f2843e19874b10883d7a4031a",
    ),
    (
        "ca8025bbcce357b1ebf95d21acea822a995daebd",
        "34705f480e83f7d3d93c909fb687456aa10b0b9e",
        b"d846942000c982134fc1a33a93659cb740082488\nt\n9 0\n\nm",
        "9d05b2de208aa71cfe60ba8ff10dc55c469ddbee",
    ),
];

fn node(digits: &str) -> Result<Node, Fail> {
    let node = given(<[u8; 20] as FromHex>::from_hex(digits))?;
    Ok(Node(node))
}

#[test]
fn hashes(rt: HostRuntime) -> Result<(), Fail> {
    for (p1, p2, text, want) in ROWS {
        let first = node(p1)?;
        let second = node(p2)?;
        let wanted = node(want)?;
        assert_eq!(rt; node_of(&first, &second, text), wanted, "{want}");
    }
    Ok(())
}
