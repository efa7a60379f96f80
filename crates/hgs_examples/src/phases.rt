//! Roots that Mercurial wrote, and the phases that they give.
use crate::given::given;
use hgs_index::node::Node;
use hgs_index::texts::node_from;
use hgs_model::phase::Phase;
use hgs_phases::phases::Phases;
use hgs_phases::roots::Roots;
use hgs_revlog::fault::{RevFault, Tail};
use hgs_revlog::revlog::Revlog;
use std::alloc::{AllocError, Global};
use std::test::Fail;

/// Two roots, as Mercurial wrote them.
const ROOTS: &[u8; 86] =
    b"1 894c3dab2277f4a5c33d31b8b5bd7c3c1f31e613\n2 ca2ecf7c9856b1683e3d0b1c0d16017400bdcd5f\n";

#[test]
fn roots_of_a_repository(rt: HostRuntime) -> Result<(), Fail> {
    let roots = given(Roots::read(rt.alloc(), ROOTS))?;
    assert_eq!(rt; roots.len(), 2);
    Ok(())
}

#[test]
fn phases_of_new_changesets(rt: HostRuntime) -> Result<(), Fail> {
    let known = Revlog::empty(rt.alloc(), false);
    let roots = given(Roots::read(rt.alloc(), ROOTS))?;
    let mut phases = given(roots.phases_of(rt.alloc(), &known))?;
    assert_eq!(rt; phases.len(), 0);
    let mut text = Vec::new(rt.alloc());
    given(phases.print(&known, &mut text))?;
    assert_eq!(rt; text.len(), 0);
    phases.push(Phase::Draft)?;
    assert!(rt; phases.len() == 1 && phases.get(0).name() == b"draft".as_slice());
    let copy = phases.copy()?;
    assert_eq!(rt; copy.len(), 1);
    Ok(())
}

/// Parents and node of each changeset of a repository that Mercurial made.
const HISTORY: [(Option<u32>, Option<u32>, &[u8; 40]); 16] = [
    (None, None, b"0fc2a8c13db253b8a61c86094398a5bc47ec4b40"),
    (Some(0), None, b"1e99772b4fc026d6313675deb3f188e76b4a2357"),
    (Some(1), None, b"abe9e1e50de1d26781b7e8fb171731c9ce49c2be"),
    (Some(2), None, b"d0ad189ab50df4ba90f56516238686dd198dbf2c"),
    (Some(0), None, b"5812ecd635fdc944b2452d648c688594374af7ed"),
    (
        Some(4),
        Some(3),
        b"c0919d73f162ec7c5862121d97d6c9fae88785e9",
    ),
    (Some(0), None, b"c5e62832e0b3892201719e2eeab05836e18fe977"),
    (Some(5), None, b"fab7e6b81b57480e7ddb4791e7ea547a011fe3a0"),
    (Some(7), None, b"8088adcce803c062bad145e068d78db24ff85022"),
    (Some(8), None, b"888be9510068ad213f8e605c2ddb000ceaa79fe1"),
    (
        Some(9),
        Some(6),
        b"b86974846a7bf6b6e4b075e7bac53886124b5b1c",
    ),
    (Some(10), None, b"a9ce9c1054d5ccd653671db641a4f7c56cf0df11"),
    (Some(11), None, b"922d7cea5c7adb5d3ce8acf5f54ce4f24dfef089"),
    (Some(0), None, b"2a0a90e2b04eec81518c00de0ce2dd582e16fa07"),
    (Some(13), None, b"52ef7e69eed11a978baddb9a0435ee49d002b587"),
    (Some(14), None, b"61d60cfad5eea4eb62003bb983fd190f03e46afd"),
];

/// Its roots, as Mercurial wrote them.
const HISTORY_ROOTS: &[u8; 172] =
    b"1 1e99772b4fc026d6313675deb3f188e76b4a2357\n1 2a0a90e2b04eec81518c00de0ce2dd582e16fa07\n1 c5e62832e0b3892201719e2eeab05836e18fe977\n2 922d7cea5c7adb5d3ce8acf5f54ce4f24dfef089\n";

fn parent_bytes(parent: Option<u32>) -> [u8; 4] {
    match parent {
        None => [0xff; 4],
        Some(rev) => rev.to_be_bytes(),
    }
}

/// The entry of a changeset whose text is empty.
fn entry(rev: u32, first: Option<u32>, second: Option<u32>, node: Node) -> [u8; 64] {
    let mut bytes = [0u8; 64];
    if rev == 0 {
        bytes[3] = 1;
    }
    bytes[16..20].copy_from_slice(&rev.to_be_bytes());
    bytes[20..24].copy_from_slice(&rev.to_be_bytes());
    bytes[24..28].copy_from_slice(&parent_bytes(first));
    bytes[28..32].copy_from_slice(&parent_bytes(second));
    bytes[32..52].copy_from_slice(&node.0);
    bytes
}

/// The changelog of the first changesets of the history.
fn changelog(alloc: Global, count: usize) -> Result<Revlog, RevFault> {
    let mut index = Vec::new(alloc);
    for (rev, (first, second, digits)) in HISTORY.iter().enumerate() {
        if let Some(node) = node_from(*digits) {
            if rev < count {
                index.extend_from_slice(&entry(rev as u32, *first, *second, node))?;
            }
        }
    }
    Revlog::load(alloc, &index, Tail::Refuse)
}

/// The digit of each changeset's phase.
fn digits(alloc: Global, phases: &Phases, known: &Revlog) -> Result<Vec<u8>, AllocError> {
    let mut digits = Vec::new(alloc);
    for rev in 0..known.len() {
        if (rev as usize) < phases.len() {
            digits.push(b'0' + phases.get(rev).number())?;
        }
    }
    Ok(digits)
}

#[derive(Clone, Copy)]
enum Move {
    Advance(u32, Phase),
    Retract(u32, Phase),
}

/// Whether the move was made.
fn make(phases: &mut Phases, known: &Revlog, a_move: Move) -> bool {
    if phases.len() != known.len() as usize {
        return false;
    }
    match a_move {
        Move::Advance(rev, to) => {
            if rev >= known.len() {
                return false;
            }
            phases.advance(rev, to, known);
        }
        Move::Retract(rev, to) => {
            if rev >= known.len() {
                return false;
            }
            phases.retract(rev, to, known);
        }
    }
    true
}

/// Moves of the history's phases, and the phases after them, worked out from the sets of ancestors.
const MOVES: [(&[Move], &[u8; 16]); 10] = [
    (&[], b"0111011111112111"),
    (&[Move::Advance(9, Phase::Public)], b"0000001000112111"),
    (&[Move::Advance(12, Phase::Draft)], b"0111011111111111"),
    (&[Move::Advance(15, Phase::Secret)], b"0111011111112111"),
    (
        &[
            Move::Advance(14, Phase::Public),
            Move::Advance(6, Phase::Public),
        ],
        b"0111010111112001",
    ),
    (&[Move::Retract(5, Phase::Secret)], b"0111021222222111"),
    (&[Move::Retract(0, Phase::Draft)], b"1111111111112111"),
    (
        &[
            Move::Retract(6, Phase::Secret),
            Move::Retract(14, Phase::Secret),
        ],
        b"0111012111222122",
    ),
    (
        &[
            Move::Retract(6, Phase::Secret),
            Move::Advance(10, Phase::Public),
        ],
        b"0000000000022111",
    ),
    (
        &[
            Move::Advance(12, Phase::Public),
            Move::Retract(4, Phase::Draft),
        ],
        b"0000110111111111",
    ),
];

#[test]
fn moved_phases(rt: HostRuntime) -> Result<(), Fail> {
    let alloc = rt.alloc();
    let known = given(changelog(alloc, 16))?;
    let roots = given(Roots::read(alloc, HISTORY_ROOTS))?;
    for (moves, want) in &MOVES {
        let mut phases = given(roots.phases_of(alloc, &known))?;
        for a_move in *moves {
            assert!(rt; make(&mut phases, &known, *a_move));
        }
        let found = given(digits(alloc, &phases, &known))?;
        assert_eq!(rt; found.as_slice(), want.as_slice());
    }
    Ok(())
}

#[test]
fn printed_roots(rt: HostRuntime) -> Result<(), Fail> {
    let alloc = rt.alloc();
    let known = given(changelog(alloc, 3))?;
    let roots = given(Roots::read(alloc, b"1 0fc2a8c13db253b8a61c86094398a5bc47ec4b40"))?;
    let mut phases = given(roots.phases_of(alloc, &known))?;
    let moves = [
        (
            Move::Advance(1, Phase::Public),
            b"1 abe9e1e50de1d26781b7e8fb171731c9ce49c2be\n",
        ),
        (
            Move::Retract(1, Phase::Secret),
            b"2 1e99772b4fc026d6313675deb3f188e76b4a2357\n",
        ),
    ];
    for (a_move, want) in &moves {
        assert!(rt; make(&mut phases, &known, *a_move));
        let mut text = Vec::new(alloc);
        if phases.len() == known.len() as usize {
            given(phases.print(&known, &mut text))?;
        }
        assert_eq!(rt; text.as_slice(), want.as_slice());
    }
    Ok(())
}
