//! Files that Mercurial wrote and values of its formats.
ghost use Rattle.std.specs.Prelude.{false};

use crate::given::given;
use hgs_files::path::StorePath;
use hgs_index::kinds::Flag;
use hgs_index::node::Node;
use hgs_judge::kinds::{Naming, Rule, judge};
use hgs_judge::path::judge_path;
use hgs_judge::reading::read;
use hgs_judge::report::{Finding, in_order};
use hgs_judge::words::{Found, Word};
use std::alloc::Global;
use std::test::Fail;

// The node of an empty file, and the index of a filelog that has it alone.
const EMPTY: [u8; 20] = *b"\xb8\x0d\xe5\xd18u\x85A\xc5\xf0Re\xad\x14J\xb9\xfa\x86\xd1\xdb";

const INDEX: [u8; 64] =
    *b"\x00\x00\x00\x01\x00\x00\x00\x00\x00\x00\x00\x00\x00\x00\x00\x00\x00\x00\x00\x00\x00\x00\x00\x00\xff\xff\xff\xff\xff\xff\xff\xff\xb8\x0d\xe5\xd18u\x85A\xc5\xf0Re\xad\x14J\xb9\xfa\x86\xd1\xdb\x00\x00\x00\x00\x00\x00\x00\x00\x00\x00\x00\x00";

const NO_PARENTS: (Option<u32>, Option<u32>) = (None, None);

fn word(parents: (Option<u32>, Option<u32>), found: Found, listed: bool) -> Word {
    Word {
        parents,
        found,
        listed: Some(listed),
    }
}

#[test]
fn reads_up_to_the_first_fault(rt: HostRuntime) -> Result<(), Fail> {
    let alloc = rt.alloc();
    let whole = given(read(alloc, &INDEX, b""))?;
    assert!(rt;
        whole.log.len() == 1
            && !whole.broken
            && whole.has_data_rest(b"x")
            && !whole.has_index_rest(&INDEX)
            && whole.place(&Node(EMPTY)) == Some(0)
    );
    let links = given(whole.links(alloc))?;
    assert_eq!(rt; links.as_slice(), [0].as_slice());
    let text = whole.text(0, b"");
    assert_eq!(rt; text.len(), 0);
    let mut index = INDEX;
    index[35] = 0;
    let broken = given(read(alloc, &index, b""))?;
    assert!(rt; broken.log.len() == 0 && broken.broken);
    Ok(())
}

#[test]
fn judges_a_path(rt: HostRuntime) -> Result<(), Fail> {
    let alloc = rt.alloc();
    let there = Found::File(Node(EMPTY), Flag::Plain);
    let first = word(NO_PARENTS, there, true);
    let removed = word((Some(0), None), Found::Nothing, false);
    let lost = word(NO_PARENTS, Found::File(Node([7; 20]), Flag::Plain), true);
    let found = given(judge_path(alloc, &INDEX, b"", &[first, removed, lost]))?;
    assert!(rt;
        found.count == 1
            && found.listed_wrongly.as_slice() == [false, true, false].as_slice()
            && found.lacking.as_slice() == [false, false, true].as_slice()
    );
    for kinds in found.kinds.iter() {
        assert!(rt; !kinds.is_unneeded && !kinds.is_misplaced && !kinds.is_wrongly_made);
    }
    let needless = given(judge_path(alloc, &INDEX, b"", &[lost]))?;
    for kinds in needless.kinds.iter() {
        assert!(rt; kinds.is_unneeded);
    }
    Ok(())
}

#[test]
fn judges_revisions(rt: HostRuntime) -> Result<(), Fail> {
    let alloc = rt.alloc();
    let parents = [NO_PARENTS, (Some(0), None)];
    let namings = [
        Some(Naming {
            rev: 1,
            rule: Rule::Makes(NO_PARENTS),
        }),
        None,
        Some(Naming {
            rev: 0,
            rule: Rule::Keeps(0),
        }),
    ];
    let kinds = given(judge(alloc, &parents, &[2, 2], &namings))?;
    let mut misplaced = Vec::new(alloc);
    let mut wrong = Vec::new(alloc);
    for kind in kinds.iter() {
        misplaced.push(kind.is_misplaced)?;
        wrong.push(kind.is_wrongly_made)?;
    }
    assert!(rt;
        misplaced.as_slice() == [false, true].as_slice()
            && wrong.as_slice() == [false, true].as_slice()
    );
    Ok(())
}

fn finding(alloc: Global, rev: Option<u32>, kind: u8) -> Result<Finding, Fail> {
    let path = given(StorePath::new(alloc, b"store/00changelog.i"))?;
    Ok(Finding { path, rev, kind })
}

#[test]
fn orders_findings(rt: HostRuntime) -> Result<(), Fail> {
    let alloc = rt.alloc();
    let mut findings = Vec::new(alloc);
    for (rev, kind) in [(Some(2), 17), (Some(0), 9), (None, 12), (Some(0), 9)] {
        let found = finding(alloc, rev, kind)?;
        findings.push(found)?;
    }
    let ordered = given(in_order(findings))?;
    let mut kinds = Vec::new(alloc);
    for found in ordered.iter() {
        kinds.push(found.kind)?;
    }
    assert_eq!(rt; kinds.as_slice(), [12, 9, 17].as_slice());
    Ok(())
}
