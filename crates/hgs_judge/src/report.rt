//! Findings in their order, each once.
ghost use Rattle.std.specs.Prelude.{◌≡◌, ◌<◌, ◌^◌, ◌++◌, ℕ, List, Option, length, IfOk, OnOk, true};
ghost use Rattle.std.specs.List.{list_any};
ghost use Rattle.hgs_findings.specs.Findings.{is_finding, rise};
ghost use Rattle.hgs_judge.specs.Report.{each_from, findings_in, of_kinds, of_lacking, of_path, one_if};

use crate::kinds::Kinds;
use crate::path::PathFindings;
use hgs_files::path::StorePath;
use std::alloc::{AllocError, Global};

/// What was found: a file, a revision or a line of it or none, and a kind.
#[derive(Debug, PartialEq, Eq, PartialOrd, Ord, Drop)]
pub struct Finding {
    pub path: StorePath,
    pub rev: Option<u32>,
    pub kind: u8,
}

/// The findings by path, then by revision, none first, then by kind, each once.
pub fn in_order(mut findings: Vec<Finding>) -> Result<Vec<Finding>, AllocError>
    ensures rise { IfOk result (λ list. rise (findings_in list.items) ≡ true) }
    ensures same { IfOk result (λ list. (path : List ℕ) (rev : Option ℕ) (kind : ℕ) → list_any (is_finding path rev kind) (findings_in list.items) ≡ list_any (is_finding path rev kind) (findings_in findings.items)) }
{
    findings.sort()?;
    findings.dedup();
    Ok(findings)
}

/// Adds a finding of a revision where it is one.
pub fn add_if(
    alloc: Global,
    is: bool,
    path: &StorePath,
    rev: u32,
    kind: u8,
    into: &mut Vec<Finding>,
) -> Result<(), AllocError>
    ensures { OnOk result (findings_in into.new.items ≡ findings_in into.old.items ++ one_if is path.now rev kind) }
{
    if is {
        into.push(Finding {
            path: path.copy(alloc)?,
            rev: Some(rev),
            kind,
        })?;
    }
    Ok(())
}

/// Adds what is wrong with each revision.
pub fn add_kinds(
    alloc: Global,
    path: &StorePath,
    kinds: &[Kinds],
    into: &mut Vec<Finding>,
) -> Result<(), AllocError>
    requires { length kinds.now < 2 ^ 32 }
    ensures { OnOk result (findings_in into.new.items ≡ findings_in into.old.items ++ each_from (of_kinds path.now) 0 kinds.now) }
{
    for (rev, kind) in kinds.iter().enumerate() {
        add_if(alloc, kind.is_unneeded, path, rev as u32, 6, into)?;
        add_if(alloc, kind.is_misplaced, path, rev as u32, 7, into)?;
        add_if(alloc, kind.is_wrongly_made, path, rev as u32, 8, into)?;
    }
    Ok(())
}

// Adds the changesets whose trees have at the path what its filelog lacks.
fn add_lacking(
    alloc: Global,
    path: &StorePath,
    lacking: &[bool],
    into: &mut Vec<Finding>,
) -> Result<(), AllocError>
    requires { length lacking.now < 2 ^ 32 }
    ensures { OnOk result (findings_in into.new.items ≡ findings_in into.old.items ++ each_from (of_lacking path.now) 0 lacking.now) }
{
    for (rev, lacks) in lacking.iter().enumerate() {
        add_if(alloc, *lacks, path, rev as u32, 5, into)?;
    }
    Ok(())
}

/// Adds what is found of a path but the lists of changed files. The paths are those of its index and its data.
pub fn add_path(
    alloc: Global,
    index_file: &StorePath,
    data_file: &StorePath,
    found: &PathFindings,
    into: &mut Vec<Finding>,
) -> Result<(), AllocError>
    requires kinds { length found.now.kinds.items < 2 ^ 32 }
    requires lacking { length found.now.lacking.items < 2 ^ 32 }
    ensures { OnOk result (findings_in into.new.items ≡ findings_in into.old.items ++ of_path index_file.now data_file.now found.now) }
{
    add_if(alloc, found.broken, index_file, found.count, 3, into)?;
    add_lacking(alloc, index_file, &found.lacking, into)?;
    add_kinds(alloc, index_file, &found.kinds, into)?;
    add_if(alloc, found.index_rest, index_file, found.count, 17, into)?;
    add_if(alloc, found.data_rest, data_file, found.count, 17, into)
}
