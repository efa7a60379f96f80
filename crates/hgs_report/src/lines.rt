//! The nodes of the lines of `phaseroots` and of `bookmarks`.
ghost use Rattle.std.specs.Prelude.{◌≡◌, ◌<◌, ◌^◌, ◌++◌, ◌+◌, ◌-◌, List, ℕ, length, IfOk, OnOk, Vec, option_map};
ghost use Rattle.std.specs.declared.alloc.Global.{Global};
ghost use Rattle.hgs_index.specs.declared.node.Node.{Node};
ghost use Rattle.hgs_findings.specs.Sight.{value};
ghost use Rattle.hgs_marks.specs.Bookmarks.{mark_lines};
ghost use Rattle.hgs_marks.specs.Lines.{mark_values, node_values};
ghost use Rattle.hgs_phases.specs.Roots.{read_roots};
ghost use Rattle.hgs_judge.specs.Read.{AreRead, revisions_in};
ghost use Rattle.hgs_judge.specs.Report.{each_from, findings_in};
ghost use Rattle.hgs_report.specs.Lines.{file_if, of_line, of_lines, root_values};

use hgs_files::path::StorePath;
use hgs_index::node::Node;
use hgs_judge::reading::Reading;
use hgs_judge::report::{Finding, add_if};
use hgs_marks::fault::MarkFault;
use hgs_marks::lines::mark_nodes;
use hgs_phases::fault::RootsFault;
use hgs_phases::roots::{Root, Roots};
use std::alloc::{AllocError, Global};

/// Lines have numbers below this.
const MOST: usize = 0xFFFF_FFFF;

/// Adds a finding of a file where it is one.
pub fn add_file(
    alloc: Global,
    is: bool,
    path: &StorePath,
    kind: u8,
    into: &mut Vec<Finding>,
) -> Result<(), AllocError>
    ensures { OnOk result (findings_in into.new.items ≡ findings_in into.old.items ++ file_if is path.now kind) }
{
    if is {
        into.push(Finding {
            path: path.copy(alloc)?,
            rev: None,
            kind,
        })?;
    }
    Ok(())
}

fn nodes_of(alloc: Global, roots: &[Root]) -> Result<Vec<Node>, AllocError>
    ensures { IfOk result (λ nodes. node_values nodes.items ≡ root_values roots.now) }
{
    let mut nodes = Vec::with_capacity(alloc, roots.len())?;
    for root in roots {
        nodes.push(root.node)?;
    }
    Ok(nodes)
}

/// The nodes of the phase roots in a text, line by line; none where the text has a fault.
pub fn root_nodes(alloc: Global, text: &[u8]) -> Result<Option<Vec<Node>>, AllocError>
    ensures { IfOk result (λ nodes. option_map (λ (v : Vec Node Global). node_values v.items) nodes ≡ option_map root_values (value (read_roots text.now))) }
{
    match Roots::read(alloc, text) {
        Ok(roots) => Ok(Some(nodes_of(alloc, roots.as_slice())?)),
        Err(RootsFault::Memory) => Err(AllocError),
        Err(RootsFault::Line(_)) => Ok(None),
    }
}

/// The nodes of the bookmarks in a text, line by line; none where the text has a fault.
pub fn line_nodes(alloc: Global, text: &[u8]) -> Result<Option<Vec<Node>>, AllocError>
    ensures { IfOk result (λ nodes. option_map (λ (v : Vec Node Global). node_values v.items) nodes ≡ option_map mark_values (value (mark_lines text.now))) }
{
    match mark_nodes(alloc, text) {
        Ok(nodes) => Ok(Some(nodes)),
        Err(MarkFault::Memory) => Err(AllocError),
        Err(_) => Ok(None),
    }
}

// Adds a line whose node no changeset has.
fn add_line(
    alloc: Global,
    path: &StorePath,
    kind: u8,
    line: u32,
    node: &Node,
    changelog: &Reading,
    into: &mut Vec<Finding>,
) -> Result<(), AllocError>
    ensures { OnOk result ((data_bytes : List ℕ) → AreRead changelog.now.log.entries data_bytes → findings_in into.new.items ≡ findings_in into.old.items ++ of_line (revisions_in changelog.now.log.entries data_bytes) path.now kind line node.now.0) }
{
    add_if(
        alloc,
        changelog.place(node).is_none(),
        path,
        line,
        kind,
        into,
    )?;
    Ok(())
}

fn add_known(
    alloc: Global,
    path: &StorePath,
    kind: u8,
    nodes: &[Node],
    changelog: &Reading,
    into: &mut Vec<Finding>,
) -> Result<(), AllocError>
    requires { length nodes.now < 2 ^ 32 - 1 }
    ensures { OnOk result ((data_bytes : List ℕ) → AreRead changelog.now.log.entries data_bytes → findings_in into.new.items ≡ findings_in into.old.items ++ each_from (of_line (revisions_in changelog.now.log.entries data_bytes) path.now kind) 1 (node_values nodes.now)) }
{
    for (at, node) in nodes.iter().enumerate() {
        add_line(alloc, path, kind, at as u32 + 1, node, changelog, into)?;
    }
    Ok(())
}

/// Adds a text that can't be read, or its lines whose nodes no changeset has. The path is that of the text.
pub fn add_lines(
    alloc: Global,
    path: &StorePath,
    kind: u8,
    nodes: &Option<Vec<Node>>,
    changelog: &Reading,
    into: &mut Vec<Finding>,
) -> Result<(), AllocError>
    ensures { OnOk result ((data_bytes : List ℕ) → AreRead changelog.now.log.entries data_bytes → findings_in into.new.items ≡ findings_in into.old.items ++ of_lines (revisions_in changelog.now.log.entries data_bytes) path.now kind (option_map (λ (v : Vec Node Global). node_values v.items) nodes.now)) }
{
    match nodes {
        None => {
            add_file(alloc, true, path, 4, into)?;
        }
        Some(nodes) => {
            if nodes.len() >= MOST {
                return Err(AllocError);
            }
            add_known(alloc, path, kind, nodes, changelog, into)?;
        }
    }
    Ok(())
}
