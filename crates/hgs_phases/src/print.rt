// Printing the roots of phases.
ghost use Rattle.std.specs.Prelude.{◌≡◌, ◌<◌, ◌++◌, length, OnOk, OnErr};
ghost use Rattle.hgs_bytes.specs.Bytes.{IsPrefixOf};
ghost use Rattle.hgs_model.specs.declared.phase.Phase.TheVariants.{Draft, Secret};
ghost use Rattle.hgs_phases.specs.Printed.{is_root, root_at, roots_in, written_roots};
ghost use Rattle.hgs_phases.specs.Roots.{root_text, roots_text};

use crate::phases::{Phases, inherited, phase_at};
use crate::roots::Root;
use hgs_index::entry::Entry;
use hgs_index::texts::hex_of;
use hgs_model::phase::Phase;
use hgs_revlog::revlog::Revlog;
use std::alloc::AllocError;

/// Adds the line of a root; where there is no memory, a part of it.
fn print_root(root: Root, into: &mut Vec<u8>) -> Result<(), AllocError>
    ensures ok { OnOk result (into.new.items ≡ into.old.items ++ root_text root) }
    ensures front { IsPrefixOf into.old.items into.new.items }
{
    into.push(b'0' + root.phase.number())?;
    into.push(b' ')?;
    into.extend_from_slice(hex_of(&root.node).as_slice())?;
    into.push(b'\n')?;
    Ok(())
}

fn is_root(phase: Phase, phases: &[Phase], rev: u32, entry: &Entry) -> bool
    ensures { result ≡ is_root phase phases.now rev entry.now }
{
    phase_at(phases, rev).number() == phase.number()
        && inherited(phases, entry).number() < phase.number()
}

/// Adds the line of a changeset where it is a root of the phase; where there is no memory, a part of it.
fn print_at(
    phase: Phase,
    phases: &[Phase],
    rev: u32,
    entry: &Entry,
    into: &mut Vec<u8>,
) -> Result<(), AllocError>
    ensures ok { OnOk result (into.new.items ≡ into.old.items ++ roots_text (root_at phase phases.now rev entry.now)) }
    ensures front { IsPrefixOf into.old.items into.new.items }
{
    if !is_root(phase, phases, rev, entry) {
        return Ok(());
    }
    let node = entry.node;
    print_root(Root { phase, node }, into)
}

/// Adds the lines of the roots of a phase; where there is no memory, a part of them.
fn print_in(
    phase: Phase,
    phases: &[Phase],
    known: &Revlog,
    into: &mut Vec<u8>,
) -> Result<(), AllocError>
    ensures ok { OnOk result (into.new.items ≡ into.old.items ++ roots_text (roots_in phase phases.now 0 known.now.entries)) }
    ensures front { IsPrefixOf into.old.items into.new.items }
{
    for rev in 0..known.len() {
        print_at(phase, phases, rev, known.entry(rev), into)?;
    }
    Ok(())
}

/// Adds the lines of all roots; where there is no memory, a part of them.
fn print_roots(phases: &[Phase], known: &Revlog, into: &mut Vec<u8>) -> Result<(), AllocError>
    ensures ok { OnOk result (into.new.items ≡ into.old.items ++ (roots_text (roots_in Draft phases.now 0 known.now.entries) ++ roots_text (roots_in Secret phases.now 0 known.now.entries))) }
    ensures front { IsPrefixOf into.old.items into.new.items }
{
    print_in(Phase::Draft, phases, known, into)?;
    print_in(Phase::Secret, phases, known, into)?;
    Ok(())
}

impl Phases {
    /// Adds the text of the roots that give these phases to the changesets of `known`, or changes nothing where there is no
    /// memory.
    #[tactic(auto, using(crate::proofs::PrintLemmas::text_append))]
    pub fn print(&self, known: &Revlog, into: &mut Vec<u8>) -> Result<(), AllocError>
        requires { length self.now ≡ length known.now.entries }
        ensures ok { OnOk result (into.new.items ≡ into.old.items ++ roots_text (written_roots self.now known.now.entries)) }
        ensures err { OnErr result (into.new.items ≡ into.old.items) }
    {
        let before = into.len();
        match print_roots(&self.phases, known, into) {
            Ok(()) => Ok(()),
            Err(_) => {
                into.truncate(before);
                Err(AllocError)
            }
        }
    }
}
