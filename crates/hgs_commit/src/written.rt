//! The parts of a commit's transaction, put together of what is appended and replaced.
ghost use Rattle.std.specs.Prelude.{◌≡◌, ◌≤◌, ◌<◌, ◌+◌, ◌++◌, ◌∷◌, [], ◌^◌, true, length, nat_lt, IsOk, Some, None, IfOk, IfSome, OnOk};
ghost use Rattle.std.specs.Option.{option_map};
ghost use Rattle.hgs_bytes.specs.Answer.{Gives};
ghost use Rattle.hgs_loading.specs.Small.{fncache_path};
ghost use Rattle.hgs_steps.specs.Fault.{is_memory};
ghost use Rattle.hgs_commit.specs.Commit.{entries_with, new_phase, new_roots, replaced_after, step_of, view_written};
ghost use Rattle.hgs_commit.specs.Texts.{changes_of, view_growth};
ghost use Rattle.std.specs.List.{All, list_all};
ghost use Rattle.hgs_index.specs.TrackedPath.{is_tracked};
ghost use Rattle.hgs_model.specs.Valid.{IsNewChange, new_paths};
ghost use Rattle.hgs_model.specs.Phase.{phase_number};
ghost use Rattle.hgs_phases.specs.Phases.{parent_phase};
ghost use Rattle.hgs_revlog.specs.Load.{entry_behind};
ghost use Rattle.hgs_revlog.specs.Loaded.{AreEntries};
ghost use Rattle.hgs_commit.specs.Roots.{AreBefore, inherited};
ghost use Rattle.hgs_load.specs.View.{changelog_index};
ghost use Rattle.hgs_reader.specs.Contents.{manifest_index};
ghost use Rattle.hgs_commit.specs.Appended.{append_some, is_beside, optional_append};
ghost use Rattle.hgs_steps.specs.Steps.{CanBeAssembled};
ghost use Rattle.hgs_transaction.specs.declared.parts.ReplacedFile.TheVariants.{PhaseRoots};
ghost use Rattle.hgs_commit.specs.OfCommit.{ArePartsOfCommit, AreReplacedAfter, optional_replace};
ghost use Rattle.hgs_commit.specs.Pushed.{AppendsTo, Pushes};

use crate::appended::Growth;
use crate::new_text::NewText;
use hgs_bytes::bytes::Bytes;
use hgs_bytes::names::Names;
use hgs_files::path::path_of;
use hgs_index::entry::Entry;
use hgs_index::node::Node;
use hgs_model::command::NewChange;
use hgs_model::files::NewFile;
use hgs_model::phase::Phase;
use hgs_phases::phases::Phases;
use hgs_revlog::revlog::{Revlog, separate_entry};
use hgs_steps::fault::PlanFault;
use hgs_steps::loaded::Loaded;
use hgs_steps::replaced::{replace_bookmarks, replace_dirstate, replace_roots};
use hgs_steps::step::Step;
use hgs_transaction::parts::{Appending, Change, Changes, Parts, Replacing, Replacings};
use std::alloc::{AllocError, Global};

/// What a commit appends, and what the text of its changeset became.
#[derive(Drop)]
pub struct Texts {
    pub filelogs: Vec<Change>,
    /// The lines of new filelogs.
    pub lines: Vec<u8>,
    pub manifest: Option<Growth>,
    pub changeset: NewText,
}

/// What a commit appends, and its node.
#[derive(Drop)]
pub struct Written {
    pub filelogs: Vec<Change>,
    /// The lines of new filelogs.
    pub lines: Vec<u8>,
    pub manifest: Option<Growth>,
    pub changeset: Growth,
    pub node: Node,
}

// The phase of the new changeset: the greatest of the parents' phases and the one asked for.
fn new_phase(loaded: &Loaded, parents: (Option<u32>, Option<u32>), asked: Phase) -> Phase
    requires first { IfSome parents.0 (λ r. r < length loaded.now.changelog.entries) }
    requires second { IfSome parents.1 (λ r. r < length loaded.now.changelog.entries) }
    ensures { result ≡ new_phase loaded.now parents asked }
{
    let (first, second) = parents;
    let phase = match first {
        Some(rev) => asked.or_greater(loaded.phases.get(rev)),
        None => asked,
    };
    match second {
        Some(rev) => phase.or_greater(loaded.phases.get(rev)),
        None => phase,
    }
}

// The changelog with the new entry.
fn next_changelog(loaded: &Loaded, entry: &[u8; 64]) -> Result<Revlog, AllocError>
    requires { IsOk (entry_behind loaded.now.changelog.entries entry.now) }
    ensures entries { IfOk result (λ log. log.entries ≡ entries_with loaded.now.changelog.entries entry.now) }
    ensures count { IfOk result (λ log. length log.entries ≡ length loaded.now.changelog.entries + 1) }
{
    let mut changelog = loaded.changelog.copy()?;
    match changelog.push(entry) {
        Ok(()) => Ok(changelog),
        Err(_) => Err(AllocError),
    }
}

// The phases with the new changeset's.
fn next_phases(loaded: &Loaded, phase: Phase) -> Result<Phases, AllocError>
    ensures phases { IfOk result (λ phases. phases ≡ loaded.now.phases ++ phase ∷ []) }
    ensures count { IfOk result (λ phases. length phases ≡ length loaded.now.changelog.entries + 1) }
{
    let mut phases = loaded.phases.copy()?;
    phases.push(phase)?;
    Ok(phases)
}

// The phase of a parent, public where there is none.
fn parent_phase(loaded: &Loaded, parent: Option<u32>) -> Phase
    requires { IfSome parent (λ r. r < length loaded.now.changelog.entries) }
    ensures { result ≡ parent_phase loaded.now.phases parent }
{
    match parent {
        Some(rev) => loaded.phases.get(rev),
        None => Phase::Public,
    }
}

// Whether the phase of a new changeset with this entry is greater than each parent's.
fn is_root(loaded: &Loaded, phase: Phase, entry: &Entry) -> bool
    requires { AreBefore (length loaded.now.changelog.entries) entry.now }
    ensures { result ≡ nat_lt (phase_number (inherited loaded.now.phases entry.now)) (phase_number phase) }
{
    let inherited = parent_phase(loaded, entry.p1).or_greater(parent_phase(loaded, entry.p2));
    inherited.number() < phase.number()
}

// Whether the same roots are written as before, since a parent of the new changeset has its phase or a greater one.
fn has_old_roots(loaded: &Loaded, phase: Phase, entry: &[u8; 64]) -> bool
    requires entry { IsOk (entry_behind loaded.now.changelog.entries entry.now) }
    requires entries { AreEntries loaded.now.changelog.entries }
    ensures { result ≡ true → new_roots loaded.now phase entry.now ≡ None }
{
    match separate_entry(entry, loaded.changelog.len()) {
        Ok(entry) => !is_root(loaded, phase, &entry),
        Err(_) => false,
    }
}

// The phase roots behind the commit, none where the same text is written of them as before.
fn new_roots(
    alloc: Global,
    loaded: &Loaded,
    phase: Phase,
    entry: &[u8; 64],
) -> Result<Option<Replacing>, AllocError>
    requires entry { IsOk (entry_behind loaded.now.changelog.entries entry.now) }
    requires entries { AreEntries loaded.now.changelog.entries }
    ensures roots { IfOk result (λ roots. roots ≡ new_roots loaded.now phase entry.now) }
    ensures file { IfOk result (λ roots. IfSome roots (λ x. x.file ≡ PhaseRoots)) }
{
    if has_old_roots(loaded, phase, entry) {
        return Ok(None);
    }
    let phases = next_phases(loaded, phase)?;
    let changelog = next_changelog(loaded, entry)?;
    replace_roots(alloc, loaded, &phases, &changelog)
}

// Adds the append of lines to the list of filelogs, if there are some.
fn push_lines(
    alloc: Global,
    loaded: &Loaded,
    lines: Vec<u8>,
    into: &mut Vec<Change>,
) -> Result<(), AllocError>
    requires { list_all is_beside into.old.items ≡ true }
    ensures ok { OnOk result (into.new.items ≡ into.old.items ++ append_some fncache_path loaded.now.fncache_length lines.items) }
    ensures count { OnOk result (length into.new.items ≤ length into.old.items + 1) }
    ensures beside { OnOk result (list_all is_beside into.new.items ≡ true) }
{
    if lines.is_empty() {
        return Ok(());
    }
    into.push(Change::Append(Appending {
        path: path_of(alloc, b"store/fncache")?,
        before: loaded.fncache_length,
        bytes: Bytes::from_vec(lines),
    }))?;
    Ok(())
}

// The paths of the new tree.
fn new_paths(alloc: Global, files: &[NewFile]) -> Result<Names, AllocError>
    requires { list_all is_tracked (new_paths files.now) ≡ true }
    ensures paths { IfOk result (λ paths. paths ≡ new_paths files.now) }
    ensures short { IfOk result (λ paths. All (λ path. length path < 2 ^ 32) paths) }
{
    let mut paths = Names::new(alloc);
    let mut rest = files;
    while let Some((file, behind)) = rest.split_first() {
        paths.push(file.path.copy(alloc)?)?;
        rest = behind;
    }
    Ok(paths)
}

// The files whose new texts are renamed behind the publishing operation.
fn replaced_after(
    alloc: Global,
    loaded: &Loaded,
    change: &NewChange,
    node: Node,
) -> Result<Replacings, PlanFault>
    requires { IsNewChange change.now }
    ensures after { Gives is_memory (λ after. after) result (replaced_after loaded.now change.now node.0) }
    ensures files { IfOk result AreReplacedAfter }
{
    let mut after = Vec::new(alloc);
    let paths = new_paths(alloc, change.files.as_slice())?;
    after.push(replace_dirstate(alloc, loaded, node, paths)?)?;
    if let Some(name) = &change.bookmark {
        after.push(replace_bookmarks(alloc, loaded, name.as_slice(), node)?)?;
    }
    Ok(Replacings::from_vec(after))
}

// The appends before the publishing one: to the filelogs, to their list, to the manifest and to the changelog's data.
fn appends_before(
    alloc: Global,
    loaded: &Loaded,
    filelogs: Vec<Change>,
    lines: Vec<u8>,
    manifest: Option<Growth>,
    chunk: Option<Appending>,
) -> Result<Vec<Change>, AllocError>
    requires few { length filelogs.items ≤ 40000 }
    requires beside { list_all is_beside filelogs.items ≡ true }
    requires manifest { AppendsTo manifest_index loaded.now.manifest manifest }
    requires chunk { list_all is_beside (optional_append chunk) ≡ true }
    ensures appends { IfOk result (λ appends. appends.items ≡ filelogs.items ++ (append_some fncache_path loaded.now.fncache_length lines.items ++ (changes_of (option_map view_growth manifest) ++ optional_append chunk))) }
    ensures few { IfOk result (λ appends. length appends.items ≤ 40010) }
    ensures beside { IfOk result (λ appends. list_all is_beside appends.items ≡ true) }
{
    let mut appends = filelogs;
    push_lines(alloc, loaded, lines, &mut appends)?;
    if let Some(growth) = manifest {
        growth.push_to(&mut appends)?;
    }
    if let Some(chunk) = chunk {
        appends.push(Change::Append(chunk))?;
    }
    Ok(appends)
}

// The appends, and behind them the new phase roots, if there are some.
fn with_roots(appends: Vec<Change>, roots: Option<Replacing>) -> Result<Vec<Change>, AllocError>
    ensures { IfOk result (λ changes. changes.items ≡ appends.items ++ optional_replace roots) }
{
    let mut changes = appends;
    if let Some(roots) = roots {
        changes.push(Change::Replace(roots))?;
    }
    Ok(changes)
}

/// The step of a commit of which nothing is met that keeps it from being written.
pub fn step_of(
    alloc: Global,
    loaded: &Loaded,
    change: &NewChange,
    parents: (Option<u32>, Option<u32>),
    written: Written,
) -> Result<Step, PlanFault>
    requires valid { IsNewChange change.now }
    requires first { IfSome parents.0 (λ r. r < length loaded.now.changelog.entries) }
    requires second { IfSome parents.1 (λ r. r < length loaded.now.changelog.entries) }
    requires entries { AreEntries loaded.now.changelog.entries }
    requires pushes { Pushes loaded.now.changelog (Some written.changeset) }
    requires index { AppendsTo changelog_index loaded.now.changelog (Some written.changeset) }
    requires manifest { AppendsTo manifest_index loaded.now.manifest written.manifest }
    requires few { length written.filelogs.items ≤ 40000 }
    requires beside { list_all is_beside written.filelogs.items ≡ true }
    ensures step { Gives is_memory (λ step. step) result (step_of loaded.now change.now parents (view_written written)) }
    ensures ready { IfOk result (λ step. CanBeAssembled step.parts) }
    ensures parts { IfOk result (λ step. ArePartsOfCommit loaded.now.changelog step.parts) }
    ensures rev { IfOk result (λ step. step.rev ≡ length loaded.now.changelog.entries) }
    ensures node { IfOk result (λ step. step.node ≡ written.node) }
{
    let Written {
        filelogs,
        lines,
        manifest,
        changeset,
        node,
    } = written;
    let rev = loaded.changelog.len();
    let Growth {
        chunk,
        entry,
        new_entry,
    } = changeset;
    let appends = appends_before(alloc, loaded, filelogs, lines, manifest, chunk)?;
    let phase = new_phase(loaded, parents, change.phase);
    let roots = new_roots(alloc, loaded, phase, &new_entry)?;
    let before = with_roots(appends, roots)?;
    let after = replaced_after(alloc, loaded, change, node)?;
    let parts = Parts {
        before: Changes::from_vec(before),
        publishing: Change::Append(entry),
        after,
    };
    Ok(Step { parts, rev, node })
}
