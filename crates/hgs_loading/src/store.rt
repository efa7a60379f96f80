//! What a writer reads of a repository before it plans.
ghost use Rattle.std.specs.Prelude.{◌≡◌, ◌<◌, true, length, IfOk, IfSome};
ghost use Rattle.hgs_bytes.specs.Answer.{Gives};
ghost use Rattle.hgs_files.specs.Reads.{Grows};
ghost use Rattle.hgs_revlog.specs.Loaded.{AreEntries};
ghost use Rattle.hgs_load.specs.Answer.{is_of_outside, HasFaultCause, NeverFaults};
ghost use Rattle.hgs_load.specs.View.{changelog_index, changelog_data};
ghost use Rattle.hgs_loading.specs.Found.{AtRest, Finds};
ghost use Rattle.hgs_loading.specs.Small.{view_small};
ghost use Rattle.hgs_loading.specs.Store.{HaveGrown, loaded_with, logs_in, loaded_in, view_logs, view_store};

use crate::grown::load_whole_on;
use crate::small::{SmallFiles, read_small};
use hgs_files::files::Reads;
use hgs_files::path::path_of;
use hgs_load::answer::ReadAnswer;
use hgs_load::marks::{WorkingNodes, WorkingParents, working_parents_of};
use hgs_phases::phases::Phases;
use hgs_reader::contents::manifest_paths;
use hgs_reader::find::RevlogPaths;
use hgs_revlog::laws::either_form;
use hgs_revlog::revlog::Revlog;
use std::alloc::{AllocError, Global};

/// What was read: the small files, the two revlogs, and what follows from these.
#[derive(Drop)]
pub struct LoadedStore {
    pub files: SmallFiles,
    pub changelog: Revlog,
    pub manifest: Revlog,
    /// The changesets that are the working parents.
    pub working: WorkingParents,
    /// The phase of each changeset.
    pub phases: Phases,
}

/// The changelog and the manifest's revlog.
#[derive(Drop)]
pub struct Logs {
    pub changelog: Revlog,
    pub manifest: Revlog,
}

impl Logs {
    ghost use Rattle.std.specs.Prelude.{◌≡◌, false, []};
    ghost use Rattle.hgs_files.specs.Tree.{Tree};
    ghost use Rattle.hgs_revlog.specs.Loaded.{AreEntries};
    ghost use Rattle.hgs_loading.specs.Store.{HaveGrown, view_logs};

    /// Two without revisions: whatever their indexes have was appended. Takes no memory.
    pub fn none(alloc: Global) -> Logs
        ensures changelog { result.changelog ≡ record { inline = false; entries = [] } }
        ensures manifest { result.manifest ≡ record { inline = false; entries = [] } }
        ensures entries { AreEntries result.changelog.entries × AreEntries result.manifest.entries }
        ensures grown { (t : Tree) → HaveGrown (view_logs result) t }
    {
        either_form();
        Logs {
            changelog: Revlog::empty(alloc, false),
            manifest: Revlog::empty(alloc, false),
        }
    }
}

/// The files of the changelog.
pub fn changelog_paths(alloc: Global) -> Result<RevlogPaths, AllocError>
    ensures { IfOk result (λ paths. (paths.index ≡ changelog_index) × (paths.chunks ≡ changelog_data)) }
{
    Ok(RevlogPaths {
        index: path_of(alloc, b"store/00changelog.i")?,
        chunks: path_of(alloc, b"store/00changelog.d")?,
    })
}

// What was read, with the working parents and the phases.
fn history_of(alloc: Global, small: SmallFiles, logs: Logs) -> Result<LoadedStore, ReadAnswer>
    ensures history { Gives is_of_outside view_store result (loaded_with (view_small small) logs.changelog logs.manifest) }
    ensures first { IfOk result (λ h. IfSome h.working.first (λ rev. rev < length h.changelog.entries)) }
    ensures second { IfOk result (λ h. IfSome h.working.second (λ rev. rev < length h.changelog.entries)) }
    ensures logs { IfOk result (λ h. (h.changelog ≡ logs.changelog) × (h.manifest ≡ logs.manifest)) }
    ensures phases { IfOk result (λ h. length h.phases ≡ length h.changelog.entries) }
    ensures inner { NeverFaults result }
{
    let Logs {
        changelog,
        manifest,
    } = logs;
    let nodes = WorkingNodes {
        p1: small.dirstate.dirstate.p1,
        p2: small.dirstate.dirstate.p2,
    };
    let path = path_of(alloc, b"dirstate")?;
    let working = match working_parents_of(alloc, &path, &changelog, &nodes) {
        Ok(working) => working,
        Err(refusal) => return Err(refusal),
    };
    let phases = small.roots.roots.phases_of(alloc, &changelog)?;
    Ok(LoadedStore {
        files: small,
        changelog,
        manifest,
        working,
        phases,
    })
}

// Loads the changelog and the manifest's revlog, each in the form that its index says, in this order, and tests the ends of
// their data files. They were loaded as these before, and nothing was done to their indexes since but that bytes were appended.
fn load_logs_on<R: Reads>(alloc: Global, files: &mut R, logs: Logs) -> Result<Logs, ReadAnswer>
    requires changelog { AreEntries logs.changelog.entries }
    requires manifest { AreEntries logs.manifest.entries }
    requires grown { AtRest R.alone (R.seen files.old) (R.start files.old) (HaveGrown (view_logs logs)) }
    ensures found { Finds view_logs R.alone (R.seen files.new) (R.start files.new) logs_in result }
    ensures changelog { IfOk result (λ l. AreEntries l.changelog.entries) }
    ensures manifest { IfOk result (λ l. AreEntries l.manifest.entries) }
    ensures seen { Grows (R.seen files.old) (R.seen files.new) }
    ensures same_start { R.start files.new ≡ R.start files.old }
    ensures still { R.alone ≡ true → R.seen files.new ≡ R.seen files.old }
    ensures cause { HasFaultCause (R.faults files.old) (R.faults files.new) (R.denied files.old) (R.denied files.new) result }
{
    let paths = changelog_paths(alloc)?;
    let tree_paths = manifest_paths(alloc)?;
    let Logs {
        changelog,
        manifest,
    } = logs;
    let changelog = load_whole_on(alloc, files, &paths, changelog)?;
    let manifest = load_whole_on(alloc, files, &tree_paths, manifest)?;
    Ok(Logs {
        changelog,
        manifest,
    })
}

/// Reads what `history` reads, where the two revlogs were loaded as these before and nothing was done to their indexes since but
/// that bytes were appended: of these only what was appended is read.
pub fn history_on<R: Reads>(
    alloc: Global,
    files: &mut R,
    logs: Logs,
) -> Result<LoadedStore, ReadAnswer>
    requires changelog { AreEntries logs.changelog.entries }
    requires manifest { AreEntries logs.manifest.entries }
    requires grown { AtRest R.alone (R.seen files.old) (R.start files.old) (HaveGrown (view_logs logs)) }
    ensures found { Finds view_store R.alone (R.seen files.new) (R.start files.new) loaded_in result }
    ensures changelog { IfOk result (λ h. AreEntries h.changelog.entries) }
    ensures manifest { IfOk result (λ h. AreEntries h.manifest.entries) }
    ensures first { IfOk result (λ h. IfSome h.working.first (λ rev. rev < length h.changelog.entries)) }
    ensures second { IfOk result (λ h. IfSome h.working.second (λ rev. rev < length h.changelog.entries)) }
    ensures phases { IfOk result (λ h. length h.phases ≡ length h.changelog.entries) }
    ensures seen { Grows (R.seen files.old) (R.seen files.new) }
    ensures same_start { R.start files.new ≡ R.start files.old }
    ensures still { R.alone ≡ true → R.seen files.new ≡ R.seen files.old }
    ensures cause { HasFaultCause (R.faults files.old) (R.faults files.new) (R.denied files.old) (R.denied files.new) result }
{
    let small = read_small(alloc, files)?;
    let logs = load_logs_on(alloc, files, logs)?;
    match history_of(alloc, small, logs) {
        Ok(history) => Ok(history),
        Err(refusal) => Err(refusal),
    }
}

/// Reads the small files, the changelog and the manifest's revlog, in this order, and tests the ends of their data files.
/// That the working parents are in the history is tested last.
pub fn history<R: Reads>(alloc: Global, files: &mut R) -> Result<LoadedStore, ReadAnswer>
    ensures found { Finds view_store R.alone (R.seen files.new) (R.start files.new) loaded_in result }
    ensures changelog { IfOk result (λ h. AreEntries h.changelog.entries) }
    ensures manifest { IfOk result (λ h. AreEntries h.manifest.entries) }
    ensures first { IfOk result (λ h. IfSome h.working.first (λ rev. rev < length h.changelog.entries)) }
    ensures second { IfOk result (λ h. IfSome h.working.second (λ rev. rev < length h.changelog.entries)) }
    ensures phases { IfOk result (λ h. length h.phases ≡ length h.changelog.entries) }
    ensures seen { Grows (R.seen files.old) (R.seen files.new) }
    ensures same_start { R.start files.new ≡ R.start files.old }
    ensures still { R.alone ≡ true → R.seen files.new ≡ R.seen files.old }
    ensures cause { HasFaultCause (R.faults files.old) (R.faults files.new) (R.denied files.old) (R.denied files.new) result }
{
    match history_on(alloc, files, Logs::none(alloc)) {
        Ok(history) => Ok(history),
        Err(refusal) => Err(refusal),
    }
}
