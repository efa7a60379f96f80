//! The plan of an import: each record on the repository that the ones before it would leave.
ghost use Rattle.std.specs.Prelude.{◌≡◌, ◌≤◌, true, flat_map, length, map, IfOk, OnOk};
ghost use Rattle.hgs_commit.specs.Commit.{AtRest};
ghost use Rattle.hgs_commit.specs.Fault.{HasCause};
ghost use Rattle.hgs_commit.specs.Known.{AreKept, AreUntouched};
ghost use Rattle.hgs_files.specs.Tree.{Tree, after_all};
ghost use Rattle.hgs_loading.specs.Store.{HaveGrown, view_logs};
ghost use Rattle.hgs_machine.specs.Sound.{AreSound};
ghost use Rattle.hgs_model.specs.Valid.{AreNewChanges, IsNewChange};
ghost use Rattle.std.specs.List.{AllByRecursion};
ghost use Rattle.hgs_overlay.specs.Layers.{laid_ops};
ghost use Rattle.hgs_revlog.specs.Loaded.{AreEntries};
ghost use Rattle.hgs_steps.specs.Steps.{CanBeAssembled};
ghost use Rattle.hgs_writer.specs.Joined.{joined_paths, lays, laying};
ghost use Rattle.hgs_writer.specs.Layered.{ArePartsOfImport, IsOr, Lays, LaysAll, LaysMore, LaysNext, LaysRecord, parts_over};
ghost use Rattle.hgs_writer.specs.Records.{ImportComesTo};
ghost use Rattle.hgs_transaction.specs.declared.parts.Change.TheVariants.{Replace};

use crate::joined::join;
use crate::laws::stores_are_loaded;
use crate::loaded::{loaded_of, logs_of};
use core::mem::{replace, replace_with};
use hgs_bytes::bytes::Bytes;
use hgs_commit::commit::commit_knowing;
use hgs_commit::fault::CommitFault;
use hgs_commit::known::Known;
use hgs_files::files::Reads;
use hgs_index::node::Node;
use hgs_journal::names::path_of;
use hgs_loading::store::{Logs, history_on};
use hgs_model::command::{NewChange, Refusal};
use hgs_overlay::laws::{layers_cover_files, operations_tell_layers};
use hgs_overlay::layers::Layers;
use hgs_overlay::overlay::{Beneath, Overlay};
use hgs_path::laws::filelogs_have_their_own_names;
use hgs_steps::fault::PlanFault;
use hgs_steps::loaded::{Loaded, Standing};
use hgs_steps::step::Step;
use hgs_transaction::parts::{Appending, Change, Changes, Parts, Replacing};
use std::alloc::{AllocError, Global};
use std::marker::Brand;

/// The changeset that was planned last.
#[derive(Clone, Copy)]
pub struct Last {
    pub rev: u32,
    pub node: Node,
}

// What an import is planned of.
struct Asked<'a> {
    alloc: Global,
    loaded: Loaded,
    standing: Standing,
    changes: &'a [NewChange],
}

// Lays the new text of a file over it.
fn lay_replaced<B: Beneath, R: Reads>(
    alloc: Global,
    overlay: &mut Overlay<B, R>,
    replacing: Replacing,
) -> Result<(), AllocError>
    ensures lays { OnOk result (Lays overlay.old.layers overlay.new.layers (laying (Replace replacing))) }
    ensures files { overlay.new.files ≡ overlay.old.files }
    ensures denied { overlay.new.denied ≡ overlay.old.denied }
{
    let Replacing {
        file,
        text,
        standing: _,
    } = replacing;
    let path = path_of(alloc, file.is_plain(), file.name())?;
    overlay.replace(alloc, &path, text)
}

// Lays what is appended or replaced over the files.
fn lay<B: Beneath, R: Reads>(
    alloc: Global,
    overlay: &mut Overlay<B, R>,
    change: Change,
) -> Result<(), AllocError>
    ensures lays { OnOk result (Lays overlay.old.layers overlay.new.layers (laying change)) }
    ensures files { overlay.new.files ≡ overlay.old.files }
    ensures denied { overlay.new.denied ≡ overlay.old.denied }
{
    match change {
        Change::Append(
            Appending {
                path,
                before: _,
                bytes,
            },
        ) => overlay.append(alloc, &path, bytes),
        Change::Replace(replacing) => lay_replaced(alloc, overlay, replacing),
        // No commit makes a new index.
        Change::MakeIndex(_) | Change::RenameIndex(_) => Ok(()),
    }
}

// Lays changes over the files, in their order.
fn lay_changes<B: Beneath, R: Reads>(
    alloc: Global,
    overlay: &mut Overlay<B, R>,
    changes: Vec<Change>,
) -> Result<(), AllocError>
    ensures lays { OnOk result (Lays overlay.old.layers overlay.new.layers (flat_map laying changes.items)) }
    ensures files { overlay.new.files ≡ overlay.old.files }
    ensures denied { overlay.new.denied ≡ overlay.old.denied }
{
    for change in changes {
        lay(alloc, overlay, change)?;
    }
    Ok(())
}

// Lays new texts over their files, in their order.
fn lay_texts<B: Beneath, R: Reads>(
    alloc: Global,
    overlay: &mut Overlay<B, R>,
    files: Vec<Replacing>,
) -> Result<(), AllocError>
    ensures lays { OnOk result (Lays overlay.old.layers overlay.new.layers (flat_map laying (map (λ x. Replace x) files.items))) }
    ensures files { overlay.new.files ≡ overlay.old.files }
    ensures denied { overlay.new.denied ≡ overlay.old.denied }
{
    for replacing in files {
        lay_replaced(alloc, overlay, replacing)?;
    }
    Ok(())
}

// Lays the parts of a commit over the files.
fn lay_all<B: Beneath, R: Reads>(
    alloc: Global,
    overlay: &mut Overlay<B, R>,
    parts: Parts,
) -> Result<(), AllocError>
    ensures lays { OnOk result (Lays overlay.old.layers overlay.new.layers (lays parts)) }
    ensures files { overlay.new.files ≡ overlay.old.files }
    ensures denied { overlay.new.denied ≡ overlay.old.denied }
{
    let Parts {
        before,
        publishing,
        after,
    } = parts;
    lay_changes(alloc, overlay, before.into_vec())?;
    lay(alloc, overlay, publishing)?;
    lay_texts(alloc, overlay, after.into_vec())
}

// Forgets what is known of the files that the parts of a commit append to.
fn turned(known: &mut Known<'_>, parts: Parts) -> Result<Parts, AllocError>
    ensures same { IfOk result (λ same. same ≡ parts) }
    ensures known { OnOk result ((t : Tree) → AreKept t known.old → AreUntouched t parts.before known.new) }
{
    let Parts {
        before,
        publishing,
        after,
    } = parts;
    let changes = before.into_vec();
    known.turn(&changes)?;
    Ok(Parts {
        before: Changes::from_vec(changes),
        publishing,
        after,
    })
}

// Plans a record, and lays what it comes to over the files.
fn record<'a, B: Beneath, R: Reads>(
    alloc: Global,
    overlay: &mut Overlay<B, R>,
    loaded: &Loaded,
    change: &'a NewChange,
    known: &mut Known<'a>,
) -> Result<Last, CommitFault>
    requires changelog { AreEntries loaded.now.changelog.entries }
    requires manifest { AreEntries loaded.now.manifest.entries }
    requires valid { IsNewChange change.now }
    requires known { AtRest R.alone (R.seen overlay.old.files) (R.start overlay.old.files) (λ t. AreKept (after_all (laid_ops overlay.old.layers) t) known.old) }
    ensures comes { AtRest R.alone (R.seen overlay.new.files) (R.start overlay.new.files) (λ t. LaysRecord (after_all (laid_ops overlay.old.layers) t) loaded.now change.now overlay.old.layers overlay.new.layers result) }
    ensures known { OnOk result (AtRest R.alone (R.seen overlay.new.files) (R.start overlay.new.files) (λ t. AreKept (after_all (laid_ops overlay.new.layers) t) known.new)) }
    ensures same_start { R.start overlay.new.files ≡ R.start overlay.old.files }
    ensures still { R.alone ≡ true → R.seen overlay.new.files ≡ R.seen overlay.old.files }
    ensures later { R.faults overlay.old.files ≤ R.faults overlay.new.files }
    ensures cause { HasCause (R.faults overlay.old.files) (R.faults overlay.new.files) result }
{
    filelogs_have_their_own_names();
    operations_tell_layers();
    let Step { parts, rev, node } = match commit_knowing(alloc, overlay, loaded, change, known) {
        Ok(step) => step,
        Err(fault) => return Err(fault),
    };
    let parts = turned(known, parts)?;
    match lay_all(alloc, overlay, parts) {
        Ok(()) => Ok(Last { rev, node }),
        Err(_) => Err(CommitFault::Refused(PlanFault::Memory)),
    }
}

// Plans a record of what is loaded for it, and lays what it comes to over the files. The two revlogs are those that were loaded for
// the record before, and then those of this one.
fn next_record<'a, B: Beneath, R: Reads>(
    alloc: Global,
    overlay: &mut Overlay<B, R>,
    logs: &mut Logs,
    change: &'a NewChange,
    known: &mut Known<'a>,
) -> Result<Last, CommitFault>
    requires changelog { AreEntries logs.old.changelog.entries }
    requires manifest { AreEntries logs.old.manifest.entries }
    requires grown { AtRest R.alone (R.seen overlay.old.files) (R.start overlay.old.files) (λ t. HaveGrown (view_logs logs.old) (after_all (laid_ops overlay.old.layers) t)) }
    requires valid { IsNewChange change.now }
    requires known { AtRest R.alone (R.seen overlay.old.files) (R.start overlay.old.files) (λ t. AreKept (after_all (laid_ops overlay.old.layers) t) known.old) }
    ensures comes { AtRest R.alone (R.seen overlay.new.files) (R.start overlay.new.files) (λ t. LaysNext (after_all (laid_ops overlay.old.layers) t) change.now overlay.old.layers overlay.new.layers result) }
    ensures changelog { OnOk result (AreEntries logs.new.changelog.entries) }
    ensures manifest { OnOk result (AreEntries logs.new.manifest.entries) }
    ensures grown { OnOk result (AtRest R.alone (R.seen overlay.new.files) (R.start overlay.new.files) (λ t. HaveGrown (view_logs logs.new) (after_all (laid_ops overlay.new.layers) t))) }
    ensures known { OnOk result (AtRest R.alone (R.seen overlay.new.files) (R.start overlay.new.files) (λ t. AreKept (after_all (laid_ops overlay.new.layers) t) known.new)) }
    ensures same_start { R.start overlay.new.files ≡ R.start overlay.old.files }
    ensures still { R.alone ≡ true → R.seen overlay.new.files ≡ R.seen overlay.old.files }
    ensures later { R.faults overlay.old.files ≤ R.faults overlay.new.files }
    ensures cause { HasCause (R.faults overlay.old.files) (R.faults overlay.new.files) result }
{
    stores_are_loaded();
    operations_tell_layers();
    let before = replace(logs, Logs::none(alloc));
    let store = match history_on(alloc, overlay, before) {
        Ok(store) => store,
        Err(refusal) => return Err(CommitFault::Unread(refusal)),
    };
    let loaded = loaded_of(store);
    match record(alloc, overlay, &loaded, change, known) {
        Ok(last) => {
            *logs = logs_of(loaded);
            Ok(last)
        }
        Err(fault) => Err(fault),
    }
}

// Plans the records behind the first, for each of which the history is loaded again: its two revlogs from where they end for
// the one before.
fn more_records<'a, B: Beneath, R: Reads>(
    alloc: Global,
    overlay: &mut Overlay<B, R>,
    first: Last,
    changes: &'a [NewChange],
    known: &mut Known<'a>,
) -> Result<Last, CommitFault>
    requires valid { AllByRecursion IsNewChange changes.now }
    requires known { AtRest R.alone (R.seen overlay.old.files) (R.start overlay.old.files) (λ t. AreKept (after_all (laid_ops overlay.old.layers) t) known.old) }
    ensures comes { AtRest R.alone (R.seen overlay.new.files) (R.start overlay.new.files) (λ t. LaysMore (after_all (laid_ops overlay.old.layers) t) changes.now first overlay.old.layers overlay.new.layers result) }
    ensures same_start { R.start overlay.new.files ≡ R.start overlay.old.files }
    ensures still { R.alone ≡ true → R.seen overlay.new.files ≡ R.seen overlay.old.files }
    ensures later { R.faults overlay.old.files ≤ R.faults overlay.new.files }
    ensures cause { HasCause (R.faults overlay.old.files) (R.faults overlay.new.files) result }
{
    let mut logs = Logs::none(alloc);
    let mut last = first;
    let mut rest = changes;
    while let Some((change, behind)) = rest.split_first() {
        last = match next_record(alloc, overlay, &mut logs, change, known) {
            Ok(last) => last,
            Err(fault) => return Err(fault),
        };
        rest = behind;
    }
    Ok(last)
}

// Plans all records.
fn records<B: Beneath, R: Reads>(
    alloc: Global,
    overlay: &mut Overlay<B, R>,
    loaded: Loaded,
    changes: &[NewChange],
) -> Result<Last, CommitFault>
    requires changelog { AreEntries loaded.changelog.entries }
    requires manifest { AreEntries loaded.manifest.entries }
    requires valid { AllByRecursion IsNewChange changes.now }
    ensures comes { AtRest R.alone (R.seen overlay.new.files) (R.start overlay.new.files) (λ t. LaysAll (after_all (laid_ops overlay.old.layers) t) loaded changes.now overlay.old.layers overlay.new.layers result) }
    ensures same_start { R.start overlay.new.files ≡ R.start overlay.old.files }
    ensures still { R.alone ≡ true → R.seen overlay.new.files ≡ R.seen overlay.old.files }
    ensures later { R.faults overlay.old.files ≤ R.faults overlay.new.files }
    ensures cause { HasCause (R.faults overlay.old.files) (R.faults overlay.new.files) result }
{
    let Some((first, rest)) = changes.split_first() else {
        return Err(CommitFault::Refused(PlanFault::Refused(Refusal::NothingChanged(0))));
    };
    let mut known = Known::none(alloc);
    match record(alloc, overlay, &loaded, first, &mut known) {
        Ok(last) => more_records(alloc, overlay, last, rest, &mut known),
        Err(fault) => Err(fault),
    }
}

// The step of what the records laid, the last of which is this one.
fn joined_step<R: Reads>(
    alloc: Global,
    files: &mut R,
    layers: &Layers,
    standing: Standing,
    changes: &[NewChange],
    last: Last,
) -> Result<Step, CommitFault>
    ensures found { AtRest R.alone (R.seen files.new) (R.start files.new) (λ t. IsOr (λ step. step.parts ≡ parts_over t standing (joined_paths changes.now) layers.now) result) }
    ensures shape { IfOk result (λ step. ArePartsOfImport (length (joined_paths changes.now)) step.parts) }
    ensures rev { IfOk result (λ step. step.rev ≡ last.rev) }
    ensures node { IfOk result (λ step. step.node ≡ last.node) }
    ensures same_start { R.start files.new ≡ R.start files.old }
    ensures still { R.alone ≡ true → R.seen files.new ≡ R.seen files.old }
    ensures later { R.faults files.old ≤ R.faults files.new }
    ensures refused { R.denied files.old ≤ R.denied files.new }
    ensures cause { HasCause (R.faults files.old) (R.faults files.new) result }
{
    let Last { rev, node } = last;
    match join(alloc, files, layers, standing, changes) {
        Ok(parts) => Ok(Step { parts, rev, node }),
        Err(fault) => Err(fault),
    }
}

// The step of an import over these files, which are given back.
fn import_over<B: Beneath, R: Reads>(files: R, asked: Asked<'_>) -> (R, Result<Step, CommitFault>)
    requires seen { R.alone ≡ true → R.seen files ≡ B.seen }
    requires denied { B.denied ≤ R.denied files }
    requires changelog { AreEntries asked.loaded.changelog.entries }
    requires manifest { AreEntries asked.loaded.manifest.entries }
    requires standing { asked.standing ≡ asked.loaded.standing }
    requires valid { AllByRecursion IsNewChange asked.changes.now }
    ensures comes { AtRest R.alone (R.seen result.0) (R.start result.0) (λ t. ImportComesTo t asked.entry.loaded asked.entry.changes.now result.1) }
    ensures shape { IfOk result.1 (λ step. ArePartsOfImport (length (joined_paths asked.entry.changes.now)) step.parts) }
    ensures same_start { R.start result.0 ≡ R.start files }
    ensures still { R.alone ≡ true → R.seen result.0 ≡ R.seen files }
    ensures later { R.faults files ≤ R.faults result.0 }
    ensures refused { B.denied ≤ R.denied result.0 }
    ensures cause { HasCause (R.faults files) (R.faults result.0) result.1 }
{
    layers_cover_files();
    let Asked {
        alloc,
        loaded,
        standing,
        changes,
    } = asked;
    let mut overlay = Overlay::<B, R>::new(alloc, files);
    let planned = records(alloc, &mut overlay, loaded, changes);
    let (mut files, layers) = overlay.into_parts();
    match planned {
        Ok(last) => {
            let step = joined_step(alloc, &mut files, &layers, standing, changes, last);
            (files, step)
        }
        Err(fault) => (files, Err(fault)),
    }
}

// The same, over files of which no name is known.
fn import_named<R: Reads>(files: R, asked: Asked<'_>) -> (R, Result<Step, CommitFault>)
    requires changelog { AreEntries asked.loaded.changelog.entries }
    requires manifest { AreEntries asked.loaded.manifest.entries }
    requires standing { asked.standing ≡ asked.loaded.standing }
    requires valid { AllByRecursion IsNewChange asked.changes.now }
    ensures comes { AtRest R.alone (R.seen result.0) (R.start result.0) (λ t. ImportComesTo t asked.entry.loaded asked.entry.changes.now result.1) }
    ensures shape { IfOk result.1 (λ step. ArePartsOfImport (length (joined_paths asked.entry.changes.now)) step.parts) }
    ensures same_start { R.start result.0 ≡ R.start files }
    ensures still { R.alone ≡ true → R.seen result.0 ≡ R.seen files }
    ensures later { R.faults files ≤ R.faults result.0 }
    ensures refused { R.denied files ≤ R.denied result.0 }
    ensures cause { HasCause (R.faults files) (R.faults result.0) result.1 }
{
    import_over::<Brand, R>(files, asked)
}

// The bytes of a file, copied.
fn bytes_copy(alloc: Global, bytes: &Option<Bytes>) -> Result<Option<Bytes>, AllocError>
    ensures { IfOk result (λ copied. copied ≡ bytes.now) }
{
    match bytes {
        Some(bytes) => Ok(Some(bytes.copy(alloc)?)),
        None => Ok(None),
    }
}

// What stands of the files that are replaced, copied.
fn copy_of(alloc: Global, standing: &Standing) -> Result<Standing, AllocError>
    ensures { IfOk result (λ copied. copied ≡ standing.now) }
{
    let bookmarks = bytes_copy(alloc, &standing.bookmarks)?;
    let dirstate = bytes_copy(alloc, &standing.dirstate)?;
    let roots = bytes_copy(alloc, &standing.roots)?;
    Ok(Standing {
        bookmarks,
        dirstate,
        roots,
    })
}

/// The step of an import: the records are planned one after another, each over the files with what the ones before it come
/// to laid over them, and then all that is laid is joined.
pub fn import<R: Reads>(
    alloc: Global,
    files: &mut R,
    loaded: Loaded,
    changes: &[NewChange],
) -> Result<Step, CommitFault>
    requires changelog { AreEntries loaded.changelog.entries }
    requires manifest { AreEntries loaded.manifest.entries }
    requires valid { AreNewChanges changes.now }
    ensures comes { AtRest R.alone (R.seen files.new) (R.start files.new) (λ t. ImportComesTo t loaded changes.now result) }
    ensures ready { IfOk result (λ step. CanBeAssembled step.parts) }
    ensures sound { IfOk result (λ step. (t : Tree) → AreSound t step.parts) }
    ensures same_start { R.start files.new ≡ R.start files.old }
    ensures still { R.alone ≡ true → R.seen files.new ≡ R.seen files.old }
    ensures later { R.faults files.old ≤ R.faults files.new }
    ensures refused { R.denied files.old ≤ R.denied files.new }
    ensures cause { HasCause (R.faults files.old) (R.faults files.new) result }
{
    let standing = copy_of(alloc, &loaded.standing)?;
    let asked = Asked {
        alloc,
        loaded,
        standing,
        changes,
    };
    replace_with(files, asked, import_named::<R>)
}
