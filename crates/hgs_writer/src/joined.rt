//! What several commits write, joined: one append of all new chunks and one of all new entries for each file.
ghost use Rattle.std.specs.Prelude.{◌≡◌, ◌≤◌, ◌+◌, ◌*◌, ◌∷◌, ◌++◌, [], true, length, flat_map, codes, IfOk, IfSome, OnOk};
ghost use Rattle.hgs_bytes.specs.Bytes.{begins_with};
ghost use Rattle.hgs_bytes.specs.Text.{line};
ghost use Rattle.hgs_commit.specs.Appended.{append_some};
ghost use Rattle.hgs_commit.specs.Commit.{AtRest};
ghost use Rattle.hgs_commit.specs.Fault.{HasCause};
ghost use Rattle.hgs_commit.specs.OfCommit.{optional_replace};
ghost use Rattle.hgs_files.specs.Path.{is_store_path};
ghost use Rattle.hgs_files.specs.Tree.{bytes_at};
ghost use Rattle.hgs_model.specs.Valid.{new_paths};
ghost use Rattle.hgs_stands.specs.Places.{changelog_data, changelog_index, fncache_path, manifest_data, manifest_index};
ghost use Rattle.hgs_transaction.specs.declared.parts.Change.TheVariants.{MakeIndex};
ghost use Rattle.hgs_transaction.specs.declared.parts.ReplacedFile.TheVariants.{PhaseRoots, Dirstate, Bookmarks};
ghost use Rattle.hgs_writer.specs.Joined.{joined_append, joined_appends, joined_filelog, joined_lines, joined_names, joined_paths, names_of_new};
ghost use Rattle.hgs_writer.specs.Layered.{AddsAppends, ArePartsOfImport, IsOr, PushesAppend, as_list, bytes_over, entered, names_behind, parts_over, replaced_over};

use hgs_bytes::bytes::Bytes;
use hgs_commit::fault::CommitFault;
use hgs_files::files::Reads;
use hgs_files::path::{StorePath, path_of};
use hgs_journal::names::path_of as replaced_path;
use hgs_load::ask::{bytes_of, read_part};
use hgs_loading::whole::size_of;
use hgs_model::command::NewChange;
use hgs_overlay::layers::Layers;
use hgs_path::fncache::Fncache;
use hgs_path::name::{Ext, store_name};
use hgs_steps::loaded::Standing;
use hgs_transaction::parts::{
    Appending, Change, Changes, Parts, ReplacedFile, Replacing, Replacings,
};
use std::alloc::{AllocError, Global};
use std::collections::BTreeSet;

// The appends so far, and the lines of the filelogs that are new.
#[derive(Drop)]
struct Joined {
    changes: Vec<Change>,
    lines: Vec<u8>,
}

// The changelog's new index, and the length of the old one.
struct NewIndex {
    bytes: Bytes,
    before: u64,
}

// Enters the paths of a record, from the last to the first.
fn enter_paths(
    alloc: Global,
    change: &NewChange,
    paths: &mut BTreeSet<Bytes>,
) -> Result<(), AllocError>
    ensures { OnOk result (paths.new.keys ≡ entered (new_paths change.now.files) paths.old.keys) }
{
    let files = change.files.as_slice();
    let mut left = files.len();
    while left > 0 {
        left -= 1;
        let path = files[left].path.copy(alloc)?;
        paths.insert(path)?;
    }
    Ok(())
}

// The paths of all records.
fn paths_of(alloc: Global, changes: &[NewChange]) -> Result<BTreeSet<Bytes>, AllocError>
    ensures { IfOk result (λ paths. paths.keys ≡ joined_paths changes.now) }
{
    let mut paths = BTreeSet::new(alloc);
    let mut left = changes.len();
    while left > 0 {
        left -= 1;
        enter_paths(alloc, &changes[left], &mut paths)?;
    }
    Ok(paths)
}

// The length of a file, 0 where it is absent.
fn length_of<R: Reads>(files: &mut R, path: &StorePath) -> Result<u64, CommitFault>
    ensures found { AtRest R.alone (R.seen files.new) (R.start files.new) (λ t. IsOr (λ length_before. length_before ≡ length (bytes_at t path.now)) result) }
    ensures same_start { R.start files.new ≡ R.start files.old }
    ensures still { R.alone ≡ true → R.seen files.new ≡ R.seen files.old }
    ensures later { R.faults files.old ≤ R.faults files.new }
    ensures refused { R.denied files.old ≤ R.denied files.new }
    ensures cause { HasCause (R.faults files.old) (R.faults files.new) result }
{
    match size_of(files, path) {
        Ok(size) => Ok(size.unwrap_or(0)),
        Err(refusal) => Err(CommitFault::Unread(refusal)),
    }
}

// Adds the append to a file of all that is laid behind it, if something is; answers the file's length before.
fn push<R: Reads>(
    alloc: Global,
    files: &mut R,
    layers: &Layers,
    path: StorePath,
    changes: &mut Vec<Change>,
) -> Result<Option<u64>, CommitFault>
    ensures pushes { IfOk result (λ before. PushesAppend path (bytes_over layers.now path) before changes.old.items changes.new.items) }
    ensures found { AtRest R.alone (R.seen files.new) (R.start files.new) (λ t. IsOr (λ before. IfSome before (λ length_before. length_before ≡ length (bytes_at t path))) result) }
    ensures same_start { R.start files.new ≡ R.start files.old }
    ensures still { R.alone ≡ true → R.seen files.new ≡ R.seen files.old }
    ensures later { R.faults files.old ≤ R.faults files.new }
    ensures refused { R.denied files.old ≤ R.denied files.new }
    ensures cause { HasCause (R.faults files.old) (R.faults files.new) result }
{
    let Some(layer) = layers.get(&path) else {
        return Ok(None);
    };
    if layer.bytes.is_empty() {
        return Ok(None);
    }
    let bytes = layer.bytes.copy(alloc)?;
    let before = match length_of(files, &path) {
        Ok(before) => before,
        Err(fault) => return Err(fault),
    };
    changes.push(Change::Append(Appending {
        path,
        before,
        bytes,
    }))?;
    Ok(Some(before))
}

// Adds the lines of a filelog that is new, with a data file or without one.
fn push_new(path: &[u8], has_data: bool, lines: &mut Vec<u8>) -> Result<(), AllocError>
    ensures { OnOk result (lines.new.items ≡ lines.old.items ++ flat_map line (names_of_new path.now has_data)) }
{
    Fncache::add_line(path, Ext::I, lines)?;
    if has_data {
        Fncache::add_line(path, Ext::D, lines)?;
    }
    Ok(())
}

// Adds the lines of a filelog where something was pushed behind an index that had no bytes.
fn push_names(
    path: &[u8],
    data_before: Option<u64>,
    before: Option<u64>,
    lines: &mut Vec<u8>,
) -> Result<(), AllocError>
    ensures { OnOk result (lines.new.items ≡ lines.old.items ++ flat_map line (names_behind path.now data_before before)) }
{
    match before {
        Some(0) => push_new(path, data_before.is_some(), lines),
        Some(_) => Ok(()),
        None => Ok(()),
    }
}

// Adds the appends to the filelog of a path, and its lines where it had no revision.
fn push_filelog<R: Reads>(
    alloc: Global,
    files: &mut R,
    layers: &Layers,
    path: &[u8],
    joined: &mut Joined,
) -> Result<(), CommitFault>
    ensures found { AtRest R.alone (R.seen files.new) (R.start files.new) (λ t. IsOr (λ _. (joined.new.changes.items ≡ joined.old.changes.items ++ joined_filelog t (bytes_over layers.now) path.now) × (joined.new.lines.items ≡ joined.old.lines.items ++ flat_map line (joined_names t (bytes_over layers.now) path.now))) result) }
    ensures adds { OnOk result (AddsAppends 2 joined.old.changes.items joined.new.changes.items) }
    ensures same_start { R.start files.new ≡ R.start files.old }
    ensures still { R.alone ≡ true → R.seen files.new ≡ R.seen files.old }
    ensures later { R.faults files.old ≤ R.faults files.new }
    ensures refused { R.denied files.old ≤ R.denied files.new }
    ensures cause { HasCause (R.faults files.old) (R.faults files.new) result }
{
    let data = store_name(alloc, path, Ext::D)?;
    let index = store_name(alloc, path, Ext::I)?;
    let data_before = match push(alloc, files, layers, data, &mut joined.changes) {
        Ok(before) => before,
        Err(fault) => return Err(fault),
    };
    let before = match push(alloc, files, layers, index, &mut joined.changes) {
        Ok(before) => before,
        Err(fault) => return Err(fault),
    };
    push_names(path, data_before, before, &mut joined.lines)?;
    Ok(())
}

// Adds the appends to all filelogs.
fn push_filelogs<R: Reads>(
    alloc: Global,
    files: &mut R,
    layers: &Layers,
    paths: &BTreeSet<Bytes>,
) -> Result<Joined, CommitFault>
    ensures found { AtRest R.alone (R.seen files.new) (R.start files.new) (λ t. IsOr (λ joined. (joined.changes.items ≡ flat_map (joined_filelog t (bytes_over layers.now)) paths.now.keys) × (joined.lines.items ≡ joined_lines t (bytes_over layers.now) paths.now.keys)) result) }
    ensures adds { IfOk result (λ joined. AddsAppends (2 * length paths.now.keys) [] joined.changes.items) }
    ensures same_start { R.start files.new ≡ R.start files.old }
    ensures still { R.alone ≡ true → R.seen files.new ≡ R.seen files.old }
    ensures later { R.faults files.old ≤ R.faults files.new }
    ensures refused { R.denied files.old ≤ R.denied files.new }
    ensures cause { HasCause (R.faults files.old) (R.faults files.new) result }
{
    let mut joined = Joined {
        changes: Vec::new(alloc),
        lines: Vec::new(alloc),
    };
    for path in paths {
        match push_filelog(alloc, files, layers, path.as_slice(), &mut joined) {
            Ok(()) => {}
            Err(fault) => return Err(fault),
        }
    }
    Ok(joined)
}

// Adds the append of the lines to the list of filelogs, if there are any.
fn push_lines<R: Reads>(
    alloc: Global,
    files: &mut R,
    lines: Vec<u8>,
    changes: &mut Vec<Change>,
) -> Result<(), CommitFault>
    ensures found { AtRest R.alone (R.seen files.new) (R.start files.new) (λ t. IsOr (λ _. changes.new.items ≡ changes.old.items ++ append_some fncache_path (length (bytes_at t fncache_path)) lines.items) result) }
    ensures adds { OnOk result (AddsAppends 1 changes.old.items changes.new.items) }
    ensures same_start { R.start files.new ≡ R.start files.old }
    ensures still { R.alone ≡ true → R.seen files.new ≡ R.seen files.old }
    ensures later { R.faults files.old ≤ R.faults files.new }
    ensures refused { R.denied files.old ≤ R.denied files.new }
    ensures cause { HasCause (R.faults files.old) (R.faults files.new) result }
{
    if lines.is_empty() {
        return Ok(());
    }
    let path = path_of(alloc, b"store/fncache")?;
    let before = match length_of(files, &path) {
        Ok(before) => before,
        Err(fault) => return Err(fault),
    };
    let bytes = Bytes::from_vec(lines);
    changes.push(Change::Append(Appending {
        path,
        before,
        bytes,
    }))?;
    Ok(())
}

// Adds the append to a file of the store of this name, if something is laid behind it.
fn push_named<R: Reads>(
    alloc: Global,
    files: &mut R,
    layers: &Layers,
    name: &[u8],
    changes: &mut Vec<Change>,
) -> Result<(), CommitFault>
    requires path { is_store_path name.now ≡ true }
    requires in_store { begins_with name.now (codes "store/") ≡ true }
    ensures found { AtRest R.alone (R.seen files.new) (R.start files.new) (λ t. IsOr (λ _. changes.new.items ≡ changes.old.items ++ joined_append t (bytes_over layers.now) name.now) result) }
    ensures adds { OnOk result (AddsAppends 1 changes.old.items changes.new.items) }
    ensures same_start { R.start files.new ≡ R.start files.old }
    ensures still { R.alone ≡ true → R.seen files.new ≡ R.seen files.old }
    ensures later { R.faults files.old ≤ R.faults files.new }
    ensures refused { R.denied files.old ≤ R.denied files.new }
    ensures cause { HasCause (R.faults files.old) (R.faults files.new) result }
{
    let path = path_of(alloc, name)?;
    match push(alloc, files, layers, path, changes) {
        Ok(_) => Ok(()),
        Err(fault) => Err(fault),
    }
}

// Adds the appends to the files of the manifest, and to the changelog's data.
fn push_logs<R: Reads>(
    alloc: Global,
    files: &mut R,
    layers: &Layers,
    changes: &mut Vec<Change>,
) -> Result<(), CommitFault>
    ensures found { AtRest R.alone (R.seen files.new) (R.start files.new) (λ t. IsOr (λ _. changes.new.items ≡ changes.old.items ++ ((joined_append t (bytes_over layers.now) manifest_data ++ joined_append t (bytes_over layers.now) manifest_index) ++ joined_append t (bytes_over layers.now) changelog_data)) result) }
    ensures adds { OnOk result (AddsAppends 3 changes.old.items changes.new.items) }
    ensures same_start { R.start files.new ≡ R.start files.old }
    ensures still { R.alone ≡ true → R.seen files.new ≡ R.seen files.old }
    ensures later { R.faults files.old ≤ R.faults files.new }
    ensures refused { R.denied files.old ≤ R.denied files.new }
    ensures cause { HasCause (R.faults files.old) (R.faults files.new) result }
{
    match push_named(alloc, files, layers, b"store/00manifest.d", changes) {
        Ok(()) => {}
        Err(fault) => return Err(fault),
    }
    match push_named(alloc, files, layers, b"store/00manifest.i", changes) {
        Ok(()) => {}
        Err(fault) => return Err(fault),
    }
    match push_named(alloc, files, layers, b"store/00changelog.d", changes) {
        Ok(()) => Ok(()),
        Err(fault) => Err(fault),
    }
}

// The appends but that to the changelog's index.
fn appends_of<R: Reads>(
    alloc: Global,
    files: &mut R,
    layers: &Layers,
    paths: &BTreeSet<Bytes>,
) -> Result<Vec<Change>, CommitFault>
    ensures found { AtRest R.alone (R.seen files.new) (R.start files.new) (λ t. IsOr (λ changes. changes.items ≡ joined_appends t (bytes_over layers.now) paths.now.keys) result) }
    ensures adds { IfOk result (λ changes. AddsAppends (2 * length paths.now.keys + 4) [] changes.items) }
    ensures same_start { R.start files.new ≡ R.start files.old }
    ensures still { R.alone ≡ true → R.seen files.new ≡ R.seen files.old }
    ensures later { R.faults files.old ≤ R.faults files.new }
    ensures refused { R.denied files.old ≤ R.denied files.new }
    ensures cause { HasCause (R.faults files.old) (R.faults files.new) result }
{
    let Joined { mut changes, lines } = match push_filelogs(alloc, files, layers, paths) {
        Ok(joined) => joined,
        Err(fault) => return Err(fault),
    };
    match push_lines(alloc, files, lines, &mut changes) {
        Ok(()) => {}
        Err(fault) => return Err(fault),
    }
    match push_logs(alloc, files, layers, &mut changes) {
        Ok(()) => Ok(changes),
        Err(fault) => Err(fault),
    }
}

// A file that is replaced by what is laid in its place, if something is.
fn replaced(
    alloc: Global,
    layers: &Layers,
    file: ReplacedFile,
    standing: Option<Bytes>,
) -> Result<Option<Replacing>, AllocError>
    ensures { IfOk result (λ x. x ≡ replaced_over layers.now file standing) }
{
    let path = replaced_path(alloc, file.is_plain(), file.name())?;
    let Some(layer) = layers.get(&path) else {
        return Ok(None);
    };
    if !layer.in_place {
        return Ok(None);
    }
    Ok(Some(Replacing {
        file,
        text: layer.bytes.copy(alloc)?,
        standing,
    }))
}

// Adds what is laid behind a file.
fn append_laid(layers: &Layers, path: &StorePath, into: &mut Bytes) -> Result<(), AllocError>
    ensures { OnOk result (into.new ≡ into.old ++ bytes_over layers.now path.now) }
{
    match layers.get(path) {
        Some(layer) => into.append(layer.bytes.as_slice()),
        None => Ok(()),
    }
}

// The changelog's new index: the old one, and what is laid behind it.
fn new_index<R: Reads>(
    alloc: Global,
    files: &mut R,
    layers: &Layers,
) -> Result<NewIndex, CommitFault>
    ensures found { AtRest R.alone (R.seen files.new) (R.start files.new) (λ t. IsOr (λ index. (index.bytes ≡ bytes_at t changelog_index ++ bytes_over layers.now changelog_index) × (index.before ≡ length (bytes_at t changelog_index))) result) }
    ensures same_start { R.start files.new ≡ R.start files.old }
    ensures still { R.alone ≡ true → R.seen files.new ≡ R.seen files.old }
    ensures later { R.faults files.old ≤ R.faults files.new }
    ensures refused { R.denied files.old ≤ R.denied files.new }
    ensures cause { HasCause (R.faults files.old) (R.faults files.new) result }
{
    let path = path_of(alloc, b"store/00changelog.i")?;
    let before = match length_of(files, &path) {
        Ok(before) => before,
        Err(fault) => return Err(fault),
    };
    let part = match read_part(alloc, files, &path, 0, before) {
        Ok(part) => part,
        Err(refusal) => return Err(CommitFault::Unread(refusal)),
    };
    let mut bytes = Bytes::from_slice(alloc, bytes_of(&part))?;
    append_laid(layers, &path, &mut bytes)?;
    Ok(NewIndex { bytes, before })
}

// The files that are replaced behind the rename of the changelog's new index.
fn replaced_after(
    alloc: Global,
    layers: &Layers,
    dirstate: Option<Bytes>,
    bookmarks: Option<Bytes>,
) -> Result<Vec<Replacing>, AllocError>
    ensures { IfOk result (λ after. after.items ≡ as_list (replaced_over layers.now Dirstate dirstate) ++ as_list (replaced_over layers.now Bookmarks bookmarks)) }
{
    let mut after = Vec::new(alloc);
    if let Some(replacing) = replaced(alloc, layers, ReplacedFile::Dirstate, dirstate)? {
        after.push(replacing)?;
    }
    if let Some(replacing) = replaced(alloc, layers, ReplacedFile::Bookmarks, bookmarks)? {
        after.push(replacing)?;
    }
    Ok(after)
}

// The changes before the rename of the changelog's new index.
fn changes_before(
    alloc: Global,
    layers: &Layers,
    appends: Vec<Change>,
    index: Bytes,
    roots: Option<Bytes>,
) -> Result<Vec<Change>, AllocError>
    ensures { IfOk result (λ changes. changes.items ≡ appends.items ++ MakeIndex index ∷ optional_replace (replaced_over layers.now PhaseRoots roots)) }
{
    let mut changes = appends;
    changes.push(Change::MakeIndex(index))?;
    if let Some(replacing) = replaced(alloc, layers, ReplacedFile::PhaseRoots, roots)? {
        changes.push(Change::Replace(replacing))?;
    }
    Ok(changes)
}

/// The parts of an import, joined of what its records' commits laid over the files.
pub fn join<R: Reads>(
    alloc: Global,
    files: &mut R,
    layers: &Layers,
    standing: Standing,
    changes: &[NewChange],
) -> Result<Parts, CommitFault>
    ensures found { AtRest R.alone (R.seen files.new) (R.start files.new) (λ t. IsOr (λ parts. parts ≡ parts_over t standing (joined_paths changes.now) layers.now) result) }
    ensures shape { IfOk result (λ parts. ArePartsOfImport (length (joined_paths changes.now)) parts) }
    ensures same_start { R.start files.new ≡ R.start files.old }
    ensures still { R.alone ≡ true → R.seen files.new ≡ R.seen files.old }
    ensures later { R.faults files.old ≤ R.faults files.new }
    ensures refused { R.denied files.old ≤ R.denied files.new }
    ensures cause { HasCause (R.faults files.old) (R.faults files.new) result }
{
    let Standing {
        bookmarks,
        dirstate,
        roots,
    } = standing;
    let paths = paths_of(alloc, changes)?;
    let appends = match appends_of(alloc, files, layers, &paths) {
        Ok(appends) => appends,
        Err(fault) => return Err(fault),
    };
    let NewIndex { bytes, before } = match new_index(alloc, files, layers) {
        Ok(index) => index,
        Err(fault) => return Err(fault),
    };
    let changes = changes_before(alloc, layers, appends, bytes, roots)?;
    let after = replaced_after(alloc, layers, dirstate, bookmarks)?;
    Ok(Parts {
        before: Changes::from_vec(changes),
        publishing: Change::RenameIndex(before),
        after: Replacings::from_vec(after),
    })
}
