//! A commit: what is read for it, and the parts of its transaction.
ghost use Rattle.std.specs.Prelude.{◌≡◌, ◌≤◌, ◌<◌, ◌+◌, [], true, false, length, nat_lt, find, option_map, Some, IfOk, IfSome, OnOk};
ghost use Rattle.std.specs.List.{list_all, list_any};
ghost use Rattle.hgs_bytes.specs.Text.{ascends};
ghost use Rattle.hgs_model.specs.Valid.{IsNewChange, new_paths};
ghost use Rattle.hgs_load.specs.Answer.{HasFaultCause};
ghost use Rattle.hgs_revlog.specs.Loaded.{AreEntries};
ghost use Rattle.hgs_commit.specs.Appended.{is_beside};
ghost use Rattle.hgs_steps.specs.Steps.{CanBeAssembled};
ghost use Rattle.hgs_reader.specs.Contents.{manifest_index};
ghost use Rattle.hgs_load.specs.View.{changelog_index};
ghost use Rattle.hgs_bytes.specs.Answer.{Gives};
ghost use Rattle.hgs_loading.specs.Found.{Finds};
ghost use Rattle.hgs_loading.specs.Parent.{view_parent};
ghost use Rattle.hgs_load.specs.Marks.{most_bookmarks};
ghost use Rattle.hgs_loading.specs.Small.{most_fncache};
ghost use Rattle.hgs_steps.specs.Fault.{is_memory};
ghost use Rattle.hgs_steps.specs.Loaded.{has_inline};
ghost use Rattle.hgs_commit.specs.Commit.{AtRest, Steps, StepsOn, both_parents, copies_tested, grown_on, inline_logs, is_new_mark, is_over, lacks_source, long_list, mark_count, over_where, parent_files, planned, tested, texts_in, too_many_marks, view_grown, view_texts, view_written, written_of};
ghost use Rattle.hgs_commit.specs.Hindered.{is_met};
ghost use Rattle.hgs_commit.specs.Obstacles.{met_of, noted, noting};
ghost use Rattle.hgs_commit.specs.Pushed.{AppendsTo, IsNewText, Pushes};
ghost use Rattle.hgs_commit.specs.OfCommit.{ArePartsOfCommit};
ghost use Rattle.hgs_commit.specs.Fault.{HasCause};
ghost use Rattle.hgs_commit.specs.Files.{can_follow};
ghost use Rattle.hgs_commit.specs.Known.{KnowsAt};
ghost use Rattle.hgs_commit.specs.Tree.{ClashIn};
ghost use Rattle.hgs_commit.specs.Trees.{all_files_in};
ghost use Rattle.hgs_index.specs.Manifest.{AreRows};
ghost use Rattle.hgs_path.specs.Fncache.{listing};

use crate::changeset::{new_changeset, new_manifest};
use crate::fault::CommitFault;
use crate::file::add_files;
use crate::hindrance::Hindrances;
use crate::known::Known;
use crate::laws::files_follow;
use crate::new_text::NewText;
use crate::parents::manifest_parents;
use crate::tree::{Grown, NewTree};
use crate::written::{Texts, Written, step_of};
use hgs_files::files::Reads;
use hgs_index::kinds::Which;
use hgs_index::texts::manifest_reads_then_prints;
use hgs_load::answer::ReadAnswer;
use hgs_loading::parent::{ParentManifest, parent_manifest};
use hgs_loading::store::changelog_paths;
use hgs_manifest::manifest::Manifest;
use hgs_model::command::{NewChange, Refusal};
use hgs_model::files::NewFile;
use hgs_reader::contents::manifest_paths;
use hgs_revlog::revlog::Revlog;
use hgs_steps::fault::PlanFault;
use hgs_steps::loaded::Loaded;
use hgs_steps::step::Step;
use std::alloc::Global;

/// More bookmarks are refused.
const MOST_BOOKMARKS: usize = 10_000;

/// A list of filelogs with more bytes is refused.
const MOST_FNCACHE: u64 = 268_435_456;

// The files of a parent, none where there is no parent.
fn parent_of<R: Reads>(
    alloc: Global,
    files: &mut R,
    loaded: &Loaded,
    rev: Option<u32>,
) -> Result<ParentManifest, ReadAnswer>
    requires stands { IfSome rev (λ r. r < length loaded.now.changelog.entries) }
    requires manifest { AreEntries loaded.now.manifest.entries }
    ensures found { Finds view_parent R.alone (R.seen files.new) (R.start files.new) (parent_files loaded.now rev) result }
    ensures below { IfOk result (λ p. IfSome p.rev (λ r. r < length loaded.now.manifest.entries)) }
    ensures same_start { R.start files.new ≡ R.start files.old }
    ensures still { R.alone ≡ true → R.seen files.new ≡ R.seen files.old }
    ensures cause { HasFaultCause (R.faults files.old) (R.faults files.new) (R.denied files.old) (R.denied files.new) result }
{
    let Some(rev) = rev else {
        return Ok(ParentManifest {
            rev: None,
            rows: Manifest::empty(alloc),
        });
    };
    let changelog = changelog_paths(alloc)?;
    let manifest = manifest_paths(alloc)?;
    parent_manifest(
        alloc,
        files,
        &loaded.changelog,
        &changelog,
        &loaded.manifest,
        &manifest,
        rev,
    )
}

// The files of the two parents.
fn both_parents<R: Reads>(
    alloc: Global,
    files: &mut R,
    loaded: &Loaded,
    parents: (Option<u32>, Option<u32>),
) -> Result<(ParentManifest, ParentManifest), ReadAnswer>
    requires first { IfSome parents.0 (λ r. r < length loaded.now.changelog.entries) }
    requires second { IfSome parents.1 (λ r. r < length loaded.now.changelog.entries) }
    requires manifest { AreEntries loaded.now.manifest.entries }
    ensures found { Finds (λ x. (view_parent x.0, view_parent x.1)) R.alone (R.seen files.new) (R.start files.new) (both_parents loaded.now parents) result }
    ensures first { IfOk result (λ x. IfSome x.0.rev (λ r. r < length loaded.now.manifest.entries)) }
    ensures second { IfOk result (λ x. IfSome x.1.rev (λ r. r < length loaded.now.manifest.entries)) }
    ensures same_start { R.start files.new ≡ R.start files.old }
    ensures still { R.alone ≡ true → R.seen files.new ≡ R.seen files.old }
    ensures cause { HasFaultCause (R.faults files.old) (R.faults files.new) (R.denied files.old) (R.denied files.new) result }
{
    let first = match parent_of(alloc, files, loaded, parents.0) {
        Ok(first) => first,
        Err(refusal) => return Err(refusal),
    };
    let second = match parent_of(alloc, files, loaded, parents.1) {
        Ok(second) => second,
        Err(refusal) => return Err(refusal),
    };
    Ok((first, second))
}

// Whether a file has a source that is none of these rows.
fn lacks_source(file: &NewFile, first: &Manifest) -> bool
    ensures { result ≡ lacks_source first.now file.now }
{
    match &file.from {
        Some(path) => first.get(path.as_slice()).is_none(),
        None => false,
    }
}

// Whether a file has a source, and a parent has its path.
fn is_over(file: &NewFile, first: &Manifest, second: &Manifest) -> bool
    ensures { result ≡ is_over first.now second.now file.now }
{
    let path = file.path.as_slice();
    file.from.is_some() && (first.get(path).is_some() || second.get(path).is_some())
}

// Whether one of the files has a source that is none of these rows.
fn has_unknown_source(files: &[NewFile], first: &Manifest) -> bool
    ensures { result ≡ list_any (lacks_source first.now) files.now }
{
    files.iter().any(|file| lacks_source(file, first))
}

// The first copy whose path a parent has.
fn first_over<'a>(files: &'a [NewFile], first: &Manifest, second: &Manifest) -> Option<&'a NewFile>
    ensures { option_map (λ f. f.now) result ≡ find (is_over first.now second.now) files.now }
{
    files.iter().find(|file| is_over(file, first, second))
}

// No copy has a path that a parent has.
fn test_places(
    alloc: Global,
    files: &[NewFile],
    first: &Manifest,
    second: &Manifest,
) -> Result<(), PlanFault>
    ensures { Gives is_memory (λ free. free) result (over_where (find (is_over first.now second.now) files.now)) }
{
    let Some(file) = first_over(files, first, second) else {
        return Ok(());
    };
    let path = file.path.copy(alloc)?;
    Err(PlanFault::Refused(Refusal::CopyOver(path)))
}

// A copy is one of a file of the first parent, and at a path that no parent has.
fn test_copies(
    alloc: Global,
    files: &[NewFile],
    first: &Manifest,
    second: &Manifest,
) -> Result<(), PlanFault>
    ensures { Gives is_memory (λ free. free) result (copies_tested first.now second.now files.now) }
{
    if has_unknown_source(files, first) {
        return Err(PlanFault::Refused(Refusal::UnknownPath));
    }
    test_places(alloc, files, first, second)
}

// A tree that is that of the one parent, or empty where there is no parent, changes nothing.
fn test_change(parents: (Option<u32>, Option<u32>), grown: &Grown) -> Result<(), PlanFault>
    ensures { result ≡ tested parents (view_grown grown.now) }
{
    let (first, second) = parents;
    if second.is_none() && grown.changed.len() == 0 {
        return Err(PlanFault::Refused(Refusal::NothingChanged(first.unwrap_or(0))));
    }
    Ok(())
}

// Whether a bookmark is set that was not there.
fn is_new_mark(loaded: &Loaded, change: &NewChange) -> bool
    ensures { result ≡ is_new_mark loaded.now change.now.bookmark }
{
    match &change.bookmark {
        Some(name) => loaded.bookmarks.get(name.as_slice()).is_none(),
        None => false,
    }
}

// Whether there are too many bookmarks, or would be with the one that is set.
fn has_too_many_marks(loaded: &Loaded, change: &NewChange) -> bool
    ensures { result ≡ nat_lt most_bookmarks (mark_count loaded.now change.now) }
{
    let count = loaded.bookmarks.len();
    if is_new_mark(loaded, change) {
        count >= MOST_BOOKMARKS
    } else {
        count > MOST_BOOKMARKS
    }
}

// Notes that there are too many bookmarks, or would be with the one that is set.
fn meet_bookmarks(loaded: &Loaded, change: &NewChange, met: &mut Hindrances)
    ensures met { met_of met.new ≡ noted (met_of met.old) (too_many_marks loaded.now change.now) }
    ensures clash { met.new.clash ≡ met.old.clash }
{
    if has_too_many_marks(loaded, change) {
        met.meet_limit(Which::Bookmarks);
    }
}

// Notes that the changelog or the manifest is inline.
fn meet_inline(loaded: &Loaded, met: &mut Hindrances)
    ensures met { met_of met.new ≡ noted (met_of met.old) (inline_logs loaded.now) }
    ensures clash { met.new.clash ≡ met.old.clash }
    ensures some { is_met met.old ≡ true → is_met met.new ≡ true }
    ensures inline { has_inline loaded.now ≡ true → is_met met.new ≡ true }
{
    if loaded.has_inline() {
        met.meet_limit(Which::Inline);
    }
}

// Whether the list of filelogs would be too long with as many bytes more.
fn is_too_long(length: u64, more: usize) -> bool
    ensures { result ≡ nat_lt most_fncache (length + more) }
{
    length > MOST_FNCACHE || more as u64 > MOST_FNCACHE - length
}

// Notes that the list of filelogs would be too long with as many bytes more.
fn meet_long_list(loaded: &Loaded, more: usize, met: &mut Hindrances)
    ensures met { met_of met.new ≡ noted (met_of met.old) (long_list loaded.now more) }
    ensures clash { met.new.clash ≡ met.old.clash }
    ensures some { is_met met.old ≡ true → is_met met.new ≡ true }
{
    if is_too_long(loaded.fncache_length, more) {
        met.meet_limit(Which::Part);
    }
}

// The tree of the commit on these files of its parents, and its manifests' parents.
fn grown_tree<'a, R: Reads>(
    alloc: Global,
    files: &mut R,
    loaded: &Loaded,
    change: &'a NewChange,
    first: &ParentManifest,
    second: &ParentManifest,
    known: &mut Known<'a>,
    met: &mut Hindrances,
) -> Result<(Grown, (Option<u32>, Option<u32>)), ReadAnswer>
    requires changelog { AreEntries loaded.now.changelog.entries }
    requires first { IfSome first.now.rev (λ r. r < length loaded.now.manifest.entries) }
    requires second { IfSome second.now.rev (λ r. r < length loaded.now.manifest.entries) }
    requires rows { AtRest R.alone (R.seen files.old) (R.start files.old) (λ t. AreRows first.now.rows × AreRows second.now.rows) }
    requires known { KnowsAt R.alone (R.seen files.old) (R.start files.old) known.old }
    requires few { length change.now.files ≤ 20000 }
    requires order { can_follow [] change.now.files ≡ true }
    requires ascend { ascends (new_paths change.now.files) ≡ true }
    ensures found { Finds (λ x. ((view_grown x.0, x.1), met_of met.new)) R.alone (R.seen files.new) (R.start files.new) (λ t. noting (met_of met.old) (grown_on loaded.now change.now (view_parent first.now) (view_parent second.now) t)) result }
    ensures clash { OnOk result (AtRest R.alone (R.seen files.new) (R.start files.new) (λ t. ClashIn (listing loaded.now.fncache) (all_files_in (listing loaded.now.fncache) (length loaded.now.changelog.entries) first.now.rows second.now.rows change.now.files t) met.old.clash met.new.clash)) }
    ensures known { OnOk result (KnowsAt R.alone (R.seen files.new) (R.start files.new) known.new) }
    ensures few { IfOk result (λ x. length x.0.growth.items ≤ 40000) }
    ensures beside { IfOk result (λ x. list_all is_beside x.0.growth.items ≡ true) }
    ensures first { IfOk result (λ x. IfSome x.1.0 (λ r. r < length loaded.now.manifest.entries)) }
    ensures second { IfOk result (λ x. IfSome x.1.1 (λ r. r < length loaded.now.manifest.entries)) }
    ensures same_start { R.start files.new ≡ R.start files.old }
    ensures still { R.alone ≡ true → R.seen files.new ≡ R.seen files.old }
    ensures cause { HasFaultCause (R.faults files.old) (R.faults files.new) (R.denied files.old) (R.denied files.new) result }
{
    let manifests = manifest_parents(first.rev, second.rev);
    let mut tree = NewTree::new(alloc, &first.rows, &second.rows);
    let link = loaded.changelog.len();
    match add_files(
        alloc,
        files,
        &loaded.fncache,
        link,
        &first.rows,
        change.files.as_slice(),
        &mut tree,
        known,
        met,
    ) {
        Ok(()) => {}
        Err(refusal) => return Err(refusal),
    }
    Ok((tree.finish()?, manifests))
}

// The texts of the manifest and of the changeset, and what they became.
fn texts_of<R: Reads>(
    alloc: Global,
    files: &mut R,
    loaded: &Loaded,
    change: &NewChange,
    parents: (Option<u32>, Option<u32>),
    grown: Grown,
    manifests: (Option<u32>, Option<u32>),
    met: &mut Hindrances,
) -> Result<Texts, ReadAnswer>
    requires changelog { AreEntries loaded.now.changelog.entries }
    requires manifest { AreEntries loaded.now.manifest.entries }
    requires first { IfSome parents.0 (λ r. r < length loaded.now.changelog.entries) }
    requires second { IfSome parents.1 (λ r. r < length loaded.now.changelog.entries) }
    requires first_manifest { IfSome manifests.0 (λ r. r < length loaded.now.manifest.entries) }
    requires second_manifest { IfSome manifests.1 (λ r. r < length loaded.now.manifest.entries) }
    ensures found { Finds (λ x. (view_texts x, met_of met.new)) R.alone (R.seen files.new) (R.start files.new) (λ t. noting (met_of met.old) (texts_in loaded.now change.now parents (view_grown grown) manifests t)) result }
    ensures clash { met.new.clash ≡ met.old.clash }
    ensures filelogs { IfOk result (λ texts. texts.filelogs ≡ grown.growth) }
    ensures manifest { loaded.now.manifest.inline ≡ false → IfOk result (λ texts. AppendsTo manifest_index loaded.now.manifest texts.manifest) }
    ensures changeset { IfOk result (λ texts. IsNewText loaded.now.changelog met.new texts.changeset) }
    ensures same_start { R.start files.new ≡ R.start files.old }
    ensures still { R.alone ≡ true → R.seen files.new ≡ R.seen files.old }
    ensures cause { HasFaultCause (R.faults files.old) (R.faults files.new) (R.denied files.old) (R.denied files.new) result }
{
    let Grown {
        rows,
        changed,
        growth,
        lines,
    } = grown;
    let link = loaded.changelog.len();
    let manifest = new_manifest(alloc, files, &loaded.manifest, &rows, manifests, link, met)?;
    let changeset = match new_changeset(
        alloc,
        files,
        &loaded.changelog,
        change,
        parents,
        manifest.node,
        changed,
        met,
    ) {
        Ok(changeset) => changeset,
        Err(refusal) => return Err(refusal),
    };
    Ok(Texts {
        filelogs: growth,
        lines,
        manifest: manifest.growth,
        changeset,
    })
}

// What is written, unless a changeset stands that is the same, or something was met that keeps it from being written.
fn written_of(texts: Texts, met: Hindrances, log: &Revlog) -> Result<Written, PlanFault>
    requires changeset { IsNewText log.now met texts.changeset }
    ensures written { Gives is_memory view_written result (written_of (view_texts texts) (met_of met) met.clash) }
    ensures filelogs { IfOk result (λ written. written.filelogs ≡ texts.filelogs) }
    ensures manifest { IfOk result (λ written. written.manifest ≡ texts.manifest) }
    ensures pushes { log.now.inline ≡ false → IfOk result (λ written. Pushes log.now (Some written.changeset)) }
    ensures index { log.now.inline ≡ false → IfOk result (λ written. AppendsTo changelog_index log.now (Some written.changeset)) }
    ensures free { OnOk result (is_met met ≡ false) }
{
    let Texts {
        filelogs,
        lines,
        manifest,
        changeset,
    } = texts;
    let NewText {
        node,
        standing,
        growth,
    } = changeset;
    if let Some(rev) = standing {
        return Err(PlanFault::Refused(Refusal::NothingChanged(rev)));
    }
    match met.refusal() {
        Ok(()) => {}
        Err(fault) => return Err(fault),
    }
    match growth {
        Some(changeset) => Ok(Written {
            filelogs,
            lines,
            manifest,
            changeset,
            node,
        }),
        None => unreachable!(),
    }
}

// The step of these texts, unless a changeset stands that is the same, or something was met that keeps it from being written.
fn planned_step(
    alloc: Global,
    loaded: &Loaded,
    change: &NewChange,
    parents: (Option<u32>, Option<u32>),
    texts: Texts,
    met: Hindrances,
) -> Result<Step, PlanFault>
    requires valid { IsNewChange change.now }
    requires first { IfSome parents.0 (λ r. r < length loaded.now.changelog.entries) }
    requires second { IfSome parents.1 (λ r. r < length loaded.now.changelog.entries) }
    requires entries { AreEntries loaded.now.changelog.entries }
    requires changeset { IsNewText loaded.now.changelog met texts.changeset }
    requires manifest { loaded.now.manifest.inline ≡ false → AppendsTo manifest_index loaded.now.manifest texts.manifest }
    requires few { length texts.filelogs.items ≤ 40000 }
    requires beside { list_all is_beside texts.filelogs.items ≡ true }
    ensures step { Gives is_memory (λ step. step) result (planned loaded.now change.now parents (view_texts texts) (met_of met) met.clash) }
    ensures ready { IfOk result (λ step. CanBeAssembled step.parts) }
    ensures parts { IfOk result (λ step. ArePartsOfCommit loaded.now.changelog step.parts) }
    ensures separate { OnOk result (loaded.now.changelog.inline ≡ false) }
{
    let mut met = met;
    meet_long_list(loaded, texts.lines.len(), &mut met);
    meet_inline(loaded, &mut met);
    let written = match written_of(texts, met, &loaded.changelog) {
        Ok(written) => written,
        Err(fault) => return Err(fault),
    };
    match step_of(alloc, loaded, change, parents, written) {
        Ok(step) => Ok(step),
        Err(fault) => Err(fault),
    }
}

// The step of a commit on these parents.
fn step_on<'a, R: Reads>(
    alloc: Global,
    files: &mut R,
    loaded: &Loaded,
    change: &'a NewChange,
    parents: (Option<u32>, Option<u32>),
    known: &mut Known<'a>,
) -> Result<Step, CommitFault>
    requires known { KnowsAt R.alone (R.seen files.old) (R.start files.old) known.old }
    requires changelog { AreEntries loaded.now.changelog.entries }
    requires manifest { AreEntries loaded.now.manifest.entries }
    requires valid { IsNewChange change.now }
    requires order { can_follow [] change.now.files ≡ true }
    requires first { IfSome parents.0 (λ r. r < length loaded.now.changelog.entries) }
    requires second { IfSome parents.1 (λ r. r < length loaded.now.changelog.entries) }
    ensures found { AtRest R.alone (R.seen files.new) (R.start files.new) (λ t. StepsOn loaded.now change.now parents t result) }
    ensures known { OnOk result (KnowsAt R.alone (R.seen files.new) (R.start files.new) known.new) }
    ensures ready { IfOk result (λ step. CanBeAssembled step.parts) }
    ensures parts { IfOk result (λ step. ArePartsOfCommit loaded.now.changelog step.parts) }
    ensures separate { OnOk result (loaded.now.changelog.inline ≡ false) }
    ensures same_start { R.start files.new ≡ R.start files.old }
    ensures still { R.alone ≡ true → R.seen files.new ≡ R.seen files.old }
    ensures later { R.faults files.old ≤ R.faults files.new }
    ensures refused { R.denied files.old ≤ R.denied files.new }
    ensures cause { HasCause (R.faults files.old) (R.faults files.new) result }
{
    manifest_reads_then_prints();
    let (first, second) = match both_parents(alloc, files, loaded, parents) {
        Ok(read) => read,
        Err(refusal) => return Err(CommitFault::Unread(refusal)),
    };
    match test_copies(alloc, change.files.as_slice(), &first.rows, &second.rows) {
        Ok(()) => {}
        Err(fault) => return Err(CommitFault::Refused(fault)),
    }
    let mut met = Hindrances::none();
    meet_bookmarks(loaded, change, &mut met);
    let (grown, manifests) = match grown_tree(
        alloc, files, loaded, change, &first, &second, known, &mut met,
    ) {
        Ok(grown) => grown,
        Err(refusal) => return Err(CommitFault::Unread(refusal)),
    };
    match test_change(parents, &grown) {
        Ok(()) => {}
        Err(fault) => return Err(CommitFault::Refused(fault)),
    }
    let texts = match texts_of(
        alloc, files, loaded, change, parents, grown, manifests, &mut met,
    ) {
        Ok(texts) => texts,
        Err(refusal) => return Err(CommitFault::Unread(refusal)),
    };
    match planned_step(alloc, loaded, change, parents, texts, met) {
        Ok(step) => Ok(step),
        Err(fault) => Err(CommitFault::Refused(fault)),
    }
}

/// The step of a commit: its new revisions, each after what is read of its revlog, and the files that it replaces.
///
/// It reads the changesets and the manifests of the parents, and for each file its filelog's index, and a chunk where bytes
/// are compared. A commit that changes nothing is refused as such before anything that keeps it from being written.
pub fn commit<R: Reads>(
    alloc: Global,
    files: &mut R,
    loaded: Loaded,
    change: &NewChange,
) -> Result<Step, CommitFault>
    requires changelog { AreEntries loaded.changelog.entries }
    requires manifest { AreEntries loaded.manifest.entries }
    requires valid { IsNewChange change.now }
    ensures found { AtRest R.alone (R.seen files.new) (R.start files.new) (λ t. Steps loaded change.now t result) }
    ensures ready { IfOk result (λ step. CanBeAssembled step.parts) }
    ensures parts { IfOk result (λ step. ArePartsOfCommit loaded.changelog step.parts) }
    ensures separate { OnOk result (loaded.changelog.inline ≡ false) }
    ensures same_start { R.start files.new ≡ R.start files.old }
    ensures still { R.alone ≡ true → R.seen files.new ≡ R.seen files.old }
    ensures later { R.faults files.old ≤ R.faults files.new }
    ensures refused { R.denied files.old ≤ R.denied files.new }
    ensures cause { HasCause (R.faults files.old) (R.faults files.new) result }
{
    let mut known = Known::none(alloc);
    commit_knowing(alloc, files, &loaded, change, &mut known)
}

/// The same, where something is known of the files of the commit before: what is known is not read again.
pub fn commit_knowing<'a, R: Reads>(
    alloc: Global,
    files: &mut R,
    loaded: &Loaded,
    change: &'a NewChange,
    known: &mut Known<'a>,
) -> Result<Step, CommitFault>
    requires changelog { AreEntries loaded.now.changelog.entries }
    requires manifest { AreEntries loaded.now.manifest.entries }
    requires valid { IsNewChange change.now }
    requires known { KnowsAt R.alone (R.seen files.old) (R.start files.old) known.old }
    ensures found { AtRest R.alone (R.seen files.new) (R.start files.new) (λ t. Steps loaded.now change.now t result) }
    ensures known { OnOk result (KnowsAt R.alone (R.seen files.new) (R.start files.new) known.new) }
    ensures ready { IfOk result (λ step. CanBeAssembled step.parts) }
    ensures parts { IfOk result (λ step. ArePartsOfCommit loaded.now.changelog step.parts) }
    ensures separate { OnOk result (loaded.now.changelog.inline ≡ false) }
    ensures same_start { R.start files.new ≡ R.start files.old }
    ensures still { R.alone ≡ true → R.seen files.new ≡ R.seen files.old }
    ensures later { R.faults files.old ≤ R.faults files.new }
    ensures refused { R.denied files.old ≤ R.denied files.new }
    ensures cause { HasCause (R.faults files.old) (R.faults files.new) result }
{
    files_follow();
    let parents = match loaded.parents(&change.parents) {
        Ok(parents) => parents,
        Err(fault) => return Err(CommitFault::Refused(fault)),
    };
    step_on(alloc, files, loaded, change, parents, known)
}
