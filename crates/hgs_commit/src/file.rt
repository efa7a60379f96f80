//! A file of a commit: its revision in the new tree.
ghost use Rattle.std.specs.Prelude.{◌≡◌, ◌<◌, ◌^◌, ◌++◌, [], true, length, IfOk, IfSome, OnOk, ◌≤◌, false, Ok, Some};
ghost use Rattle.hgs_model.specs.Step.{copy_lines};
ghost use Rattle.hgs_load.specs.Answer.{HasFaultCause};
ghost use Rattle.hgs_revlog.specs.Loaded.{AreEntries, parents_in};
ghost use Rattle.std.specs.Option.{option_map};
ghost use Rattle.hgs_bytes.specs.Answer.{Gives};
ghost use Rattle.hgs_index.specs.Revision.{ParentsBefore};
ghost use Rattle.hgs_loading.specs.Found.{Finds, and_then};
ghost use Rattle.hgs_model.specs.History.{first_of};
ghost use Rattle.hgs_load.specs.Answer.{is_of_outside, NeverFaults};
ghost use Rattle.hgs_path.specs.Fncache.{listing, IsClash};
ghost use Rattle.hgs_bytes.specs.Bytes.{same};
ghost use Rattle.hgs_commit.specs.Files.{can_follow, changed_in, file_in, file_on, formed, fresh_text, kept_at, kept_file, new_path, node_in, parents_by, place_in, source_node, standing_at, view_file, view_filelog};
ghost use Rattle.hgs_commit.specs.Known.{AreKept, IsKept, IsReadOf, KnowsAt, is_recalled, recalled_file};
ghost use Rattle.hgs_commit.specs.NewTree.{tree_of};
ghost use Rattle.hgs_commit.specs.Tree.{ClashIn, adding, files_in};
ghost use Rattle.hgs_files.specs.Tree.{Tree, after_all};
ghost use Rattle.hgs_commit.specs.Obstacles.{ClashBehind, either_list, met_of, noted, noting, with_all};
ghost use Rattle.hgs_commit.specs.Walk.{told_of_found};

use crate::filelog::Filelog;
use crate::filelogs::{load_filelog, revise_in};
use crate::grow::growth_in;
use crate::hindrance::Hindrances;
use crate::known::{Known, KnownFile};
use crate::parents::file_parents;
use crate::tree::{NewTree, ParentFiles};
use crate::tree_file::TreeFile;
use hgs_bytes::bytes::Bytes;
use hgs_bytes::parts::equal;
use hgs_filelog::file_text::pack;
use hgs_files::files::Reads;
use hgs_files::path::StorePath;
use hgs_index::kinds::Flag;
use hgs_index::node::Node;
use hgs_index::texts::hex_of;
use hgs_load::answer::ReadAnswer;
use hgs_loading::logs::test_either_data;
use hgs_loading::whole::size_of;
use hgs_manifest::manifest::Manifest;
use hgs_model::files::NewFile;
use hgs_path::fncache::Fncache;
use hgs_path::name::Ext;
use std::alloc::{AllocError, Global};

// Notes a file with bytes that stands where a new filelog would be.
fn meet_standing<R: Reads>(
    alloc: Global,
    files: &mut R,
    path: &StorePath,
    met: &mut Hindrances,
) -> Result<(), ReadAnswer>
    ensures found { Finds (λ _. met_of met.new) R.alone (R.seen files.new) (R.start files.new) (λ t. Ok (noted (met_of met.old) (standing_at path.now t))) result }
    ensures clash { met.new.clash ≡ met.old.clash }
    ensures same_start { R.start files.new ≡ R.start files.old }
    ensures still { R.alone ≡ true → R.seen files.new ≡ R.seen files.old }
    ensures cause { HasFaultCause (R.faults files.old) (R.faults files.new) (R.denied files.old) (R.denied files.new) result }
{
    match size_of(files, path)? {
        None | Some(0) => Ok(()),
        Some(_) => {
            met.meet_file(path.copy(alloc)?);
            Ok(())
        }
    }
}

// Tests that a new revision may stand behind those of a filelog. Where it has none, its files are to have no bytes, of an inline one its
// index alone.
fn test_place<R: Reads>(
    alloc: Global,
    files: &mut R,
    filelog: &Filelog,
    met: &mut Hindrances,
) -> Result<(), ReadAnswer>
    requires { AreEntries filelog.now.log.entries }
    ensures found { Finds (λ _. met_of met.new) R.alone (R.seen files.new) (R.start files.new) (λ t. and_then (place_in (view_filelog filelog.now) t) (λ obstacles. Ok (noted (met_of met.old) obstacles))) result }
    ensures clash { met.new.clash ≡ met.old.clash }
    ensures same_start { R.start files.new ≡ R.start files.old }
    ensures still { R.alone ≡ true → R.seen files.new ≡ R.seen files.old }
    ensures cause { HasFaultCause (R.faults files.old) (R.faults files.new) (R.denied files.old) (R.denied files.new) result }
{
    if filelog.log.len() > 0 {
        return test_either_data(alloc, files, &filelog.paths, &filelog.log);
    }
    meet_standing(alloc, files, &filelog.paths.index, met)?;
    if filelog.log.is_inline() {
        return Ok(());
    }
    meet_standing(alloc, files, &filelog.paths.chunks, met)
}

// What stands in the block of a copy of the file with this path and this node.
fn copy_lines(alloc: Global, path: &[u8], node: &Node) -> Result<Vec<u8>, AllocError>
    ensures { IfOk result (λ lines. lines.items ≡ copy_lines path.now node.now.0) }
{
    let mut lines = Vec::from_slice(alloc, b"copy: ")?;
    lines.extend_from_slice(path)?;
    lines.extend_from_slice(b"\ncopyrev: ")?;
    lines.extend_from_slice(hex_of(node).as_slice())?;
    lines.push(b'\n')?;
    Ok(lines)
}

// The text of a file whose revision is not kept, where its source has this node.
fn fresh_text(alloc: Global, file: &NewFile, source: &Node) -> Result<Vec<u8>, AllocError>
    ensures { IfOk result (λ text. text.items ≡ fresh_text file.now source.now.0) }
{
    let Some(path) = &file.from else {
        return pack(alloc, None, file.body.as_slice());
    };
    let lines = copy_lines(alloc, path.as_slice(), source)?;
    pack(alloc, Some(&lines), file.body.as_slice())
}

// The node that the source of a copy has in these rows; the null node where there is none.
fn source_node(file: &NewFile, rows: &Manifest) -> Node
    ensures { result.0 ≡ source_node rows.now file.now.from }
{
    let Some(path) = &file.from else {
        return Node([0; 20]);
    };
    match rows.get(path.as_slice()) {
        Some((node, _)) => node,
        None => Node([0; 20]),
    }
}

// A file whose revision is not kept.
fn changed_file<R: Reads>(
    alloc: Global,
    files: &mut R,
    link: u32,
    file: &NewFile,
    source: &Node,
    filelog: Filelog,
    parents: (Option<u32>, Option<u32>),
    met: &mut Hindrances,
) -> Result<TreeFile, ReadAnswer>
    requires link { link < 2 ^ 31 }
    requires entries { AreEntries filelog.log.entries }
    requires first { IfSome parents.0 (λ rev. rev < length filelog.log.entries) }
    requires second { IfSome parents.1 (λ rev. rev < length filelog.log.entries) }
    ensures path { IfOk result (λ f. f.path ≡ file.now.path) }
    ensures found { Finds (λ f. (view_file f, met_of met.new)) R.alone (R.seen files.new) (R.start files.new) (λ t. noting (met_of met.old) (changed_in (formed (view_filelog filelog) (fresh_text file.now source.now.0)) file.now source.now.0 parents link t)) result }
    ensures clash { met.new.clash ≡ met.old.clash }
    ensures same_start { R.start files.new ≡ R.start files.old }
    ensures still { R.alone ≡ true → R.seen files.new ≡ R.seen files.old }
    ensures cause { HasFaultCause (R.faults files.old) (R.faults files.new) (R.denied files.old) (R.denied files.new) result }
{
    let path = file.path.copy(alloc)?;
    let text = fresh_text(alloc, file, source)?;
    let filelog = filelog.formed(alloc, &text);
    let (p1, p2) = parents;
    let revised = match revise_in(
        alloc,
        files,
        &filelog.paths,
        &filelog.log,
        &text,
        p1,
        p2,
        link,
    ) {
        Ok(revised) => revised,
        Err(refusal) => return Err(refusal),
    };
    match test_place(alloc, files, &filelog, met) {
        Ok(()) => {}
        Err(refusal) => return Err(refusal),
    }
    let listed = filelog.log.len() == 0;
    let inline = filelog.log.is_inline();
    let node = revised.node;
    let Filelog { paths, log } = filelog;
    let growth = growth_in(alloc, paths, &log, revised, met)?;
    Ok(TreeFile {
        path,
        node,
        flag: file.flag,
        changed: true,
        growth,
        listed,
        inline,
    })
}

// The node of a file in a parent's tree.
fn node_in(file: Option<(Node, Flag)>) -> Option<Node>
    ensures { option_map (λ n. n.0) result ≡ node_in (option_map told_of_found file) }
{
    match file {
        Some((node, _)) => Some(node),
        None => None,
    }
}

// The parents of a file's new revision, by the revisions in the trees of the two parents.
fn parents_by(
    alloc: Global,
    filelog: &Filelog,
    rows: ParentFiles,
) -> Result<(Option<u32>, Option<u32>), ReadAnswer>
    requires { ParentsBefore 0 (parents_in filelog.now.log.entries) }
    ensures parents { Gives is_of_outside (λ parents. parents) result (parents_by (view_filelog filelog.now) (option_map told_of_found rows.first) (option_map told_of_found rows.second)) }
    ensures first { IfOk result (λ parents. IfSome parents.0 (λ rev. rev < length filelog.now.log.entries)) }
    ensures second { IfOk result (λ parents. IfSome parents.1 (λ rev. rev < length filelog.now.log.entries)) }
    ensures inner { NeverFaults result }
{
    let first = filelog.rev_of(alloc, node_in(rows.first))?;
    let second = filelog.rev_of(alloc, node_in(rows.second))?;
    Ok(file_parents(alloc, &filelog.log, first, second)?)
}

// A file whose revision is kept.
fn kept_file(
    alloc: Global,
    file: &NewFile,
    filelog: &Filelog,
    rows: ParentFiles,
    rev: u32,
) -> Result<TreeFile, AllocError>
    requires { rev < length filelog.now.log.entries }
    ensures file { IfOk result (λ f. view_file f ≡ kept_file (view_filelog filelog.now) file.now (first_of (option_map told_of_found rows.first) (option_map told_of_found rows.second)) rev) }
    ensures path { IfOk result (λ f. f.path ≡ file.now.path) }
    ensures listed { IfOk result (λ f. f.listed ≡ false) }
{
    Ok(TreeFile {
        path: file.path.copy(alloc)?,
        node: filelog.log.entry(rev).node,
        flag: file.flag,
        changed: rows.has_other_flag(file.flag),
        growth: None,
        listed: false,
        inline: filelog.log.is_inline(),
    })
}

// What is known of a file whose revision is kept.
fn known_file<'a>(file: &'a NewFile, filelog: Filelog, rev: u32) -> KnownFile<'a>
    requires stands { rev < length filelog.log.entries }
    requires entries { AreEntries filelog.log.entries }
    ensures { (t : Tree) → IsReadOf file.now.path (view_filelog filelog) t → kept_at (view_filelog filelog) rev file.now.body t ≡ Ok (Some rev) → IsKept t result }
{
    let node = filelog.log.entry(rev).node;
    let inline = filelog.log.is_inline();
    let Filelog { paths, log: _ } = filelog;
    KnownFile {
        file,
        node,
        inline,
        paths,
    }
}

// A file on these revisions of its filelog.
fn file_on<'a, R: Reads>(
    alloc: Global,
    files: &mut R,
    link: u32,
    file: &'a NewFile,
    source: &Node,
    rows: ParentFiles,
    filelog: Filelog,
    parents: (Option<u32>, Option<u32>),
    known: &mut Known<'a>,
    met: &mut Hindrances,
) -> Result<TreeFile, ReadAnswer>
    requires link { link < 2 ^ 31 }
    requires entries { AreEntries filelog.log.entries }
    requires first { IfSome parents.0 (λ rev. rev < length filelog.log.entries) }
    requires second { IfSome parents.1 (λ rev. rev < length filelog.log.entries) }
    requires read { R.alone ≡ true → IfSome (R.seen files.old) (λ log. IsReadOf file.now.path (view_filelog filelog) (after_all log (R.start files.old))) }
    requires known { KnowsAt R.alone (R.seen files.old) (R.start files.old) known.old }
    ensures found { Finds (λ f. (view_file f, met_of met.new)) R.alone (R.seen files.new) (R.start files.new) (λ t. noting (met_of met.old) (file_on (view_filelog filelog) file.now source.now.0 (first_of (option_map told_of_found rows.first) (option_map told_of_found rows.second)) parents link t)) result }
    ensures known { OnOk result (KnowsAt R.alone (R.seen files.new) (R.start files.new) known.new) }
    ensures clash { met.new.clash ≡ met.old.clash }
    ensures path { IfOk result (λ f. f.path ≡ file.now.path) }
    ensures same_start { R.start files.new ≡ R.start files.old }
    ensures still { R.alone ≡ true → R.seen files.new ≡ R.seen files.old }
    ensures cause { HasFaultCause (R.faults files.old) (R.faults files.new) (R.denied files.old) (R.denied files.new) result }
{
    match filelog.kept(alloc, files, parents, file.body.as_slice())? {
        Some(rev) => {
            let kept = kept_file(alloc, file, &filelog, rows, rev)?;
            known.push(known_file(file, filelog, rev))?;
            Ok(kept)
        }
        None => changed_file(alloc, files, link, file, source, filelog, parents, met),
    }
}

// A file of the new tree that is not known, by the node of its source, and by those with its path in the trees of the two parents.
fn read_file<'a, R: Reads>(
    alloc: Global,
    files: &mut R,
    fncache: &Fncache,
    link: u32,
    file: &'a NewFile,
    source: &Node,
    rows: ParentFiles,
    known: &mut Known<'a>,
    met: &mut Hindrances,
) -> Result<TreeFile, ReadAnswer>
    requires link { link < 2 ^ 31 }
    requires known { KnowsAt R.alone (R.seen files.old) (R.start files.old) known.old }
    ensures found { Finds (λ f. (view_file f, met_of met.new)) R.alone (R.seen files.new) (R.start files.new) (λ t. noting (met_of met.old) (file_in (listing fncache.now) link file.now source.now.0 (option_map told_of_found rows.first) (option_map told_of_found rows.second) t)) result }
    ensures known { OnOk result (KnowsAt R.alone (R.seen files.new) (R.start files.new) known.new) }
    ensures clash { met.new.clash ≡ met.old.clash }
    ensures path { IfOk result (λ f. f.path ≡ file.now.path) }
    ensures same_start { R.start files.new ≡ R.start files.old }
    ensures still { R.alone ≡ true → R.seen files.new ≡ R.seen files.old }
    ensures cause { HasFaultCause (R.faults files.old) (R.faults files.new) (R.denied files.old) (R.denied files.new) result }
{
    let filelog = match load_filelog(alloc, files, fncache, file.path.as_slice()) {
        Ok(filelog) => filelog,
        Err(refusal) => return Err(refusal),
    };
    let parents = match parents_by(alloc, &filelog, rows) {
        Ok(parents) => parents,
        Err(refusal) => return Err(refusal),
    };
    file_on(
        alloc, files, link, file, source, rows, filelog, parents, known, met,
    )
}

// Whether what is known of a path's file tells that the revision in the tree of the one parent is kept.
fn is_recalled(fncache: &Fncache, file: &NewFile, rows: ParentFiles, known: &KnownFile<'_>) -> bool
    ensures { result ≡ is_recalled (listing fncache.now) file.now (option_map told_of_found rows.first) (option_map told_of_found rows.second) known.now }
{
    match (rows.first, rows.second) {
        (Some((node, _)), None) => {
            node == known.node
                && equal(known.file.body.as_slice(), file.body.as_slice())
                && fncache.contains(file.path.as_slice(), Ext::I)
        }
        (Some(_), Some(_)) | (None, _) => false,
    }
}

// What is known of a file whose revision is kept, if that is known.
fn recalled<'a>(
    fncache: &Fncache,
    file: &NewFile,
    rows: ParentFiles,
    known: &mut Known<'a>,
) -> Option<KnownFile<'a>>
    ensures kept { (t : Tree) → AreKept t known.old → AreKept t known.new × IfSome result (IsKept t) }
    ensures path { IfSome result (λ found. same found.file.now.path file.now.path ≡ true) }
    ensures recalled { IfSome result (λ found. is_recalled (listing fncache.now) file.now (option_map told_of_found rows.first) (option_map told_of_found rows.second) found ≡ true) }
{
    let found = known.next(file.path.as_slice())?;
    if is_recalled(fncache, file, rows, &found) {
        Some(found)
    } else {
        None
    }
}

// A file whose revision is kept, which has this node.
fn recalled_file(
    alloc: Global,
    file: &NewFile,
    rows: ParentFiles,
    node: Node,
    inline: bool,
) -> Result<TreeFile, AllocError>
    ensures file { IfOk result (λ f. view_file f ≡ recalled_file file.now (first_of (option_map told_of_found rows.first) (option_map told_of_found rows.second)) node.0 inline) }
    ensures path { IfOk result (λ f. f.path ≡ file.now.path) }
{
    Ok(TreeFile {
        path: file.path.copy(alloc)?,
        node,
        flag: file.flag,
        changed: rows.has_other_flag(file.flag),
        growth: None,
        listed: false,
        inline,
    })
}

// A file of the new tree, by what is known of it, by the node of its source, and by those with its path in the trees of the two parents.
fn file_of<'a, R: Reads>(
    alloc: Global,
    files: &mut R,
    fncache: &Fncache,
    link: u32,
    file: &'a NewFile,
    source: &Node,
    rows: ParentFiles,
    known: &mut Known<'a>,
    met: &mut Hindrances,
) -> Result<TreeFile, ReadAnswer>
    requires link { link < 2 ^ 31 }
    requires known { KnowsAt R.alone (R.seen files.old) (R.start files.old) known.old }
    ensures found { Finds (λ f. (view_file f, met_of met.new)) R.alone (R.seen files.new) (R.start files.new) (λ t. noting (met_of met.old) (file_in (listing fncache.now) link file.now source.now.0 (option_map told_of_found rows.first) (option_map told_of_found rows.second) t)) result }
    ensures known { OnOk result (KnowsAt R.alone (R.seen files.new) (R.start files.new) known.new) }
    ensures clash { met.new.clash ≡ met.old.clash }
    ensures path { IfOk result (λ f. f.path ≡ file.now.path) }
    ensures same_start { R.start files.new ≡ R.start files.old }
    ensures still { R.alone ≡ true → R.seen files.new ≡ R.seen files.old }
    ensures cause { HasFaultCause (R.faults files.old) (R.faults files.new) (R.denied files.old) (R.denied files.new) result }
{
    match recalled(fncache, file, rows, known) {
        Some(found) => {
            let kept = recalled_file(alloc, file, rows, found.node, found.inline)?;
            known.push(found)?;
            Ok(kept)
        }
        None => read_file(alloc, files, fncache, link, file, source, rows, known, met),
    }
}

// Another path of one of these lists that has the same store name for one of its two files.
fn clash_in(
    fncache: &Fncache,
    new_paths: &Fncache,
    path: &[u8],
) -> Result<Option<Vec<u8>>, AllocError>
    ensures { IfOk result (λ found. IsClash (either_list (listing fncache.now) (listing new_paths.now)) path.now (option_map (λ p. p.items) found)) }
{
    match fncache.clash(path)? {
        Some(other) => Ok(Some(other)),
        None => new_paths.clash(path),
    }
}

// Adds a path to the new ones where its filelog is new. No listed path is to have the names of its files, and no new one
// before it.
fn with_new(
    fncache: &Fncache,
    new_paths: Fncache,
    new: bool,
    path: &[u8],
    met: &mut Hindrances,
) -> Result<Fncache, AllocError>
    ensures met { met_of met.new ≡ met_of met.old }
    ensures clash { OnOk result (ClashBehind (either_list (listing fncache.now) (listing new_paths)) (new_path new path.now) met.old.clash met.new.clash) }
    ensures paths { IfOk result (λ paths. listing paths ≡ with_all (listing new_paths) (new_path new path.now)) }
{
    if !new {
        return Ok(new_paths);
    }
    if let Some(other) = clash_in(fncache, &new_paths, path)? {
        met.meet_clash(Bytes::from_vec(other));
    }
    new_paths.with_path(path)
}

/// Adds all files of a commit to the tree, each after what is known or read of its filelog. The sources of copies are among the rows of
/// the first parent.
pub fn add_files<'a, R: Reads>(
    alloc: Global,
    files: &mut R,
    fncache: &Fncache,
    link: u32,
    sources: &Manifest,
    new_files: &'a [NewFile],
    tree: &mut NewTree<'_>,
    known: &mut Known<'a>,
    met: &mut Hindrances,
) -> Result<(), ReadAnswer>
    requires link { link < 2 ^ 31 }
    requires known { KnowsAt R.alone (R.seen files.old) (R.start files.old) known.old }
    requires empty { tree.old.rows ≡ [] }
    requires few { length new_files.now ≤ 20000 }
    requires order { can_follow [] new_files.now ≡ true }
    ensures found { Finds (λ _. (tree_of tree.new, met_of met.new)) R.alone (R.seen files.new) (R.start files.new) (λ t. adding (tree_of tree.old) (met_of met.old) (files_in (listing fncache.now) link sources.now new_files.now tree.old.first tree.old.second t)) result }
    ensures clash { OnOk result (R.alone ≡ true → IfSome (R.seen files.new) (λ log. ClashIn (listing fncache.now) (files_in (listing fncache.now) link sources.now new_files.now tree.old.first tree.old.second (after_all log (R.start files.new))) met.old.clash met.new.clash)) }
    ensures known { OnOk result (KnowsAt R.alone (R.seen files.new) (R.start files.new) known.new) }
    ensures count { OnOk result (length tree.new.rows ≡ length new_files.now) }
    ensures same_start { R.start files.new ≡ R.start files.old }
    ensures still { R.alone ≡ true → R.seen files.new ≡ R.seen files.old }
    ensures cause { HasFaultCause (R.faults files.old) (R.faults files.new) (R.denied files.old) (R.denied files.new) result }
{
    let mut new_paths = Fncache::empty(alloc);
    let mut rest = new_files;
    while let Some((file, behind)) = rest.split_first() {
        let path = file.path.as_slice();
        let rows = tree.parent_files(path)?;
        let source = source_node(file, sources);
        let added = match file_of(alloc, files, fncache, link, file, &source, rows, known, met) {
            Ok(added) => added,
            Err(refusal) => return Err(refusal),
        };
        let new = added.listed;
        tree.add(added)?;
        new_paths = with_new(fncache, new_paths, new, path, met)?;
        rest = behind;
    }
    Ok(())
}
