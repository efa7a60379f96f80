//! The names of filelogs' files: that the list has them, that no two are one, and that each of the list is used.
ghost use Rattle.std.specs.Prelude.{◌≡◌, ◌||◌, ◌++◌, List, ℕ, [], ◌∷◌, true, Option, IfOk, IfSome, OnOk, unwrap_or};
ghost use Rattle.std.specs.List.{AllByRecursion};
ghost use Rattle.hgs_findings.specs.Sight.{value};
ghost use Rattle.hgs_path.specs.declared.name.Ext.{Ext as NameExt};
ghost use Rattle.hgs_path.specs.ListedNames.{is_listed, names_of};
ghost use Rattle.hgs_path.specs.StoreName.{listed_name, store_name};
ghost use Rattle.hgs_files.specs.Tree.{Tree, bytes_at};
ghost use Rattle.hgs_stands.specs.Places.{fncache_path};
ghost use Rattle.hgs_findings.specs.Reading.{sight_of};
ghost use Rattle.hgs_findings.specs.Regular.{used_paths};
ghost use Rattle.hgs_judge.specs.Report.{findings_in};
ghost use Rattle.hgs_report.specs.Adds.{Adds};
ghost use Rattle.hgs_bytes.specs.Bytes.{same};
ghost use Rattle.hgs_report.specs.Lines.{has_key};
ghost use Rattle.hgs_report.specs.Names.{AreInline, IsOfNames, IsSetOf, has_name, is_lacking, is_named, is_taken, lacks, of_name, of_names, unused_files, unused_in};

use crate::lines::add_file;
use crate::sets::{enter, set_of};
use hgs_bytes::bytes::Bytes;
use hgs_bytes::names::Names;
use hgs_files::path::StorePath;
use hgs_judge::report::Finding;
use hgs_path::fncache::FncacheFault;
use hgs_path::laws::listed_names_name_files;
use hgs_path::listed::{listed_file, listed_names};
use hgs_path::name::{Ext, listed_name, store_name};
use std::alloc::{AllocError, Global};
use std::collections::BTreeSet;

/// The names that a text lists; none where it has a fault.
pub fn names_in(alloc: Global, text: &[u8]) -> Result<Option<Names>, AllocError>
    ensures { IfOk result (λ names. names ≡ value (names_of text.now)) }
{
    match listed_names(alloc, text) {
        Ok(names) => Ok(Some(names)),
        Err(FncacheFault::Memory) => Err(AllocError),
        Err(FncacheFault::Line(_)) => Ok(None),
    }
}

// Whether the list can be read and lacks this name.
fn lacks(listed: &Option<BTreeSet<Vec<u8>>>, name: &[u8]) -> bool
    ensures { (names : Option (List (List ℕ))) (path : List ℕ) (ext : NameExt) → IsSetOf names listed.now → name.now ≡ listed_name path ext → result ≡ lacks names path ext }
{
    match listed {
        None => false,
        Some(names) => !names.contains(name),
    }
}

// The names of files that were seen: in the list, and in the store.
#[derive(Drop)]
struct Seen {
    named: BTreeSet<Vec<u8>>,
    taken: BTreeSet<Vec<u8>>,
}

// Whether a filelog has this file, where those of the given paths are inline.
fn has_name(inline: &BTreeSet<Vec<u8>>, path: &Bytes, ext: &Ext) -> bool
    ensures { result ≡ has_name inline.now.keys ext.now path.now }
{
    match ext {
        Ext::I => true,
        Ext::D => !inline.contains(path.as_slice()),
    }
}

// Whether the list can be read and lacks the name of a file that a path's filelog has.
fn is_lacking(
    listed: &Option<BTreeSet<Vec<u8>>>,
    inline: &BTreeSet<Vec<u8>>,
    path: &Bytes,
    ext: &Ext,
    name: &[u8],
) -> bool
    ensures { (names : Option (List (List ℕ))) → IsSetOf names listed.now → name.now ≡ listed_name path.now ext.now → result ≡ is_lacking names inline.now.keys ext.now path.now }
{
    has_name(inline, path, ext) && lacks(listed, name)
}

// Adds what is found of the name of a path's file, and enters it.
fn add_name(
    alloc: Global,
    path: &Bytes,
    ext: Ext,
    listed: &Option<BTreeSet<Vec<u8>>>,
    inline: &BTreeSet<Vec<u8>>,
    seen: &mut Seen,
    into: &mut Vec<Finding>,
) -> Result<(), AllocError>
    ensures found { OnOk result ((names : Option (List (List ℕ))) (before : List (List ℕ)) → IsSetOf names listed.now → ((file : List ℕ) → has_key seen.old.taken.keys file ≡ is_taken before ext file) → findings_in into.new.items ≡ findings_in into.old.items ++ of_name (is_lacking names inline.now.keys ext path.now) ext before path.now) }
    ensures taken { OnOk result ((file : List ℕ) → has_key seen.new.taken.keys file ≡ (same file (store_name path.now ext) || has_key seen.old.taken.keys file)) }
    ensures named { OnOk result ((name : List ℕ) → has_key seen.new.named.keys name ≡ (same name (listed_name path.now ext) || has_key seen.old.named.keys name)) }
{
    let name = listed_name(alloc, path.as_slice(), ext)?;
    let file = store_name(alloc, path.as_slice(), ext)?;
    let is_lacking = is_lacking(listed, inline, path, &ext, &name);
    let is_new = enter(&mut seen.taken, Vec::from_slice(alloc, file.bytes())?)?;
    enter(&mut seen.named, name)?;
    add_file(alloc, is_lacking, &file, 10, into)?;
    add_file(alloc, !is_new, &file, 11, into)?;
    Ok(())
}

/// Adds what is found of the names of these paths' files of one kind, and enters the names that the list is to have.
///
/// The list need not have the data file of a path whose filelog is inline.
pub fn add_names(
    alloc: Global,
    paths: &BTreeSet<Bytes>,
    ext: Ext,
    listed: &Option<BTreeSet<Vec<u8>>>,
    inline: &BTreeSet<Vec<u8>>,
    named: BTreeSet<Vec<u8>>,
    into: &mut Vec<Finding>,
) -> Result<BTreeSet<Vec<u8>>, AllocError>
    ensures found { OnOk result ((names : Option (List (List ℕ))) → IsSetOf names listed.now → findings_in into.new.items ≡ findings_in into.old.items ++ of_names (is_lacking names inline.now.keys ext) ext [] paths.now.keys) }
    ensures named { IfOk result (λ all. (name : List ℕ) → has_key all.keys name ≡ (is_named paths.now.keys ext name || has_key named.keys name)) }
{
    let mut seen = Seen {
        named,
        taken: BTreeSet::new(alloc),
    };
    for path in paths {
        add_name(alloc, path, ext, listed, inline, &mut seen, into)?;
    }
    Ok(seen.named)
}

// Adds the file of a name that the set lacks.
fn add_unused(
    alloc: Global,
    name: &[u8],
    used: &BTreeSet<Vec<u8>>,
    files: &mut Vec<StorePath>,
) -> Result<(), AllocError>
    requires { is_listed name.now ≡ true }
    ensures { OnOk result (files.new.items ≡ files.old.items ++ unused_files used.now.keys (name.now ∷ [])) }
{
    if !used.contains(name) {
        files.push(listed_file(alloc, name)?)?;
    }
    Ok(())
}

// The files of the names that the set lacks.
fn unused_files(
    alloc: Global,
    names: &Names,
    used: &BTreeSet<Vec<u8>>,
) -> Result<Vec<StorePath>, AllocError>
    requires { AllByRecursion (λ name. is_listed name ≡ true) names.now }
    ensures { IfOk result (λ files. files.items ≡ unused_files used.now.keys names.now) }
{
    let mut files = Vec::new(alloc);
    for name in names.as_slice() {
        add_unused(alloc, name.as_slice(), used, &mut files)?;
    }
    Ok(files)
}

// The set of the names, where there are any.
fn set_in(alloc: Global, names: &Option<Names>) -> Result<Option<BTreeSet<Vec<u8>>>, AllocError>
    ensures { IfOk result (λ set. IsSetOf names.now set) }
{
    match names {
        None => Ok(None),
        Some(names) => {
            let set = set_of(alloc, names.as_slice())?;
            Ok(Some(set))
        }
    }
}

// The files of the names that the set lacks, where there are any.
fn files_lacking(
    alloc: Global,
    names: &Option<Names>,
    used: &BTreeSet<Vec<u8>>,
) -> Result<Vec<StorePath>, AllocError>
    requires { IfSome names.now (λ listed. AllByRecursion (λ name. is_listed name ≡ true) listed) }
    ensures { IfOk result (λ files. files.items ≡ unused_files used.now.keys (unwrap_or names.now [])) }
{
    match names {
        None => Ok(Vec::new(alloc)),
        Some(names) => unused_files(alloc, names, used),
    }
}

/// Adds what is found of the list, whose path and text these are, and of the names of the used paths' files, of which some
/// have inline filelogs, and hands back the files of the listed names that no path uses.
pub fn add_used_names(
    alloc: Global,
    path: &StorePath,
    text: &[u8],
    used: &BTreeSet<Bytes>,
    inline: &BTreeSet<Vec<u8>>,
    into: &mut Vec<Finding>,
) -> Result<Vec<StorePath>, AllocError>
    requires { path.now ≡ fncache_path }
    ensures found { OnOk result ((t : Tree) → text.now ≡ bytes_at t fncache_path → used.now.keys ≡ used_paths (sight_of t) → AreInline t inline.now.keys → Adds t (IsOfNames t) (findings_in into.old.items) (findings_in into.new.items)) }
    ensures unused { IfOk result (λ files. (t : Tree) → text.now ≡ bytes_at t fncache_path → used.now.keys ≡ used_paths (sight_of t) → files.items ≡ unused_in t) }
{
    listed_names_name_files();
    let names = names_in(alloc, text)?;
    add_file(alloc, names.is_none(), path, 4, into)?;
    let listed = set_in(alloc, &names)?;
    let indexes = add_names(
        alloc,
        used,
        Ext::I,
        &listed,
        inline,
        BTreeSet::new(alloc),
        into,
    )?;
    let named = add_names(alloc, used, Ext::D, &listed, inline, indexes, into)?;
    let files = files_lacking(alloc, &names, &named)?;
    Ok(files)
}
