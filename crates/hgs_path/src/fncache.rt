//! The list `fncache` of the filelogs' files (Mercurial's wiki page "fncacheRepoFormat").
ghost use Rattle.std.specs.Prelude.{◌≡◌, ◌++◌, List, ℕ, Bool, false, OnOk, OnErr, IfOk, codes, option_map, if◌then◌else◌};
ghost use Rattle.hgs_bytes.specs.Answer.{Gives};
ghost use Rattle.hgs_bytes.specs.Text.{line};
ghost use Rattle.hgs_path.specs.declared.name.Ext.{Ext};
ghost use Rattle.hgs_path.specs.StoreName.{ends_in, listed_name};
ghost use Rattle.hgs_path.specs.Owners.{Keeps, owns_name, with_path, with_file_name};
ghost use Rattle.hgs_path.specs.ListedNames.{is_listed, unmarked_directory, undone_step, file_named};

use crate::name::{Ext, hashed_store_name, is_short, listed_name};
use crate::owners::Owners;
use crate::parts::ends;
use hgs_bytes::parts::{equal, front, next_line, past, split_at_byte, starts};
use std::alloc::{AllocError, Global};
use std::collections::BTreeSet;
use thiserror::Error;

/// Why a text is no list.
#[derive(Clone, Copy, Debug, PartialEq, Eq, Error)]
pub enum FncacheFault {
    /// The number, from 1, of the first line that is no name or has no LF.
    #[error("line {0} names no file of a filelog")]
    Line(u64),
    #[error("out of memory")]
    Memory,
}

impl From<AllocError> for FncacheFault {
    ghost use Rattle.hgs_path.specs.declared.fncache.FncacheFault.TheVariants.{Memory};

    ghost from_gives = { λ _ e. e ≡ Memory };

    fn from(_: AllocError) -> FncacheFault {
        FncacheFault::Memory
    }
}

/// The files that `fncache` lists, by the paths of their filelogs. Repeated lines count once.
#[derive(Debug, Drop)]
pub struct Fncache {
    alloc: Global,
    indexes: BTreeSet<Vec<u8>>,
    datas: BTreeSet<Vec<u8>>,
    /// The listed paths by their hashed names.
    owners: Owners,
    ghost owners_kept: { Keeps (owns_name indexes.keys datas.keys) owners },
}

/// Whether a line may stand in the list.
pub(crate) fn is_listed(name: &[u8]) -> bool
    ensures { result ≡ is_listed name.now }
{
    starts(name, b"data/") && (ends(name, b".i") || ends(name, b".d"))
}

fn unmarked_directory(directory: &[u8]) -> &[u8]
    ensures { result.now ≡ unmarked_directory directory.now }
{
    if ends(directory, b".hg") {
        front(directory, directory.len().saturating_sub(3))
    } else {
        directory
    }
}

/// The directory step back.
fn undone_step(alloc: Global, name: &[u8]) -> Result<Vec<u8>, AllocError>
    ensures { IfOk result (λ out. out.items ≡ undone_step name.now) }
{
    let mut out = Vec::new(alloc);
    let mut rest = name;
    while let Some((directory, behind)) = split_at_byte(rest, b'/') {
        out.extend_from_slice(unmarked_directory(directory))?;
        out.push(b'/')?;
        rest = behind;
    }
    out.extend_from_slice(rest)?;
    Ok(out)
}

fn ext_within(inner: &[u8]) -> Ext
    ensures { result ≡ (if ends_in inner.now (codes ".i") then Ext.I else Ext.D) }
{
    if ends(inner, b".i") { Ext::I } else { Ext::D }
}

/// The file that has this name in the list, if one has.
pub(crate) fn file_named(alloc: Global, name: &[u8]) -> Result<Option<(Vec<u8>, Ext)>, AllocError>
    ensures { IfOk result (λ file. option_map (λ f. (f.0.items, f.1)) file ≡ file_named name.now) }
{
    let mut path = undone_step(alloc, past(name, 5))?;
    let ext = ext_within(&path);
    path.truncate(path.len().saturating_sub(2));
    if equal(&listed_name(alloc, &path, ext)?, name) {
        return Ok(Some((path, ext)));
    }
    Ok(None)
}

/// Enters a file's path under its name where that is hashed.
fn enter_file(alloc: Global, path: &[u8], ext: Ext, owners: &mut Owners) -> Result<(), AllocError>
    ensures { OnOk result ((owns : List ℕ → List ℕ → Bool) → Keeps owns owners.old → Keeps (with_file_name owns path.now ext) owners.new) }
{
    match hashed_store_name(alloc, path, ext)? {
        Some(name) => owners.add(alloc, name, path),
        None => Ok(()),
    }
}

/// Enters a path under those of its two names that are hashed, mostly none.
fn enter(alloc: Global, path: &[u8], owners: &mut Owners) -> Result<(), AllocError>
    ensures { OnOk result ((owns : List ℕ → List ℕ → Bool) → Keeps owns owners.old → Keeps (with_path owns path.now) owners.new) }
{
    if is_short(path) {
        return Ok(());
    }
    enter_file(alloc, path, Ext::I, owners)?;
    enter_file(alloc, path, Ext::D, owners)
}

impl Fncache {
    ghost use Rattle.hgs_path.specs.Fncache.{files_of, is_memory, listing, with_both, with_file, with_named, IsClash, IsClashAt};

    /// A list without files.
    pub fn empty(alloc: Global) -> Fncache
        ensures { listing result ≡ (λ path ext. false) }
    {
        Fncache {
            alloc,
            indexes: BTreeSet::new(alloc),
            datas: BTreeSet::new(alloc),
            owners: Owners::new(alloc),
        }
    }

    fn with_file(self, path: Vec<u8>, ext: Ext) -> Result<Fncache, AllocError>
        ensures { IfOk result (λ fncache. listing fncache ≡ with_file (listing self) path.items ext) }
    {
        let Fncache {
            alloc,
            mut indexes,
            mut datas,
            mut owners,
        } = self;
        enter(alloc, &path, &mut owners)?;
        match ext {
            Ext::I => indexes.insert(path)?,
            Ext::D => datas.insert(path)?,
        };
        Ok(Fncache {
            alloc,
            indexes,
            datas,
            owners,
        })
    }

    /// The list with both files of one more path.
    pub fn with_path(self, path: &[u8]) -> Result<Fncache, AllocError>
        ensures { IfOk result (λ fncache. listing fncache ≡ with_both (listing self) path.now) }
    {
        let alloc = self.alloc;
        let indexed = self.with_file(Vec::from_slice(alloc, path)?, Ext::I)?;
        indexed.with_file(Vec::from_slice(alloc, path)?, Ext::D)
    }

    fn with_named(self, name: &[u8]) -> Result<Fncache, AllocError>
        ensures { IfOk result (λ fncache. listing fncache ≡ with_named (listing self) (file_named name.now)) }
    {
        match file_named(self.alloc, name)? {
            Some((path, ext)) => self.with_file(path, ext),
            None => Ok(self),
        }
    }

    /// The files that a text lists, or the first line that does not begin with `data/`, ends in neither `.i` nor `.d`, or
    /// has no LF.
    ///
    /// For a path that is not short it also works out both names, which takes longer than the rest.
    pub fn read(alloc: Global, bytes: &[u8]) -> Result<Fncache, FncacheFault>
        ensures { Gives is_memory listing result (files_of bytes.now) }
    {
        let mut fncache = Fncache::empty(alloc);
        let mut rest = bytes;
        let mut number: u64 = 1;
        while !rest.is_empty() {
            let (name, is_whole, behind) = next_line(rest);
            if !is_whole || !is_listed(name) {
                return Err(FncacheFault::Line(number));
            }
            fncache = fncache.with_named(name)?;
            number += 1;
            rest = behind;
        }
        Ok(fncache)
    }

    /// Appends the line of a file to the text of `fncache`, or changes nothing where there is no memory.
    pub fn add_line(path: &[u8], ext: Ext, into: &mut Vec<u8>) -> Result<(), AllocError>
        ensures ok { OnOk result (into.new.items ≡ into.old.items ++ line (listed_name path.now ext)) }
        ensures err { OnErr result (into.new.items ≡ into.old.items) }
    {
        let mut text = listed_name(*into.allocator(), path, ext)?;
        text.push(b'\n')?;
        into.extend_from_slice(&text)
    }

    /// Another listed path that has the same store name for one of its two files, or `None` where no other listed path
    /// has. One file of the other path is enough for it to be listed.
    ///
    /// Beside the cost of the path's own two names this takes logarithmic time, and constant time for a short path: names
    /// that are not hashed differ.
    pub fn clash(&self, path: &[u8]) -> Result<Option<Vec<u8>>, AllocError>
        ensures { IfOk result (λ found. IsClash (listing self.now) path.now (option_map (λ p. p.items) found)) }
    {
        if is_short(path) {
            return Ok(None);
        }
        match self.clash_at(path, Ext::I)? {
            Some(other) => Ok(Some(other)),
            None => self.clash_at(path, Ext::D),
        }
    }

    /// Another listed path whose file of this kind has the same name.
    fn clash_at(&self, path: &[u8], ext: Ext) -> Result<Option<Vec<u8>>, AllocError>
        ensures { IfOk result (λ found. IsClashAt (listing self.now) path.now ext (option_map (λ p. p.items) found)) }
    {
        match hashed_store_name(self.alloc, path, ext)? {
            Some(name) => match self.owners.other(&name, path) {
                Some(other) => Ok(Some(Vec::from_slice(self.alloc, other)?)),
                None => Ok(None),
            },
            None => Ok(None),
        }
    }

    /// Whether the line of this file was read.
    pub fn contains(&self, path: &[u8], ext: Ext) -> bool
        ensures { result ≡ listing self.now path.now ext }
    {
        match ext {
            Ext::I => self.indexes.contains(path),
            Ext::D => self.datas.contains(path),
        }
    }
}
