//! The tree of a commit that is under way: its files up to some path, and what they change.
ghost use Rattle.std.specs.Prelude.{◌≡◌, ◌≤◌, ◌<◌, ◌+◌, ◌*◌, ◌++◌, ◌∷◌, [], true, length, map, is_ok, Some, OnOk, IfOk};
ghost use Rattle.std.specs.List.{list_all};
ghost use Rattle.hgs_manifest.specs.Held.{with_last};
ghost use Rattle.hgs_model.specs.History.{first_of, in_order, inserted};
ghost use Rattle.std.specs.Option.{ForSome, option_map};
ghost use Rattle.hgs_commit.specs.Appended.{is_beside};
ghost use Rattle.hgs_commit.specs.Files.{has_other_flag, new_path};
ghost use Rattle.hgs_commit.specs.Texts.{changes_of, view_growth};
ghost use Rattle.hgs_commit.specs.Tree.{new_lines, passed_at, paths_of, rest_at, row_at};
ghost use Rattle.hgs_commit.specs.Walk.{told_of_found};
ghost use Rattle.hgs_transaction.specs.declared.parts.Change.TheVariants.{Append};

use crate::appended::Growth;
use crate::tree_file::TreeFile;
use crate::walk::Walk;
use hgs_bytes::bytes::Bytes;
use hgs_bytes::names::Names;
use hgs_index::kinds::Flag;
use hgs_index::node::Node;
use hgs_index::texts::ManifestFault;
use hgs_manifest::manifest::Manifest;
use hgs_path::fncache::Fncache;
use hgs_path::name::Ext;
use hgs_transaction::parts::Change;
use std::alloc::{AllocError, Global};
use std::collections::BTreeSet;

/// A path in the trees of the two parents.
#[derive(Clone, Copy)]
pub struct ParentFiles {
    pub first: Option<(Node, Flag)>,
    pub second: Option<(Node, Flag)>,
}

impl ParentFiles {
    /// Whether the first parent that has the file has it with another flag.
    pub fn has_other_flag(&self, flag: Flag) -> bool
        ensures { result ≡ has_other_flag flag (first_of (option_map told_of_found self.now.first) (option_map told_of_found self.now.second)) }
    {
        match (self.first, self.second) {
            (Some((_, old)), _) => flag != old,
            (None, Some((_, old))) => flag != old,
            (None, None) => false,
        }
    }
}

/// The files of a tree up to some path, beside the manifests of the two parents.
#[derive(Drop)]
pub struct NewTree<'a> {
    alloc: Global,
    first: Walk<'a>,
    second: Walk<'a>,
    rows: Manifest,
    changed: Vec<Bytes>,
    growth: Vec<Change>,
    lines: Vec<u8>,
    ghost few: { length growth.items ≤ 2 * length rows },
    ghost beside: { list_all is_beside growth.items ≡ true },
}

/// What a whole tree gives.
#[derive(Drop)]
pub struct Grown {
    pub rows: Manifest,
    /// The changed paths, in order.
    pub changed: Names,
    /// The appends to filelogs, in the order of paths.
    pub growth: Vec<Change>,
    /// The lines that are appended to the list of filelogs.
    pub lines: Vec<u8>,
}

// Adds the path to a set.
fn insert_path(path: Bytes, ordered: &mut BTreeSet<Vec<u8>>) -> Result<(), AllocError>
    ensures { OnOk result (map (λ p. p.items) ordered.new.keys ≡ inserted path (map (λ p. p.items) ordered.old.keys)) }
{
    ordered.insert(path.into_vec())?;
    Ok(())
}

// The set of these paths.
fn set_of(alloc: Global, paths: Vec<Bytes>) -> Result<BTreeSet<Vec<u8>>, AllocError>
    ensures { IfOk result (λ ordered. map (λ p. p.items) ordered.keys ≡ in_order paths.items) }
{
    let mut ordered = BTreeSet::new(alloc);
    let mut rest = paths;
    while let Some(path) = rest.pop() {
        insert_path(path, &mut ordered)?;
    }
    Ok(ordered)
}

// The paths in the order of their bytes, each once.
fn in_order(alloc: Global, paths: Vec<Bytes>) -> Result<Names, AllocError>
    ensures { IfOk result (λ names. names ≡ in_order paths.items) }
{
    let ordered = set_of(alloc, paths)?;
    let mut names = Names::new(alloc);
    for path in &ordered {
        names.push(Bytes::from_slice(alloc, path)?)?;
    }
    Ok(names)
}

impl<'a> NewTree<'a> {
    /// A tree of no files yet, on parents with these manifests. Takes no memory.
    pub fn new(alloc: Global, first: &'a Manifest, second: &'a Manifest) -> NewTree<'a>
        ensures first { result.first ≡ first.now }
        ensures second { result.second ≡ second.now }
        ensures rows { result.rows ≡ [] }
        ensures changed { result.changed.items ≡ [] }
        ensures growth { result.growth.items ≡ [] }
        ensures lines { result.lines.items ≡ [] }
    {
        NewTree {
            alloc,
            first: Walk::new(first),
            second: Walk::new(second),
            rows: Manifest::empty(alloc),
            changed: Vec::new(alloc),
            growth: Vec::new(alloc),
            lines: Vec::new(alloc),
        }
    }

    /// The next path in the trees of the parents. The paths before it that a parent has are changed: they are removed.
    pub fn parent_files(&mut self, path: &[u8]) -> Result<ParentFiles, AllocError>
        ensures found { IfOk result (λ files. (option_map told_of_found files.first ≡ row_at path.now self.old.first) × (option_map told_of_found files.second ≡ row_at path.now self.old.second)) }
        ensures first { OnOk result (self.new.first ≡ rest_at path.now self.old.first) }
        ensures second { OnOk result (self.new.second ≡ rest_at path.now self.old.second) }
        ensures changed { OnOk result (self.new.changed.items ≡ self.old.changed.items ++ passed_at path.now self.old.first self.old.second) }
        ensures rows { self.new.rows ≡ self.old.rows }
        ensures growth { self.new.growth ≡ self.old.growth }
        ensures lines { self.new.lines ≡ self.old.lines }
    {
        self.first.pass_before(self.alloc, path, &mut self.changed)?;
        self.second
            .pass_before(self.alloc, path, &mut self.changed)?;
        Ok(ParentFiles {
            first: self.first.take(path),
            second: self.second.take(path),
        })
    }

    // Adds the row of a file.
    fn push_row(&mut self, path: &[u8], node: Node, flag: Flag) -> Result<(), AllocError>
        requires few { length self.old.rows < 1000000 }
        requires next { is_ok (with_last self.old.rows (record { path = path.now; node = node.0; flag = flag })) ≡ true }
        ensures rows { OnOk result (self.new.rows ≡ self.old.rows ++ (record { path = path.now; node = node.0; flag = flag }) ∷ []) }
        ensures growth { self.new.growth ≡ self.old.growth }
        ensures first { self.new.first ≡ self.old.first }
        ensures second { self.new.second ≡ self.old.second }
        ensures changed { self.new.changed ≡ self.old.changed }
        ensures lines { self.new.lines ≡ self.old.lines }
    {
        match self.rows.push(path, node, flag) {
            Ok(()) => Ok(()),
            Err(ManifestFault::Memory) => Err(AllocError),
            Err(_) => unreachable!(),
        }
    }

    // Adds what is appended of a file's new revision, or a part of it where there is no memory.
    fn push_growth(&mut self, growth: Option<Growth>) -> Result<(), AllocError>
        requires few { length self.old.growth.items + 2 ≤ 2 * length self.old.rows }
        requires beside { ForSome growth (λ g. is_beside (Append g.entry) ≡ true) }
        ensures growth { OnOk result (self.new.growth.items ≡ self.old.growth.items ++ changes_of (option_map view_growth growth)) }
        ensures rows { self.new.rows ≡ self.old.rows }
        ensures first { self.new.first ≡ self.old.first }
        ensures second { self.new.second ≡ self.old.second }
        ensures changed { self.new.changed ≡ self.old.changed }
        ensures lines { self.new.lines ≡ self.old.lines }
    {
        match growth {
            Some(growth) => growth.push_to(&mut self.growth),
            None => Ok(()),
        }
    }

    // Adds the lines of a filelog that is new.
    fn push_lines(&mut self, new: bool, inline: bool, path: &[u8]) -> Result<(), AllocError>
        ensures lines { OnOk result (self.new.lines.items ≡ self.old.lines.items ++ new_lines new inline path.now) }
        ensures rows { self.new.rows ≡ self.old.rows }
        ensures growth { self.new.growth ≡ self.old.growth }
        ensures first { self.new.first ≡ self.old.first }
        ensures second { self.new.second ≡ self.old.second }
        ensures changed { self.new.changed ≡ self.old.changed }
    {
        if !new {
            return Ok(());
        }
        Fncache::add_line(path, Ext::I, &mut self.lines)?;
        if inline {
            return Ok(());
        }
        Fncache::add_line(path, Ext::D, &mut self.lines)
    }

    // Adds a path that the changeset lists, if it does.
    fn push_changed(&mut self, changed: bool, path: Bytes) -> Result<(), AllocError>
        ensures changed { OnOk result (self.new.changed.items ≡ self.old.changed.items ++ new_path changed path) }
        ensures rows { self.new.rows ≡ self.old.rows }
        ensures growth { self.new.growth ≡ self.old.growth }
        ensures first { self.new.first ≡ self.old.first }
        ensures second { self.new.second ≡ self.old.second }
        ensures lines { self.new.lines ≡ self.old.lines }
    {
        if changed {
            self.changed.push(path)?;
        }
        Ok(())
    }

    /// Adds a file behind the others.
    pub fn add(&mut self, file: TreeFile) -> Result<(), AllocError>
        requires few { length self.old.rows < 1000000 }
        requires next { is_ok (with_last self.old.rows (record { path = file.path; node = file.node.0; flag = file.flag })) ≡ true }
        ensures rows { OnOk result (self.new.rows ≡ self.old.rows ++ (record { path = file.path; node = file.node.0; flag = file.flag }) ∷ []) }
        ensures changed { OnOk result (self.new.changed.items ≡ self.old.changed.items ++ new_path file.changed file.path) }
        ensures growth { OnOk result (self.new.growth.items ≡ self.old.growth.items ++ changes_of (option_map view_growth file.growth)) }
        ensures lines { OnOk result (self.new.lines.items ≡ self.old.lines.items ++ new_lines file.listed file.inline file.path) }
        ensures first { OnOk result (self.new.first ≡ self.old.first) }
        ensures second { OnOk result (self.new.second ≡ self.old.second) }
    {
        let TreeFile {
            path,
            node,
            flag,
            changed,
            growth,
            listed,
            inline,
        } = file;
        self.push_row(path.as_slice(), node, flag)?;
        self.push_growth(growth)?;
        self.push_lines(listed, inline, path.as_slice())?;
        self.push_changed(changed, path)
    }

    /// The whole tree. The paths of the parents' trees that are left are removed ones.
    pub fn finish(self) -> Result<Grown, AllocError>
        ensures rows { IfOk result (λ grown. grown.rows ≡ self.entry.rows) }
        ensures changed { IfOk result (λ grown. grown.changed ≡ in_order (self.entry.changed.items ++ (paths_of self.entry.first ++ paths_of self.entry.second))) }
        ensures growth { IfOk result (λ grown. grown.growth ≡ self.entry.growth) }
        ensures lines { IfOk result (λ grown. grown.lines ≡ self.entry.lines) }
        ensures few { IfOk result (λ grown. length grown.growth.items ≤ 2 * length self.entry.rows) }
        ensures beside { IfOk result (λ grown. list_all is_beside grown.growth.items ≡ true) }
    {
        let NewTree {
            alloc,
            first,
            second,
            rows,
            mut changed,
            growth,
            lines,
        } = self;
        first.pass_all(alloc, &mut changed)?;
        second.pass_all(alloc, &mut changed)?;
        Ok(Grown {
            rows,
            changed: in_order(alloc, changed)?,
            growth,
            lines,
        })
    }
}
