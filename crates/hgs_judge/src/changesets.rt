//! What can be read of the changesets: their parents, their lists of changed files, and their manifests.
ghost use Rattle.std.specs.Prelude.{◌≡◌, List, ℕ, Some, IfOk, IfErr, map};
ghost use Rattle.hgs_index.specs.Revision.{Revision};
ghost use Rattle.hgs_findings.specs.Namings as findings;
ghost use Rattle.hgs_findings.specs.Sight.{Seen, Sight, manifest_parent, manifest_rule, place, seen, seen_of};
ghost use Rattle.hgs_findings.specs.Sight as sight;
ghost use Rattle.hgs_model.specs.History.{manifest_parents_of};
ghost use Rattle.hgs_revlog.specs.declared.fault.RevFault.TheVariants.{Memory};
ghost use Rattle.hgs_judge.specs.Changesets.{changeset_as, manifest_in, tree_at};
ghost use Rattle.hgs_judge.specs.Kinds.{naming_in, namings_in, rule_in};
ghost use Rattle.hgs_judge.specs.Read.{AreRead, revisions_in};

use crate::kinds::{Naming, Rule};
use crate::reading::Reading;
use hgs_bytes::names::Names;
use hgs_changelog::text::ChangeText;
use hgs_index::node::Node;
use hgs_index::texts::ChangeFault;
use hgs_revlog::fault::RevFault;
use std::alloc::{AllocError, Global};

/// The manifest of a changeset's tree.
#[derive(Clone, Copy, Debug, PartialEq, Eq)]
pub enum Tree {
    /// It can't be told: the text can't be read, or the manifest isn't there.
    Unknown,
    /// The null node, which is the empty tree.
    Empty,
    Manifest(u32),
}

/// What can be read of a changeset.
#[derive(Drop)]
pub struct Changeset {
    pub parents: (Option<u32>, Option<u32>),
    /// Its list of changed files; none where its text can't be read.
    pub files: Option<Names>,
    pub tree: Tree,
}

// The tree with the manifest of this node.
fn tree_of(manifest: &Reading, node: &Node) -> Tree
    ensures { (data_bytes : List ℕ) → AreRead manifest.now.log.entries data_bytes → result ≡ tree_at (place (revisions_in manifest.now.log.entries data_bytes) node.now.0) node.now.0 }
{
    match manifest.place(node) {
        Some(rev) => Tree::Manifest(rev),
        None => {
            if *node == Node([0; 20]) {
                Tree::Empty
            } else {
                Tree::Unknown
            }
        }
    }
}

// What can be read of a changeset with these parents and this text.
fn changeset_from(
    alloc: Global,
    manifest: &Reading,
    parents: (Option<u32>, Option<u32>),
    text: &[u8],
) -> Result<Changeset, RevFault>
    ensures seen { IfOk result (λ c. (data_bytes : List ℕ) (s : Sight) (r : Revision) → AreRead manifest.now.log.entries data_bytes → s.manifest ≡ revisions_in manifest.now.log.entries data_bytes → r.text ≡ text.now → r.parents ≡ parents → c ≡ changeset_as (seen_of s r)) }
    ensures err { IfErr result (λ fault. fault ≡ Memory) }
{
    match ChangeText::read(alloc, text) {
        Ok(change) => {
            let tree = tree_of(manifest, &change.manifest);
            Ok(Changeset {
                parents,
                files: Some(change.files),
                tree,
            })
        }
        Err(ChangeFault::Memory) => Err(RevFault::Memory),
        Err(_) => Ok(Changeset {
            parents,
            files: None,
            tree: Tree::Unknown,
        }),
    }
}

/// What can be read of each changeset, in their order.
///
/// Keeps of each its parents and its list of changed files.
pub fn read_changesets(
    alloc: Global,
    changelog: &Reading,
    data_bytes: &[u8],
    manifest: &Reading,
) -> Result<Vec<Changeset>, RevFault>
    requires { AreRead changelog.now.log.entries data_bytes.now }
    ensures seen { IfOk result (λ all. (manifest_bytes : List ℕ) (s : Sight) → AreRead manifest.now.log.entries manifest_bytes → s.changelog ≡ revisions_in changelog.now.log.entries data_bytes.now → s.manifest ≡ revisions_in manifest.now.log.entries manifest_bytes → all.items ≡ map changeset_as (seen s)) }
    ensures err { IfErr result (λ fault. fault ≡ Memory) }
{
    let mut all = Vec::with_capacity(alloc, changelog.log.len() as usize)?;
    for rev in 0..changelog.log.len() {
        let entry = changelog.log.entry(rev);
        let parents = (entry.p1, entry.p2);
        let changeset = changeset_from(alloc, manifest, parents, changelog.text(rev, data_bytes))?;
        all.push(changeset)?;
    }
    Ok(all)
}

impl Tree {
    fn manifest(&self) -> Option<Option<u32>>
        ensures { result ≡ manifest_in self.now }
    {
        match self {
            Tree::Unknown => None,
            Tree::Empty => Some(None),
            Tree::Manifest(rev) => Some(Some(*rev)),
        }
    }
}

// The manifest of a parent: none where there is no parent; or it can't be told.
fn parent_manifest(changesets: &[Changeset], parent: Option<u32>) -> Option<Option<u32>>
    ensures { (all : List Seen) → changesets.now ≡ map changeset_as all → result ≡ manifest_parent all parent }
{
    match parent {
        None => Some(None),
        Some(rev) => match changesets.get(rev as usize) {
            Some(changeset) => changeset.tree.manifest(),
            None => None,
        },
    }
}

// The parents of a manifest: of two equal ones one.
fn manifest_parents(a: Option<u32>, b: Option<u32>) -> (Option<u32>, Option<u32>)
    ensures { result ≡ manifest_parents_of a b }
{
    match (a, b) {
        (Some(a), Some(b)) => {
            if a == b {
                (Some(a), None)
            } else {
                (Some(a), Some(b))
            }
        }
        (None, None) => (None, None),
        (None, Some(b)) => (None, Some(b)),
        (Some(a), None) => (Some(a), None),
    }
}

// What the rules give to the manifest of a changeset with these parents.
fn rule(changesets: &[Changeset], parents: (Option<u32>, Option<u32>)) -> Rule
    ensures { (all : List Seen) → changesets.now ≡ map changeset_as all → rule_in result ≡ manifest_rule all parents }
{
    let Some(a) = parent_manifest(changesets, parents.0) else {
        return Rule::Untold;
    };
    let Some(b) = parent_manifest(changesets, parents.1) else {
        return Rule::Untold;
    };
    Rule::Makes(manifest_parents(a, b))
}

// The manifest that a changeset names.
fn naming(changesets: &[Changeset], changeset: &Changeset) -> Option<Naming>
    ensures { (all : List Seen) (c : Seen) → changesets.now ≡ map changeset_as all → changeset.now ≡ changeset_as c → naming_in result ≡ sight.manifest_naming all c }
{
    match changeset.tree {
        Tree::Unknown => None,
        Tree::Empty => None,
        Tree::Manifest(rev) => Some(Naming {
            rev,
            rule: rule(changesets, changeset.parents),
        }),
    }
}

/// The manifests that the changesets name, in their order.
pub fn manifest_namings(
    alloc: Global,
    changesets: &[Changeset],
) -> Result<Vec<Option<Naming>>, AllocError>
    ensures { IfOk result (λ namings. (s : Sight) → changesets.now ≡ map changeset_as (seen s) → namings_in namings.items ≡ sight.manifest_namings s) }
{
    let mut namings = Vec::with_capacity(alloc, changesets.len())?;
    for changeset in changesets {
        namings.push(naming(changesets, changeset))?;
    }
    Ok(namings)
}
