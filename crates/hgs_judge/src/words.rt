//! What the changesets say of one path, and which revisions of its filelog they name.
ghost use Rattle.std.specs.Prelude.{◌≡◌, ◌<◌, ◌&&◌, ℕ, List, Some, None, length, IfOk, IfSome, is_some};
ghost use Rattle.hgs_index.specs.FileText.{body_of};
ghost use Rattle.hgs_index.specs.Revision.{ParentsBefore, Revision};
ghost use Rattle.hgs_model.specs.History.{file_parents_of, first_of, kept_of, same_flag, text_at};
ghost use Rattle.hgs_findings.specs.OnePath.{naming_word, use_of_found, use_of_parent};
ghost use Rattle.hgs_findings.specs.OnePath as one_path;
ghost use Rattle.hgs_findings.specs.Namings as findings;
ghost use Rattle.hgs_findings.specs.Sight.{differ, file_rule, flag_in, is_changed, is_known, is_other_flag, naming_of, rev_in, rule_of};
ghost use Rattle.hgs_revlog.specs.Loaded.{parents_in};
ghost use Rattle.hgs_judge.specs.Kinds.{naming_in, rule_in};
ghost use Rattle.hgs_judge.specs.Read.{AreRead, revisions_in};
ghost use Rattle.hgs_judge.specs.Words.{AreAmong, AreHeard, IsAmong, is_listed_wrongly, lacks_found, row_in, use_in, uses_in, uses_of, word_in, words_in};

use crate::kinds::{Naming, Rule};
use crate::reading::Reading;
use hgs_bytes::parts::{equal, past};
use hgs_filelog::file_text::unpack;
use hgs_index::kinds::Flag;
use hgs_index::node::Node;
use hgs_model::ancestor::ancestor;
use std::alloc::{AllocError, Global};

/// What the tree of a changeset has at a path.
#[derive(Clone, Copy, Debug, PartialEq, Eq)]
pub enum Found {
    /// The tree can't be read.
    Unread,
    Nothing,
    File(Node, Flag),
}

/// What a changeset says of a path.
#[derive(Clone, Copy, Debug, PartialEq, Eq)]
pub struct Word {
    pub parents: (Option<u32>, Option<u32>),
    pub found: Found,
    /// Whether its list of changed files has the path; none where its text can't be read.
    pub listed: Option<bool>,
}

/// Which revision a changeset uses at a path.
#[derive(Clone, Copy, Debug, PartialEq, Eq)]
pub enum Use {
    /// It can't be told.
    Unknown,
    Absent,
    At(u32, Flag),
}

/// What is found of what the changesets say of a path: what each names, whether its list of changed files is wrong there,
/// and whether the filelog lacks what its tree has there.
#[derive(Drop)]
pub struct Heard {
    pub namings: Vec<Option<Naming>>,
    pub listed_wrongly: Vec<bool>,
    pub lacking: Vec<bool>,
}

// The body of a file's text.
fn body(text: &[u8]) -> &[u8]
    ensures { result.now ≡ body_of text.now }
{
    past(text, unpack(text).body.from as usize)
}

fn is_same_flag(a: Flag, b: Flag) -> bool
    ensures { result ≡ same_flag a b }
{
    a == b
}

impl Use {
    // The revision, none where the path is absent; or it can't be told.
    fn rev(&self) -> Option<Option<u32>>
        ensures { result ≡ rev_in (use_in self.now) }
    {
        match self {
            Use::Unknown => None,
            Use::Absent => Some(None),
            Use::At(rev, _) => Some(Some(*rev)),
        }
    }

    fn flag(&self) -> Option<Flag>
        ensures { result ≡ flag_in (use_in self.now) }
    {
        match self {
            Use::Unknown => None,
            Use::Absent => None,
            Use::At(_, flag) => Some(*flag),
        }
    }

    fn is_known(&self) -> bool
        ensures { result ≡ is_known (use_in self.now) }
    {
        match self {
            Use::Unknown => false,
            Use::Absent => true,
            Use::At(_, _) => true,
        }
    }
}

// The parents of a file that stands in the trees of both parents.
fn joined_parents(
    alloc: Global,
    parents: &[(Option<u32>, Option<u32>)],
    a: u32,
    b: u32,
) -> Result<(Option<u32>, Option<u32>), AllocError>
    requires first { a < length parents.now }
    requires second { b < length parents.now }
    requires earlier { ParentsBefore 0 parents.now }
    ensures { IfOk result (λ made. made ≡ file_parents_of parents.now (Some a) (Some b)) }
{
    if a == b {
        return Ok((Some(a), None));
    }
    if ancestor(alloc, parents, a, b)? {
        return Ok((Some(b), None));
    }
    if ancestor(alloc, parents, b, a)? {
        return Ok((Some(a), None));
    }
    Ok((Some(a), Some(b)))
}

// The parents that the rules give to a file with these revisions in the trees of the changeset's parents.
fn file_parents(
    alloc: Global,
    parents: &[(Option<u32>, Option<u32>)],
    a: Option<u32>,
    b: Option<u32>,
) -> Result<(Option<u32>, Option<u32>), AllocError>
    requires first { IfSome a (λ rev. rev < length parents.now) }
    requires second { IfSome b (λ rev. rev < length parents.now) }
    requires earlier { ParentsBefore 0 parents.now }
    ensures parents { IfOk result (λ made. made ≡ file_parents_of parents.now a b) }
    ensures first { IfOk result (λ made. IfSome made.0 (λ rev. rev < length parents.now)) }
{
    match (a, b) {
        (None, None) => Ok((None, None)),
        (None, Some(b)) => Ok((Some(b), None)),
        (Some(a), None) => Ok((Some(a), None)),
        (Some(a), Some(b)) => joined_parents(alloc, parents, a, b),
    }
}

impl Reading {
    /// Which revision a changeset uses.
    pub fn use_of(&self, found: &Found) -> Use
        ensures used { (path : List ℕ) (data_bytes : List ℕ) → AreRead self.now.log.entries data_bytes → use_in result ≡ use_of_found (revisions_in self.now.log.entries data_bytes) (row_in path found.now) }
        ensures among { IsAmong (length self.now.log.entries) result }
    {
        match found {
            Found::Unread => Use::Unknown,
            Found::Nothing => Use::Absent,
            Found::File(node, flag) => match self.place(node) {
                Some(rev) => Use::At(rev, *flag),
                None => Use::Unknown,
            },
        }
    }

    // The revision that is kept for a file with the body of this one.
    fn kept(&self, data_bytes: &[u8], parents: (Option<u32>, Option<u32>), rev: u32) -> Option<u32>
        requires read { AreRead self.now.log.entries data_bytes.now }
        requires stands { rev < length self.now.log.entries }
        requires first { IfSome parents.0 (λ a. a < length self.now.log.entries) }
        ensures { let log = revisions_in self.now.log.entries data_bytes.now in result ≡ kept_of log parents.0 parents.1 (body_of (text_at log rev)) }
    {
        let (Some(a), None) = parents else {
            return None;
        };
        if a == rev
            || equal(
                body(self.text(a, data_bytes)),
                body(self.text(rev, data_bytes)),
            )
        {
            Some(a)
        } else {
            None
        }
    }

    // What the rules give to a file with the body of this revision, of what the trees of the changeset's parents have.
    fn rule(
        &self,
        alloc: Global,
        data_bytes: &[u8],
        parents: &[(Option<u32>, Option<u32>)],
        first: &Use,
        second: &Use,
        rev: u32,
    ) -> Result<Rule, AllocError>
        requires read { AreRead self.now.log.entries data_bytes.now }
        requires parents { parents.now ≡ parents_in self.now.log.entries }
        requires first { IsAmong (length self.now.log.entries) first.now }
        requires second { IsAmong (length self.now.log.entries) second.now }
        requires stands { rev < length self.now.log.entries }
        ensures { IfOk result (λ rule. rule_in rule ≡ file_rule (revisions_in self.now.log.entries data_bytes.now) (use_in first.now) (use_in second.now) rev) }
    {
        let Some(a) = first.rev() else {
            return Ok(Rule::Untold);
        };
        let Some(b) = second.rev() else {
            return Ok(Rule::Untold);
        };
        let made = file_parents(alloc, parents, a, b)?;
        match self.kept(data_bytes, made, rev) {
            Some(kept) => Ok(Rule::Keeps(kept)),
            None => Ok(Rule::Makes(made)),
        }
    }

    // What the rules give to what a changeset has there.
    fn own_rule(
        &self,
        alloc: Global,
        data_bytes: &[u8],
        parents: &[(Option<u32>, Option<u32>)],
        own: &Use,
        first: &Use,
        second: &Use,
    ) -> Result<Rule, AllocError>
        requires read { AreRead self.now.log.entries data_bytes.now }
        requires parents { parents.now ≡ parents_in self.now.log.entries }
        requires own { IsAmong (length self.now.log.entries) own.now }
        requires first { IsAmong (length self.now.log.entries) first.now }
        requires second { IsAmong (length self.now.log.entries) second.now }
        ensures { IfOk result (λ rule. rule_in rule ≡ rule_of (use_in own.now) (file_rule (revisions_in self.now.log.entries data_bytes.now) (use_in first.now) (use_in second.now))) }
    {
        match own {
            Use::Unknown => Ok(Rule::Untold),
            Use::Absent => Ok(Rule::Untold),
            Use::At(rev, _) => self.rule(alloc, data_bytes, parents, first, second, *rev),
        }
    }
}

// What a changeset names.
fn naming(own: &Use, rule: Rule) -> Option<Naming>
    ensures { (rules : ℕ → findings.Rule) → rule_in rule ≡ rule_of (use_in own.now) rules → naming_in result ≡ naming_of (use_in own.now) rules }
{
    match own {
        Use::Unknown => None,
        Use::Absent => None,
        Use::At(rev, _) => Some(Naming { rev: *rev, rule }),
    }
}

// The flag in the first parent that has the path.
fn flag_before(first: &Use, second: &Use) -> Option<Flag>
    ensures { result ≡ first_of (flag_in (use_in first.now)) (flag_in (use_in second.now)) }
{
    match first.flag() {
        Some(flag) => Some(flag),
        None => second.flag(),
    }
}

fn has_other_flag(flag: Flag, before: Option<Flag>) -> bool
    ensures { result ≡ is_other_flag flag before }
{
    match before {
        None => false,
        Some(before) => !is_same_flag(flag, before),
    }
}

// Whether the rules list the path as changed.
fn is_changed_by(own: &Use, before: Option<Flag>, rule: &Rule) -> bool
    ensures { result ≡ is_changed (use_in own.now) before (rule_in rule.now) }
{
    match own {
        Use::Unknown => false,
        Use::Absent => before.is_some(),
        Use::At(_, flag) => matches!(rule, Rule::Makes(_)) || has_other_flag(*flag, before),
    }
}

// Whether a changeset's list of changed files is wrong at the path: it has it where the rules don't, or the other way round.
fn is_wrong(own: &Use, first: &Use, second: &Use, rule: &Rule, listed: bool) -> bool
    ensures { result ≡ (is_known (use_in own.now) && is_known (use_in first.now) && is_known (use_in second.now) && differ listed (is_changed (use_in own.now) (first_of (flag_in (use_in first.now)) (flag_in (use_in second.now))) (rule_in rule.now))) }
{
    own.is_known()
        && first.is_known()
        && second.is_known()
        && listed != is_changed_by(own, flag_before(first, second), rule)
}

// What a changeset names, and whether its list of changed files is wrong there.
#[derive(Clone, Copy)]
struct Told {
    naming: Option<Naming>,
    is_listed_wrongly: bool,
}

// What a parent of a changeset has there: nothing where there is no parent.
fn parent_use(uses: &[Use], parent: Option<u32>) -> Use
    ensures used { (log : List Revision) (all : List one_path.Word) → uses_in uses.now ≡ uses_of log all → use_in result ≡ use_of_parent log all parent }
    ensures among { (count : ℕ) → AreAmong count uses.now → IsAmong count result }
{
    match parent {
        None => Use::Absent,
        Some(rev) => match uses.get(rev as usize) {
            Some(found) => *found,
            None => Use::Unknown,
        },
    }
}

fn is_lacking(found: &Found, own: &Use) -> bool
    ensures { (log : List Revision) (path : List ℕ) → use_in own.now ≡ use_of_found log (row_in path found.now) → result ≡ lacks_found log (row_in path found.now) }
{
    matches!(found, Found::File(_, _)) && matches!(own, Use::Unknown)
}

impl Reading {
    // Which revision each changeset uses.
    fn uses(&self, alloc: Global, words: &[Word]) -> Result<Vec<Use>, AllocError>
        ensures used { IfOk result (λ uses. (path : List ℕ) (data_bytes : List ℕ) → AreRead self.now.log.entries data_bytes → uses_in uses.items ≡ uses_of (revisions_in self.now.log.entries data_bytes) (words_in path words.now)) }
        ensures among { IfOk result (λ uses. AreAmong (length self.now.log.entries) uses.items) }
    {
        let mut uses = Vec::with_capacity(alloc, words.len())?;
        for word in words {
            uses.push(self.use_of(&word.found))?;
        }
        Ok(uses)
    }

    // What is told of a changeset that uses this, of what all use.
    fn tell(
        &self,
        alloc: Global,
        data_bytes: &[u8],
        parents: &[(Option<u32>, Option<u32>)],
        uses: &[Use],
        own: &Use,
        word: &Word,
    ) -> Result<Told, AllocError>
        requires read { AreRead self.now.log.entries data_bytes.now }
        requires parents { parents.now ≡ parents_in self.now.log.entries }
        requires own { IsAmong (length self.now.log.entries) own.now }
        requires uses { AreAmong (length self.now.log.entries) uses.now }
        ensures naming { IfOk result (λ t. let log = revisions_in self.now.log.entries data_bytes.now in (path : List ℕ) (all : List one_path.Word) → uses_in uses.now ≡ uses_of log all → use_in own.now ≡ use_of_found log (row_in path word.now.found) → naming_in t.naming ≡ naming_word log all (word_in path word.now)) }
        ensures listed { IfOk result (λ t. let log = revisions_in self.now.log.entries data_bytes.now in (path : List ℕ) (all : List one_path.Word) → uses_in uses.now ≡ uses_of log all → use_in own.now ≡ use_of_found log (row_in path word.now.found) → t.is_listed_wrongly ≡ is_listed_wrongly log all (word_in path word.now)) }
    {
        let first = parent_use(uses, word.parents.0);
        let second = parent_use(uses, word.parents.1);
        let rule = self.own_rule(alloc, data_bytes, parents, own, &first, &second)?;
        Ok(Told {
            naming: naming(own, rule),
            is_listed_wrongly: match word.listed {
                None => false,
                Some(listed) => is_wrong(own, &first, &second, &rule, listed),
            },
        })
    }

    /// What is found of what the changesets say of the path of this filelog, in their order.
    pub fn hear(
        &self,
        alloc: Global,
        data_bytes: &[u8],
        words: &[Word],
    ) -> Result<Heard, AllocError>
        requires { AreRead self.now.log.entries data_bytes.now }
        ensures { IfOk result (λ h. (path : List ℕ) → AreHeard (revisions_in self.now.log.entries data_bytes.now) (words_in path words.now) h) }
    {
        let parents = self.parents(alloc)?;
        let uses = self.uses(alloc, words)?;
        let mut namings = Vec::with_capacity(alloc, words.len())?;
        let mut listed_wrongly = Vec::with_capacity(alloc, words.len())?;
        let mut lacking = Vec::with_capacity(alloc, words.len())?;
        for (at, word) in words.iter().enumerate() {
            let told = self.tell(alloc, data_bytes, &parents, &uses, &uses[at], word)?;
            namings.push(told.naming)?;
            listed_wrongly.push(told.is_listed_wrongly)?;
            lacking.push(is_lacking(&word.found, &uses[at]))?;
        }
        Ok(Heard {
            namings,
            listed_wrongly,
            lacking,
        })
    }
}
