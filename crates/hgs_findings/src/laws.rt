//! What the definitions of this crate imply. Each function is one law; none does anything but name the laws below that
//! its proof takes.
ghost use Rattle.std.specs.Prelude.{◌≡◌, ◌↔◌, true, false, ℕ, List, [], Option};
ghost use Rattle.hex.specs.Hex.{IsBytes};
ghost use Rattle.hgs_files.specs.Tree.{Tree, bytes_at};
ghost use Rattle.hgs_index.specs.Either.{HoldsEither, chunks_either};
ghost use Rattle.hgs_index.specs.Inline.{chunks_apart, index_apart, is_inline};
ghost use Rattle.hgs_index.specs.Revision.{Revision};
ghost use Rattle.hgs_index.specs.Revlog.{HoldsRevisions};
ghost use Rattle.hgs_model.specs.Repo.{Repo};
ghost use Rattle.hgs_revlog.specs.Held.{AreWithinLimits};
ghost use Rattle.hgs_bytes.specs.Bytes.{among};
ghost use Rattle.hgs_index.specs.ChangeText.{Change};
ghost use Rattle.hgs_findings.specs.Built.{AreTold, IsBuilt};
ghost use Rattle.hgs_findings.specs.Namings.{FollowsRules, Naming};
ghost use Rattle.hgs_findings.specs.OnePath.{lists_word_wrongly, namings_of_words, word_of, words};
ghost use Rattle.hgs_findings.specs.Sight.{Seen, Sight, file_namings, is_wrongly_listed, seen};
ghost use Rattle.hgs_findings.specs.Findings.{AreWithin, Finding, IsFinding, IsReport, repo_of};
ghost use Rattle.hgs_findings.specs.Reading.{IsWholeReading, has_data_rest, reading_of};
ghost use Rattle.hgs_stands.specs.Requires.{IsInProfile};
ghost use Rattle.hgs_stands.specs.Stands.{IsClean};

use hgs_stands::laws::stands_for_one;

/// Where nothing is found, the tree is clean for the repository that its files make.
pub fn nothing_found()
    ensures findings { (t : Tree) → ((path : List ℕ) → IsBytes (bytes_at t path)) → IsInProfile t → ((path : List ℕ) (rev : Option ℕ) (kind : ℕ) → IsFinding t path rev kind → ⊥) → IsClean t (repo_of t) }
    ensures report { (t : Tree) (changesets filelogs : ℕ) → ((path : List ℕ) → IsBytes (bytes_at t path)) → IsInProfile t → IsReport t [] changesets filelogs → IsClean t (repo_of t) }
{}

/// In a tree that is clean for a repository within the limits nothing is found, and its report is empty.
pub fn clean_finds_nothing()
    ensures findings { (t : Tree) (r : Repo) → IsClean t r → AreWithin t r → (path : List ℕ) (rev : Option ℕ) (kind : ℕ) → IsFinding t path rev kind → ⊥ }
    ensures report { (t : Tree) (r : Repo) (findings : List Finding) (changesets filelogs : ℕ) → IsClean t r → AreWithin t r → IsReport t findings changesets filelogs → findings ≡ [] }
{}

/// A clean tree is clean for the repository that its files make.
pub fn made_of_files()
    ensures { (t : Tree) (r : Repo) → ((path : List ℕ) → IsBytes (bytes_at t path)) → IsClean t r → AreWithin t r → r ≡ repo_of t }
{
    stands_for_one();
}

/// Without a fault and without bytes behind, the two files hold the revisions that are read; and files that hold some read
/// as these. So it is of a revlog in either form, as the bytes that it is read as.
pub fn whole_readings()
    ensures holds { (index data_bytes : List ℕ) → IsBytes index → IsWholeReading index data_bytes (reading_of index data_bytes).revisions → HoldsRevisions index data_bytes (reading_of index data_bytes).revisions }
    ensures reads { (index data_bytes : List ℕ) (revisions : List Revision) → HoldsRevisions index data_bytes revisions → AreWithinLimits revisions data_bytes → IsWholeReading index data_bytes revisions }
    ensures either_holds { (index data_bytes : List ℕ) (revisions : List Revision) → IsBytes index → IsWholeReading (index_apart index) (chunks_either index data_bytes) revisions → HoldsEither index data_bytes revisions }
    ensures either_reads { (index data_bytes : List ℕ) (revisions : List Revision) → HoldsEither index data_bytes revisions → AreWithinLimits revisions (chunks_either index data_bytes) → IsWholeReading (index_apart index) (chunks_either index data_bytes) revisions }
{}

/// No data is found of an inline index: where there is no fault, its chunks are as long as its entries say.
pub fn no_data_beside_inline_indexes()
    ensures { (index : List ℕ) → is_inline index ≡ true → has_data_rest (index_apart index) (chunks_apart index) ≡ false }
{}

/// What is found of a path hangs on its filelog and on what each changeset says of this path.
pub fn one_path()
    ensures namings { (s : Sight) (path : List ℕ) → file_namings s path ≡ namings_of_words (s.filelog path) (words s path) }
    ensures listed { (s : Sight) (path : List ℕ) (c : Seen) (v : Change) → is_wrongly_listed s path (seen s) c v ≡ lists_word_wrongly (s.filelog path) (words s path) (word_of path c) (among path v.files) }
{}

/// A list of revisions follows the rules exactly where each changeset in turn names one that stands, or the next one.
pub fn rules_in_turn()
    ensures follows { (log : List Revision) (namings : List (Option Naming)) → IsBuilt log [] namings → FollowsRules log namings }
    ensures in_turn { (log : List Revision) (namings : List (Option Naming)) → FollowsRules log namings → AreTold log namings → IsBuilt log [] namings }
{}

/// The report is empty exactly where the tree is clean for some repository within the limits.
pub fn empty_exactly_where_clean()
    ensures { (t : Tree) (findings : List Finding) (changesets filelogs : ℕ) → ((path : List ℕ) → IsBytes (bytes_at t path)) → IsInProfile t → IsReport t findings changesets filelogs → (findings ≡ [] ↔ ((r : Repo) × IsClean t r × AreWithin t r)) }
{}

/// A tree has one report at most.
pub fn one_report()
    ensures { (t : Tree) (findings others : List Finding) (a b c d : ℕ) → IsReport t findings a b → IsReport t others c d → findings ≡ others }
{}
