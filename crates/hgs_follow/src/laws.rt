//! What the definitions of this crate imply. Each function is one law; none does anything.
ghost use Rattle.std.specs.Prelude.{◌≡◌, ◌++◌, ◌↔◌, ℕ, Bool, true, false, List, Some, None, length};
ghost use Rattle.hex.specs.Hex.{IsBytes};
ghost use Rattle.hgs_bytes.specs.Text.{Lacks};
ghost use Rattle.hgs_index.specs.Ancestor.{IsAncestor};
ghost use Rattle.hgs_index.specs.FileText.{plain_prefix};
ghost use Rattle.hgs_model.specs.Step.{copy_block};
ghost use Rattle.hgs_model.specs.Valid.{ends_in};
ghost use Rattle.hgs_follow.specs.Followed.{At, Filelogs, IsBefore, IsFollowed, IsNeverCopied, parents_of};
ghost use Rattle.hgs_follow.specs.Source.{copied_from};

/// The block that a commit writes for a copy says what was copied, whatever the body behind it.
pub fn written_copies_are_read()
    ensures { (path node body : List ℕ) → Lacks 10 path → ends_in 1 path ≡ false → length node ≡ 20 → IsBytes node → copied_from (copy_block path node ++ body) ≡ Some (record { path = path; node = node }) }
{}

/// What is written before the body of a file that is no copy says nothing.
pub fn other_files_are_no_copies()
    ensures { (body : List ℕ) → copied_from (plain_prefix body ++ body) ≡ None }
{}

/// Whatever has a file revision, and with each of its members the predecessors, has all of the followed history.
pub fn followed_history_is_least()
    ensures { (files : Filelogs) (a : At) (has : At → Bool) → has a ≡ true → ((b c : At) → has b ≡ true → IsBefore files c b → has c ≡ true) → (b : At) → IsFollowed files a b → has b ≡ true }
{}

/// What is followed from a member of a followed history is in it.
pub fn followed_histories_go_on()
    ensures { (files : Filelogs) (a b c : At) → IsFollowed files a b → IsFollowed files b c → IsFollowed files a c }
{}

/// Where no revision of a file is a copy, the followed history of one is its ancestors in the filelog.
pub fn ancestors_are_followed()
    ensures { (files : Filelogs) (a b : At) → IsNeverCopied files a.path → (IsFollowed files a b ↔ ((b.path ≡ a.path) × IsAncestor (parents_of (files a.path)) b.rev a.rev)) }
{}
