//! What the definitions of this crate imply. Each function is one law; none does anything.
ghost use Rattle.std.specs.Prelude.{◌≡◌, ◌⊎◌, ◌∷◌, ◌++◌, false, true, Bool, List, [], ℕ, Ok, codes, is_ok};
ghost use Rattle.std.specs.List.{AllByRecursion};
ghost use Rattle.hex.specs.Hex.{IsBytes};
ghost use Rattle.hgs_bytes.specs.Bytes.{same};
ghost use Rattle.hgs_bytes.specs.Text.{line};
ghost use Rattle.hgs_index.specs.TrackedPath.{is_tracked};
ghost use Rattle.sha1.specs.Sha1.{sha1};
ghost use Rattle.hgs_path.specs.declared.name.Ext.{Ext};
ghost use Rattle.hgs_path.specs.declared.name.Ext.TheVariants.{I, D};
ghost use Rattle.hgs_path.specs.Fncache.{clashes, files_of, with_file};
ghost use Rattle.hgs_path.specs.ListedNames.{is_listed, listed_file, names_of};
ghost use Rattle.hgs_path.specs.Check.{checked};
ghost use Rattle.hgs_path.specs.StoreName.{is_plain, is_short, listed_name, store_name};

/// A path has no fault exactly where it is tracked.
pub fn tracked_without_fault()
    ensures { (path : List ℕ) → is_ok (checked path) ≡ is_tracked path }
{}

/// The list has one name for each file.
pub fn listed_names_differ()
    ensures { (p q : List ℕ) (e f : Ext) → listed_name p e ≡ listed_name q f → (p ≡ q) × (e ≡ f) }
{}

/// The list with one more line, that of a tracked path's file, has the same names and last this one, and so the same files
/// and this one.
pub fn added_lines_are_read()
    ensures name { (path : List ℕ) (ext : Ext) (text : List ℕ) (names : List (List ℕ)) → checked path ≡ Ok tt → names_of text ≡ Ok names → names_of (text ++ line (listed_name path ext)) ≡ Ok (names ++ listed_name path ext ∷ []) }
    ensures file { (path : List ℕ) (ext : Ext) (text : List ℕ) (files : List ℕ → Ext → Bool) → checked path ≡ Ok tt → files_of text ≡ Ok files → files_of (text ++ line (listed_name path ext)) ≡ Ok (with_file files path ext) }
{}

/// Files whose names are not hashed have different names.
pub fn plain_names_differ()
    ensures { (p q : List ℕ) (e f : Ext) → IsBytes p → IsBytes q → is_plain (listed_name p e) ≡ true → is_plain (listed_name q f) ≡ true → store_name p e ≡ store_name q f → (p ≡ q) × (e ≡ f) }
{}

/// The names of a short path's files are not hashed.
pub fn short_paths_have_plain_names()
    ensures { (path : List ℕ) (ext : Ext) → is_short path ≡ true → is_plain (listed_name path ext) ≡ true }
{}

/// Two paths clash only where SHA-1 gives one digest of two names in the list, which differ.
pub fn clashes_are_collisions()
    ensures { (p q : List ℕ) → IsBytes p → IsBytes q → clashes p q ≡ true → (sha1 (listed_name p I) ≡ sha1 (listed_name q I)) ⊎ (sha1 (listed_name p D) ≡ sha1 (listed_name q D)) }
{}

/// The path of each file of a filelog begins with `store/d`, and so does that of each name that can stand in the list; no
/// index of a filelog is the data file of one.
pub fn filelogs_have_their_own_names()
    ensures file { (path : List ℕ) (ext : Ext) → (rest : List ℕ) × (store_name path ext ≡ codes "store/d" ++ rest) }
    ensures listed { (name : List ℕ) → is_listed name ≡ true → (rest : List ℕ) × (listed_file name ≡ codes "store/d" ++ rest) }
    ensures kinds { (path other : List ℕ) → same (store_name path I) (store_name other D) ≡ false }
{}

/// The name of a path's file can stand in the list, and names this file; each name that is read of a list is such a name.
pub fn listed_names_name_files()
    ensures name { (path : List ℕ) (ext : Ext) → is_listed (listed_name path ext) ≡ true }
    ensures file { (path : List ℕ) (ext : Ext) → listed_file (listed_name path ext) ≡ store_name path ext }
    ensures read { (text : List ℕ) (names : List (List ℕ)) → names_of text ≡ Ok names → AllByRecursion (λ name. is_listed name ≡ true) names }
{}

/// Two names that can stand in the list name one file only where they are one, or SHA-1 gives one digest of both.
pub fn names_of_one_file_collide()
    ensures { (a b : List ℕ) → IsBytes a → IsBytes b → is_listed a ≡ true → is_listed b ≡ true → listed_file a ≡ listed_file b → (a ≡ b) ⊎ (sha1 a ≡ sha1 b) }
{}
