//! The definitions tried on small lists and files. Each function is one example; none does anything but name one that its
//! proof takes.
ghost use Rattle.hgs_bytes.specs.Text.{line, lines};
ghost use Rattle.hex.specs.Hex.{IsBytes};
ghost use Rattle.hgs_files.specs.Tree.{bytes_at, with_file};
ghost use Rattle.std.specs.Prelude.{◌≡◌, ◌++◌, ◌∷◌, ℕ, List, [], true, false, codes, map, take, None, Some};
ghost use Rattle.hgs_findings.specs.Built.{AreTold, IsBuilt};
ghost use Rattle.hgs_findings.specs.Findings.{AreWithin, IsFinding, IsReport, repo_of, rise};
ghost use Rattle.hgs_findings.specs.Namings.{first_use, is_misplaced, is_unneeded, is_wrongly_made};
ghost use Rattle.hgs_findings.specs.OnePath.{lists_word_wrongly, words};
ghost use Rattle.hgs_findings.specs.Regular.{used_paths};
ghost use Rattle.hgs_findings.specs.Samples.{drafts_at, drafts_behind, drafts_with, strange_digits, strange_node, five_namings, finding, inline_a, inline_changelog, inline_drafts, kept_as, listing_files, made, merged_sight, lost_files, needless_files, three_revisions, turned_files};
ghost use Rattle.hgs_findings.specs.Sight.{changesets_of, file_namings, manifest_namings};
ghost use Rattle.hgs_journal.specs.Names.{journal_path};
ghost use Rattle.hgs_model.specs.Samples.{merged};
ghost use Rattle.hgs_stands.specs.Samples.{two_drafts, two_drafts_files};

/// The first use of each revision; a revision that none names; links; parents, the first time in order, and kept ones.
pub fn namings()
    ensures uses { map (first_use 0 five_namings) (0 ∷ 1 ∷ 2 ∷ 3 ∷ []) ≡ Some 0 ∷ Some 1 ∷ Some 4 ∷ None ∷ [] }
    ensures unneeded { map (is_unneeded five_namings) (0 ∷ 1 ∷ 2 ∷ 3 ∷ []) ≡ false ∷ false ∷ false ∷ true ∷ [] }
    ensures links { map (is_misplaced five_namings 2) (3 ∷ 4 ∷ 5 ∷ []) ≡ true ∷ false ∷ true ∷ [] }
    ensures order { is_misplaced (made 1 (None, None) ∷ made 0 (None, None) ∷ []) 1 0 ≡ true }
    ensures parents { map (is_wrongly_made five_namings 2) ((Some 0, Some 1) ∷ (Some 1, Some 0) ∷ (Some 0, None) ∷ []) ≡ false ∷ true ∷ true ∷ [] }
{}

/// What the four changesets with a merge name, which of them would lack `f` in their lists of changed files, and the
/// changesets that their lists make.
pub fn merge_is_told()
    ensures file { file_namings merged_sight (codes "f") ≡ made 0 (None, None) ∷ made 1 (Some 0, None) ∷ kept_as 0 0 ∷ made 2 (Some 1, None) ∷ [] }
    ensures manifest { manifest_namings merged_sight ≡ made 0 (None, None) ∷ made 1 (Some 0, None) ∷ made 2 (Some 0, None) ∷ made 3 (Some 1, Some 2) ∷ [] }
    ensures paths { used_paths merged_sight ≡ codes "f" ∷ codes "g" ∷ [] }
    ensures listed { map (λ w. lists_word_wrongly (merged_sight.filelog (codes "f")) (words merged_sight (codes "f")) w false) (words merged_sight (codes "f")) ≡ true ∷ true ∷ false ∷ true ∷ [] }
    ensures changesets { changesets_of merged_sight ≡ merged.changesets }
{}

/// The files that Mercurial wrote make the repository that they are of.
pub fn drafts_are_made()
    ensures changesets { (repo_of two_drafts_files).changesets ≡ two_drafts.changesets }
    ensures marks { (repo_of two_drafts_files).bookmarks ≡ two_drafts.bookmarks }
    ensures working { (repo_of two_drafts_files).working ≡ two_drafts.working }
{}

/// Findings of files that were changed: a journal, a text with a wrong byte, bytes behind a manifest's data.
pub fn findings()
    ensures journal { IsFinding (drafts_with journal_path []) (codes "store/journal") None 1 }
    ensures fault { IsFinding (drafts_with (codes "store/data/b.d") (117 ∷ 88 ∷ 10 ∷ [])) (codes "store/data/b.i") (Some 0) 3 }
    ensures behind { IsFinding (drafts_behind (codes "store/00manifest.d") (codes "x")) (codes "store/00manifest.d") (Some 2) 17 }
{}

/// Nothing is found where the changelog and one of the filelogs are inline; where the last byte of a chunk is cut, that is
/// bytes behind no entry, and another byte in a text is a fault.
pub fn inline_drafts()
    ensures report { IsReport inline_drafts [] 2 2 }
    ensures cut { IsFinding (drafts_with (codes "store/data/a.i") (take 66 inline_a)) (codes "store/data/a.i") (Some 0) 17 }
    ensures fault { IsFinding (drafts_with (codes "store/data/a.i") (take 65 inline_a ++ 98 ∷ 10 ∷ [])) (codes "store/data/a.i") (Some 0) 3 }
    ensures change_cut { IsFinding (drafts_with (codes "store/00changelog.i") (take 238 inline_changelog)) (codes "store/00changelog.i") (Some 1) 17 }
    ensures change_fault { IsFinding (drafts_with (codes "store/00changelog.i") (take 238 inline_changelog ++ 97 ∷ [])) (codes "store/00changelog.i") (Some 1) 3 }
{
    hgs_stands::examples::two_drafts_stand();
}

/// Findings of files that were changed: another link, a file that is not listed, one that is listed and not used, and
/// a root, a bookmark, working parents and tracked paths that do not fit.
pub fn more_findings()
    ensures link { IsFinding (drafts_at (codes "store/data/a.i") 20 (0 ∷ 0 ∷ 0 ∷ 1 ∷ [])) (codes "store/data/a.i") (Some 0) 7 }
    ensures change_link { IsFinding (drafts_at (codes "store/00changelog.i") 84 (0 ∷ 0 ∷ 0 ∷ 0 ∷ [])) (codes "store/00changelog.i") (Some 1) 7 }
    ensures listed { IsFinding (drafts_with (codes "store/fncache") (lines (codes "data/a.i" ∷ codes "data/b.i" ∷ []))) (codes "store/data/a.d") None 10 }
    ensures unused { IsFinding (with_file (drafts_behind (codes "store/fncache") (lines (codes "data/z.i" ∷ []))) (codes "store/data/z.i") (Some (63 ∷ []))) (codes "store/data/z.i") None 12 }
    ensures root { IsFinding (drafts_behind (codes "store/phaseroots") (50 ∷ 32 ∷ line strange_digits)) (codes "store/phaseroots") (Some 2) 13 }
    ensures mark { IsFinding (drafts_with (codes "bookmarks") (strange_digits ++ 32 ∷ 120 ∷ 10 ∷ [])) (codes "bookmarks") (Some 1) 14 }
    ensures parent { IsFinding (drafts_at (codes "dirstate") 20 strange_node) (codes "dirstate") None 15 }
    ensures paths { IsFinding (drafts_at (codes "dirstate") 40 (114 ∷ [])) (codes "dirstate") None 16 }
{}

/// Findings of kinds 2, 4, 5, 6 and 8: a lock, a text that is none, a lost filelog, a needless revision, and parents the
/// other way round at the first use.
pub fn findings_of_lists()
    ensures lock { IsFinding (drafts_with (codes "wlock") []) (codes "wlock") None 2 }
    ensures text { IsFinding (drafts_with (codes "store/fncache") (codes "data/a")) (codes "store/fncache") None 4 }
    ensures lost { IsFinding lost_files (codes "store/data/f.i") (Some 0) 5 }
    ensures needless { IsFinding needless_files (codes "store/data/g.i") (Some 1) 6 }
    ensures turned { IsFinding turned_files (codes "store/data/f.i") (Some 1) 8 }
{}

/// Findings of kind 9: a file that was added and is not listed, and one that is the parent's and is listed.
pub fn lists_of_changed_files()
    ensures lacks { IsFinding (listing_files []) (codes "store/00changelog.i") (Some 1) 9 }
    ensures more { IsFinding (listing_files (codes "a" ∷ codes "b" ∷ [])) (codes "store/00changelog.i") (Some 1) 9 }
{}

/// The revisions of the first example are built one after another, and follow the rules.
pub fn revisions_in_turn()
    ensures built { IsBuilt three_revisions [] five_namings }
    ensures told { AreTold three_revisions five_namings }
{}

/// A report goes by path, then by revision, none first, then by kind, and has no finding twice.
pub fn order_of_a_report()
    ensures rises { rise (finding (codes "a") None 12 ∷ finding (codes "a") (Some 0) 3 ∷ finding (codes "a") (Some 0) 17 ∷ finding (codes "a") (Some 1) 3 ∷ finding (codes "b") None 1 ∷ []) ≡ true }
    ensures by_path { rise (finding (codes "b") None 1 ∷ finding (codes "a") None 1 ∷ []) ≡ false }
    ensures by_revision { rise (finding (codes "a") (Some 1) 3 ∷ finding (codes "a") (Some 0) 3 ∷ []) ≡ false }
    ensures none_first { rise (finding (codes "a") (Some 0) 3 ∷ finding (codes "a") None 12 ∷ []) ≡ false }
    ensures by_kind { rise (finding (codes "a") None 12 ∷ finding (codes "a") None 4 ∷ []) ≡ false }
    ensures once { rise (finding (codes "a") None 12 ∷ finding (codes "a") None 12 ∷ []) ≡ false }
{}

/// The files that Mercurial wrote are bytes within the limits, and nothing is found in them.
pub fn nothing_in_drafts()
    ensures bytes { (path : List ℕ) → IsBytes (bytes_at two_drafts_files path) }
    ensures within { AreWithin two_drafts_files two_drafts }
    ensures report { IsReport two_drafts_files [] 2 2 }
{
    hgs_stands::examples::two_drafts_stand();
}
