//! The laws tried on small stores. Each function is one example; none does anything.
ghost use Rattle.std.specs.Prelude.{◌≡◌, ◌∷◌, [], codes, drop, length, map, take};
ghost use Rattle.hgs_files.specs.Tree.{bytes_at};
ghost use Rattle.hgs_index.specs.Entry.{number_at};
ghost use Rattle.hgs_index.specs.Inline.{index_apart};
ghost use Rattle.hgs_later.specs.Samples.{import_begun, three_items};
ghost use Rattle.hgs_links.specs.Fronts.{link_in, linked_front};
ghost use Rattle.hgs_stands.specs.Places.{changelog_index, manifest_index};
ghost use Rattle.hgs_stands.specs.Samples.{over, third_begun, two_drafts_files};

/// In a store of two changesets a third commit stopped before its entry of the changelog was whole. Its entries of the manifest
/// and of the file `b` stand whole, and carry the link 2: those with a link below 2 are the revisions of the two changesets.
pub fn links_of_a_begun_commit()
    ensures file { map (link_in (index_apart (bytes_at (over two_drafts_files third_begun) (codes "store/data/b.i")))) (0 ∷ 1 ∷ []) ≡ 1 ∷ 2 ∷ [] }
    ensures manifest { map (link_in (index_apart (bytes_at (over two_drafts_files third_begun) manifest_index))) (0 ∷ 1 ∷ 2 ∷ []) ≡ 0 ∷ 1 ∷ 2 ∷ [] }
    ensures counted { linked_front 8 2 (index_apart (bytes_at (over two_drafts_files third_begun) (codes "store/data/b.i"))) ≡ 1 }
    ensures of_manifest { linked_front 8 2 (index_apart (bytes_at (over two_drafts_files third_begun) manifest_index)) ≡ 2 }
{}

/// In a store of one changeset an import of two more has written all but the rename that publishes it. Its entries stand in the manifest and
/// in the inline filelog of `a` with the links 1 and 2, so the entry with a link below 1 is the revision of the first changeset; the
/// changelog has one entry still.
pub fn links_of_a_begun_import()
    ensures file { map (link_in (index_apart (bytes_at import_begun (codes "store/data/a.i")))) (0 ∷ 1 ∷ 2 ∷ []) ≡ 0 ∷ 1 ∷ 2 ∷ [] }
    ensures manifest { map (link_in (index_apart (bytes_at import_begun manifest_index))) (0 ∷ 1 ∷ 2 ∷ []) ≡ 0 ∷ 1 ∷ 2 ∷ [] }
    ensures counted { linked_front 8 1 (index_apart (bytes_at import_begun (codes "store/data/a.i"))) ≡ 1 }
    ensures of_manifest { linked_front 8 1 (index_apart (bytes_at import_begun manifest_index)) ≡ 1 }
    ensures changelog { length (bytes_at import_begun changelog_index) ≡ 64 }
{}

/// An inline filelog of three changesets' revisions is taken apart into entries with the links 0, 1 and 2. Of its first 200 bytes,
/// one byte less than all, the last entry's chunk is not whole, and it does not count; still it stands right behind the two items
/// before it, and carries the link 2.
pub fn links_of_an_inline_file()
    ensures links { map (link_in (index_apart three_items)) (0 ∷ 1 ∷ 2 ∷ []) ≡ 0 ∷ 1 ∷ 2 ∷ [] }
    ensures counted { map (λ count. linked_front 8 count (index_apart three_items)) (0 ∷ 1 ∷ 2 ∷ 3 ∷ []) ≡ 0 ∷ 1 ∷ 2 ∷ 3 ∷ [] }
    ensures partly { linked_front 8 3 (index_apart (take 200 three_items)) ≡ 2 }
    ensures behind { number_at 20 (drop 134 (take 200 three_items)) ≡ 2 }
{}
