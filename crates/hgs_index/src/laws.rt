//! What the definitions of this crate imply. Each function is one law; none does anything.
ghost use Rattle.std.specs.Prelude.{◌≡◌, ◌⊎◌, ◌↔◌, false, true, Bool, ℕ, ◌<◌, ◌*◌, ◌++◌, List, [], ◌∷◌, length, take, None, Some, Ok, IsSome, IfSome, Option, position, slice_index_or};
ghost use Rattle.hex.specs.Hex.{IsBytes};
ghost use Rattle.hgs_bytes.specs.Bytes.{among, begins_with, same};
ghost use Rattle.hgs_index.specs.declared.entry.Entry.{Entry};
ghost use Rattle.hgs_index.specs.declared.entry.Header.{Header};
ghost use Rattle.hgs_index.specs.Ancestor.{IsAncestor, is_ancestor};
ghost use Rattle.hgs_index.specs.Either.{BeginsEither, HoldsEither, chunk_bytes, data_more, index_more};
ghost use Rattle.hgs_index.specs.Entry.{Fits, entry_at, entry_bytes, header_at, header_within};
ghost use Rattle.hgs_index.specs.FileText.{IsBlock, marker, plain_prefix, prefix_of, body_of, unpacked};
ghost use Rattle.hgs_index.specs.Hex.{hex, node_at};
ghost use Rattle.hgs_index.specs.Inline.{chunks_apart, index_apart, is_inline};
ghost use Rattle.hgs_index.specs.Node.{IsNode, null_node};
ghost use Rattle.hgs_index.specs.Revision.{Parents, ParentsBefore, Revision, node_after, nodes};
ghost use Rattle.hgs_index.specs.Revlog.{Begins, BeginsWithRevisions, Holds, HoldsRevisions, Stored, all_different, chunk_of, chunk_text, entry_after, next_header};

/// An entry that is written is read again.
pub fn encode_then_decode()
    ensures { (e : Entry) (h : Option Header) (rev : ℕ) → Fits e h → (IsSome h → rev ≡ 0) → (rev ≡ 0 → IsSome h) → entry_at (entry_bytes e h) rev ≡ Ok e }
{}

/// Bytes that read as an entry are the bytes that are written of it.
pub fn decode_then_encode()
    ensures { (bytes : List ℕ) (rev : ℕ) (e : Entry) → IsBytes bytes → length bytes ≡ 64 → entry_at bytes rev ≡ Ok e → (bytes ≡ entry_bytes e (header_within bytes rev)) × Fits e (header_within bytes rev) }
{}

/// The header of an index that is written is read again.
pub fn encode_then_header()
    ensures { (e : Entry) (h : Header) → header_at (take 4 (entry_bytes e (Some h))) ≡ Ok h }
{}

/// Prefix and body are the whole text, and the prefix is empty or a whole metadata block.
pub fn file_text_parts()
    ensures { (text : List ℕ) → (prefix_of text ++ body_of text ≡ text) × ((prefix_of text ≡ []) ⊎ IsBlock (prefix_of text)) }
{}

/// A whole block before any body is found again, and so is a body without one that does not begin with a marker.
pub fn joined_then_unpacked()
    ensures block { (block body : List ℕ) → IsBlock block → unpacked (block ++ body) ≡ (block, body) }
    ensures bare { (body : List ℕ) → begins_with body marker ≡ false → unpacked body ≡ ([], body) }
    ensures plain { (body : List ℕ) → unpacked (plain_prefix body ++ body) ≡ (plain_prefix body, body) }
{}

/// Each revision is its own ancestor, and an ancestor of an ancestor is an ancestor.
pub fn ancestor_order()
    ensures reflexive { (history : List Parents) (a : ℕ) → IsAncestor history a a }
    ensures transitive { (history : List Parents) (a b c : ℕ) → IsAncestor history a b → IsAncestor history b c → IsAncestor history a c }
{}

/// Where parents stand before their children, the test of ancestors is exact.
pub fn ancestor_test()
    ensures { (history : List Parents) (a b : ℕ) → ParentsBefore 0 history → b < length history → (is_ancestor history a b ≡ true ↔ IsAncestor history a b) }
{}

/// The chunk that is written of a text stands for it.
pub fn chunk_then_text()
    ensures { (text : List ℕ) → chunk_text (chunk_of text) ≡ Some text }
{}

/// Bytes hold at most one list of revisions.
pub fn held_once()
    ensures { (index data_bytes : List ℕ) (revisions others : List Revision) → HoldsRevisions index data_bytes revisions → HoldsRevisions index data_bytes others → revisions ≡ others }
{}

/// Bytes that hold a list begin with bytes that hold each front of it.
pub fn held_fronts()
    ensures { (index data_bytes : List ℕ) (front more : List Revision) → HoldsRevisions index data_bytes (front ++ more) → BeginsWithRevisions index data_bytes front }
{}

/// A node is read from its digits again, and what is read of digits is a node whose digits they are.
pub fn nodes_written_then_read()
    ensures back { (node : List ℕ) → IsNode node → node_at (hex node) ≡ Some node }
    ensures found { (digits node : List ℕ) → node_at digits ≡ Some node → (digits ≡ hex node) × IsNode node }
{}

/// An inline index holds the revisions that it is taken apart into, with no byte left over, and no others; whatever stands
/// beside it. The index of a separate revlog with a revision does not say that it is inline, and no
/// front of one that does not says so.
pub fn inline_taken_apart()
    ensures apart { (index data_bytes : List ℕ) (revisions : List Revision) → Holds true index data_bytes revisions → HoldsRevisions (index_apart index) (chunks_apart index) revisions }
    ensures back { (index data_bytes used left : List ℕ) (revisions : List Revision) → is_inline index ≡ true → HoldsRevisions (index_apart index) used revisions → chunks_apart index ≡ used ++ left → Holds true index data_bytes revisions }
    ensures separate { (index data_bytes more : List ℕ) (first : Revision) (revisions : List Revision) → HoldsRevisions index data_bytes (first ∷ revisions) → is_inline (index ++ more) ≡ false }
    ensures fronts { (size : ℕ) (index : List ℕ) → is_inline index ≡ false → is_inline (take size index) ≡ false }
    ensures one { (index data_bytes other_data : List ℕ) (revisions others : List Revision) → Holds true index data_bytes revisions → Holds true index other_data others → revisions ≡ others }
{}

/// An inline index that begins with bytes that hold revisions, whatever follows, is taken apart into an index and data that
/// begin with bytes that hold them.
pub fn inline_fronts_taken_apart()
    ensures { (index data_bytes : List ℕ) (revisions : List Revision) → Begins true index data_bytes revisions → BeginsWithRevisions (index_apart index) (chunks_apart index) revisions }
{}

/// There is a node for each revision.
pub fn nodes_are_counted()
    ensures { (revisions : List Revision) → length (nodes revisions) ≡ length revisions }
{}

/// Each node of a list stands in it. Where all differ, one node is at one place, and is found there first; where none is
/// the null node, none is taken for it.
pub fn nodes_have_places()
    ensures among { (known : List (List ℕ)) (rev : ℕ) → rev < length known → among (slice_index_or known rev null_node) known ≡ true }
    ensures one { (known : List (List ℕ)) (i j : ℕ) → all_different known ≡ true → i < length known → j < length known → slice_index_or known i null_node ≡ slice_index_or known j null_node → i ≡ j }
    ensures first { (known : List (List ℕ)) (rev : ℕ) → all_different known ≡ true → rev < length known → position (λ n. same n (slice_index_or known rev null_node)) known ≡ Some rev }
    ensures not_null { (known : List (List ℕ)) (rev : ℕ) → among null_node known ≡ false → rev < length known → same (slice_index_or known rev null_node) null_node ≡ false }
{}

/// The index of a list of revisions has 64 bytes for each.
pub fn held_index_length()
    ensures { (index data_bytes : List ℕ) (revisions : List Revision) → HoldsRevisions index data_bytes revisions → length index ≡ 64 * length revisions }
{}

/// Bytes that hold a list begin with it; what begins with a list begins with each front of it, and does so with any more
/// bytes behind.
pub fn lists_begin()
    ensures held { (index data_bytes : List ℕ) (revisions : List Revision) → HoldsRevisions index data_bytes revisions → BeginsWithRevisions index data_bytes revisions }
    ensures fronts { (index data_bytes : List ℕ) (revisions front back : List Revision) → front ++ back ≡ revisions → BeginsWithRevisions index data_bytes revisions → BeginsWithRevisions index data_bytes front }
    ensures more { (index data_bytes more more_data : List ℕ) (revisions : List Revision) → BeginsWithRevisions index data_bytes revisions → BeginsWithRevisions (index ++ more) (data_bytes ++ more_data) revisions }
{}

/// The entry and the chunk of one more revision, behind bytes that hold a list, hold the list with it.
pub fn held_and_one_more()
    ensures { (index data_bytes : List ℕ) (revisions : List Revision) (new : Stored) (header : Header) →
        HoldsRevisions index data_bytes revisions → header.inline ≡ false →
        chunk_text new.chunk ≡ Some new.revision.text →
        IfSome new.revision.parents.0 (λ p. p < length revisions) → IfSome new.revision.parents.1 (λ p. p < length revisions) →
        Fits (entry_after (length data_bytes) (nodes revisions) new) None →
        among (node_after (nodes revisions) new.revision) (null_node ∷ nodes revisions) ≡ false →
        HoldsRevisions (index ++ entry_bytes (entry_after (length data_bytes) (nodes revisions) new) (next_header revisions header)) (data_bytes ++ new.chunk) (revisions ++ new.revision ∷ []) }
{}

/// In the form that its index says, a revlog holds at most one list, begins with what it holds and with each front of what it
/// begins with, and does so with any more bytes behind; a separate revlog holds its list so, and an index with a revision says
/// its form, whatever stands behind it.
pub fn either_form_holds()
    ensures once { (index data_bytes : List ℕ) (revisions others : List Revision) → HoldsEither index data_bytes revisions → HoldsEither index data_bytes others → revisions ≡ others }
    ensures begins { (index data_bytes : List ℕ) (revisions : List Revision) → HoldsEither index data_bytes revisions → BeginsEither index data_bytes revisions }
    ensures fronts { (index data_bytes : List ℕ) (revisions front back : List Revision) → front ++ back ≡ revisions → BeginsEither index data_bytes revisions → BeginsEither index data_bytes front }
    ensures more { (index data_bytes more more_data : List ℕ) (revisions : List Revision) → BeginsEither index data_bytes revisions → BeginsEither (index ++ more) (data_bytes ++ more_data) revisions }
    ensures separate { (index data_bytes : List ℕ) (revisions : List Revision) → HoldsRevisions index data_bytes revisions → HoldsEither index data_bytes revisions }
    ensures form { (inline : Bool) (index data_bytes more : List ℕ) (first : Revision) (revisions : List Revision) → Holds inline index data_bytes (first ∷ revisions) → is_inline (index ++ more) ≡ inline }
{}

/// Behind bytes that hold a list in either form, one more revision's entry with its chunk behind it, or the entry and the
/// chunk by themselves, hold the list with it.
pub fn held_and_one_more_in_either_form()
    ensures { (inline : Bool) (index data_bytes : List ℕ) (revisions : List Revision) (new : Stored) (header : Header) →
        Holds inline index data_bytes revisions → header.inline ≡ inline →
        chunk_text new.chunk ≡ Some new.revision.text →
        IfSome new.revision.parents.0 (λ p. p < length revisions) → IfSome new.revision.parents.1 (λ p. p < length revisions) →
        Fits (entry_after (length (chunk_bytes inline index data_bytes)) (nodes revisions) new) None →
        among (node_after (nodes revisions) new.revision) (null_node ∷ nodes revisions) ≡ false →
        Holds inline (index ++ index_more inline (next_header revisions header) (record { entry = entry_after (length (chunk_bytes inline index data_bytes)) (nodes revisions) new; chunk = new.chunk })) (data_bytes ++ data_more inline new.chunk) (revisions ++ new.revision ∷ []) }
{}
