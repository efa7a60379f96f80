//! What the definitions of this crate imply. Each function is one law; none does anything.
ghost use Rattle.std.specs.Prelude.{◌≡◌, ◌⊎◌, ◌+◌, ◌*◌, ◌/◌, ◌<◌, ◌≤◌, ◌^◌, ◌&&◌, true, false, List, ℕ, [], ◌∷◌, ◌++◌, length, take, drop, slice_get, Option, Some, None, IfSome, IsSome, if◌then◌else◌, map, position, IsOk};
ghost use Rattle.hex.specs.Hex.{IsBytes};
ghost use Rattle.hgs_bytes.specs.Bytes.{same};
ghost use Rattle.hgs_index.specs.declared.entry.Entry.{Entry};
ghost use Rattle.hgs_index.specs.declared.entry.Header.{Header};
ghost use Rattle.hgs_index.specs.declared.node.Node.{Node};
ghost use Rattle.hgs_index.specs.Entry.{Fits, entry_bytes};
ghost use Rattle.hgs_index.specs.Inline.{chunks_apart, index_apart, is_inline};
ghost use Rattle.hgs_index.specs.Revision.{Parents, Revision, nodes, same_parents, ParentsBefore};
ghost use Rattle.hgs_index.specs.Revlog.{Holds, HoldsRevisions, BeginsWithRevisions, chunk_of};
ghost use Rattle.hgs_index.specs.Node.{null_node};
ghost use Rattle.hgs_revlog.specs.declared.add.Added.TheVariants.{New, Old};
ghost use Rattle.hgs_revlog.specs.declared.fault.RevFault.{RevFault};
ghost use Rattle.hgs_revlog.specs.declared.fault.RevFault.TheVariants.{Collision, Missing};
ghost use Rattle.hgs_revlog.specs.declared.fault.Tail.{Tail};
ghost use Rattle.hgs_revlog.specs.declared.fault.Tail.TheVariants.{Ignore, Refuse, Until};
ghost use Rattle.hgs_revlog.specs.Log.{Log, nodes_of, place_of, stored_sum, with_entry};
ghost use Rattle.hgs_revlog.specs.Load.{loaded, loaded_either, separate_at, pushed, entry_behind};
ghost use Rattle.hgs_revlog.specs.Loaded.{AreEntries, HaveNodes, HaveOwnNodes, parents_in};
ghost use Rattle.hgs_revlog.specs.Add.{added, next_entry};
ghost use Rattle.hgs_revlog.specs.Held.{Agrees, AreWithinLimits, EndsFirstAt, chunk_in, read_all};
ghost use Rattle.hgs_revlog.specs.Text.{span_in};

use hgs_index::laws::inline_taken_apart;

/// Within the limits, and with no byte of data past the last chunk, an index loads whole and its texts read exactly
/// where the bytes hold a list of revisions, and as that list and its entries.
pub fn whole_index()
    ensures holds { (index data_bytes : List ℕ) (log : Log) (revisions : List Revision) → IsBytes index → loaded Refuse index ≡ Ok log → read_all log.entries data_bytes ≡ Ok revisions → length data_bytes ≡ stored_sum log.entries → Agrees index data_bytes log.entries revisions }
    ensures loads { (index data_bytes rest : List ℕ) (revisions : List Revision) → HoldsRevisions index data_bytes revisions → AreWithinLimits revisions data_bytes → (log : Log) × (loaded Refuse index ≡ Ok log) × (read_all log.entries (data_bytes ++ rest) ≡ Ok revisions) × Agrees index data_bytes log.entries revisions }
{}

/// With a rest passed over, an index is what its whole entries alone are, and so it loads and its texts read exactly
/// where the bytes begin with those that hold as many revisions as there are whole entries, and as these and their
/// entries. The limits are asked of these bytes alone, and not of what a writer has appended behind them.
pub fn ignored_rest()
    ensures front { (index : List ℕ) → loaded Ignore index ≡ loaded Refuse (take (64 * (length index / 64)) index) }
    ensures holds { (index data_bytes : List ℕ) (log : Log) (revisions : List Revision) → IsBytes index → loaded Ignore index ≡ Ok log → read_all log.entries data_bytes ≡ Ok revisions → (begins : BeginsWithRevisions index data_bytes revisions) × Agrees begins.index_front begins.data_front log.entries revisions × (length revisions ≡ length index / 64) }
    ensures loads { (index data_bytes : List ℕ) (revisions : List Revision) → (begins : BeginsWithRevisions index data_bytes revisions) → length revisions ≡ length index / 64 → AreWithinLimits revisions begins.data_front → (log : Log) × (loaded Ignore index ≡ Ok log) × (read_all log.entries data_bytes ≡ Ok revisions) × Agrees begins.index_front begins.data_front log.entries revisions }
{}

/// An index of either form loads in the form that its header says: a separate one as `loaded` says. In both, the entries are
/// those of an index, and where it is bytes, each node is 20 bytes.
pub fn either_form()
    ensures separate { (tail : Tail) (index : List ℕ) → is_inline index ≡ false → loaded_either tail index ≡ loaded tail index }
    ensures form { (tail : Tail) (index : List ℕ) (log : Log) → loaded_either tail index ≡ Ok log → log.inline ≡ is_inline index }
    ensures entries { (tail : Tail) (index : List ℕ) (log : Log) → loaded_either tail index ≡ Ok log → AreEntries log.entries }
    ensures nodes { (tail : Tail) (index : List ℕ) (log : Log) → IsBytes index → loaded_either tail index ≡ Ok log → HaveNodes log.entries }
{}

/// An inline index loads whole and its texts read exactly where it holds a list of revisions, and as that list, from the
/// chunks that it is taken apart into; and these are what stands in the index at the places of `span_in`.
pub fn inline_index()
    ensures holds { (index data_bytes : List ℕ) (log : Log) (revisions : List Revision) → IsBytes index → loaded_either Refuse index ≡ Ok log → log.inline ≡ true → read_all log.entries (chunks_apart index) ≡ Ok revisions → Holds true index data_bytes revisions }
    ensures loads { (index data_bytes : List ℕ) (revisions : List Revision) → Holds true index data_bytes revisions → AreWithinLimits revisions (chunks_apart index) → (log : Log) × (loaded_either Refuse index ≡ Ok log) × (read_all log.entries (chunks_apart index) ≡ Ok revisions) × Agrees (index_apart index) (chunks_apart index) log.entries revisions }
    ensures places { (tail : Tail) (index : List ℕ) (log : Log) (rev : ℕ) (e : Entry) → loaded_either tail index ≡ Ok log → log.inline ≡ true → slice_get log.entries rev ≡ Some e → take e.stored (drop (span_in true rev e).from index) ≡ chunk_in (chunks_apart index) e }
{
    inline_taken_apart();
}

/// An entry that is written of a separate revlog is read again as the one of a separate index.
pub fn written_entries_read()
    ensures { (e : Entry) (h : Option Header) (rev : ℕ) → Fits e h → IfSome h (λ x. x.inline ≡ false) → (IsSome h → rev ≡ 0) → (rev ≡ 0 → IsSome h) → separate_at (entry_bytes e h) rev ≡ Ok e }
{}

/// The entries of a list have its nodes and its parents, and are as many.
pub fn entries_of_revisions()
    ensures nodes { (index data_bytes : List ℕ) (entries : List Entry) (revisions : List Revision) → Agrees index data_bytes entries revisions → nodes_of entries ≡ nodes revisions }
    ensures parents { (index data_bytes : List ℕ) (entries : List Entry) (revisions : List Revision) → Agrees index data_bytes entries revisions → map (λ (e : Entry). let p : Parents = (e.p1, e.p2) in p) entries ≡ map (λ (r : Revision). r.parents) revisions }
    ensures count { (index data_bytes : List ℕ) (entries : List Entry) (revisions : List Revision) → Agrees index data_bytes entries revisions → length entries ≡ length revisions }
{}

/// Bytes that hold a list and nothing else load with a rest passed over as well, as the entries of the whole index.
pub fn held_bytes_load()
    ensures { (index data_bytes : List ℕ) (revisions : List Revision) → HoldsRevisions index data_bytes revisions → AreWithinLimits revisions data_bytes → (log : Log) × (loaded Ignore index ≡ Ok log) × Agrees index data_bytes log.entries revisions }
{}

/// Up to a node, an index loads and its texts read exactly where the bytes begin with those that hold revisions of
/// which the last is the first with the node, whatever follows and however much, and as these and their entries. Where
/// the whole entries have a fault, it is refused with that, unless the node comes before; where they have none and none
/// has the node, the node is missing.
pub fn until_node()
    ensures holds { (index data_bytes : List ℕ) (log : Log) (revisions : List Revision) (node : Node) → IsBytes index → loaded (Until node) index ≡ Ok log → read_all log.entries data_bytes ≡ Ok revisions → (begins : BeginsWithRevisions index data_bytes revisions) × Agrees begins.index_front begins.data_front log.entries revisions × EndsFirstAt node.0 revisions }
    ensures loads { (index data_bytes : List ℕ) (revisions : List Revision) (node : Node) → (begins : BeginsWithRevisions index data_bytes revisions) → EndsFirstAt node.0 revisions → AreWithinLimits revisions begins.data_front → (log : Log) × (loaded (Until node) index ≡ Ok log) × (read_all log.entries data_bytes ≡ Ok revisions) × Agrees begins.index_front begins.data_front log.entries revisions }
    ensures fault { (index : List ℕ) (node : Node) (fault : RevFault) → loaded Ignore index ≡ Err fault → (loaded (Until node) index ≡ Err fault) ⊎ ((log : Log) × (loaded (Until node) index ≡ Ok log)) }
    ensures missing { (index : List ℕ) (log : Log) (node : Node) → loaded Ignore index ≡ Ok log → place_of log.entries node.0 ≡ None → loaded (Until node) index ≡ Err Missing }
{}

/// What is written of a new revision whose node is not the null node may be pushed, and appended to the bytes that hold
/// the revisions before, it holds the new one last; the entries then are those of the longer index, so that one more can
/// be added behind.
pub fn new_revision()
    ensures named { (log : Log) (r : Revision) (standing : Option (List ℕ)) (entry chunk : List ℕ) (node : Node) → added log r standing ≡ Ok (New entry chunk node) → (chunk ≡ chunk_of r.text) × (node ≡ (next_entry log.entries r).node) }
    ensures fits { (log : Log) (r : Revision) (standing : Option (List ℕ)) (entry chunk : List ℕ) (node : Node) → log.inline ≡ false → IfSome r.parents.0 (λ p. p < length log.entries) → IfSome r.parents.1 (λ p. p < length log.entries) → r.link < 2 ^ 31 → same null_node node.0 ≡ false →
        added log r standing ≡ Ok (New entry chunk node) → IsOk (entry_behind log.entries entry) }
    ensures taken { (log : Log) (r : Revision) (standing : Option (List ℕ)) (entry chunk : List ℕ) (node : Node) → log.inline ≡ false → IfSome r.parents.0 (λ p. p < length log.entries) → IfSome r.parents.1 (λ p. p < length log.entries) → r.link < 2 ^ 31 → same null_node node.0 ≡ false →
        added log r standing ≡ Ok (New entry chunk node) → pushed log entry ≡ Ok (with_entry log (next_entry log.entries r)) }
    ensures held { (log : Log) (r : Revision) (standing : Option (List ℕ)) (entry chunk : List ℕ) (node : Node) → log.inline ≡ false → IfSome r.parents.0 (λ p. p < length log.entries) → IfSome r.parents.1 (λ p. p < length log.entries) → r.link < 2 ^ 31 → same null_node node.0 ≡ false →
        added log r standing ≡ Ok (New entry chunk node) → (index data_bytes : List ℕ) (revisions : List Revision) → Agrees index data_bytes log.entries revisions →
        Agrees (index ++ entry) (data_bytes ++ chunk) (with_entry log (next_entry log.entries r)).entries (revisions ++ r ∷ []) }
{}

/// What is written of a new revision in an inline revlog, its entry and behind it its chunk, appended to an index that holds
/// the revisions before, makes one that holds the new one last.
pub fn new_inline_revision()
    ensures { (log : Log) (r : Revision) (standing : Option (List ℕ)) (entry chunk : List ℕ) (node : Node) → IfSome r.parents.0 (λ p. p < length log.entries) → IfSome r.parents.1 (λ p. p < length log.entries) → r.link < 2 ^ 31 → same null_node node.0 ≡ false →
        added log r standing ≡ Ok (New entry chunk node) → log.inline ≡ true → (index data_bytes : List ℕ) (revisions : List Revision) → Holds true index data_bytes revisions → Agrees (index_apart index) (chunks_apart index) log.entries revisions →
        Holds true (index ++ (entry ++ chunk)) data_bytes (revisions ++ r ∷ []) }
{}

/// A revision whose node stands is that revision exactly where the texts are the same, and the two parents in either
/// order; else the two collide.
pub fn standing_revision()
    ensures { (log : Log) (r : Revision) (data_bytes : List ℕ) (revisions : List Revision) (rev : ℕ) (e : Entry) (s : Revision) → read_all log.entries data_bytes ≡ Ok revisions →
        place_of log.entries (next_entry log.entries r).node.0 ≡ Some rev → slice_get log.entries rev ≡ Some e → slice_get revisions rev ≡ Some s →
        added log r (Some (chunk_in data_bytes e)) ≡ (if same r.text s.text && same_parents r.parents s.parents then Ok (Old rev) else Err (Collision rev)) }
{}

/// The place of a node among entries stays where more stand behind them; a node that has none there has none, or one behind
/// them.
pub fn places_go_on()
    ensures stays { (node : List ℕ) (rev : ℕ) (front back : List Entry) → place_of front node ≡ Some rev → place_of (front ++ back) node ≡ Some rev }
    ensures behind { (node : List ℕ) (front back : List Entry) → place_of front node ≡ None → (place_of (front ++ back) node ≡ None) ⊎ ((rev : ℕ) × (place_of (front ++ back) node ≡ Some rev) × (length front ≤ rev)) }
{}

/// In an index that loads, whatever is done with its end, parents stand before their children, no node stands twice and
/// none is the null node, each chunk begins where those before it end, and the limits are kept; the chunks stand in a file
/// of their own; and where the index is bytes, each node is 20 bytes.
pub fn loaded_entries()
    ensures entries { (tail : Tail) (index : List ℕ) (log : Log) → loaded tail index ≡ Ok log → AreEntries log.entries }
    ensures separate { (tail : Tail) (index : List ℕ) (log : Log) → loaded tail index ≡ Ok log → log.inline ≡ false }
    ensures nodes { (tail : Tail) (index : List ℕ) (log : Log) → IsBytes index → loaded tail index ≡ Ok log → HaveNodes log.entries }
{}

/// One more entry that is taken keeps all of this, and each part of it by itself.
pub fn pushed_entries()
    ensures entries { (log new : Log) (entry : List ℕ) → AreEntries log.entries → pushed log entry ≡ Ok new → AreEntries new.entries }
    ensures separate { (log new : Log) (entry : List ℕ) → log.inline ≡ false → pushed log entry ≡ Ok new → new.inline ≡ false }
    ensures earlier { (log new : Log) (entry : List ℕ) → ParentsBefore 0 (parents_in log.entries) → pushed log entry ≡ Ok new → ParentsBefore 0 (parents_in new.entries) }
    ensures own { (log new : Log) (entry : List ℕ) → HaveOwnNodes log.entries → pushed log entry ≡ Ok new → HaveOwnNodes new.entries }
    ensures nodes { (log new : Log) (entry : List ℕ) → length entry ≡ 64 → IsBytes entry → HaveNodes log.entries → pushed log entry ≡ Ok new → HaveNodes new.entries }
{}

/// The revision of a node is its place among the nodes.
pub fn places_of_nodes()
    ensures { (entries : List Entry) (node : List ℕ) → place_of entries node ≡ position (λ n. same n node) (nodes_of entries) }
{}
