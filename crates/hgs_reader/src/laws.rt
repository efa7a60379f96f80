//! What the definitions of this crate imply. Each function is one law; none does anything.
ghost use Rattle.std.specs.Prelude.{◌≡◌, ◌+◌, ◌*◌, ◌≤◌, ℕ, suc, Bool, List, Result, Ok, Err, Some, None, true, false, length, take, drop, slice_get};
ghost use Rattle.hgs_bytes.specs.Bytes.{same};
ghost use Rattle.hgs_bytes.specs.Bytes.{IsPrefixOf};
ghost use Rattle.hgs_files.specs.declared.op.Op.{Op};
ghost use Rattle.hgs_files.specs.Tree.{Tree, after_all, bytes_at};
ghost use Rattle.hgs_index.specs.declared.kinds.Flag.{Flag};
ghost use Rattle.hgs_index.specs.declared.entry.Entry.{Entry};
ghost use Rattle.hgs_index.specs.declared.node.Node.{Node};
ghost use Rattle.hgs_index.specs.ChangeText.{Change, read_change};
ghost use Rattle.hgs_index.specs.FileText.{body_of};
ghost use Rattle.hgs_index.specs.Inline.{is_inline};
ghost use Rattle.hgs_index.specs.Manifest.{Row, AreRows, manifest_text};
ghost use Rattle.hgs_index.specs.Node.{null_node};
ghost use Rattle.hgs_index.specs.Revision.{Revision};
ghost use Rattle.hgs_manifest.specs.Held.{found_in};
ghost use Rattle.hgs_path.specs.Check.{checked};
ghost use Rattle.hgs_path.specs.StoreName.{store_name};
ghost use Rattle.hgs_path.specs.declared.name.Ext.TheVariants.{I, D};
ghost use Rattle.hgs_revlog.specs.Held.{chunk_in, read_all};
ghost use Rattle.hgs_revlog.specs.declared.fault.Tail.TheVariants.{Until};
ghost use Rattle.hgs_revlog.specs.Load.{loaded};
ghost use Rattle.hgs_revlog.specs.Log.{Log};
ghost use Rattle.hgs_revlog.specs.Text.{span_in, text_of};
ghost use Rattle.hgs_load.specs.declared.answer.ReadAnswer.{ReadAnswer};
ghost use Rattle.hgs_load.specs.declared.answer.ReadAnswer.TheVariants.{UnknownPath};
ghost use Rattle.hgs_load.specs.Asks.{at_rest, MayAnswer};
ghost use Rattle.hgs_reader.specs.Contents.{manifest_index, manifest_data, most_files, most_file_text, tree_asks, files_text, files_asks, cat_asks};
ghost use Rattle.hgs_reader.specs.Find.{has_node, separate_asks, text_asks};
ghost use Rattle.hgs_reader.specs.Held.{EndsInline, HasSeparateText, HasText};
ghost use Rattle.hgs_reader.specs.Line.{change_asks};
ghost use Rattle.hgs_load.specs.View.{View, changelog_data, changelog_index};

use hgs_index::laws::inline_taken_apart;
use hgs_revlog::laws::inline_index;

/// Where a revlog has a text with a node, in either form, that is what is found, whatever a writer has appended behind it. Of an
/// inline revlog the chunk is taken from behind its entry, whatever stands beside the index.
pub fn text_of_node_held()
    ensures { (t : Tree) (index chunks node text : List ℕ) → HasText t index chunks node text → at_rest t (text_asks index chunks node) ≡ Ok text }
{
    inline_taken_apart();
    inline_index();
}

/// The same at whatever moments the reads stand, where an inline index begins at each of them with bytes that end with the
/// text: nothing that stands behind these, and nothing beside the index, is looked at.
pub fn inline_text_at_moments()
    ensures { (start : Tree) (from last : List Op) (index chunks front node text : List ℕ) (y : Result (List ℕ) ReadAnswer) → EndsInline front node text → ((now : List Op) → IsPrefixOf from now → IsPrefixOf now last → IsPrefixOf front (bytes_at (after_all now start) index)) →
        MayAnswer start from (text_asks index chunks node) last y → y ≡ Ok text }
{
    inline_index();
}

/// Of a separate index the first piece says so; then the text with a node is asked for as that of a separate revlog, whatever
/// the moments of the reads.
pub fn separate_texts_are_asked()
    ensures found { (t : Tree) (index chunks node text : List ℕ) → HasSeparateText t index chunks node text → at_rest t (separate_asks index chunks node) ≡ Ok text }
    ensures rest { (t : Tree) (index chunks node : List ℕ) → is_inline (bytes_at t index) ≡ false → at_rest t (text_asks index chunks node) ≡ at_rest t (separate_asks index chunks node) }
    ensures moments { (start : Tree) (from last : List Op) (index chunks node : List ℕ) (y : Result (List ℕ) ReadAnswer) → ((now : List Op) → IsPrefixOf from now → IsPrefixOf now last → is_inline (bytes_at (after_all now start) index) ≡ false) →
        MayAnswer start from (text_asks index chunks node) last y → MayAnswer start from (separate_asks index chunks node) last y }
{
    inline_taken_apart();
}

/// Where the manifest's revlog has the text of some rows with the node that a changeset names, these rows are its files,
/// and `files` writes their lines.
pub fn files_of_manifest_held()
    ensures tree { (t : Tree) (view : View) (rev : ℕ) (change : Change) (rows : List Row) → at_rest t (change_asks view rev) ≡ Ok change → same change.manifest null_node ≡ false → HasText t manifest_index manifest_data change.manifest (manifest_text rows) → AreRows rows →
        length rows ≤ most_files → at_rest t (tree_asks view rev) ≡ Ok rows }
    ensures files { (t : Tree) (view : View) (rev : ℕ) (rows : List Row) → at_rest t (tree_asks view rev) ≡ Ok rows → at_rest t (files_asks view rev) ≡ Ok (files_text rows) }
{
    text_of_node_held();
}

/// Where the filelog of a path has a text with the node that the path's row names, `cat` writes the body in it; where no
/// row has the path, it is unknown.
pub fn body_of_file_held()
    ensures body { (t : Tree) (view : View) (rev : ℕ) (rows : List Row) (path node text : List ℕ) (flag : Flag) → at_rest t (tree_asks view rev) ≡ Ok rows → checked path ≡ Ok tt → found_in path rows ≡ Some (node, flag) →
        HasText t (store_name path I) (store_name path D) node text → length (body_of text) ≤ most_file_text → at_rest t (cat_asks view rev path) ≡ Ok (body_of text) }
    ensures unknown { (t : Tree) (view : View) (rev : ℕ) (rows : List Row) (path : List ℕ) → at_rest t (tree_asks view rev) ≡ Ok rows → checked path ≡ Ok tt → found_in path rows ≡ None → at_rest t (cat_asks view rev path) ≡ Err UnknownPath }
{
    text_of_node_held();
}

/// No row has the path, which may be any: it is unknown.
pub fn paths_without_row()
    ensures { (t : Tree) (view : View) (rev : ℕ) (rows : List Row) (path : List ℕ) → at_rest t (tree_asks view rev) ≡ Ok rows → found_in path rows ≡ None → at_rest t (cat_asks view rev path) ≡ Err UnknownPath }
{}

/// A changeset is what is read of the text in its chunk, which stands in the data file, or in the index of an inline changelog;
/// where the texts of a separate changelog are read as revisions, each is what is read of its text.
pub fn changesets_are_read()
    ensures chunk { (t : Tree) (view : View) (rev : ℕ) (entry : Entry) (text : List ℕ) (change : Change) → view.changelog.inline ≡ false → slice_get view.changelog.entries rev ≡ Some entry → text_of view.changelog.entries rev (chunk_in (bytes_at t changelog_data) entry) ≡ Ok text → read_change text ≡ Ok change → at_rest t (change_asks view rev) ≡ Ok change }
    ensures placed { (t : Tree) (view : View) (rev : ℕ) (entry : Entry) (text : List ℕ) (change : Change) → view.changelog.inline ≡ true → slice_get view.changelog.entries rev ≡ Some entry → text_of view.changelog.entries rev (take entry.stored (drop (span_in true rev entry).from (bytes_at t changelog_index))) ≡ Ok text → read_change text ≡ Ok change → at_rest t (change_asks view rev) ≡ Ok change }
    ensures revision { (t : Tree) (view : View) (rev : ℕ) (revisions : List Revision) (r : Revision) (change : Change) → view.changelog.inline ≡ false → read_all view.changelog.entries (bytes_at t changelog_data) ≡ Ok revisions → slice_get revisions rev ≡ Some r → read_change r.text ≡ Ok change → at_rest t (change_asks view rev) ≡ Ok change }
{}

/// Whether a node is among the entries of bytes: where it is not among the first, it is where it is among the rest; what
/// stands behind the entries does not matter; among more it is too; and an index that loads up to a node has it at its end.
pub fn nodes_among_entries()
    ensures behind { (node : List ℕ) (first rest all : ℕ) (bytes : List ℕ) (found : Bool) → all ≡ first + rest → has_node node first bytes ≡ false → has_node node rest (drop (64 * first) bytes) ≡ found → has_node node all bytes ≡ found }
    ensures front { (node : List ℕ) (count size : ℕ) (bytes : List ℕ) → 64 * count ≤ size → has_node node count (take size bytes) ≡ has_node node count bytes }
    ensures more { (node : List ℕ) (count more : ℕ) (bytes : List ℕ) → count ≤ more → has_node node count bytes ≡ true → has_node node more bytes ≡ true }
    ensures last { (index : List ℕ) (log : Log) (node : Node) → loaded (Until node) index ≡ Ok log → (before : ℕ) × (has_node node.0 before index ≡ false) × (has_node node.0 (suc before) index ≡ true) × (64 * suc before ≤ length index) }
{}

/// Where the texts of all entries are read, each revision has an entry, whose chunk is its text.
pub fn revisions_have_entries()
    ensures { (entries : List Entry) (data_bytes : List ℕ) (revisions : List Revision) (rev : ℕ) (r : Revision) → read_all entries data_bytes ≡ Ok revisions → slice_get revisions rev ≡ Some r → (e : Entry) × (slice_get entries rev ≡ Some e) × (text_of entries rev (chunk_in data_bytes e) ≡ Ok r.text) }
{}
