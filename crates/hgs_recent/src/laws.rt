//! What the definitions of this crate imply. Each function is one law; none does anything.
ghost use Rattle.std.specs.Prelude.{◌≡◌, ◌+◌, ℕ, List, [], Some, Ok, false};
ghost use Rattle.hgs_bytes.specs.Bytes.{same};
ghost use Rattle.hgs_files.specs.Tree.{Tree};
ghost use Rattle.hgs_index.specs.ChangeText.{Change};
ghost use Rattle.hgs_index.specs.Node.{null_node};
ghost use Rattle.hgs_load.specs.Asks.{at_rest};
ghost use Rattle.hgs_load.specs.Given.{given_at_rest};
ghost use Rattle.hgs_load.specs.View.{View};
ghost use Rattle.hgs_reader.specs.Contents as plain;
ghost use Rattle.hgs_reader.specs.Contents.{manifest_index, manifest_data};
ghost use Rattle.hgs_reader.specs.Find.{text_asks};
ghost use Rattle.hgs_reader.specs.Line.{change_asks};
ghost use Rattle.hgs_recent.specs.Questions.{files_asks, cat_asks};
ghost use Rattle.hgs_recent.specs.Texts.{Texts, text_under};

/// Beside no texts the questions are those of a session that keeps none.
pub fn questions_beside_no_texts()
    ensures files { (view : View) (rev : ℕ) → files_asks [] view rev ≡ plain.files_asks view rev }
    ensures cat { (view : View) (rev : ℕ) (path : List ℕ) → cat_asks [] view rev path ≡ plain.cat_asks view rev path }
{}

/// Of files at rest a question for the files of a changeset is given the bytes of the changeset's text and those that are read
/// for the text of its manifest; where that text is kept, the changeset's alone.
pub fn kept_texts_are_not_read()
    ensures plain { (t : Tree) (view : View) (rev : ℕ) (c : Change) → at_rest t (change_asks view rev) ≡ Ok c → same c.manifest null_node ≡ false → given_at_rest t (files_asks [] view rev) ≡ given_at_rest t (change_asks view rev) + given_at_rest t (text_asks manifest_index manifest_data c.manifest) }
    ensures kept { (t : Tree) (texts : Texts) (view : View) (rev : ℕ) (c : Change) (text : List ℕ) → at_rest t (change_asks view rev) ≡ Ok c → text_under c.manifest texts ≡ Some text → given_at_rest t (files_asks texts view rev) ≡ given_at_rest t (change_asks view rev) }
{}
