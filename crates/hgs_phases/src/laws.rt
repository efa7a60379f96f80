//! What the definitions that this crate stands on imply. Each function is one law; none does anything.
ghost use Rattle.std.specs.Prelude.{◌≡◌, ◌↔◌, ◌<◌, ◌≤◌, ◌++◌, ◌∷◌, [], true, List, ℕ, Ok, length};
ghost use Rattle.hex.specs.Hex.{IsBytes};
ghost use Rattle.hgs_index.specs.Ancestor.{IsAncestor, is_ancestor};
ghost use Rattle.hgs_index.specs.Revision.{ParentsBefore};
ghost use Rattle.hgs_index.specs.declared.entry.Entry.{Entry};
ghost use Rattle.hgs_model.specs.declared.phase.Phase.{Phase};
ghost use Rattle.hgs_phases.specs.declared.roots.Root.{Root};
ghost use Rattle.hgs_phases.specs.Changelog.{ArePhases, HaveNodes, HaveOwnNodes, IsChangelog};
ghost use Rattle.hgs_phases.specs.Moves.{advanced, retracted};
ghost use Rattle.hgs_model.specs.Phase.{greater, phase_number};
ghost use Rattle.hgs_phases.specs.Phases.{history_of, parent_phase, phases_by};
ghost use Rattle.hgs_phases.specs.Printed.{written_roots};
ghost use Rattle.hgs_phases.specs.Roots.{IsTextOf, read_roots, roots_text};
ghost use Rattle.hgs_revlog.specs.declared.fault.Tail.{Tail};
ghost use Rattle.hgs_revlog.specs.Load.{loaded, pushed};
ghost use Rattle.hgs_revlog.specs.Log.{Log, nodes_of};

use hgs_revlog::laws::{loaded_entries, pushed_entries};

/// In an index that loads, and with one more entry that is taken, parents stand before their children and no node stands
/// twice; where the index is bytes, each node is 20 bytes.
pub fn loaded_changelog()
    ensures loaded { (tail : Tail) (index : List ℕ) (log : Log) → loaded tail index ≡ Ok log → IsChangelog log.entries }
    ensures nodes { (tail : Tail) (index : List ℕ) (log : Log) → IsBytes index → loaded tail index ≡ Ok log → HaveNodes log.entries }
    ensures pushed_earlier { (log new : Log) (entry : List ℕ) → ParentsBefore 0 (history_of log.entries) → pushed log entry ≡ Ok new → ParentsBefore 0 (history_of new.entries) }
    ensures pushed_own { (log new : Log) (entry : List ℕ) → HaveOwnNodes log.entries → pushed log entry ≡ Ok new → HaveOwnNodes new.entries }
    ensures pushed_nodes { (log new : Log) (entry : List ℕ) → length entry ≡ 64 → IsBytes entry → HaveNodes log.entries → pushed log entry ≡ Ok new → HaveNodes new.entries }
{
    loaded_entries();
    pushed_entries();
}

/// The roots that are written of phases are read again as themselves, and give the same phases.
pub fn written_then_read()
    ensures read { (entries : List Entry) (phases : List Phase) → HaveNodes entries → read_roots (roots_text (written_roots phases entries)) ≡ Ok (written_roots phases entries) }
    ensures same { (entries : List Entry) (phases : List Phase) → IsChangelog entries → ArePhases entries phases → phases_by (written_roots phases entries) entries ≡ phases }
{}

/// A text is read as these roots exactly where it has a line for each, the last of which may lack its LF.
pub fn read_texts()
    ensures { (roots : List Root) (text : List ℕ) → (read_roots text ≡ Ok roots ↔ IsTextOf roots text) }
{}

/// Roots give the same phases to any entries with the same nodes and the same parents.
pub fn phases_of_nodes_and_parents()
    ensures { (roots : List Root) (entries others : List Entry) → nodes_of entries ≡ nodes_of others → history_of entries ≡ history_of others → phases_by roots entries ≡ phases_by roots others }
{}

/// In a changelog no phase that roots give is below that of a parent; moves keep that, and so does a new changeset whose
/// phase is at least those of its parents.
pub fn phases_rise()
    ensures given { (roots : List Root) (entries : List Entry) → IsChangelog entries → ArePhases entries (phases_by roots entries) }
    ensures advanced { (entries : List Entry) (rev : ℕ) (to : Phase) (phases : List Phase) → IsChangelog entries → rev < length entries → ArePhases entries phases → ArePhases entries (advanced (history_of entries) rev to phases) }
    ensures retracted { (entries : List Entry) (rev : ℕ) (to : Phase) (phases : List Phase) → IsChangelog entries → ArePhases entries phases → ArePhases entries (retracted (history_of entries) rev to phases) }
    ensures pushed { (entries : List Entry) (e : Entry) (phases : List Phase) (phase : Phase) → IsChangelog (entries ++ e ∷ []) → ArePhases entries phases → phase_number (greater (parent_phase phases e.p1) (parent_phase phases e.p2)) ≤ phase_number phase → ArePhases (entries ++ e ∷ []) (phases ++ phase ∷ []) }
{}

/// In a changelog the test of ancestors is exact.
pub fn exact_ancestors()
    ensures { (entries : List Entry) (a b : ℕ) → IsChangelog entries → b < length entries → (is_ancestor (history_of entries) a b ≡ true ↔ IsAncestor (history_of entries) a b) }
{}
