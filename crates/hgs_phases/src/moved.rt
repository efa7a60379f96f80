//! The moves of phases are those of the plain repository. The function is one law, and does nothing.
ghost use Rattle.std.specs.Prelude.{◌≡◌, ℕ, List, map};
ghost use Rattle.hgs_index.specs.Revision.{Parents};
ghost use Rattle.hgs_model.specs.declared.phase.Phase.{Phase};
ghost use Rattle.hgs_model.specs.Phase.{phase_number};
ghost use Rattle.hgs_model.specs.Step.{advanced as model_advanced, retracted as model_retracted};
ghost use Rattle.hgs_phases.specs.Moves.{advanced, retracted};

/// The numbers of phases that were moved are the numbers, moved as a command on a plain repository moves them.
pub fn moves_are_the_models()
    ensures advanced { (history : List Parents) (rev : ℕ) (to : Phase) (phases : List Phase) → map phase_number (advanced history rev to phases) ≡ model_advanced history rev (phase_number to) (map phase_number phases) }
    ensures retracted { (history : List Parents) (rev : ℕ) (to : Phase) (phases : List Phase) → map phase_number (retracted history rev to phases) ≡ model_retracted history rev (phase_number to) (map phase_number phases) }
{}
