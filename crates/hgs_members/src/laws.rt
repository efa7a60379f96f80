//! What the definitions of this crate imply. Each function is one law; none does anything but to call laws that it rests on.
ghost use Rattle.std.specs.Prelude.{◌≡◌, List, Ok};
ghost use Rattle.hgs_files.specs.Tree.{Tree};
ghost use Rattle.hgs_files.specs.declared.op.Op.{Op};
ghost use Rattle.hgs_index.specs.Revision.{ParentsBefore};
ghost use Rattle.hgs_load.specs.Asks.{at_rest, MayAnswer};
ghost use Rattle.hgs_load.specs.Open.{open_asks};
ghost use Rattle.hgs_load.specs.View.{View};
ghost use Rattle.hgs_members.specs.Story.{story_of};

use hgs_phases::laws::loaded_changelog;
use hgs_revlog::laws::either_form;

/// In each view that a load answers, of files at rest or while others change them, parents stand before their children. So what
/// is said of members of such a view, it is said without a condition.
pub fn parents_of_views_stand_before()
    ensures rest { (t : Tree) (view : View) → at_rest t open_asks ≡ Ok view → ParentsBefore 0 (story_of view).parents }
    ensures moments { (start : Tree) (first last : List Op) (view : View) → MayAnswer start first open_asks last (Ok view) → ParentsBefore 0 (story_of view).parents }
{
    loaded_changelog();
    either_form();
}
