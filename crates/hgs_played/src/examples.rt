//! The definitions tried on the beginning of a play. Each function is one example; none does anything but name the laws that its
//! proof takes.
ghost use Rattle.std.specs.Prelude.{◌≡◌, [], ℕ, Some, slice_get};
ghost use Rattle.hgs_headline.specs.WritersLog.{WritersLog, course_of};
ghost use Rattle.hgs_played.specs.Since.{Beginning, Begins, IsPlayed};
ghost use Rattle.hgs_views.specs.Course.{OpensAlong};
ghost use Rattle.hgs_world.specs.Questions.{Sight, load_line};
ghost use Rattle.hgs_world.specs.Texts.{loaded_line};
ghost use Rattle.hgs_world.specs.World.{IsFirst, Scene, tree_of};

use crate::laws::{
    events_keep_their_log, events_keep_what_readers_see, no_load_of_a_play_is_refused,
};

/// The log of a play that begins is within the limits of a load, and a load finds no changeset.
pub fn first_loads_find_nothing()
    ensures within { (readers : ℕ) (s : Scene) (b : Beginning) (h : WritersLog) → IsFirst readers s → Begins s.start b → IsPlayed s b h → OpensAlong (course_of h) [] h.log }
    ensures loads { (readers : ℕ) (s : Scene) (number : ℕ) (r : Sight) → IsFirst readers s → slice_get s.readers number ≡ Some r → load_line (tree_of s) r ≡ loaded_line 0 }
{
    events_keep_their_log();
    events_keep_what_readers_see();
    no_load_of_a_play_is_refused();
}
