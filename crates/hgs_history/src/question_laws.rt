//! What the definitions of this crate imply. Each function is one law; none does anything but name the laws below that its
//! proof takes.
ghost use Rattle.std.specs.Prelude.{◌⊎◌, ℕ, List, Option, Some, IfSome};
ghost use Rattle.hgs_bytes.specs.Bytes.{IsPrefixOf};
ghost use Rattle.hgs_files.specs.declared.op.Op.{Op};
ghost use Rattle.hgs_headline.specs.WritersLog.{WritersLog, course_of};
ghost use Rattle.hgs_load.specs.View.{View};
ghost use Rattle.hgs_questions.specs.Asked.{Asked};
ghost use Rattle.hgs_script.specs.declared.job.Question.{Question};
ghost use Rattle.hgs_script.specs.declared.result.Answered.{Answered};
ghost use Rattle.hgs_views.specs.Course.{OpensAlong, ReadsAlong};
ghost use Rattle.hgs_views.specs.Seen.{Numbers};
ghost use Rattle.hgs_history.specs.Beside.{IsAnsweredOf, IsKnown, IsNotLoaded};

use hgs_headline::laws::{ends_beside_writers, loads_beside_writers, views_beside_writers};
use hgs_model::laws::named_is_there;

/// A question of a session beside writers, where its end was told of some logs and has seen another: it is answered of a view
/// that was loaded for it, none of whose numbers is below the view's before or below that of these logs, and its status is none
/// of a damage, of a limit or of a missing repository; or its load met a fault of the files or found no memory.
pub fn questions_beside_writers()
    ensures { (h : WritersLog) (told : List (List Op)) (first last : List Op) (old : Option View) (v : Numbers) (new : Option View) (question : Question) (faults_old faults_new : ℕ) (answered : Answered) → IsPrefixOf last h.log → OpensAlong (course_of h) first last → ReadsAlong (course_of h) first last → IfSome old (IsKnown h first v) →
        Asked told (Some first) h.start (Some last) old new question faults_old faults_new answered → IsAnsweredOf h told first last old v new question faults_old faults_new answered ⊎ IsNotLoaded old new answered }
{
    loads_beside_writers();
    ends_beside_writers();
    views_beside_writers();
    named_is_there();
}
