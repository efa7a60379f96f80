//! What the definitions of this crate imply. Each function is one law; none does anything but name the laws below that its
//! proof takes.
ghost use Rattle.std.specs.Prelude.{◌≡◌, ℕ, List, [], Result, Some, slice_get};
ghost use Rattle.hgs_bytes.specs.Bytes.{IsPrefixOf};
ghost use Rattle.hgs_files.specs.declared.op.Op.{Op};
ghost use Rattle.hgs_model.specs.Repo.{Changeset};
ghost use Rattle.hgs_legal.specs.Numbers.{repo_at};
ghost use Rattle.hgs_headline.specs.WritersLog.{WritersLog, course_of};
ghost use Rattle.hgs_load.specs.declared.answer.ReadAnswer.{ReadAnswer};
ghost use Rattle.hgs_load.specs.View.{View};
ghost use Rattle.hgs_recalled.specs.Recalled.{WereRead, AnswerAlike, AddsBeside};
ghost use Rattle.hgs_recent.specs.Questions.{changeset_use_asks, Keeps};
ghost use Rattle.hgs_recent.specs.Texts.{Texts};
ghost use Rattle.hgs_views.specs.Course.{Course, IsCourse, OpensAlong, ReadsAlong};
ghost use Rattle.hgs_views.specs.Seen.{IsLoadedBetween, Numbers, seen};

use hgs_headline::laws::{views_beside_writers, writers_logs_are_courses};
use hgs_views::laws::{calls_that_add_a_text, contents_of_views};

/// A session keeps only texts that it read under their nodes for changesets of views that it had: so it is of none, a call that
/// was told the lists keeps it so, and it stays so.
pub fn kept_texts_were_read()
    ensures none { (x : Course) (first last : List Op) → WereRead x first last [] }
    ensures later { (x : Course) (first last more : List Op) (texts : Texts) → WereRead x first last texts → IsPrefixOf last more → WereRead x first more texts }
    ensures call { (x : Course) (first began ended from to : List Op) (v : Numbers) (view : View) (rev : ℕ) (c : Changeset) (old new : Texts) (r : Result Unit ReadAnswer) → IsLoadedBetween x began ended v view → slice_get (x.repo v.read).changesets rev ≡ Some c → IsPrefixOf first began → IsPrefixOf ended from → IsPrefixOf from to →
        WereRead x first from old → Keeps (Some from) x.start (Some to) (changeset_use_asks old view rev) old new r → WereRead x first to new }
{}

/// Beside such texts a view's questions answer as those of a session that keeps none.
pub fn kept_texts_answer_alike()
    ensures { (x : Course) (zero began ended first last : List Op) (v : Numbers) (view : View) (rev : ℕ) (c : Changeset) (texts : Texts) → IsCourse x zero last → OpensAlong x zero last → ReadsAlong x zero last → IsLoadedBetween x began ended v view → IsPrefixOf zero began → IsPrefixOf ended first → IsPrefixOf first last →
        slice_get (x.repo v.read).changesets rev ≡ Some c → WereRead x zero first texts → AnswerAlike x first last texts view rev }
{
    contents_of_views();
}

/// So it is over the log that writers make: each call for the files of a changeset, or for the bytes of one, adds the text of the
/// repository that the view shows, whichever texts the session kept of its earlier calls.
pub fn kept_texts_beside_writers()
    ensures { (h : WritersLog) (began ended first last : List Op) (v : Numbers) (view : View) (rev : ℕ) (c : Changeset) (texts : Texts) → IsPrefixOf last h.log → OpensAlong (course_of h) [] last → ReadsAlong (course_of h) [] last → IsLoadedBetween (course_of h) began ended v view → IsPrefixOf ended first → IsPrefixOf first last →
        slice_get (repo_at h.last v.read).changesets rev ≡ Some c → WereRead (course_of h) [] first texts → AddsBeside h.start first last texts view (seen (course_of h) v) rev c }
{
    writers_logs_are_courses();
    views_beside_writers();
    calls_that_add_a_text();
    kept_texts_answer_alike();
}
