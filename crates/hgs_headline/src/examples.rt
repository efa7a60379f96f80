//! The definitions tried on a first commit. Each function is one example; none does anything but name the laws that its proof
//! takes.
ghost use Rattle.std.specs.Prelude.{◌≡◌, [], ℕ, List};
ghost use Rattle.hgs_model.specs.Repo.{empty_repo};
ghost use Rattle.hgs_ops.specs.Operations.{operations};
ghost use Rattle.hgs_ops.specs.Samples.{bare, one_draft};
ghost use Rattle.hgs_legal.specs.Samples.{first_turn};
ghost use Rattle.hgs_views.specs.Course.{IsCourse};
ghost use Rattle.hgs_headline.specs.WritersLog.{WritersLog, course_of};

use crate::laws::{legal_logs_are_writers_logs, writers_logs_are_courses};
use hgs_legal::examples::first_commit_as_a_log;
use hgs_legal::laws::pieces_are_legal;
use hgs_ops::examples::first_commit;

/// The operations of a first commit in a store with nothing in it are a course from the empty repository to that with the
/// changeset: of its numbers each is 0 at first, and 1 at last.
pub fn first_commit_beside_readers()
    ensures { (who : List ℕ) → (h : WritersLog) × (h.start ≡ bare) × (h.log ≡ operations (first_turn who).ops) × IsCourse (course_of h) [] h.log × ((course_of h).repo 0 ≡ empty_repo) × ((course_of h).repo 1 ≡ one_draft) × ((course_of h).published [] ≡ 0) ×
        ((course_of h).marked h.log ≡ 1) × ((course_of h).worked h.log ≡ 1) × ((course_of h).published h.log ≡ 1) }
{
    legal_logs_are_writers_logs();
    writers_logs_are_courses();
    first_commit_as_a_log();
    pieces_are_legal();
    first_commit();
}
