//! What the definitions of this crate imply. Each function is one law; none does anything but name the laws below that its
//! proof takes.
ghost use Rattle.std.specs.Prelude.{◌≡◌, ◌≤◌, ◌*◌, ℕ, List, length, true};
ghost use Rattle.hgs_bytes.specs.Bytes.{IsPrefixOf};
ghost use Rattle.hgs_cut.specs.Cut.{AreEntriesAlong, CutsAlong, EndsAlong, TellsFronts};
ghost use Rattle.hgs_files.specs.declared.op.Op.{Op};
ghost use Rattle.hgs_headline.specs.WritersLog.{WritersLog, course_of};
ghost use Rattle.hgs_links.specs.Fronts.{linked_front};
ghost use Rattle.hgs_model.specs.History.{history, uses};
ghost use Rattle.hgs_path.specs.declared.name.Ext.TheVariants.{I};
ghost use Rattle.hgs_path.specs.StoreName.{store_name};
ghost use Rattle.hgs_stands.specs.Places.{manifest_index};
ghost use Rattle.hgs_views.specs.Course.{Course, IsBetween, IsCourse, tree_after};

use hgs_headline::laws::{legal_logs_are_writers_logs, writers_logs_are_courses};
use hgs_later::laws::{links_cut_fronts, stores_end_by_links};
use hgs_legal::laws::numbers_rise;
use hgs_links::laws::linked_fronts_are_counted;

/// In the log that writers make, after each list of operations, also within a transaction and while one is undone, the entries
/// of each earlier repository are exactly those with a link below its number of changesets.
pub fn writers_logs_are_cut()
    ensures { (h : WritersLog) (first last : List Op) → IsPrefixOf last h.log → CutsAlong (course_of h) first last }
{
    legal_logs_are_writers_logs();
    links_cut_fronts();
    numbers_rise();
}

/// So whoever reads the manifest or a used path's filelog at any moment of such a course, and counts entries from the first on
/// while they carry a link below the number of changesets, has exactly what the repository has there.
pub fn fronts_are_told_by_links()
    ensures { (x : Course) (first last log : List Op) (i : ℕ) → IsCourse x first last → CutsAlong x first last → IsBetween first last log → i ≤ x.published log → TellsFronts (tree_after x log) (x.store i) (x.repo i).changesets }
{
    linked_fronts_are_counted();
}

/// Nor does it matter for an inline index at which moments the items are read, each entry whole: the bytes of the front are the
/// same at each of them, and an entry right behind it is linked to a later changeset.
pub fn writers_logs_end_by_links()
    ensures { (h : WritersLog) (first last : List Op) → IsPrefixOf last h.log → EndsAlong (course_of h) first last }
{
    legal_logs_are_writers_logs();
    writers_logs_are_courses();
    stores_end_by_links();
    numbers_rise();
}

/// A separate index may also be read in pieces of whole entries, each at a moment of its own, on from where a repository was
/// published: where the pieces reach as far as its front, the entries counted by their links are that front.
pub fn entries_of_moments_are_counted()
    ensures manifest { (x : Course) (first last : List Op) (i : ℕ) (bytes : List ℕ) → IsCourse x first last → CutsAlong x first last → i ≤ x.published first → AreEntriesAlong x first last manifest_index bytes → 64 * length (history (x.repo i).changesets).manifest ≤ length bytes →
        linked_front (length bytes) (length (x.repo i).changesets) bytes ≡ length (history (x.repo i).changesets).manifest }
    ensures filelogs { (x : Course) (first last : List Op) (i : ℕ) (path bytes : List ℕ) → IsCourse x first last → CutsAlong x first last → i ≤ x.published first → uses (x.repo i).changesets path ≡ true → AreEntriesAlong x first last (store_name path I) bytes → 64 * length ((history (x.repo i).changesets).filelog path) ≤ length bytes →
        linked_front (length bytes) (length (x.repo i).changesets) bytes ≡ length ((history (x.repo i).changesets).filelog path) }
{
    linked_fronts_are_counted();
}
