//! What the definitions of this crate imply. Each function is one law; none does anything.
ghost use Rattle.std.specs.Prelude.{◌≡◌, ◌≤◌, ◌*◌, ℕ, List, Some, length, slice_get, take};
ghost use Rattle.hgs_bytes.specs.Bytes.{IsPrefixOf};
ghost use Rattle.hgs_index.specs.Either.{BeginsEither, HoldsEither};
ghost use Rattle.hgs_index.specs.Inline.{index_apart};
ghost use Rattle.hgs_index.specs.Revision.{Revision};
ghost use Rattle.hgs_links.specs.Fronts.{EndsByLink, IsCutByLinks, IsOfMoments, linked_front};
ghost use Rattle.hgs_links.specs.Links.{IsParted, LinksAscend, LinksBelow, linked_below};
ghost use Rattle.hgs_model.specs.History.{history};
ghost use Rattle.hgs_model.specs.IsRepo.{IsRepo};
ghost use Rattle.hgs_model.specs.Repo.{Changeset, Repo};

/// In the changelog, in the manifest and in each filelog of a list of changesets a later revision has a greater link.
pub fn links_ascend()
    ensures changelog { (changesets : List Changeset) → LinksAscend (history changesets).changelog }
    ensures manifest { (changesets : List Changeset) → LinksAscend (history changesets).manifest }
    ensures filelogs { (changesets : List Changeset) (path : List ℕ) → LinksAscend ((history changesets).filelog path) }
{}

/// Each link is the number of one of the changesets; in a repository a changeset's own revision has its number.
pub fn links_are_of_changesets()
    ensures changelog { (changesets : List Changeset) → LinksBelow (history changesets).changelog (length changesets) }
    ensures manifest { (changesets : List Changeset) → LinksBelow (history changesets).manifest (length changesets) }
    ensures filelogs { (changesets : List Changeset) (path : List ℕ) → LinksBelow ((history changesets).filelog path) (length changesets) }
    ensures own { (r : Repo) (rev : ℕ) (revision : Revision) → IsRepo r → slice_get (history r.changesets).changelog rev ≡ Some revision → revision.link ≡ rev }
{}

/// The revisions with a link below a number are exactly, in their order, those of the first so many changesets.
pub fn links_tell_fronts()
    ensures changelog { (changesets : List Changeset) (count : ℕ) → linked_below count (history changesets).changelog ≡ (history (take count changesets)).changelog }
    ensures manifest { (changesets : List Changeset) (count : ℕ) → linked_below count (history changesets).manifest ≡ (history (take count changesets)).manifest }
    ensures filelogs { (changesets : List Changeset) (count : ℕ) (path : List ℕ) → linked_below count ((history changesets).filelog path) ≡ (history (take count changesets)).filelog path }
{}

/// So where a history goes on, its own revisions are those with a link below its count of changesets, and they stand in front.
pub fn links_part_histories()
    ensures changelog { (front all : List Changeset) → IsPrefixOf front all → IsParted (history all).changelog (length front) (length (history front).changelog) }
    ensures manifest { (front all : List Changeset) → IsPrefixOf front all → IsParted (history all).manifest (length front) (length (history front).manifest) }
    ensures filelogs { (front all : List Changeset) (path : List ℕ) → IsPrefixOf front all → IsParted ((history all).filelog path) (length front) (length ((history front).filelog path)) }
{}

/// In a front of an index that holds revisions, in either form, each whole entry has the link of its revision. So where the
/// revisions are parted, and the entries of the first ones stand in the front, links cut it there; all stand in each index that begins
/// with what holds them.
pub fn fronts_are_cut_by_links()
    ensures cut { (front index data_bytes : List ℕ) (revisions : List Revision) (changesets first : ℕ) → HoldsEither index data_bytes revisions → IsPrefixOf front index → IsParted revisions changesets first → 64 * first ≤ length (index_apart front) → IsCutByLinks (index_apart front) changesets first }
    ensures there { (index data_bytes : List ℕ) (revisions : List Revision) → BeginsEither index data_bytes revisions → 64 * length revisions ≤ length (index_apart index) }
{}

/// Where one index holds some revisions, and goes on in a front of another that holds more, parted there, a whole entry right behind
/// what the first one has carries a later link, in either form. So whoever goes from item to item, and reads each entry whole,
/// stops where the first ones end.
pub fn fronts_end_by_links()
    ensures { (front index whole data_bytes other_data : List ℕ) (changesets : ℕ) (some all : List Revision) → HoldsEither front data_bytes some → IsPrefixOf front index → IsPrefixOf index whole → HoldsEither whole other_data all → IsParted all changesets (length some) → EndsByLink front index changesets }
{}

/// Whoever counts entries from the first on while they carry a link below the number of changesets counts exactly the front. So
/// it is where the entries are read at several moments, each of them whole.
pub fn linked_fronts_are_counted()
    ensures counted { (index : List ℕ) (changesets first : ℕ) → IsCutByLinks index changesets first → linked_front (length index) changesets index ≡ first }
    ensures moments { (bytes : List ℕ) (changesets first : ℕ) → IsOfMoments bytes changesets first → IsCutByLinks bytes changesets first }
{}
