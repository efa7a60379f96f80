// Whether a path may come behind others in a tree.
ghost use Rattle.std.specs.Prelude.{◌≡◌, true};
ghost use Rattle.hgs_bytes.specs.Bytes.{among};
ghost use Rattle.hgs_bytes.specs.Text.{ascends};
ghost use Rattle.hgs_model.specs.Valid.{new_paths};
ghost use Rattle.hgs_input.specs.Read.{fits_behind};
ghost use Rattle.hgs_input.specs.View.{IsTree, common};

use hgs_bytes::parts::{below, front, past, starts};
use hgs_model::files::NewFile;

// How many bytes two texts begin with that are the same.
fn common(a: &[u8], b: &[u8]) -> usize
    ensures { result ≡ common a.now b.now }
{
    let mut count = 0;
    while count < a.len() && count < b.len() && a[count] == b[count] {
        count += 1;
    }
    count
}

// Whether one of the files, whose paths ascend, has this path. The time is that of a search in halves.
fn has_path(files: &[NewFile], path: &[u8]) -> bool
    requires { ascends (new_paths files.now) ≡ true }
    ensures { result ≡ among path.now (new_paths files.now) }
{
    files
        .binary_search_by(|file| file.path.as_slice().cmp(path))
        .is_ok()
}

/// Whether a path may come behind the paths of these files.
///
/// The paths that stand between a directory and what is in it all begin with its name. So just one earlier path can be a
/// directory of this one: what it has in common with the last.
pub(crate) fn fits_behind(files: &[NewFile], path: &[u8]) -> bool
    requires { IsTree files.now }
    ensures { result ≡ fits_behind (new_paths files.now) path.now }
{
    let Some(last) = files.last() else {
        return true;
    };
    let last = last.path.as_slice();
    let count = common(last, path);
    below(last, path) && !(starts(past(path, count), b"/") && has_path(files, front(path, count)))
}
