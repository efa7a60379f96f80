//! The names of a transaction's files, and the paths of names in the store and beside it.
ghost use Rattle.std.specs.Prelude.{◌≡◌, IfOk, true};
ghost use Rattle.hgs_files.specs.Path.{is_store_path};
ghost use Rattle.hgs_journal.specs.Names.{backup_name, new_name, place};

use hgs_files::path;
use hgs_files::path::{StorePath, is_path};
use std::alloc::{AllocError, Global};

/// The bytes of a name's path: the name itself where it is plain, else the name in the store.
pub fn place(alloc: Global, plain: bool, name: &[u8]) -> Result<Vec<u8>, AllocError>
    ensures { IfOk result (λ path. path.items ≡ place plain name.now) }
{
    if plain {
        return Vec::from_slice(alloc, name);
    }
    let mut path = Vec::from_slice(alloc, b"store/")?;
    path.extend_from_slice(name)?;
    Ok(path)
}

/// Whether a name has a path.
pub fn has_path(alloc: Global, plain: bool, name: &[u8]) -> Result<bool, AllocError>
    ensures { IfOk result (λ fits. fits ≡ is_store_path (place plain name.now)) }
{
    Ok(is_path(&place(alloc, plain, name)?))
}

/// The name under which a file's new text is written before it is renamed to the file.
pub fn new_name(alloc: Global, file: &[u8]) -> Result<Vec<u8>, AllocError>
    ensures { IfOk result (λ name. name.items ≡ new_name file.now) }
{
    let mut name = Vec::from_slice(alloc, b"journal.new.")?;
    name.extend_from_slice(file)?;
    Ok(name)
}

/// The name of the backup of a file.
pub fn backup_name(alloc: Global, file: &[u8]) -> Result<Vec<u8>, AllocError>
    ensures { IfOk result (λ name. name.items ≡ backup_name file.now) }
{
    let mut name = Vec::from_slice(alloc, b"journal.backup.")?;
    name.extend_from_slice(file)?;
    Ok(name)
}

/// The path of a name that has one.
pub fn path_of(alloc: Global, plain: bool, name: &[u8]) -> Result<StorePath, AllocError>
    requires { is_store_path (place plain name.now) ≡ true }
    ensures { IfOk result (λ path. path ≡ place plain name.now) }
{
    path::path_of(alloc, &place(alloc, plain, name)?)
}
