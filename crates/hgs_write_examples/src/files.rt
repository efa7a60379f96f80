//! Files of the examples, each step by one call.
use crate::given::given;
use hgs_files::files::Files;
use hgs_files::path::StorePath;
use hgs_mem::mem::MemFiles;
use std::alloc::Global;
use std::test::Fail;

/// The path of this name.
pub(crate) fn store_path(alloc: Global, name: &[u8]) -> Result<StorePath, Fail> {
    given(StorePath::new(alloc, name))
}

/// Gives a file these bytes alone.
pub(crate) fn put(
    alloc: Global,
    files: &mut MemFiles,
    name: &[u8],
    bytes: &[u8],
) -> Result<(), Fail> {
    let path = store_path(alloc, name)?;
    given(files.put(&path, bytes))?;
    Ok(())
}
