//! A part of the files, which several states of them have together.
ghost use Rattle.std.specs.Prelude.{◌≡◌, IfOk, OnOk, Some, None, option_copied};
ghost use Rattle.hgs_files.specs.Tree.{with_file};
ghost use Rattle.hgs_mem.specs.Shard.{files_of, files_in, no_files};

use crate::content::Content;
use hgs_files::path::StorePath;
use std::alloc::{AllocError, Global};
use std::collections::BTreeMap;
use std::sync::Arc;

/// Some files, with several owners, which nobody changes. A copy takes no memory.
#[derive(Drop)]
pub struct Shard {
    pub(crate) files: Arc<BTreeMap<StorePath, Content>>,
}

fn put(
    files: &mut BTreeMap<StorePath, Content>,
    path: StorePath,
    content: Content,
) -> Result<(), AllocError>
    ensures { OnOk result (files_of files.new ≡ with_file (files_of files.old) path (Some content)) }
{
    files.insert(path, content)?;
    Ok(())
}

fn take(files: &mut BTreeMap<StorePath, Content>, path: &StorePath)
    ensures { files_of files.new ≡ with_file (files_of files.old) path.now None }
{
    files.remove(path);
}

impl Shard {
    pub fn new(alloc: Global) -> Result<Shard, AllocError>
        ensures { IfOk result (λ s. files_in s ≡ no_files) }
    {
        Ok(Shard {
            files: Arc::new(alloc, BTreeMap::new(alloc))?,
        })
    }

    pub fn get(&self, path: &StorePath) -> Option<&Content>
        ensures { option_copied result ≡ files_in self.now path.now }
    {
        self.files.get(path)
    }

    /// Another map of the same files.
    fn copy(&self) -> Result<BTreeMap<StorePath, Content>, AllocError>
        ensures { IfOk result (λ files. files_of files ≡ files_in self.now) }
    {
        BTreeMap::clone(&self.files)
    }

    /// The same with this file.
    pub fn with(
        &self,
        alloc: Global,
        path: StorePath,
        content: Content,
    ) -> Result<Shard, AllocError>
        ensures { IfOk result (λ s. files_in s ≡ with_file (files_in self.now) path (Some content)) }
    {
        let mut files = self.copy()?;
        put(&mut files, path, content)?;
        Ok(Shard {
            files: Arc::new(alloc, files)?,
        })
    }

    /// The same without this file.
    pub fn without(&self, alloc: Global, path: &StorePath) -> Result<Shard, AllocError>
        ensures { IfOk result (λ s. files_in s ≡ with_file (files_in self.now) path.now None) }
    {
        let mut files = self.copy()?;
        take(&mut files, path);
        Ok(Shard {
            files: Arc::new(alloc, files)?,
        })
    }
}

impl Clone for Shard {
    ghost use Rattle.std.specs.Arc.{arc_value};

    ghost is_clone = { λ a b. arc_value b.files ≡ arc_value a.files };

    fn clone(&self) -> Result<Shard, AllocError> {
        Ok(Shard {
            files: Arc::try_clone(&self.files)?,
        })
    }
}
