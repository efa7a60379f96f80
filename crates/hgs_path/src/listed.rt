//! The names that `fncache` lists, and their files.
ghost use Rattle.std.specs.Prelude.{◌≡◌, true, IfOk, codes, if◌then◌else◌};
ghost use Rattle.hgs_bytes.specs.Answer.{Gives};
ghost use Rattle.hgs_path.specs.declared.name.Ext.{Ext as NameExt};
ghost use Rattle.hgs_path.specs.Fncache.{is_memory};
ghost use Rattle.hgs_path.specs.ListedNames.{is_listed, listed_file, names_of};
ghost use Rattle.hgs_path.specs.StoreName.{ends_in};

use crate::fncache::{FncacheFault, is_listed};
use crate::name::{Ext, path_of};
use crate::parts::ends;
use hgs_bytes::bytes::Bytes;
use hgs_bytes::names::Names;
use hgs_bytes::parts::next_line;
use hgs_files::path::StorePath;
use std::alloc::{AllocError, Global};

/// The names that a text lists, in its order, or the first line that is none, as `Fncache::read` finds it.
pub fn listed_names(alloc: Global, bytes: &[u8]) -> Result<Names, FncacheFault>
    ensures { Gives is_memory (λ names. names) result (names_of bytes.now) }
{
    let mut names = Names::new(alloc);
    let mut rest = bytes;
    let mut number: u64 = 1;
    while !rest.is_empty() {
        let (name, is_whole, behind) = next_line(rest);
        if !is_whole || !is_listed(name) {
            return Err(FncacheFault::Line(number));
        }
        names.push(Bytes::from_slice(alloc, name)?)?;
        number += 1;
        rest = behind;
    }
    Ok(names)
}

fn ext_of(name: &[u8]) -> Ext
    ensures { result ≡ (if ends_in name.now (codes ".i") then NameExt.I else NameExt.D) }
{
    if ends(name, b".i") { Ext::I } else { Ext::D }
}

/// The path of a listed name's file.
pub fn listed_file(alloc: Global, name: &[u8]) -> Result<StorePath, AllocError>
    requires { is_listed name.now ≡ true }
    ensures { IfOk result (λ path. path ≡ listed_file name.now) }
{
    path_of(alloc, name, ext_of(name))
}
