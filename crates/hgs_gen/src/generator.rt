//! One new changeset after another.
ghost use Rattle.std.specs.Prelude.{◌≡◌, ◌≤◌, ◌++◌, ◌*◌, pos, ℕ, List, false, length, take, drop, slice_get, codes, decimal, IfOk, IfSome};
ghost use Rattle.hgs_bytes.specs.Bytes.{is_below};
ghost use Rattle.hgs_gen.specs.Generated.{path_of, text_of, with_text, parents_of, next_number, change_of};

use hgs_bytes::bytes::Bytes;
use hgs_bytes::names::Names;
use hgs_index::kinds::Flag;
use hgs_model::command::NewChange;
use hgs_model::files::{NewFile, NewFiles};
use hgs_model::phase::Phase;
use itoa::Buffer;
use std::alloc::{AllocError, Global};

/// Where a generator stands: its number, and how many changesets it has given.
#[derive(Clone, Copy, Debug, PartialEq, Eq)]
pub struct Generator {
    pub number: u64,
    pub made: u32,
}

// Adds the decimal digits of a number.
fn push_number(into: &mut Vec<u8>, number: u64) -> Result<(), AllocError>
    ensures { IfOk result (λ x. into.new.items ≡ into.old.items ++ decimal number) }
{
    into.extend_from_slice(Buffer::new().format(number).as_bytes())?;
    Ok(())
}

// The path of the file that a number names.
fn path_of(alloc: Global, number: u64) -> Result<Bytes, AllocError>
    ensures { IfOk result (λ path. path ≡ path_of number) }
{
    let mut path = Vec::from_slice(alloc, b"d")?;
    push_number(&mut path, (number >> 33) % 10)?;
    path.extend_from_slice(b"/f")?;
    push_number(&mut path, (number >> 40) % 20)?;
    Ok(Bytes::from_vec(path))
}

// The text that a changeset gives it.
fn text_of(alloc: Global, made: u32, number: u64) -> Result<Bytes, AllocError>
    ensures { IfOk result (λ text. text ≡ text_of made number) }
{
    let mut text = Vec::new(alloc);
    push_number(&mut text, made as u64)?;
    text.push(b' ')?;
    push_number(&mut text, number)?;
    text.push(b'\n')?;
    Ok(Bytes::from_vec(text))
}

// The changeset before, by its number.
fn parents_of(alloc: Global, made: u32) -> Result<Names, AllocError>
    ensures { IfOk result (λ names. names ≡ parents_of made) }
{
    let mut names = Names::new(alloc);
    if made > 0 {
        let mut name = Vec::new(alloc);
        push_number(&mut name, made as u64 - 1)?;
        names.push(Bytes::from_vec(name))?;
    }
    Ok(names)
}

fn description_of(alloc: Global, made: u32) -> Result<Bytes, AllocError>
    ensures { IfOk result (λ text. text ≡ codes "c" ++ decimal made) }
{
    let mut text = Vec::from_slice(alloc, b"c")?;
    push_number(&mut text, made as u64)?;
    Ok(Bytes::from_vec(text))
}

// How many files at the front stand before a path.
fn place_of(files: &[NewFile], path: &Bytes) -> usize
    ensures fits { result ≤ length files.now }
    ensures passed { (text : List ℕ) → with_text path.now text files.now ≡ take result files.now ++ with_text path.now text (drop result files.now) }
    ensures ends { IfSome (slice_get files.now result) (λ f. is_below f.path path.now ≡ false) }
{
    let mut at = 0;
    while at < files.len() && files[at].path < *path {
        at += 1;
    }
    at
}

// Puts a text at its path among files in the order of paths.
fn with_text(mut files: Vec<NewFile>, path: Bytes, body: Bytes) -> Result<Vec<NewFile>, AllocError>
    ensures { IfOk result (λ all. all.items ≡ with_text path body files.items) }
{
    let at = place_of(&files, &path);
    let stands = at < files.len() && files[at].path == path;
    let file = NewFile {
        path,
        flag: Flag::Plain,
        from: None,
        body,
    };
    if stands {
        files[at] = file;
    } else {
        files.insert(at, file)?;
    }
    Ok(files)
}

// The number after this one.
fn next_number(number: u64) -> u64
    ensures { result ≡ next_number number }
{
    number
        .wrapping_mul(6_364_136_223_846_793_005)
        .wrapping_add(1_442_695_040_888_963_407)
}

// A minute for each changeset before.
fn seconds_of(made: u32) -> i64
    ensures { result ≡ pos (60 * made) }
{
    60 * made as i64
}

// The changeset behind so many others, with this tree.
fn change_of(alloc: Global, made: u32, files: NewFiles) -> Result<NewChange, AllocError>
    ensures { IfOk result (λ c. c ≡ change_of made files) }
{
    Ok(NewChange {
        parents: parents_of(alloc, made)?,
        user: Bytes::from_slice(alloc, b"gen")?,
        seconds: seconds_of(made),
        offset: 0,
        phase: Phase::Draft,
        bookmark: None,
        branch: None,
        description: description_of(alloc, made)?,
        files,
    })
}

impl Generator {
    ghost use Rattle.std.specs.Prelude.{◌≡◌, ◌<◌, ◌+◌, ◌^◌, IfOk};
    ghost use Rattle.hgs_gen.specs.Generated.{next_number, path_of, text_of, with_text, change_of};

    /// The generator that has given nothing.
    pub fn new(seed: u64) -> Generator
        ensures { result ≡ record { number = seed; made = 0 } }
    {
        Generator {
            number: seed,
            made: 0,
        }
    }

    /// The next changeset, over the files of the one before.
    pub fn next(&mut self, alloc: Global, files: NewFiles) -> Result<NewChange, AllocError>
        requires { self.old.made + 1 < 2 ^ 32 }
        ensures number { self.new.number ≡ next_number self.old.number }
        ensures made { self.new.made ≡ self.old.made + 1 }
        ensures change { IfOk result (λ c. c ≡ change_of self.old.made (with_text (path_of self.new.number) (text_of self.old.made self.new.number) files)) }
    {
        let made = self.made;
        self.number = next_number(self.number);
        self.made = made + 1;
        let path = path_of(alloc, self.number)?;
        let text = text_of(alloc, made, self.number)?;
        let files = with_text(files.into_vec(), path, text)?;
        change_of(alloc, made, NewFiles::from_vec(files))
    }
}
