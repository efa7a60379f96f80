//! A load as a machine that asks for one read after another.
ghost use Rattle.std.specs.Prelude.{◌≡◌};
ghost use Rattle.hgs_bytes.specs.Answer.{Gives};
ghost use Rattle.hgs_load.specs.Answer.{is_of_outside, NeverFaults};
ghost use Rattle.hgs_load.specs.Marks.{dirstate_path, nodes_of};
ghost use Rattle.hgs_load.specs.Open.{view_of};

use crate::answer::ReadAnswer;
use crate::loaded::Loaded;
use crate::marks::{WorkingNodes, working_parents_of};
use crate::paths::{ChangelogPaths, LoadPaths};
use crate::pieces::IndexLoad;
use crate::whole::{
    MOST_BOOKMARKS_TEXT, MOST_DIRSTATE, MOST_REQUIRES, MOST_ROOTS, take_bookmarks, take_nodes,
    take_requirements, take_roots,
};
use hgs_files::path::StorePath;
use hgs_marks::bookmarks::Bookmarks;
use hgs_phases::roots::Roots;
use hgs_revlog::revlog::Revlog;
use std::alloc::{AllocError, Global};
use std::mem;

/// What a load asks for next.
#[derive(Drop)]
pub enum LoadNext<'a> {
    /// At most `most` bytes of a file from byte `from` on.
    Read {
        path: &'a StorePath,
        from: u64,
        most: u64,
    },
    End,
}

// What was read, as what was loaded. The path is that of the file that names the working parents.
fn loaded_of(
    alloc: Global,
    path: &StorePath,
    bookmarks: Bookmarks,
    nodes: &WorkingNodes,
    log: Revlog,
    roots: &Roots,
) -> Result<Loaded, ReadAnswer>
    requires { path.now ≡ dirstate_path }
    ensures loaded { Gives is_of_outside (λ loaded. loaded) result (view_of bookmarks (nodes_of nodes.now) log roots.now) }
    ensures inner { NeverFaults result }
{
    let working = match working_parents_of(alloc, path, &log, nodes) {
        Ok(working) => working,
        Err(refusal) => return Err(refusal),
    };
    let phases = roots.phases_of(alloc, &log)?;
    Ok(Loaded::of(log, bookmarks, working, phases))
}

/// A load under way: what was read so far, and what was loaded once all was.
#[derive(Drop)]
pub struct LoadMachine {
    alloc: Global,
    paths: LoadPaths,
    changelog: ChangelogPaths,
    required: bool,
    bookmarks: Option<Bookmarks>,
    nodes: Option<WorkingNodes>,
    index: IndexLoad,
    loaded: Option<Loaded>,
}

impl LoadMachine {
    ghost use Rattle.std.specs.Prelude.{◌≡◌, ◌<◌, IfOk, OnOk, Ok, Option, None, true, false, is_some};
    ghost use Rattle.std.specs.Option.{option_copied};
    ghost use Rattle.hgs_load.specs.Answer.{NeverFaults};
    ghost use Rattle.hgs_load.specs.Asks.{answer};
    ghost use Rattle.hgs_load.specs.Load.{asks_of, reads_left, index_asks, IsNext, AsksFor, Feeds, HasEnded};
    ghost use Rattle.hgs_load.specs.Open.{open_asks};
    ghost use Rattle.hgs_load.specs.Refresh.{refresh_asks};

    /// A load that has read nothing.
    pub fn open(alloc: Global) -> Result<LoadMachine, AllocError>
        ensures asks { IfOk result (λ machine. asks_of machine ≡ open_asks) }
    {
        Ok(LoadMachine {
            alloc,
            paths: LoadPaths::new(alloc)?,
            changelog: ChangelogPaths::new(alloc)?,
            required: false,
            bookmarks: None,
            nodes: None,
            index: IndexLoad::new(alloc),
            loaded: None,
        })
    }

    /// A load of what has changed since an older one. It does not read `requires` again, and is refused where the history does
    /// not begin with the older one, as soon as its index was read.
    pub fn refresh(alloc: Global, old: &Loaded) -> Result<LoadMachine, AllocError>
        ensures asks { IfOk result (λ machine. asks_of machine ≡ refresh_asks old.now) }
    {
        Ok(LoadMachine {
            alloc,
            paths: LoadPaths::new(alloc)?,
            changelog: ChangelogPaths::new(alloc)?,
            required: true,
            bookmarks: None,
            nodes: None,
            index: IndexLoad::behind(alloc, old.changelog())?,
            loaded: None,
        })
    }

    // What is asked for where only the changelog's index and the phase roots are left.
    fn next_late(&self) -> LoadNext<'_>
        requires required { self.now.required ≡ true }
        requires bookmarks { is_some self.now.bookmarks ≡ true }
        requires nodes { is_some self.now.nodes ≡ true }
        requires loaded { self.now.loaded ≡ None }
        ensures { IsNext (asks_of self.now) result }
    {
        match self.index.log() {
            Some(_) => LoadNext::Read {
                path: self.paths.roots(),
                from: 0,
                most: MOST_ROOTS + 1,
            },
            None => LoadNext::Read {
                path: self.changelog.index(),
                from: self.index.place(),
                most: self.index.most(),
            },
        }
    }

    // What is asked for where `requires` has been read.
    fn next_part(&self) -> LoadNext<'_>
        requires required { self.now.required ≡ true }
        requires loaded { self.now.loaded ≡ None }
        ensures { IsNext (asks_of self.now) result }
    {
        if self.bookmarks.is_none() {
            return LoadNext::Read {
                path: self.paths.bookmarks(),
                from: 0,
                most: MOST_BOOKMARKS_TEXT + 1,
            };
        }
        if self.nodes.is_none() {
            return LoadNext::Read {
                path: self.paths.dirstate(),
                from: 0,
                most: MOST_DIRSTATE + 1,
            };
        }
        self.next_late()
    }

    /// What the load asks for next. Takes no memory.
    pub fn next(&self) -> LoadNext<'_>
        ensures { IsNext (asks_of self.now) result }
    {
        if self.loaded.is_some() {
            return LoadNext::End;
        }
        if !self.required {
            return LoadNext::Read {
                path: self.paths.requires_file(),
                from: 0,
                most: MOST_REQUIRES + 1,
            };
        }
        self.next_part()
    }

    fn feed_requires(&mut self, part: Option<&[u8]>) -> Result<(), ReadAnswer>
        requires required { self.old.required ≡ false }
        requires loaded { self.old.loaded ≡ None }
        ensures fed { Feeds (asks_of self.old) (option_copied part.entry) (asks_of self.new) result }
        ensures fewer { OnOk result (reads_left self.new < reads_left self.old) }
        ensures inner { NeverFaults result }
    {
        match take_requirements(self.alloc, part) {
            Ok(()) => {
                self.required = true;
                Ok(())
            }
            Err(refusal) => Err(refusal),
        }
    }

    fn feed_bookmarks(&mut self, part: Option<&[u8]>) -> Result<(), ReadAnswer>
        requires required { self.old.required ≡ true }
        requires bookmarks { self.old.bookmarks ≡ None }
        requires loaded { self.old.loaded ≡ None }
        ensures fed { Feeds (asks_of self.old) (option_copied part.entry) (asks_of self.new) result }
        ensures fewer { OnOk result (reads_left self.new < reads_left self.old) }
        ensures inner { NeverFaults result }
    {
        match take_bookmarks(self.alloc, self.paths.bookmarks(), part) {
            Ok(bookmarks) => {
                self.bookmarks = Some(bookmarks);
                Ok(())
            }
            Err(refusal) => Err(refusal),
        }
    }

    fn feed_dirstate(&mut self, part: Option<&[u8]>) -> Result<(), ReadAnswer>
        requires required { self.old.required ≡ true }
        requires bookmarks { is_some self.old.bookmarks ≡ true }
        requires nodes { self.old.nodes ≡ None }
        requires loaded { self.old.loaded ≡ None }
        ensures fed { Feeds (asks_of self.old) (option_copied part.entry) (asks_of self.new) result }
        ensures fewer { OnOk result (reads_left self.new < reads_left self.old) }
        ensures inner { NeverFaults result }
    {
        match take_nodes(self.alloc, self.paths.dirstate(), part) {
            Ok(nodes) => {
                self.nodes = Some(nodes);
                Ok(())
            }
            Err(refusal) => Err(refusal),
        }
    }

    fn feed_index(&mut self, part: Option<&[u8]>) -> Result<(), ReadAnswer>
        requires required { self.old.required ≡ true }
        requires bookmarks { is_some self.old.bookmarks ≡ true }
        requires nodes { is_some self.old.nodes ≡ true }
        requires loaded { self.old.loaded ≡ None }
        requires asked { AsksFor (index_asks self.old.index) (option_copied part) }
        ensures fed { Feeds (asks_of self.old) (option_copied part.entry) (asks_of self.new) result }
        ensures fewer { OnOk result (reads_left self.new < reads_left self.old) }
        ensures inner { NeverFaults result }
    {
        self.index.feed(self.changelog.index(), part)
    }

    fn feed_roots(&mut self, part: Option<&[u8]>) -> Result<(), ReadAnswer>
        requires required { self.old.required ≡ true }
        requires bookmarks { is_some self.old.bookmarks ≡ true }
        requires nodes { is_some self.old.nodes ≡ true }
        requires loaded { self.old.loaded ≡ None }
        requires whole { is_some self.old.index.log ≡ true }
        ensures fed { Feeds (asks_of self.old) (option_copied part.entry) (asks_of self.new) result }
        ensures fewer { OnOk result (reads_left self.new < reads_left self.old) }
        ensures inner { NeverFaults result }
    {
        let roots = match take_roots(self.alloc, self.paths.roots(), part) {
            Ok(roots) => roots,
            Err(refusal) => return Err(refusal),
        };
        let Some(nodes) = self.nodes else {
            unreachable!()
        };
        let Some(bookmarks) = self.bookmarks.take() else {
            unreachable!()
        };
        let log = mem::replace(&mut self.index, IndexLoad::new(self.alloc)).take();
        match loaded_of(
            self.alloc,
            self.paths.dirstate(),
            bookmarks,
            &nodes,
            log,
            &roots,
        ) {
            Ok(loaded) => {
                self.loaded = Some(loaded);
                Ok(())
            }
            Err(refusal) => Err(refusal),
        }
    }

    // Takes a part of the changelog's index, or the phase roots.
    fn feed_late(&mut self, part: Option<&[u8]>) -> Result<(), ReadAnswer>
        requires required { self.old.required ≡ true }
        requires bookmarks { is_some self.old.bookmarks ≡ true }
        requires nodes { is_some self.old.nodes ≡ true }
        requires loaded { self.old.loaded ≡ None }
        requires asked { AsksFor (asks_of self.old) (option_copied part) }
        ensures fed { Feeds (asks_of self.old) (option_copied part.entry) (asks_of self.new) result }
        ensures fewer { OnOk result (reads_left self.new < reads_left self.old) }
        ensures inner { NeverFaults result }
    {
        if self.index.is_whole() {
            return self.feed_roots(part);
        }
        self.feed_index(part)
    }

    /// Takes the bytes that were read where `next` asked, none where the file isn't there.
    ///
    /// A refused machine is of no more use.
    pub fn feed(&mut self, part: Option<&[u8]>) -> Result<(), ReadAnswer>
        requires { AsksFor (asks_of self.old) (option_copied part) }
        ensures fed { Feeds (asks_of self.old) (option_copied part.entry) (asks_of self.new) result }
        ensures fewer { OnOk result (reads_left self.new < reads_left self.old) }
        ensures inner { NeverFaults result }
    {
        if !self.required {
            return self.feed_requires(part);
        }
        if self.bookmarks.is_none() {
            return self.feed_bookmarks(part);
        }
        if self.nodes.is_none() {
            return self.feed_dirstate(part);
        }
        self.feed_late(part)
    }

    /// What was loaded by a load that has ended. Takes no memory.
    pub fn take(self) -> Loaded
        requires { HasEnded (asks_of self) }
        ensures { asks_of self ≡ answer (Ok result) }
    {
        let LoadMachine {
            alloc: _,
            paths: _,
            changelog: _,
            required: _,
            bookmarks: _,
            nodes: _,
            index: _,
            loaded,
        } = self;
        match loaded {
            Some(loaded) => loaded,
            None => unreachable!(),
        }
    }
}
