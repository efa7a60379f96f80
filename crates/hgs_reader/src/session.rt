//! A session: what was loaded of a repository, and the questions that it answers.

use crate::contents::{add_file, add_files, manifest_of};
use crate::heads::heads_of;
use crate::line::line_of;
use crate::names::revision_named;
use crate::refusal::of_change;
use crate::shown::{mark_lines, parent_lines};
use hgs_changelog::text::ChangeText;
use hgs_files::files::Reads;
use hgs_files::path::StorePath;
use hgs_load::answer::ReadAnswer;
use hgs_load::ask::{bytes_of, read_part};
use hgs_load::loaded::Loaded;
use hgs_load::paths::ChangelogPaths;
use hgs_load::refusal::of_revlog;
use hgs_load::step::{load, load_again};
use hgs_manifest::manifest::Manifest;
use hgs_model::phase::Phase;
use std::alloc::{AllocError, Global};
use std::marker::Model;

/// What was loaded of a repository. Contracts see it as the history that it holds.
#[derive(Drop)]
pub struct Session {
    alloc: Global,
    paths: ChangelogPaths,
    loaded: Loaded,
}

impl Model for Session {
    ghost use Rattle.hgs_load.specs.View.{View};

    ghost Value = { View };

    ghost view = { λ s. s.loaded };
}

impl Session {
    ghost use Rattle.std.specs.Prelude.{◌≡◌, ◌<◌, ◌≤◌, ◌++◌, true, length, slice_get, Some, IfOk, IfSome, OnOk, OnErr};
    ghost use Rattle.hgs_bytes.specs.Answer.{Gives};
    ghost use Rattle.hgs_bytes.specs.Bytes.{IsPrefixOf};
    ghost use Rattle.hgs_files.specs.Reads.{Grows};
    ghost use Rattle.hgs_changelog.specs.View.{view_change};
    ghost use Rattle.hgs_load.specs.Answer.{is_of_outside, HasFaultCause, NeverFaults};
    ghost use Rattle.hgs_load.specs.Asks.{Answers, AddsAnswer};
    ghost use Rattle.hgs_load.specs.Beyond.{AnswersBeyond, IsShown, RefreshesBeyond};
    ghost use Rattle.hgs_load.specs.Given.{Takes, TakesText, TakesView};
    ghost use Rattle.hgs_reader.specs.Contents.{tree_asks, files_asks, cat_asks};
    ghost use Rattle.hgs_reader.specs.Heads.{heads_text};
    ghost use Rattle.hgs_reader.specs.Line.{change_at, change_asks, chunks_path, line_at, line_asks};
    ghost use Rattle.hgs_load.specs.Load.{Refreshes};
    ghost use Rattle.hgs_load.specs.Refresh.{refresh_asks, GivenFew};
    ghost use Rattle.hgs_reader.specs.Names.{named};
    ghost use Rattle.hgs_load.specs.Open.{open_asks};
    ghost use Rattle.hgs_reader.specs.Shown.{marks_text, parents_text};

    /// The session over what was loaded.
    pub fn of(alloc: Global, loaded: Loaded) -> Result<Session, AllocError>
        ensures { IfOk result (λ session. session ≡ loaded) }
    {
        Ok(Session {
            alloc,
            paths: ChangelogPaths::new(alloc)?,
            loaded,
        })
    }

    /// What was loaded.
    pub fn loaded(&self) -> &Loaded
        ensures { result.now ≡ self.now }
    {
        &self.loaded
    }

    /// Loads the repository that the files hold, which others may change meanwhile.
    pub fn open<R: Reads>(alloc: Global, files: &mut R) -> Result<Session, ReadAnswer>
        ensures answer { Answers (λ session. session) (R.seen files.old) (R.start files.old) (R.seen files.new) open_asks result }
        ensures given { Takes (λ session. session) (R.given files.old) (R.given files.new) (R.seen files.old) (R.start files.old) (R.seen files.new) open_asks result }
        ensures seen { Grows (R.seen files.old) (R.seen files.new) }
        ensures same_start { R.start files.new ≡ R.start files.old }
        ensures still { R.alone ≡ true → R.seen files.new ≡ R.seen files.old }
        ensures same_ties { R.ties files.new ≡ R.ties files.old }
        ensures shown { IsShown R.shows (R.start files.old) (R.seen files.old) → IsShown R.shows (R.start files.new) (R.seen files.new) }
        ensures beyond { AnswersBeyond (λ session. session) (R.ties files.old).told (R.seen files.old) (R.start files.old) (R.seen files.new) open_asks result }
        ensures cause { HasFaultCause (R.faults files.old) (R.faults files.new) (R.denied files.old) (R.denied files.new) result }
    {
        let paths = ChangelogPaths::new(alloc)?;
        match load(alloc, files) {
            Ok(loaded) => Ok(Session {
                alloc,
                paths,
                loaded,
            }),
            Err(refusal) => Err(refusal),
        }
    }

    /// Loads again what may have changed, which is all but `requires`, and of the changelog's index what stands from the last
    /// loaded entry on, or the whole where it was inline. A refusal changes nothing; it is damage of the changelog where the history does not begin with the one
    /// that was loaded.
    pub fn refresh<R: Reads>(&mut self, files: &mut R) -> Result<(), ReadAnswer>
        ensures answer { Refreshes (R.seen files.old) (R.start files.old) (R.seen files.new) (refresh_asks self.old) self.old self.new result }
        ensures given { TakesView (R.given files.old) (R.given files.new) (R.seen files.old) (R.start files.old) (R.seen files.new) (refresh_asks self.old) self.new result }
        ensures front { OnOk result (IsPrefixOf self.old.changelog.entries self.new.changelog.entries) }
        ensures few { OnOk result (GivenFew R.alone (R.given files.old) (R.given files.new) (R.seen files.old) (R.start files.old) self.old self.new) }
        ensures seen { Grows (R.seen files.old) (R.seen files.new) }
        ensures same_start { R.start files.new ≡ R.start files.old }
        ensures still { R.alone ≡ true → R.seen files.new ≡ R.seen files.old }
        ensures same_ties { R.ties files.new ≡ R.ties files.old }
        ensures shown { IsShown R.shows (R.start files.old) (R.seen files.old) → IsShown R.shows (R.start files.new) (R.seen files.new) }
        ensures beyond { RefreshesBeyond (R.ties files.old).told (R.seen files.old) (R.start files.old) (R.seen files.new) (refresh_asks self.old) self.new result }
        ensures cause { HasFaultCause (R.faults files.old) (R.faults files.new) (R.denied files.old) (R.denied files.new) result }
    {
        match load_again(self.alloc, files, &self.loaded) {
            Ok(loaded) => {
                self.loaded = loaded;
                Ok(())
            }
            Err(refusal) => Err(refusal),
        }
    }

    /// How many changesets the history has.
    pub fn len(&self) -> u32
        ensures { result ≡ length self.now.changelog.entries }
    {
        self.loaded.changelog().len()
    }

    /// The revision that a name names: `.` the first working parent, `tip` the last changeset, a decimal number without
    /// needless zeros itself, 40 lower-case hex digits the changeset with that node, a bookmark its changeset, tried in this
    /// order. `null` names none, and so does a bookmark of an unknown node. The time is that of a search among the nodes.
    pub fn resolve(&self, name: &[u8]) -> Option<u32>
        ensures named { result ≡ named self.now name.now }
        ensures below { IfSome result (λ rev. rev < length self.now.changelog.entries) }
    {
        revision_named(
            self.loaded.changelog(),
            self.loaded.bookmarks(),
            self.loaded.working().first,
            name,
        )
    }

    /// The file in which the chunks of the changesets stand.
    pub fn chunks(&self) -> &StorePath
        ensures { result.now ≡ chunks_path self.now.changelog.inline }
    {
        if self.loaded.changelog().is_inline() {
            self.paths.index()
        } else {
            self.paths.chunks()
        }
    }

    /// The changeset of a revision whose chunk was read.
    pub fn change_from(&self, rev: u32, chunk: &[u8]) -> Result<ChangeText, ReadAnswer>
        requires stands { rev < length self.now.changelog.entries }
        requires within { IfSome (slice_get self.now.changelog.entries rev) (λ e. length chunk.now ≤ e.stored) }
        ensures change { Gives is_of_outside view_change result (change_at self.now rev chunk.now) }
        ensures inner { NeverFaults result }
    {
        let text = match self.loaded.changelog().text(rev, chunk) {
            Ok(text) => text,
            Err(fault) => return Err(of_revlog(self.alloc, self.paths.index(), fault)),
        };
        match ChangeText::read(self.alloc, text) {
            Ok(change) => Ok(change),
            Err(fault) => Err(of_change(self.alloc, self.paths.index(), rev, fault)),
        }
    }

    /// The line that `log` writes of a changeset whose chunk was read.
    pub fn line_from(&self, rev: u32, chunk: &[u8]) -> Result<Vec<u8>, ReadAnswer>
        requires stands { rev < length self.now.changelog.entries }
        requires within { IfSome (slice_get self.now.changelog.entries rev) (λ e. length chunk.now ≤ e.stored) }
        ensures line { Gives is_of_outside (λ line. line.items) result (line_at self.now rev chunk.now) }
        ensures inner { NeverFaults result }
    {
        let change = match self.change_from(rev, chunk) {
            Ok(change) => change,
            Err(refusal) => return Err(refusal),
        };
        match line_of(self.alloc, rev, self.loaded.changelog().entry(rev), &change) {
            Ok(line) => Ok(line),
            Err(_) => Err(ReadAnswer::Memory),
        }
    }

    /// Adds the line that `log` writes of a changeset. A refusal adds nothing.
    pub fn log_line<R: Reads>(
        &mut self,
        files: &mut R,
        rev: u32,
        into: &mut Vec<u8>,
    ) -> Result<(), ReadAnswer>
        requires { rev < length self.old.changelog.entries }
        ensures answer { AddsAnswer (R.seen files.old) (R.start files.old) (R.seen files.new) (line_asks self.old rev) into.old.items into.new.items result }
        ensures given { TakesText (R.given files.old) (R.given files.new) (R.seen files.old) (R.start files.old) (R.seen files.new) (line_asks self.old rev) into.old.items into.new.items result }
        ensures kept { self.new ≡ self.old }
        ensures seen { Grows (R.seen files.old) (R.seen files.new) }
        ensures same_start { R.start files.new ≡ R.start files.old }
        ensures still { R.alone ≡ true → R.seen files.new ≡ R.seen files.old }
        ensures same_ties { R.ties files.new ≡ R.ties files.old }
        ensures shown { IsShown R.shows (R.start files.old) (R.seen files.old) → IsShown R.shows (R.start files.new) (R.seen files.new) }
        ensures cause { HasFaultCause (R.faults files.old) (R.faults files.new) (R.denied files.old) (R.denied files.new) result }
    {
        let span = self.loaded.changelog().span_in_file(rev);
        let part = read_part(self.alloc, files, self.chunks(), span.from, span.len)?;
        let line = match self.line_from(rev, bytes_of(&part)) {
            Ok(line) => line,
            Err(refusal) => return Err(refusal),
        };
        into.extend_from_slice(&line)?;
        Ok(())
    }

    /// Reads the changeset of a revision.
    pub fn change<R: Reads>(&self, files: &mut R, rev: u32) -> Result<ChangeText, ReadAnswer>
        requires { rev < length self.now.changelog.entries }
        ensures answer { Answers view_change (R.seen files.old) (R.start files.old) (R.seen files.new) (change_asks self.now rev) result }
        ensures given { Takes view_change (R.given files.old) (R.given files.new) (R.seen files.old) (R.start files.old) (R.seen files.new) (change_asks self.now rev) result }
        ensures seen { Grows (R.seen files.old) (R.seen files.new) }
        ensures same_start { R.start files.new ≡ R.start files.old }
        ensures still { R.alone ≡ true → R.seen files.new ≡ R.seen files.old }
        ensures same_ties { R.ties files.new ≡ R.ties files.old }
        ensures shown { IsShown R.shows (R.start files.old) (R.seen files.old) → IsShown R.shows (R.start files.new) (R.seen files.new) }
        ensures cause { HasFaultCause (R.faults files.old) (R.faults files.new) (R.denied files.old) (R.denied files.new) result }
    {
        let span = self.loaded.changelog().span_in_file(rev);
        let part = read_part(self.alloc, files, self.chunks(), span.from, span.len)?;
        self.change_from(rev, bytes_of(&part))
    }

    // Reads the manifest of a changeset.
    fn manifest<R: Reads>(&self, files: &mut R, rev: u32) -> Result<Manifest, ReadAnswer>
        requires { rev < length self.now.changelog.entries }
        ensures answer { Answers (λ rows. rows) (R.seen files.old) (R.start files.old) (R.seen files.new) (tree_asks self.now rev) result }
        ensures given { Takes (λ rows. rows) (R.given files.old) (R.given files.new) (R.seen files.old) (R.start files.old) (R.seen files.new) (tree_asks self.now rev) result }
        ensures seen { Grows (R.seen files.old) (R.seen files.new) }
        ensures same_start { R.start files.new ≡ R.start files.old }
        ensures still { R.alone ≡ true → R.seen files.new ≡ R.seen files.old }
        ensures same_ties { R.ties files.new ≡ R.ties files.old }
        ensures shown { IsShown R.shows (R.start files.old) (R.seen files.old) → IsShown R.shows (R.start files.new) (R.seen files.new) }
        ensures cause { HasFaultCause (R.faults files.old) (R.faults files.new) (R.denied files.old) (R.denied files.new) result }
    {
        match self.change(files, rev) {
            Ok(change) => manifest_of(self.alloc, files, &change.manifest),
            Err(refusal) => Err(refusal),
        }
    }

    /// Adds a line for each file of a changeset, in the order of their paths: node, flag and path. The flag is `-`, `x` or
    /// `l`. A refusal adds nothing.
    ///
    /// It reads the texts of the changeset and of its manifest, and the manifest's index up to that text.
    pub fn files<R: Reads>(
        &mut self,
        files: &mut R,
        rev: u32,
        into: &mut Vec<u8>,
    ) -> Result<(), ReadAnswer>
        requires { rev < length self.old.changelog.entries }
        ensures answer { AddsAnswer (R.seen files.old) (R.start files.old) (R.seen files.new) (files_asks self.old rev) into.old.items into.new.items result }
        ensures given { TakesText (R.given files.old) (R.given files.new) (R.seen files.old) (R.start files.old) (R.seen files.new) (files_asks self.old rev) into.old.items into.new.items result }
        ensures kept { self.new ≡ self.old }
        ensures seen { Grows (R.seen files.old) (R.seen files.new) }
        ensures same_start { R.start files.new ≡ R.start files.old }
        ensures still { R.alone ≡ true → R.seen files.new ≡ R.seen files.old }
        ensures same_ties { R.ties files.new ≡ R.ties files.old }
        ensures shown { IsShown R.shows (R.start files.old) (R.seen files.old) → IsShown R.shows (R.start files.new) (R.seen files.new) }
        ensures cause { HasFaultCause (R.faults files.old) (R.faults files.new) (R.denied files.old) (R.denied files.new) result }
    {
        match self.manifest(files, rev) {
            Ok(manifest) => {
                add_files(&manifest, into)?;
                Ok(())
            }
            Err(refusal) => Err(refusal),
        }
    }

    /// Adds the body of a file of a changeset. A refusal adds nothing; it is `UnknownPath` exactly where the changeset has
    /// no such file, and a path that is not tracked is none.
    ///
    /// It reads the texts of the changeset, of its manifest and of the file, and the two indexes up to these texts.
    pub fn cat<R: Reads>(
        &mut self,
        files: &mut R,
        rev: u32,
        path: &[u8],
        into: &mut Vec<u8>,
    ) -> Result<(), ReadAnswer>
        requires { rev < length self.old.changelog.entries }
        ensures answer { AddsAnswer (R.seen files.old) (R.start files.old) (R.seen files.new) (cat_asks self.old rev path.now) into.old.items into.new.items result }
        ensures given { TakesText (R.given files.old) (R.given files.new) (R.seen files.old) (R.start files.old) (R.seen files.new) (cat_asks self.old rev path.now) into.old.items into.new.items result }
        ensures kept { self.new ≡ self.old }
        ensures seen { Grows (R.seen files.old) (R.seen files.new) }
        ensures same_start { R.start files.new ≡ R.start files.old }
        ensures still { R.alone ≡ true → R.seen files.new ≡ R.seen files.old }
        ensures same_ties { R.ties files.new ≡ R.ties files.old }
        ensures shown { IsShown R.shows (R.start files.old) (R.seen files.old) → IsShown R.shows (R.start files.new) (R.seen files.new) }
        ensures cause { HasFaultCause (R.faults files.old) (R.faults files.new) (R.denied files.old) (R.denied files.new) result }
    {
        let manifest = match self.manifest(files, rev) {
            Ok(manifest) => manifest,
            Err(refusal) => return Err(refusal),
        };
        add_file(self.alloc, files, &manifest, path, into)
    }

    /// Adds a line for each changeset without a child, ascending: revision, a space and the node. A refusal adds nothing.
    pub fn heads(&self, into: &mut Vec<u8>) -> Result<(), AllocError>
        ensures ok { OnOk result (into.new.items ≡ into.old.items ++ heads_text self.now) }
        ensures err { OnErr result (into.new.items ≡ into.old.items) }
    {
        let lines = heads_of(self.alloc, self.loaded.changelog())?;
        into.extend_from_slice(&lines)?;
        Ok(())
    }

    /// Adds a line for each bookmark, in byte order of names: name, tab, revision, tab and node. One of an unknown node has no
    /// line. A refusal adds nothing.
    pub fn bookmarks(&self, into: &mut Vec<u8>) -> Result<(), AllocError>
        ensures ok { OnOk result (into.new.items ≡ into.old.items ++ marks_text self.now) }
        ensures err { OnErr result (into.new.items ≡ into.old.items) }
    {
        let lines = mark_lines(self.alloc, self.loaded.changelog(), self.loaded.bookmarks())?;
        into.extend_from_slice(&lines)?;
        Ok(())
    }

    /// Adds a line for each working parent, the first before the second: revision, a space and the node. A refusal adds
    /// nothing.
    pub fn parents(&self, into: &mut Vec<u8>) -> Result<(), AllocError>
        ensures ok { OnOk result (into.new.items ≡ into.old.items ++ parents_text self.now) }
        ensures err { OnErr result (into.new.items ≡ into.old.items) }
    {
        let lines = parent_lines(self.alloc, self.loaded.changelog(), &self.loaded.working())?;
        into.extend_from_slice(&lines)?;
        Ok(())
    }

    /// The phase of a changeset.
    pub fn phase(&self, rev: u32) -> Phase
        requires { rev < length self.now.changelog.entries }
        ensures { slice_get self.now.phases rev ≡ Some result }
    {
        self.loaded.phases().get(rev)
    }
}
