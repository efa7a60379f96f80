//! A session that keeps the texts of the manifests that were used last.

use crate::manifest::manifest_of;
use crate::texts::RecentTexts;
use hgs_files::files::Reads;
use hgs_load::answer::ReadAnswer;
use hgs_manifest::manifest::Manifest;
use hgs_reader::contents::{add_file, add_files};
use hgs_reader::session::Session;
use std::alloc::{AllocError, Global};
use std::marker::Model;

/// A session that keeps the texts of the manifests that were used last. Contracts see the history that it holds, and these
/// texts.
#[derive(Drop)]
pub struct RecentSession {
    alloc: Global,
    session: Session,
    texts: RecentTexts,
}

impl Model for RecentSession {
    ghost use Rattle.hgs_recent.specs.Questions.{Recent};

    ghost Value = { Recent };

    ghost view = { λ s. record { view = s.session; texts = s.texts } };
}

impl RecentSession {
    ghost use Rattle.std.specs.Prelude.{◌≡◌, ◌<◌, [], true, length, IfOk, OnOk};
    ghost use Rattle.hgs_bytes.specs.Bytes.{IsPrefixOf};
    ghost use Rattle.hgs_files.specs.Reads.{Grows};
    ghost use Rattle.hgs_load.specs.Answer.{HasFaultCause};
    ghost use Rattle.hgs_load.specs.Asks.{Answers, AddsAnswer};
    ghost use Rattle.hgs_load.specs.Beyond.{AnswersBeyond, IsShown, RefreshesBeyond};
    ghost use Rattle.hgs_load.specs.Given.{Takes, TakesText, TakesView};
    ghost use Rattle.hgs_load.specs.Load.{Refreshes};
    ghost use Rattle.hgs_load.specs.Open.{open_asks};
    ghost use Rattle.hgs_load.specs.Refresh.{refresh_asks, GivenFew};
    ghost use Rattle.hgs_reader.specs.Line.{line_asks};
    ghost use Rattle.hgs_recent.specs.Questions.{tree_asks, files_asks, cat_asks, changeset_use_asks, Keeps};

    /// This session, with no texts yet.
    pub fn of(alloc: Global, session: Session) -> Result<RecentSession, AllocError>
        ensures { IfOk result (λ recent. recent ≡ record { view = session; texts = [] }) }
    {
        Ok(RecentSession {
            alloc,
            session,
            texts: RecentTexts::new(alloc)?,
        })
    }

    /// What was loaded, and the questions that use no manifest.
    pub fn session(&self) -> &Session
        ensures { result.now ≡ self.now.view }
    {
        &self.session
    }

    /// Loads the repository that the files hold, which others may change meanwhile. No text is kept yet.
    pub fn open<R: Reads>(alloc: Global, files: &mut R) -> Result<RecentSession, ReadAnswer>
        ensures answer { Answers (λ recent. recent.view) (R.seen files.old) (R.start files.old) (R.seen files.new) open_asks result }
        ensures given { Takes (λ recent. recent.view) (R.given files.old) (R.given files.new) (R.seen files.old) (R.start files.old) (R.seen files.new) open_asks result }
        ensures texts { IfOk result (λ recent. recent.texts ≡ []) }
        ensures seen { Grows (R.seen files.old) (R.seen files.new) }
        ensures same_start { R.start files.new ≡ R.start files.old }
        ensures still { R.alone ≡ true → R.seen files.new ≡ R.seen files.old }
        ensures same_ties { R.ties files.new ≡ R.ties files.old }
        ensures shown { IsShown R.shows (R.start files.old) (R.seen files.old) → IsShown R.shows (R.start files.new) (R.seen files.new) }
        ensures beyond { AnswersBeyond (λ recent. recent.view) (R.ties files.old).told (R.seen files.old) (R.start files.old) (R.seen files.new) open_asks result }
        ensures cause { HasFaultCause (R.faults files.old) (R.faults files.new) (R.denied files.old) (R.denied files.new) result }
    {
        let texts = RecentTexts::new(alloc)?;
        match Session::open(alloc, files) {
            Ok(session) => Ok(RecentSession {
                alloc,
                session,
                texts,
            }),
            Err(refusal) => Err(refusal),
        }
    }

    /// Loads again what may have changed, as `Session::refresh` does. The texts stay: what was read under a node is the text with
    /// that node in each later history.
    pub fn refresh<R: Reads>(&mut self, files: &mut R) -> Result<(), ReadAnswer>
        ensures answer { Refreshes (R.seen files.old) (R.start files.old) (R.seen files.new) (refresh_asks self.old.view) self.old.view self.new.view result }
        ensures given { TakesView (R.given files.old) (R.given files.new) (R.seen files.old) (R.start files.old) (R.seen files.new) (refresh_asks self.old.view) self.new.view result }
        ensures front { OnOk result (IsPrefixOf self.old.view.changelog.entries self.new.view.changelog.entries) }
        ensures few { OnOk result (GivenFew R.alone (R.given files.old) (R.given files.new) (R.seen files.old) (R.start files.old) self.old.view self.new.view) }
        ensures texts { self.new.texts ≡ self.old.texts }
        ensures seen { Grows (R.seen files.old) (R.seen files.new) }
        ensures same_start { R.start files.new ≡ R.start files.old }
        ensures still { R.alone ≡ true → R.seen files.new ≡ R.seen files.old }
        ensures same_ties { R.ties files.new ≡ R.ties files.old }
        ensures shown { IsShown R.shows (R.start files.old) (R.seen files.old) → IsShown R.shows (R.start files.new) (R.seen files.new) }
        ensures beyond { RefreshesBeyond (R.ties files.old).told (R.seen files.old) (R.start files.old) (R.seen files.new) (refresh_asks self.old.view) self.new.view result }
        ensures cause { HasFaultCause (R.faults files.old) (R.faults files.new) (R.denied files.old) (R.denied files.new) result }
    {
        self.session.refresh(files)
    }

    /// Adds the line that `log` writes of a changeset. A refusal adds nothing.
    pub fn log_line<R: Reads>(
        &mut self,
        files: &mut R,
        rev: u32,
        into: &mut Vec<u8>,
    ) -> Result<(), ReadAnswer>
        requires { rev < length self.old.view.changelog.entries }
        ensures answer { AddsAnswer (R.seen files.old) (R.start files.old) (R.seen files.new) (line_asks self.old.view rev) into.old.items into.new.items result }
        ensures given { TakesText (R.given files.old) (R.given files.new) (R.seen files.old) (R.start files.old) (R.seen files.new) (line_asks self.old.view rev) into.old.items into.new.items result }
        ensures kept { self.new ≡ self.old }
        ensures seen { Grows (R.seen files.old) (R.seen files.new) }
        ensures same_start { R.start files.new ≡ R.start files.old }
        ensures still { R.alone ≡ true → R.seen files.new ≡ R.seen files.old }
        ensures same_ties { R.ties files.new ≡ R.ties files.old }
        ensures shown { IsShown R.shows (R.start files.old) (R.seen files.old) → IsShown R.shows (R.start files.new) (R.seen files.new) }
        ensures cause { HasFaultCause (R.faults files.old) (R.faults files.new) (R.denied files.old) (R.denied files.new) result }
    {
        self.session.log_line(files, rev, into)
    }

    // The manifest of a changeset, which is read where its text is not kept.
    fn manifest<R: Reads>(&mut self, files: &mut R, rev: u32) -> Result<Manifest, ReadAnswer>
        requires { rev < length self.old.view.changelog.entries }
        ensures answer { Answers (λ rows. rows) (R.seen files.old) (R.start files.old) (R.seen files.new) (tree_asks self.old.texts self.old.view rev) result }
        ensures given { Takes (λ rows. rows) (R.given files.old) (R.given files.new) (R.seen files.old) (R.start files.old) (R.seen files.new) (tree_asks self.old.texts self.old.view rev) result }
        ensures view { self.new.view ≡ self.old.view }
        ensures texts { Keeps (R.seen files.old) (R.start files.old) (R.seen files.new) (changeset_use_asks self.old.texts self.old.view rev) self.old.texts self.new.texts result }
        ensures seen { Grows (R.seen files.old) (R.seen files.new) }
        ensures same_start { R.start files.new ≡ R.start files.old }
        ensures still { R.alone ≡ true → R.seen files.new ≡ R.seen files.old }
        ensures same_ties { R.ties files.new ≡ R.ties files.old }
        ensures shown { IsShown R.shows (R.start files.old) (R.seen files.old) → IsShown R.shows (R.start files.new) (R.seen files.new) }
        ensures cause { HasFaultCause (R.faults files.old) (R.faults files.new) (R.denied files.old) (R.denied files.new) result }
    {
        match self.session.change(files, rev) {
            Ok(change) => manifest_of(self.alloc, files, &mut self.texts, &change.manifest),
            Err(refusal) => Err(refusal),
        }
    }

    /// Adds a line for each file of a changeset, in the order of their paths: node, flag and path. The flag is `-`, `x` or
    /// `l`. A refusal adds nothing.
    ///
    /// It reads the text of the changeset, and what `Session::files` reads of the manifest where its text is not kept.
    pub fn files<R: Reads>(
        &mut self,
        files: &mut R,
        rev: u32,
        into: &mut Vec<u8>,
    ) -> Result<(), ReadAnswer>
        requires { rev < length self.old.view.changelog.entries }
        ensures answer { AddsAnswer (R.seen files.old) (R.start files.old) (R.seen files.new) (files_asks self.old.texts self.old.view rev) into.old.items into.new.items result }
        ensures given { TakesText (R.given files.old) (R.given files.new) (R.seen files.old) (R.start files.old) (R.seen files.new) (files_asks self.old.texts self.old.view rev) into.old.items into.new.items result }
        ensures view { self.new.view ≡ self.old.view }
        ensures texts { Keeps (R.seen files.old) (R.start files.old) (R.seen files.new) (changeset_use_asks self.old.texts self.old.view rev) self.old.texts self.new.texts result }
        ensures seen { Grows (R.seen files.old) (R.seen files.new) }
        ensures same_start { R.start files.new ≡ R.start files.old }
        ensures still { R.alone ≡ true → R.seen files.new ≡ R.seen files.old }
        ensures same_ties { R.ties files.new ≡ R.ties files.old }
        ensures shown { IsShown R.shows (R.start files.old) (R.seen files.old) → IsShown R.shows (R.start files.new) (R.seen files.new) }
        ensures cause { HasFaultCause (R.faults files.old) (R.faults files.new) (R.denied files.old) (R.denied files.new) result }
    {
        match self.manifest(files, rev) {
            Ok(manifest) => {
                add_files(&manifest, into)?;
                Ok(())
            }
            Err(refusal) => Err(refusal),
        }
    }

    /// Adds the body of a file of a changeset. A refusal adds nothing; it is `UnknownPath` exactly where the changeset has
    /// no such file, and a path that is not tracked is none.
    ///
    /// It reads the text of the changeset and that of the file, and what `Session::cat` reads of the manifest where its text is
    /// not kept.
    pub fn cat<R: Reads>(
        &mut self,
        files: &mut R,
        rev: u32,
        path: &[u8],
        into: &mut Vec<u8>,
    ) -> Result<(), ReadAnswer>
        requires { rev < length self.old.view.changelog.entries }
        ensures answer { AddsAnswer (R.seen files.old) (R.start files.old) (R.seen files.new) (cat_asks self.old.texts self.old.view rev path.now) into.old.items into.new.items result }
        ensures given { TakesText (R.given files.old) (R.given files.new) (R.seen files.old) (R.start files.old) (R.seen files.new) (cat_asks self.old.texts self.old.view rev path.now) into.old.items into.new.items result }
        ensures view { self.new.view ≡ self.old.view }
        ensures texts { Keeps (R.seen files.old) (R.start files.old) (R.seen files.new) (changeset_use_asks self.old.texts self.old.view rev) self.old.texts self.new.texts result }
        ensures seen { Grows (R.seen files.old) (R.seen files.new) }
        ensures same_start { R.start files.new ≡ R.start files.old }
        ensures still { R.alone ≡ true → R.seen files.new ≡ R.seen files.old }
        ensures same_ties { R.ties files.new ≡ R.ties files.old }
        ensures shown { IsShown R.shows (R.start files.old) (R.seen files.old) → IsShown R.shows (R.start files.new) (R.seen files.new) }
        ensures cause { HasFaultCause (R.faults files.old) (R.faults files.new) (R.denied files.old) (R.denied files.new) result }
    {
        let manifest = match self.manifest(files, rev) {
            Ok(manifest) => manifest,
            Err(refusal) => return Err(refusal),
        };
        add_file(self.alloc, files, &manifest, path, into)
    }
}
