//! How many bytes a session that keeps texts is given.
use crate::beside::{WHO, commit_of};
use crate::given::given;
use crate::sessions::new_repository;
use hgs_answers::outcome::Outcome;
use hgs_files::files::{FileFault, Reads};
use hgs_files::path::StorePath;
use hgs_mem::mem::MemFiles;
use hgs_recent::session::RecentSession;
use hgs_writer::write::write;
use std::alloc::Global;
use std::test::Fail;

/// Files, and how many bytes their reads gave.
#[derive(Drop)]
struct Counted<F: Reads> {
    files: F,
    bytes: u64,
}

impl<F: Reads> Reads for Counted<F> {
    ghost faults = { λ c. F.faults c.files };

    ghost denied = { λ c. F.denied c.files };

    ghost given = { λ c. F.given c.files };

    ghost seen = { λ c. F.seen c.files };

    ghost start = { λ c. F.start c.files };

    ghost alone = { F.alone };

    ghost shows = { F.shows };

    ghost ties = { λ c. F.ties c.files };

    fn read(
        &mut self,
        path: &StorePath,
        from: u64,
        most: u64,
        into: &mut Vec<u8>,
    ) -> Result<Option<u64>, FileFault> {
        let answer = self.files.read(path, from, most, into);
        if let Ok(Some(count)) = answer {
            self.bytes = self.bytes.saturating_add(count);
        }
        answer
    }

    fn size(&mut self, path: &StorePath) -> Result<Option<u64>, FileFault> {
        self.files.size(path)
    }
}

/// A repository of seventeen changesets, each of another file.
fn seventeen(alloc: Global) -> Result<MemFiles, Fail> {
    let mut files = new_repository(alloc)?;
    for at in 10..27u32 {
        let record = format!(in alloc;
            "commit\nuser u\ndate {at} 0\ndesc 1\nc\nfile - 3 f{at}\n{at}\n\nend\n"
        )?;
        let command = commit_of(alloc, record.as_bytes())?;
        let answer = write(alloc, &mut files, &command, WHO);
        if !matches!(answer.outcome, Outcome::Done { .. }) {
            return Err(Fail::new("no changeset"));
        }
    }
    Ok(files)
}

/// How many bytes a session is given for the files of a changeset.
fn given_for_files(
    alloc: Global,
    session: &mut RecentSession,
    files: &mut Counted<MemFiles>,
    rev: u32,
) -> Result<u64, Fail> {
    let before = files.bytes;
    let mut text = Vec::new(alloc);
    if rev < session.session().len() {
        given(session.files(files, rev, &mut text))?;
    }
    Ok(files.bytes.saturating_sub(before))
}

/// Asks for the files of the changesets from one to before another, in order.
fn ask_for(
    alloc: Global,
    session: &mut RecentSession,
    files: &mut Counted<MemFiles>,
    from: u32,
    to: u32,
) -> Result<(), Fail> {
    for rev in from..to {
        given_for_files(alloc, session, files, rev)?;
    }
    Ok(())
}

// Sixteen texts are kept: the seventeenth takes the place of the one that was not used longest, and a text that is used again stays. The manifest's
// index has seventeen entries, and the chunk of a text 46 bytes: a byte in front, the name, a NUL, 40 digits and LF.
#[test]
fn the_text_used_longest_ago_is_given_up(rt: HostRuntime) -> Result<(), Fail> {
    let alloc = rt.alloc();
    let files = seventeen(alloc)?;
    let mut files = Counted { files, bytes: 0 };
    let mut session = given(RecentSession::open(alloc, &mut files))?;
    let first = given_for_files(alloc, &mut session, &mut files, 0)?;
    let second = given_for_files(alloc, &mut session, &mut files, 1)?;
    ask_for(alloc, &mut session, &mut files, 2, 16)?;
    let used_again = given_for_files(alloc, &mut session, &mut files, 0)?;
    assert_eq!(rt; first, used_again.saturating_add(17 * 64 + 46));
    ask_for(alloc, &mut session, &mut files, 16, 17)?;
    let still_kept = given_for_files(alloc, &mut session, &mut files, 0)?;
    assert_eq!(rt; still_kept, used_again);
    let given_up = given_for_files(alloc, &mut session, &mut files, 1)?;
    assert_eq!(rt; given_up, second);
    Ok(())
}
