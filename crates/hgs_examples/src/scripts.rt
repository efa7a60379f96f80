// Scripts that are read, and results that are printed.
use crate::given::given;
use hex::FromHex;
use hgs_bytes::bytes::Bytes;
use hgs_index::node::Node;
use hgs_model::command::Command;
use hgs_script::job::{Job, Question};
use hgs_script::result::{Answered, Answers, PublishedJob, PublishedJobs, Replies, SessionResult};
use hgs_script::script::Script;
use std::alloc::Global;
use std::test::Fail;

/// The worker, what the job is, its first name and its second.
type Row = (usize, &'static str, &'static [u8], &'static [u8]);

fn is_command(command: &Command, (_, kind, first, second): Row) -> bool {
    match command {
        Command::Commit(change) => kind == "commit" && change.description.as_slice() == first,
        Command::Import(_) => false,
        Command::Move { rev, phase, force } => {
            let kind_is = if *force { "force" } else { "phase" };
            kind == kind_is && rev.as_slice() == first && phase.name() == second
        }
        Command::Mark { name, rev } => {
            kind == "mark" && rev.as_slice() == first && name.as_slice() == second
        }
        Command::Unmark { name } => kind == "unmark" && name.as_slice() == first,
    }
}

fn is_question(question: &Question, (_, kind, first, second): Row) -> bool {
    match question {
        Question::Phase(rev) => kind == "phase of" && rev.as_slice() == first,
        Question::Log => kind == "log",
        Question::Heads => kind == "heads",
        Question::Bookmarks => kind == "bookmarks",
        Question::Parents => kind == "parents",
        Question::Files(rev) => kind == "files" && rev.as_slice() == first,
        Question::Cat { rev, path } => {
            kind == "cat" && rev.as_slice() == first && path.as_slice() == second
        }
    }
}

fn is_job(job: &Job, row: Row) -> bool {
    match job {
        Job::Change(command) => is_command(command, row),
        Job::Ask(question) => is_question(question, row),
    }
}

/// Two workers whose jobs stand between each other, and one without a job.
const BETWEEN: &[u8; 156] =
    b"session 3\n2 phase 0\n0 commit\ncommit\nparent tip\nuser test\ndate 0 0\ndesc 1\na\nfile - 2 a\na\n\nend\n2 bookmark 0 main\n0 cat tip a\n2 unbookmark x\n0 log\nend session\n";

const BETWEEN_ROWS: [Row; 6] = [
    (0, "commit", b"a", b""),
    (0, "cat", b"tip", b"a"),
    (0, "log", b"", b""),
    (2, "phase of", b"0", b""),
    (2, "mark", b"0", b"main"),
    (2, "unmark", b"x", b""),
];

/// Each job but a commit: names that are empty, a path and a bookmark with a space.
const EACH: &[u8] =
    b"session 64\n63 phase tip public\n63 phase  secret force\n63 phase \n63 bookmark . a b\n63 bookmark  c\n63 unbookmark a b\n63 log\n63 heads\n63 bookmarks\n63 parents\n63 files tip\n63 files \n63 cat tip a b\n63 cat  \nend session\n";

const EACH_ROWS: [Row; 14] = [
    (63, "phase", b"tip", b"public"),
    (63, "force", b"", b"secret"),
    (63, "phase of", b"", b""),
    (63, "mark", b".", b"a b"),
    (63, "mark", b"", b"c"),
    (63, "unmark", b"a b", b""),
    (63, "log", b"", b""),
    (63, "heads", b"", b""),
    (63, "bookmarks", b"", b""),
    (63, "parents", b"", b""),
    (63, "files", b"tip", b""),
    (63, "files", b"", b""),
    (63, "cat", b"tip", b"a b"),
    (63, "cat", b"", b""),
];

#[test]
fn scripts(rt: HostRuntime) -> Result<(), Fail> {
    for (text, workers, rows) in [
        (BETWEEN.as_slice(), 3, BETWEEN_ROWS.as_slice()),
        (EACH, 64, &EACH_ROWS),
        (b"session 2\nend session\n", 2, &[]),
    ] {
        let script = given(Script::read(rt.alloc(), text))?;
        assert_eq!(rt; script.workers.len(), workers);
        let mut count = 0;
        for (worker, jobs) in script.workers.as_slice().iter().enumerate() {
            for job in jobs.as_slice() {
                assert!(rt;
                    count < rows.len() && rows[count].0 == worker && is_job(job, rows[count])
                );
                count += 1;
            }
        }
        assert_eq!(rt; count, rows.len());
    }
    Ok(())
}

fn answered(alloc: Global, status: u8, text: &[u8]) -> Result<Answered, Fail> {
    let text = Bytes::from_slice(alloc, text)?;
    Ok(Answered { status, text })
}

/// What a worker is answered: a status and a text for each job.
fn answers_of(alloc: Global, rows: &[(u8, &[u8])]) -> Result<Answers, Fail> {
    let mut answers = Vec::new(alloc);
    for (status, text) in rows {
        let answer = answered(alloc, *status, text)?;
        answers.push(answer)?;
    }
    Ok(Answers::from_vec(answers))
}

#[test]
fn results_are_printed(rt: HostRuntime) -> Result<(), Fail> {
    let alloc = rt.alloc();
    let node = given(<[u8; 20] as FromHex>::from_hex("cb9a9f314b8b07ba71012fcdbc544b5a4d82ff5b"))?;
    let mut published = Vec::new(alloc);
    published.push(PublishedJob {
        worker: 0,
        job: 1,
        rev: 0,
        node: Node(node),
    })?;
    let answers: [&[(u8, &[u8])]; 3] = [
        &[(0, b"draft\n"), (0, b"main 0\n")],
        &[],
        &[(12, b"abort: unknown revision\n"), (30, b"")],
    ];
    let mut replies = Vec::new(alloc);
    for rows in answers {
        let of_worker = answers_of(alloc, rows)?;
        replies.push(of_worker)?;
    }
    let result = SessionResult {
        published: PublishedJobs::from_vec(published),
        unsure: Some((2, 10)),
        replies: Replies::from_vec(replies),
    };
    let text = given(result.text(alloc))?;
    assert_eq!(rt;
        text.as_slice(),
        b"published 0 1 0:cb9a9f314b8b07ba71012fcdbc544b5a4d82ff5b\nunsure 2 10\nworker 0 job 0 status 0 length 6\ndraft\n\nworker 0 job 1 status 0 length 7\nmain 0\n\nworker 2 job 0 status 12 length 24\nabort: unknown revision\n\nworker 2 job 1 status 30 length 0\n\n".as_slice()
    );
    Ok(())
}
