//! Each answer printed.
use crate::given::given;
use hgs_answers::answer::Answer;
use hgs_answers::outcome::{Outcome, Published};
use hgs_bytes::bytes::Bytes;
use hgs_index::node::Node;
use hgs_model::command::Command;
use hgs_model::phase::Phase;
use std::alloc::Global;
use std::test::Fail;

// The text of an answer behind some other text.
fn printed(alloc: Global, answer: Answer, command: &Command) -> Result<Vec<u8>, Fail> {
    let mut text = Vec::from_slice(alloc, b"> ")?;
    given(answer.print(alloc, command, &mut text))?;
    Ok(text)
}

fn named(alloc: Global, name: &[u8]) -> Result<Command, Fail> {
    let name = Bytes::from_slice(alloc, name)?;
    let rev = Bytes::from_slice(alloc, b"tip")?;
    Ok(Command::Mark { name, rev })
}

#[test]
fn answers_are_printed(rt: HostRuntime) -> Result<(), Fail> {
    let alloc = rt.alloc();
    let holder = Bytes::from_slice(alloc, b"box:7")?;
    let table = [
        (
            Outcome::LockHeld(Some(holder)),
            true,
            b"> abort: lock held by box:7\n".as_slice(),
        ),
        (Outcome::LockHeld(None), true, b"> abort: lock held\n"),
        (
            Outcome::Abandoned,
            false,
            b"> abort: abandoned transaction found\nleftover files remain\n",
        ),
        (
            Outcome::NothingChanged(3),
            true,
            b"> abort: nothing changed (3)\n",
        ),
        (
            Outcome::Unfinished(Published::Unknown),
            true,
            b"> abort: transaction unfinished (published unknown)\n",
        ),
        (
            Outcome::NeedsForce(12),
            true,
            b"> abort: phase of 12 needs --force\n",
        ),
        (
            Outcome::Done {
                rev: 7,
                node: Node([0; 20]),
            },
            false,
            b"> main 7\nleftover files remain\n",
        ),
    ];
    let command = named(alloc, b"main")?;
    for (outcome, swept, wanted) in table {
        let answer = Answer { outcome, swept };
        let text = printed(alloc, answer, &command)?;
        assert_eq!(rt; text.as_slice(), wanted);
    }
    Ok(())
}

#[test]
fn a_phase_is_said_with_its_changeset(rt: HostRuntime) -> Result<(), Fail> {
    let alloc = rt.alloc();
    let rev = Bytes::from_slice(alloc, b"tip")?;
    let command = Command::Move {
        rev,
        phase: Phase::Secret,
        force: true,
    };
    let outcome = Outcome::Done {
        rev: 40,
        node: Node([255; 20]),
    };
    let answer = Answer {
        outcome,
        swept: true,
    };
    assert_eq!(rt; answer.status(), 0);
    let text = printed(alloc, answer, &command)?;
    assert_eq!(rt; text.as_slice(), b"> 40 secret\n".as_slice());
    Ok(())
}
