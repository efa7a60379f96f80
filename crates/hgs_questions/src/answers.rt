//! Answers: a status and a text.
ghost use Rattle.std.specs.Prelude.{◌≡◌, ◌≢◌};
ghost use Rattle.hgs_load.specs.declared.answer.ReadAnswer.TheVariants.{Fault};
ghost use Rattle.hgs_questions.specs.Said.{IsStatus, lost, said, Says, Refuses, unknown};

use hgs_bytes::bytes::Bytes;
use hgs_load::answer::ReadAnswer;
use hgs_script::result::Answered;
use std::alloc::Global;

/// The whole text of a question.
pub(crate) fn said(text: Vec<u8>) -> Answered
    ensures { result ≡ said text.items }
{
    Answered {
        status: 0,
        text: Bytes::from_vec(text),
    }
}

/// There was no memory. The text is empty, and takes none.
pub(crate) fn lost(alloc: Global) -> Answered
    ensures { result ≡ lost }
{
    Answered {
        status: 30,
        text: Bytes::new(alloc),
    }
}

/// The name names no revision.
pub(crate) fn unknown(alloc: Global) -> Answered
    ensures says { Says unknown result }
    ensures statuses { IsStatus result.status }
    ensures never { result.status ≢ 16 }
{
    match Bytes::from_slice(alloc, b"abort: unknown revision\n") {
        Ok(text) => Answered { status: 12, text },
        Err(_) => lost(alloc),
    }
}

/// The line of a refusal, behind a text.
pub(crate) fn refuse(alloc: Global, text: Vec<u8>, refusal: &ReadAnswer) -> Answered
    ensures refuses { Refuses text.items refusal.now result }
    ensures statuses { IsStatus result.status }
    ensures fault { result.status ≡ 16 → refusal.now ≡ Fault }
{
    if let ReadAnswer::Memory = refusal {
        return lost(alloc);
    }
    let mut text = text;
    match refusal.print(alloc, &mut text) {
        Ok(()) => Answered {
            status: refusal.status(),
            text: Bytes::from_vec(text),
        },
        Err(_) => lost(alloc),
    }
}
