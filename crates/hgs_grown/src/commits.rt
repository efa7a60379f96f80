//! Commits of the changesets that a number gives.
ghost use Rattle.std.specs.Prelude.{◌≡◌, ◌≤◌, ◌<◌, ◌+◌, ℕ, List, Ok, IfOk, is_some, length};
ghost use Rattle.hgs_files.specs.declared.op.Op.{Op};
ghost use Rattle.hgs_files.specs.Files.{GoesOn};
ghost use Rattle.hgs_gen.specs.Generated.{files_after, number_after};
ghost use Rattle.hgs_machine.specs.Carry.{tree_now};
ghost use Rattle.hgs_machine.specs.Refusals.{WereRefused, refusals_of_left};
ghost use Rattle.hgs_model.specs.declared.command.Command.TheVariants.{Commit};
ghost use Rattle.hgs_model.specs.declared.command.NewChange.{NewChange};
ghost use Rattle.hgs_grown.specs.Grown.{CommitsNext, GrowsTo, LeftHasCause, last_of};

use hgs_answers::answer::Answer;
use hgs_answers::outcome::Outcome;
use hgs_files::files::Files;
use hgs_gen::generator::Generator;
use hgs_gen::laws::generated_changes_are_valid;
use hgs_index::node::Node;
use hgs_model::command::Command;
use hgs_model::files::NewFiles;
use hgs_writer::write::write;
use std::alloc::Global;

/// The last changeset that was committed.
#[derive(Debug, Drop)]
pub struct Tip {
    pub node: Node,
    /// Whether each of the commits removed all that it had left beside the repository.
    pub swept: bool,
}

/// Why not all changesets were committed. `swept` says of those that were what it says in a `Tip`.
#[derive(Debug, Drop)]
pub enum Stop {
    /// There was no memory for the next one.
    Memory {
        swept: bool,
    },
    /// It was answered otherwise than that it is done.
    Answered {
        command: Command,
        answer: Answer,
        swept: bool,
    },
}

// A generator, beside the files of the changeset that it gave last.
#[derive(Drop)]
struct Growing {
    seed: u64,
    generator: Generator,
    files: NewFiles,
    ghost number_is: { generator.number ≡ number_after seed generator.made },
    ghost files_are: { files ≡ files_after seed generator.made },
}

// The files of a commit.
fn files_of(alloc: Global, command: Command) -> NewFiles
    ensures { (change : NewChange) → command ≡ Commit change → result ≡ change.files }
{
    match command {
        Command::Commit(change) => change.files,
        Command::Import(_) => NewFiles::new(alloc),
        Command::Move { .. } => NewFiles::new(alloc),
        Command::Mark { .. } => NewFiles::new(alloc),
        Command::Unmark { .. } => NewFiles::new(alloc),
    }
}

// Commits the next changeset, and gives it. `swept` says whether nothing was left over before.
fn commit_next<F: Files>(
    alloc: Global,
    store: &mut F,
    who: &[u8],
    growing: Growing,
    swept: bool,
) -> Result<(Growing, Tip), Stop>
    requires few { growing.generator.made < 5000 }
    requires least { 1 ≤ length who.now }
    requires most { length who.now ≤ 255 }
    requires allows { (log : List Op) → F.allows (F.start store.old) log }
    ensures made { IfOk result (λ next. (next.0.seed ≡ growing.seed) × (next.0.generator.made ≡ growing.generator.made + 1)) }
    ensures log { GoesOn (F.log store.old) (F.log store.new) (CommitsNext who.now growing.seed growing.generator.made swept result (tree_now (F.log store.old) (F.start store.old))) }
    ensures cause { (faults denied : ℕ) → WereRefused (refusals_of_left swept) faults (F.faults store.old) denied (F.denied store.old) → LeftHasCause (is_some (F.log store.old)) faults (F.faults store.new) denied (F.denied store.new) (last_of result) }
    ensures later { F.faults store.old ≤ F.faults store.new }
    ensures denied { F.denied store.old ≤ F.denied store.new }
    ensures same_start { F.start store.new ≡ F.start store.old }
{
    generated_changes_are_valid();
    let Growing {
        seed,
        mut generator,
        files,
    } = growing;
    let Ok(change) = generator.next(alloc, files) else {
        return Err(Stop::Memory { swept });
    };
    let command = Command::Commit(change);
    let answer = write(alloc, store, &command, who);
    let Outcome::Done { node, .. } = answer.outcome else {
        return Err(Stop::Answered {
            command,
            answer,
            swept,
        });
    };
    let tip = Tip {
        node,
        swept: swept & answer.swept,
    };
    let files = files_of(alloc, command);
    let next = Growing {
        seed,
        generator,
        files,
    };
    Ok((next, tip))
}

/// Commits so many changesets of the generator that begins with this number, one after another, with these bytes in the locks
/// of each, and gives the last. It ends at the first that is not done.
pub fn commit_all<F: Files>(
    alloc: Global,
    store: &mut F,
    who: &[u8],
    seed: u64,
    count: u32,
) -> Result<Tip, Stop>
    requires some { 1 ≤ count }
    requires few { count ≤ 5000 }
    requires least { 1 ≤ length who.now }
    requires most { length who.now ≤ 255 }
    requires allows { (log : List Op) → F.allows (F.start store.old) log }
    ensures log { GoesOn (F.log store.old) (F.log store.new) (GrowsTo who.now seed count result (tree_now (F.log store.old) (F.start store.old))) }
    ensures cause { LeftHasCause (is_some (F.log store.old)) (F.faults store.old) (F.faults store.new) (F.denied store.old) (F.denied store.new) result }
    ensures later { F.faults store.old ≤ F.faults store.new }
    ensures same_start { F.start store.new ≡ F.start store.old }
{
    let first = Growing {
        seed,
        generator: Generator::new(seed),
        files: NewFiles::new(alloc),
    };
    let (mut growing, mut last) = match commit_next(alloc, store, who, first, true) {
        Ok(next) => next,
        Err(stop) => return Err(stop),
    };
    while growing.generator.made < count {
        let (next, tip) = match commit_next(alloc, store, who, growing, last.swept) {
            Ok(next) => next,
            Err(stop) => return Err(stop),
        };
        growing = next;
        last = tip;
    }
    Ok(last)
}
