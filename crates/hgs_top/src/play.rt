//! A schedule that is played in memory.
ghost use Rattle.std.specs.Prelude.{◌≡◌, ◌∷◌, []};
ghost use Rattle.hgs_files.specs.Reads.{Rose};
ghost use Rattle.std.specs.List.{AllByRecursion};
ghost use Rattle.hgs_schedule.specs.Schedule.{CanCome};
ghost use Rattle.hgs_top.specs.Orders.{IsAtEnd};
ghost use Rattle.hgs_top.specs.Play.{PlaysInput, WritesPlay};
ghost use Rattle.hgs_top.specs.Run.{IsOneOf};

use crate::command::{OUT_OF_MEMORY, end_with, status_of_fault};
use crate::ended::Ended;
use crate::input::read_input;
use crate::output::write_all;
use crate::told::say;
use hgs_files::streams::{IoFault, Sink, Source};
use hgs_schedule::event::Schedule;
use hgs_schedule::laws::{
    long_inputs_are_decided, read_schedules_are_schedules, read_schedules_can_be_played,
};
use hgs_schedule::schedule::read_schedule;
use hgs_world::seen::Seen;
use hgs_world::state::World;
use std::alloc::Global;

// Makes the events happen, and writes what each writes.
fn play<K: Sink>(alloc: Global, schedule: Schedule, out: &mut K) -> u8
    requires { AllByRecursion (CanCome schedule.readers) schedule.events }
    ensures plays { WritesPlay schedule result (K.written out.old) (K.written out.new) }
    ensures sink { result ≡ 19 → Rose (K.faults out.old) (K.faults out.new) }
    ensures statuses { IsOneOf (0 ∷ 19 ∷ 30 ∷ []) result }
{
    let Ok(mut repository) = World::new(alloc, schedule.readers) else {
        return end_with(out, OUT_OF_MEMORY, 30);
    };
    for event in schedule.events.into_vec() {
        match repository.step(event) {
            Seen::Text(text) => match write_all(out, &text) {
                Ok(()) => {}
                Err(fault) => return status_of_fault(fault),
            },
            Seen::Memory => return end_with(out, OUT_OF_MEMORY, 30),
        }
    }
    0
}

/// Plays the schedule that stands on the input, in memory, and writes what its events write. It is read whole before its
/// first event happens.
pub fn run_play<S: Source, K: Sink>(alloc: Global, input: &mut S, out: &mut K) -> u8
    ensures plays { PlaysInput (S.left input.old) result (K.written out.old) (K.written out.new) }
    ensures whole { result ≡ 0 → IsAtEnd (S.left input.new) }
    ensures failed { result ≡ 18 → Rose (S.faults input.old) (S.faults input.new) }
    ensures sink { result ≡ 19 → Rose (K.faults out.old) (K.faults out.new) }
    ensures statuses { IsOneOf (0 ∷ 14 ∷ 18 ∷ 19 ∷ 20 ∷ 30 ∷ []) result }
{
    let bytes = match read_input(alloc, input) {
        Ok(bytes) => bytes,
        Err(IoFault::Failed) => return say(alloc, &Ended::NoInput, out),
        Err(IoFault::Memory) => return end_with(out, OUT_OF_MEMORY, 30),
    };
    read_schedules_can_be_played();
    read_schedules_are_schedules();
    long_inputs_are_decided();
    match read_schedule(alloc, &bytes) {
        Ok(schedule) => play(alloc, schedule, out),
        Err(fault) => say(alloc, &Ended::NoRecord(fault), out),
    }
}
