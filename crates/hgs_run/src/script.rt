//! The script that stands on the input.
ghost use Rattle.std.specs.Prelude.{◌≡◌, IfErr, IfOk, Ok};
ghost use Rattle.hgs_files.specs.Reads.{Rose};
ghost use Rattle.hgs_run.specs.Session.{GaveScript, RefusesScript};
ghost use Rattle.hgs_script.specs.Script.{CanBeRun};
ghost use Rattle.hgs_top.specs.Orders.{IsAtEnd};
ghost use Rattle.hgs_top.specs.declared.ended.Ended.TheVariants.{NoInput};

use hgs_files::streams::{IoFault, Source};
use hgs_input::fault::InputFault;
use hgs_script::laws::{
    long_inputs_are_decided, read_scripts_are_scripts, read_scripts_can_be_run,
};
use hgs_script::script::Script;
use hgs_top::ended::Ended;
use hgs_top::input::read_input;
use std::alloc::Global;

/// The script that the whole input is, or why it is none.
pub fn script_from<S: Source>(alloc: Global, input: &mut S) -> Result<Script, Ended>
    ensures can { IfOk result (λ script. CanBeRun script) }
    ensures script { IfOk result (λ script. GaveScript (S.left input.old) (Ok script)) }
    ensures read { IfOk result (λ script. IsAtEnd (S.left input.new)) }
    ensures refused { IfErr result (λ ended. RefusesScript (S.left input.old) ended) }
    ensures failed { IfErr result (λ ended. ended ≡ NoInput → Rose (S.faults input.old) (S.faults input.new)) }
{
    let bytes = match read_input(alloc, input) {
        Ok(bytes) => bytes,
        Err(IoFault::Failed) => return Err(Ended::NoInput),
        Err(IoFault::Memory) => return Err(Ended::NoRecord(InputFault::Memory)),
    };
    read_scripts_can_be_run();
    read_scripts_are_scripts();
    long_inputs_are_decided();
    match Script::read(alloc, &bytes) {
        Ok(script) => Ok(script),
        Err(fault) => Err(Ended::NoRecord(fault)),
    }
}
