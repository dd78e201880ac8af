//! The program that a theory and the script give.
ghost use Rattle.std.specs.Prelude.{◌≡◌, true, IfOk, IsErrOf};
ghost use Rattle.std.specs.Bool.{OnFalse};
ghost use Rattle.kid_outer.specs.Causes.{NeverFall, Rose};
ghost use Rattle.kid_kernel.specs.TheoryView.{plain_theory};
ghost use Rattle.kid_theory.specs.IsRead.{IsRead};
ghost use Rattle.kid_prog.specs.ProgramText.{program_text};
ghost use Rattle.kid_prog.specs.Loading.{loading};
ghost use Rattle.kid_prog.specs.ProgramView.{plain_program};
ghost use Rattle.kid_prog.specs.Rules.{IsRunnable};
ghost use Rattle.kid_prog.specs.Spelling.{is_spelled_program};
ghost use Rattle.kid_top.specs.Emitted.{program_for};
ghost use Rattle.kid_top.specs.Failed.{has_failed};
ghost use Rattle.kid_top.specs.Outcome.{Comes, Outcomes, loads_or, emitted_or, script_program};

use crate::emit::program_for;
use crate::refusal::Refusal;
use crate::stages::script_stage;
use crate::stop::Stop;
use kid_kernel::Theory;
use kid_outer::Store;
use kid_prog::{LoadCode, LoadFault, Program, load, text};
use kid_value::Memory;
use std::alloc::Global;

/// The program that the text of a program gives.
fn reloaded(alloc: Global, program: &Program) -> Result<Program, Stop>
    requires { is_spelled_program (plain_program program.now) ≡ true }
    ensures comes { Comes plain_program result (loads_or (loading (program_text (plain_program program.now)))) }
    ensures runnable { IfOk result (λ p. IsRunnable (plain_program p)) }
    ensures spelled { IfOk result (λ p. is_spelled_program (plain_program p) ≡ true) }
    ensures failed { IsErrOf result Stop.Failed → ⊥ }
    ensures fits { IsErrOf result Stop.Usage → ⊥ }
{
    let Ok(bytes) = text(alloc, program) else {
        return Err(Stop::Memory);
    };
    match load(alloc, &bytes) {
        Ok(program) => Ok(program),
        Err(
            LoadFault {
                code: LoadCode::Memory,
                ..
            },
        ) => Err(Stop::Memory),
        Err(_) => Err(Stop::Unbuilt(2)),
    }
}

fn emitted_program(alloc: Global, theory: &Theory) -> Result<Program, Stop>
    requires { IsRead (plain_theory theory.now) }
    ensures comes { Comes plain_program result (emitted_or (program_for (plain_theory theory.now))) }
    ensures runnable { IfOk result (λ p. IsRunnable (plain_program p)) }
    ensures spelled { IfOk result (λ p. is_spelled_program (plain_program p) ≡ true) }
    ensures failed { IsErrOf result Stop.Failed → ⊥ }
    ensures fits { IsErrOf result Stop.Usage → ⊥ }
{
    match program_for(alloc, theory) {
        Ok(program) => reloaded(alloc, &program),
        Err(Refusal::Unbuilt) => Err(Stop::Unbuilt(2)),
        Err(Refusal::Memory) => Err(Stop::Memory),
    }
}

/// The program for a theory and the script in the second file, as its text gives it.
pub fn script_program<S: Store>(
    alloc: Global,
    store: &mut S,
    theory: &Theory,
    script: &str,
) -> Result<Program, Stop>
    requires { IsRead (plain_theory theory.now) }
    ensures outcome { Outcomes (S.held store.old) plain_program result (λ files. script_program (plain_theory theory.now) (files script.now)) }
    ensures runnable { IfOk result (λ p. IsRunnable (plain_program p)) }
    ensures spelled { IfOk result (λ p. is_spelled_program (plain_program p) ≡ true) }
    ensures held { S.held store.new ≡ S.held store.old }
    ensures failed { IsErrOf result Stop.Failed → Rose (S.faults store.old script.now) (S.faults store.new script.now) }
    ensures still { OnFalse (has_failed result) (S.faults store.new ≡ S.faults store.old) }
    ensures later { NeverFall (S.faults store.old) (S.faults store.new) }
    ensures fits { IsErrOf result Stop.Usage → ⊥ }
{
    script_stage(alloc, store, script)?;
    emitted_program(alloc, theory)
}
