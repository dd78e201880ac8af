//! What a command is to do, once its files are read.
ghost use Rattle.std.specs.Prelude.{◌≡◌, ◌≢◌, [], true, Ok, IfOk, IfErr, IsErrOf};
ghost use Rattle.std.specs.Bool.{OnFalse};
ghost use Rattle.kid_outer.specs.Causes.{NeverFall, Rose};
ghost use Rattle.kid_kernel.specs.TheoryView.{plain_theory};
ghost use Rattle.kid_theory.specs.IsRead.{IsRead};
ghost use Rattle.kid_prog.specs.ProgramView.{plain_program};
ghost use Rattle.kid_prog.specs.ProgramText.{program_text};
ghost use Rattle.kid_prog.specs.Rules.{IsRunnable};
ghost use Rattle.kid_prog.specs.Spelling.{is_spelled_program};
ghost use Rattle.kid_top.specs.Derivation.{derivation_text as text_of_derivation};
ghost use Rattle.kid_top.specs.Command.{derive, run, solve};
ghost use Rattle.kid_top.specs.Failed.{has_failed};
ghost use Rattle.kid_top.specs.Words.{plain_command, IsUsable};
ghost use Rattle.kid_top.specs.Outcome.{Comes, Outcomes, saves, run_inputs, run_work, solve_theory, solve_work, derive_theory, derive_work, work_of};
ghost use Rattle.kid_top.specs.WorkView.{plain_work, IsReady, Suits};
ghost use Rattle.kid_top.specs.Risen.{RunRose, TheoryRose, SolveRose, DeriveRose, WorkRose};

use crate::derivation::derivation_text;
use crate::derived::script_program;
use crate::stages::{inputs_stage, program_stage, theory_stage};
use crate::stop::Stop;
use crate::words::Command;
use kid_kernel::Theory;
use kid_outer::Store;
use kid_prog::{Program, text};
use kid_run::Inputs;
use std::alloc::Global;

/// What is to be done: a program is run on inputs with so much fuel for each, or two texts are saved under their names.
#[derive(Drop)]
pub enum Work<'a> {
    Run {
        program: Program,
        inputs: Inputs,
        fuel: u64,
    },
    Save {
        derivation: &'a str,
        program: &'a str,
        derivation_bytes: Vec<u8>,
        program_bytes: Vec<u8>,
    },
}

/// Runs a program on the inputs of the file with this number.
fn run_inputs<'a, S: Store>(
    alloc: Global,
    store: &mut S,
    program: Program,
    inputs: &str,
    file: u8,
    fuel: u64,
) -> Result<Work<'a>, Stop>
    requires { IsRunnable (plain_program program) }
    ensures outcome { Outcomes (S.held store.old) plain_work result (λ files. run_inputs file (plain_program program) (files inputs.now) fuel) }
    ensures ready { IfOk result IsReady }
    ensures suits { IfOk result (λ w. Suits (run [] inputs.now fuel) (plain_work w)) }
    ensures held { S.held store.new ≡ S.held store.old }
    ensures failed { IsErrOf result Stop.Failed → Rose (S.faults store.old inputs.now) (S.faults store.new inputs.now) }
    ensures still { OnFalse (has_failed result) (S.faults store.new ≡ S.faults store.old) }
    ensures later { NeverFall (S.faults store.old) (S.faults store.new) }
    ensures fits { IsErrOf result Stop.Usage → ⊥ }
{
    let inputs = inputs_stage(alloc, store, &program, inputs, file)?;
    Ok(Work::Run {
        program,
        inputs,
        fuel,
    })
}

fn run_work<'a, S: Store>(
    alloc: Global,
    store: &mut S,
    program: &str,
    inputs: &str,
    fuel: u64,
) -> Result<Work<'a>, Stop>
    ensures outcome { Outcomes (S.held store.old) plain_work result (λ files. run_work files program.now inputs.now fuel) }
    ensures ready { IfOk result IsReady }
    ensures suits { IfOk result (λ w. Suits (run program.now inputs.now fuel) (plain_work w)) }
    ensures held { S.held store.new ≡ S.held store.old }
    ensures failed { IsErrOf result Stop.Failed → RunRose (S.held store.old) (S.faults store.old) (S.faults store.new) program.now inputs.now }
    ensures still { OnFalse (has_failed result) (S.faults store.new ≡ S.faults store.old) }
    ensures later { NeverFall (S.faults store.old) (S.faults store.new) }
    ensures fits { IsErrOf result Stop.Usage → ⊥ }
{
    let program = program_stage(alloc, store, program)?;
    run_inputs(alloc, store, program, inputs, 2, fuel)
}

/// Solves a theory by the script.
fn solve_theory<'a, S: Store>(
    alloc: Global,
    store: &mut S,
    theory: &Theory,
    script: &str,
    inputs: &str,
    fuel: u64,
) -> Result<Work<'a>, Stop>
    requires { IsRead (plain_theory theory.now) }
    ensures outcome { Outcomes (S.held store.old) plain_work result (λ files. solve_theory files script.now inputs.now fuel (plain_theory theory.now)) }
    ensures ready { IfOk result IsReady }
    ensures suits { IfOk result (λ w. Suits (solve [] script.now inputs.now fuel) (plain_work w)) }
    ensures held { S.held store.new ≡ S.held store.old }
    ensures failed { IsErrOf result Stop.Failed → TheoryRose (S.held store.old) (S.faults store.old) (S.faults store.new) (plain_theory theory.now) script.now inputs.now }
    ensures still { OnFalse (has_failed result) (S.faults store.new ≡ S.faults store.old) }
    ensures later { NeverFall (S.faults store.old) (S.faults store.new) }
    ensures fits { IsErrOf result Stop.Usage → ⊥ }
{
    let program = script_program(alloc, store, theory, script)?;
    run_inputs(alloc, store, program, inputs, 3, fuel)
}

fn solve_work<'a, S: Store>(
    alloc: Global,
    store: &mut S,
    theory: &str,
    script: &str,
    inputs: &str,
    fuel: u64,
) -> Result<Work<'a>, Stop>
    ensures outcome { Outcomes (S.held store.old) plain_work result (λ files. solve_work files theory.now script.now inputs.now fuel) }
    ensures ready { IfOk result IsReady }
    ensures suits { IfOk result (λ w. Suits (solve theory.now script.now inputs.now fuel) (plain_work w)) }
    ensures held { S.held store.new ≡ S.held store.old }
    ensures failed { IsErrOf result Stop.Failed → SolveRose (S.held store.old) (S.faults store.old) (S.faults store.new) theory.now script.now inputs.now }
    ensures still { OnFalse (has_failed result) (S.faults store.new ≡ S.faults store.old) }
    ensures later { NeverFall (S.faults store.old) (S.faults store.new) }
    ensures fits { IsErrOf result Stop.Usage → ⊥ }
{
    let theory = theory_stage(alloc, store, theory)?;
    solve_theory(alloc, store, &theory, script, inputs, fuel)
}

/// The work of saving a derived program under two names, the text of its derivation under the first.
fn saving<'a>(
    alloc: Global,
    derived: &Program,
    derivation: &'a str,
    program: &'a str,
) -> Result<Work<'a>, Stop>
    requires runnable { IsRunnable (plain_program derived.now) }
    requires spelled { is_spelled_program (plain_program derived.now) ≡ true }
    requires apart { derivation.now ≢ program.now }
    ensures ready { IfOk result IsReady }
    ensures outcome { Comes plain_work result (Ok (saves derivation.now program.now (text_of_derivation (plain_program derived.now)) (program_text (plain_program derived.now)))) }
    ensures suits { IfOk result (λ w. Suits (derive [] [] derivation.now program.now) (plain_work w)) }
    ensures memory { IfErr result (λ why. why ≡ Stop.Memory) }
{
    match derivation_text(alloc, derived) {
        Ok(derivation_bytes) => match text(alloc, derived) {
            Ok(program_bytes) => Ok(Work::Save {
                derivation,
                program,
                derivation_bytes,
                program_bytes,
            }),
            Err(_) => Err(Stop::Memory),
        },
        Err(_) => Err(Stop::Memory),
    }
}

/// Derives the two texts for a theory by the script.
fn derive_theory<'a, S: Store>(
    alloc: Global,
    store: &mut S,
    theory: &Theory,
    script: &str,
    derivation: &'a str,
    program: &'a str,
) -> Result<Work<'a>, Stop>
    requires theory { IsRead (plain_theory theory.now) }
    requires apart { derivation.now ≢ program.now }
    ensures ready { IfOk result IsReady }
    ensures outcome { Outcomes (S.held store.old) plain_work result (λ files. derive_theory files script.now derivation.now program.now (plain_theory theory.now)) }
    ensures suits { IfOk result (λ w. Suits (derive [] script.now derivation.now program.now) (plain_work w)) }
    ensures held { S.held store.new ≡ S.held store.old }
    ensures failed { IsErrOf result Stop.Failed → Rose (S.faults store.old script.now) (S.faults store.new script.now) }
    ensures still { OnFalse (has_failed result) (S.faults store.new ≡ S.faults store.old) }
    ensures later { NeverFall (S.faults store.old) (S.faults store.new) }
    ensures fits { IsErrOf result Stop.Usage → ⊥ }
{
    let derived = script_program(alloc, store, theory, script)?;
    saving(alloc, &derived, derivation, program)
}

fn derive_work<'a, S: Store>(
    alloc: Global,
    store: &mut S,
    theory: &str,
    script: &str,
    derivation: &'a str,
    program: &'a str,
) -> Result<Work<'a>, Stop>
    requires { derivation.now ≢ program.now }
    ensures ready { IfOk result IsReady }
    ensures outcome { Outcomes (S.held store.old) plain_work result (λ files. derive_work files theory.now script.now derivation.now program.now) }
    ensures suits { IfOk result (λ w. Suits (derive theory.now script.now derivation.now program.now) (plain_work w)) }
    ensures held { S.held store.new ≡ S.held store.old }
    ensures failed { IsErrOf result Stop.Failed → DeriveRose (S.held store.old) (S.faults store.old) (S.faults store.new) theory.now script.now }
    ensures still { OnFalse (has_failed result) (S.faults store.new ≡ S.faults store.old) }
    ensures later { NeverFall (S.faults store.old) (S.faults store.new) }
    ensures fits { IsErrOf result Stop.Usage → ⊥ }
{
    let theory = theory_stage(alloc, store, theory)?;
    derive_theory(alloc, store, &theory, script, derivation, program)
}

/// What a command is to do. The first refusal in the order of the files is answered.
pub fn work_of<'a, S: Store>(
    alloc: Global,
    store: &mut S,
    command: &Command<'a>,
) -> Result<Work<'a>, Stop>
    requires { IsUsable (plain_command command.now) }
    ensures outcome { Outcomes (S.held store.old) plain_work result (λ files. work_of (plain_command command.now) files) }
    ensures ready { IfOk result IsReady }
    ensures suits { IfOk result (λ w. Suits (plain_command command.now) (plain_work w)) }
    ensures held { S.held store.new ≡ S.held store.old }
    ensures failed { IsErrOf result Stop.Failed → WorkRose (plain_command command.now) (S.held store.old) (S.faults store.old) (S.faults store.new) }
    ensures still { OnFalse (has_failed result) (S.faults store.new ≡ S.faults store.old) }
    ensures later { NeverFall (S.faults store.old) (S.faults store.new) }
    ensures fits { IsErrOf result Stop.Usage → ⊥ }
{
    match *command {
        Command::Derive {
            theory,
            script,
            derivation,
            program,
        } => derive_work(alloc, store, theory, script, derivation, program),
        Command::Run {
            program,
            inputs,
            fuel,
        } => run_work(alloc, store, program, inputs, fuel),
        Command::Solve {
            theory,
            script,
            inputs,
            fuel,
        } => solve_work(alloc, store, theory, script, inputs, fuel),
    }
}
