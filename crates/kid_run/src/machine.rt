//! The run of one input.
ghost use Rattle.std.specs.Prelude.{◌≡◌, ◌+◌, ◌∷◌, ◌++◌, [], true, IfOk, OnOk, map, length, option_map};
ghost use Rattle.kid_value.specs.ValueView.{plain};
ghost use Rattle.kid_codec.specs.ValueSpelling.{is_spelled_value};
ghost use Rattle.kid_term.specs.Eval.{bound};
ghost use Rattle.kid_term.specs.Fitting.{Fits};
ghost use Rattle.kid_prog.specs.ProgramView.{plain_program};
ghost use Rattle.kid_prog.specs.Rules.{IsRunnable};
ghost use Rattle.kid_run.specs.Account.{account, ending, Advances};
ghost use Rattle.kid_run.specs.Frames.{entered};
ghost use Rattle.kid_run.specs.FrameView.{plain_machine};
ghost use Rattle.kid_run.specs.Lines.{value_line, shown};
ghost use Rattle.kid_prog.specs.Running.{run_of};
ghost use Rattle.kid_run.specs.Scope.{MachineCanRun};
ghost use Rattle.kid_run.specs.Wanted.{after_one};

use crate::frame::{Machine, keep, keep_caller};
use crate::lines::value_line;
use crate::moves::{Move, step};
use crate::scope::{input_env, push_all};
use crate::tally::Tally;
use kid_prog::Program;
use kid_value::{Memory, Value};
use std::alloc::Global;
use std::mem;

/// A run that has ended, and whether it came to its end.
#[derive(Drop)]
pub struct Ended {
    pub tally: Tally,
    pub whole: bool,
}

/// Counts a value that was found.
fn count(alloc: Global, tally: &mut Tally, value: Value) -> Result<(), Memory>
    requires { is_spelled_value (plain value) ≡ true }
    ensures lines { OnOk result (tally.new.lines.items ≡ tally.old.lines.items ++ value_line (plain value) ∷ []) }
    ensures answers { OnOk result (tally.new.answers ≡ shown (tally.old.answers + 1)) }
    ensures splits { OnOk result (tally.new.splits ≡ tally.old.splits) }
    ensures wanted { OnOk result (tally.new.wanted ≡ after_one tally.old.wanted) }
{
    let line = value_line(alloc, &value)?;
    tally.add(line)
}

/// Runs to the next call of the search procedure, and gives its arguments. None where nothing is left, or no more values are wanted.
fn advance<'a>(
    alloc: Global,
    program: &Program,
    machine: &mut Machine<'a>,
    tally: &mut Tally,
) -> Result<Option<Vec<Value>>, Memory>
    requires runs { IsRunnable (plain_program program.now) }
    requires can { MachineCanRun (plain_program program.now) (plain_machine machine.old) }
    ensures advances { IfOk result (λ values. Advances (plain_program program.now) tally.old (plain_machine machine.old) tally.new (plain_machine machine.new) (option_map (λ vs. vs.items) values)) }
    ensures splits { OnOk result (tally.new.splits ≡ tally.old.splits) }
{
    loop {
        if tally.has_all() {
            return Ok(None);
        }
        match step(alloc, program, machine)? {
            Move::Goes => {}
            Move::Finds(value) => count(alloc, tally, value)?,
            Move::Calls(values) => return Ok(Some(values)),
            Move::Ends => return Ok(None),
        }
    }
}

/// Begins a call of the search procedure with as many values as it has parameters.
fn enter<'a>(
    alloc: Global,
    program: &'a Program,
    inputs: &'a [Value],
    values: Vec<Value>,
    machine: &mut Machine<'a>,
) -> Result<(), Memory>
    requires { length values.items ≡ length (plain_program program.now).parameters }
    ensures { OnOk result (plain_machine machine.new ≡ entered (plain_program program.now) (bound (plain_program program.now).inputs (map plain inputs.now)) (map plain values.items) (plain_machine machine.old)) }
{
    let mut env = input_env(alloc, program, inputs);
    push_all(&mut env, program.parameters.items(), values)?;
    keep(&mut machine.frames, machine.stmts, machine.env.len())?;
    let caller = mem::replace(&mut machine.env, env);
    keep_caller(&mut machine.frames, caller)?;
    machine.stmts = program.search.items();
    Ok(())
}

/// Runs a program at an input that meets the input condition, with so much fuel. Where so many values are found as the program
/// wants, the run has come to its end.
///
/// # Errors
///
/// Fails only where memory is wanting.
pub fn run_at<'a>(
    alloc: Global,
    program: &'a Program,
    inputs: &'a [Value],
    fuel: u64,
) -> Result<Ended, Memory>
    requires runs { IsRunnable (plain_program program.now) }
    requires fits { Fits (plain_program program.now).inputs (bound (plain_program program.now).inputs (map plain inputs.now)) }
    ensures { IfOk result (λ e. ending e.tally e.whole ≡ account [] 0 0 (run_of (plain_program program.now) (bound (plain_program program.now).inputs (map plain inputs.now)) fuel)) }
{
    let mut machine = Machine {
        env: input_env(alloc, program, inputs),
        stmts: program.main.items(),
        frames: Vec::new(alloc),
    };
    let mut tally = Tally::new(alloc, program.first);
    let mut left = fuel;
    loop {
        let Some(values) = advance(alloc, program, &mut machine, &mut tally)? else {
            return Ok(Ended { tally, whole: true });
        };
        if left == 0 {
            return Ok(Ended {
                tally,
                whole: false,
            });
        }
        left -= 1;
        tally.splits += 1;
        enter(alloc, program, inputs, values, &mut machine)?;
    }
}
