//! What is printed and reported of one input.
ghost use Rattle.std.specs.Prelude.{◌≡◌, ◌∷◌, [], IfOk};
ghost use Rattle.kid_term.specs.Eval.{bound};
ghost use Rattle.kid_term.specs.Fitting.{AreOfSorts};
ghost use Rattle.kid_prog.specs.ProgramView.{plain_program};
ghost use Rattle.kid_prog.specs.Rules.{IsRunnable};
ghost use Rattle.kid_run.specs.Account.{account, ending};
ghost use Rattle.kid_run.specs.InputReading.{sorts_of};
ghost use Rattle.kid_run.specs.Lines.{input_lines, run_lines, outside_line};
ghost use Rattle.kid_run.specs.Reporting.{input_entry, run_entry};
ghost use Rattle.kid_prog.specs.Running.{Run};
ghost use Rattle.kid_run.specs.declared.report.Outcome.TheVariants.{Outside};

use crate::lines::{closing_line, fuel_line, outside_line};
use crate::machine::{Ended, run_at};
use crate::moves::value_of;
use crate::read::is_true;
use crate::report::{Outcome, RunEntry};
use crate::scope::input_env;
use kid_prog::Program;
use kid_value::{Memory, Text, Values};
use std::alloc::Global;

/// The lines of an input, and its entry in the report.
#[derive(Drop)]
pub struct Printed {
    pub lines: Vec<Text>,
    pub entry: RunEntry,
}

/// The lines and the entry of a run that has ended.
fn closed(alloc: Global, ended: Ended, fuel: u64) -> Result<Printed, Memory>
    ensures lines { (r : Run) → ending ended.tally ended.whole ≡ account [] 0 0 r → IfOk result (λ p. p.lines.items ≡ run_lines r fuel) }
    ensures entry { (r : Run) → ending ended.tally ended.whole ≡ account [] 0 0 r → IfOk result (λ p. p.entry ≡ run_entry r) }
{
    let Ended { tally, whole } = ended;
    let answers = tally.answers;
    let splits = tally.splits;
    let mut lines = tally.lines;
    if whole {
        lines.push(closing_line(alloc, answers, splits)?)?;
    } else {
        lines.push(fuel_line(alloc, fuel)?)?;
    }
    let outcome = if whole { Outcome::Done } else { Outcome::Fuel };
    Ok(Printed {
        lines,
        entry: RunEntry {
            answers,
            splits,
            outcome,
        },
    })
}

/// The lines and the entry of an input that does not meet the input condition.
fn outside(alloc: Global) -> Result<Printed, Memory>
    ensures lines { IfOk result (λ p. p.lines.items ≡ outside_line ∷ []) }
    ensures entry { IfOk result (λ p. p.entry ≡ record { answers = 0; splits = 0; outcome = Outside }) }
{
    let mut lines = Vec::new(alloc);
    lines.push(outside_line(alloc)?)?;
    Ok(Printed {
        lines,
        entry: RunEntry {
            answers: 0,
            splits: 0,
            outcome: Outcome::Outside,
        },
    })
}

/// Runs a program on one input, with so much fuel.
///
/// # Errors
///
/// Fails only where memory is wanting.
pub fn run_input(
    alloc: Global,
    program: &Program,
    input: &Values,
    fuel: u64,
) -> Result<Printed, Memory>
    requires runs { IsRunnable (plain_program program.now) }
    requires fits { AreOfSorts (sorts_of (plain_program program.now).inputs) input.now }
    ensures lines { IfOk result (λ p. p.lines.items ≡ input_lines (plain_program program.now) fuel (bound (plain_program program.now).inputs input.now)) }
    ensures entry { IfOk result (λ p. p.entry ≡ input_entry (plain_program program.now) fuel (bound (plain_program program.now).inputs input.now)) }
{
    let env = input_env(alloc, program, input.items());
    let condition = value_of(alloc, program, &env, &program.condition)?;
    if !is_true(&condition) {
        return outside(alloc);
    }
    let ended = run_at(alloc, program, input.items(), fuel)?;
    closed(alloc, ended, fuel)
}
