ghost use Rattle.std.specs.Prelude.{◌≡◌, ◌≤◌, ◌++◌, IfOk, OnOk, IsErrOf, option_map};
ghost use Rattle.std.specs.Bool.{OnFalse};
ghost use Rattle.kid_outer.specs.Causes.{Rose};
ghost use Rattle.kid_outer.specs.Written.{AppendsPrefix};
ghost use Rattle.kid_prog.specs.ProgramView.{plain_program};
ghost use Rattle.kid_prog.specs.Rules.{IsRunnable};
ghost use Rattle.kid_run.specs.Failed.{put_failed};
ghost use Rattle.kid_run.specs.InputReading.{envs_of, AllFit};
ghost use Rattle.kid_run.specs.Lines.{run_text};
ghost use Rattle.kid_run.specs.Reporting.{report_of};
ghost use Rattle.kid_run.specs.declared.runner.RunFault.TheVariants as run_fault;

use crate::inputs::Inputs;
use crate::printed::run_input;
use crate::put::put_lines;
use crate::report::Report;
use kid_outer::Sink;
use kid_prog::Program;
use std::alloc::{AllocFailed, Global};
use thiserror::Error;

/// Why a run stops before its end.
#[derive(Debug, Clone, Copy, PartialEq, Eq, Error)]
pub enum RunFault {
    #[error("the output failed")]
    PutFailed,
    #[error("out of memory")]
    Memory,
}

impl From<kid_value::Memory> for RunFault {
    ghost from_gives = { λ _ fault. fault ≡ run_fault.Memory };

    fn from(_error: kid_value::Memory) -> RunFault {
        RunFault::Memory
    }
}

impl<T: Drop> From<AllocFailed<T>> for RunFault {
    ghost from_gives = { λ _ fault. fault ≡ run_fault.Memory };

    fn from(_error: AllocFailed<T>) -> RunFault {
        RunFault::Memory
    }
}

/// Runs a program on each input in order, with so much fuel for each, of which each call of the search procedure takes one.
/// Where the program wants so many values, a run has come to its end once it has found them. Puts a line for each value that is
/// found, and then one that closes the run: `(answers K splits C)`, or `(fuel N)` where the fuel ran out. For an input that does
/// not meet the input condition it puts `(outside)`. Each line is one put.
///
/// # Errors
///
/// `PutFailed`: a put failed, which the sink's count shows; after any other end the count is what it was. `Memory`: memory is
/// wanting. A front of the text was put then.
pub fn run<O: Sink>(
    alloc: Global,
    program: &Program,
    inputs: &Inputs,
    fuel: u64,
    out: &mut O,
) -> Result<Report, RunFault>
    requires runnable { IsRunnable (plain_program program.now) }
    requires fit { AllFit (plain_program program.now).inputs inputs.now }
    ensures report { IfOk result (λ r. r.entries.items ≡ report_of (plain_program program.now) fuel (envs_of (plain_program program.now).inputs inputs.now)) }
    ensures text { OnOk result (O.written out.new ≡ option_map (λ w. w ++ run_text (plain_program program.now) fuel (envs_of (plain_program program.now).inputs inputs.now)) (O.written out.old)) }
    ensures front { AppendsPrefix (run_text (plain_program program.now) fuel (envs_of (plain_program program.now).inputs inputs.now)) (O.written out.old) (O.written out.new) }
    ensures failed { IsErrOf result RunFault.PutFailed → Rose (O.faults out.old) (O.faults out.new) }
    ensures still { OnFalse (put_failed result) (O.faults out.new ≡ O.faults out.old) }
    ensures later { O.faults out.old ≤ O.faults out.new }
{
    let mut entries = Vec::new(alloc);
    for input in inputs.items() {
        let printed = run_input(alloc, program, input, fuel)?;
        entries.push(printed.entry)?;
        put_lines(alloc, out, &printed.lines)?;
    }
    Ok(Report { entries })
}
