//! The work of a command is done.
ghost use Rattle.std.specs.Prelude.{◌≡◌, ◌⊎◌, IfErr, IfOk, IsErrOf};
ghost use Rattle.std.specs.Bool.{OnFalse};
ghost use Rattle.kid_prog.specs.ProgramView.{plain_program};
ghost use Rattle.kid_prog.specs.Rules.{IsRunnable};
ghost use Rattle.kid_run.specs.InputReading.{envs_of, AllFit};
ghost use Rattle.kid_run.specs.Reporting.{report_of};
ghost use Rattle.kid_top.specs.Failed.{has_failed, NoneFailed};
ghost use Rattle.kid_top.specs.WorkView.{plain_work, IsReady};
ghost use Rattle.kid_top.specs.Finishing.{Finishes, FinishRose, FinishFront, FinishKeeps, FinishWhole, ran_out, report_status};
ghost use Rattle.kid_top.specs.Saves.{IsLateStop};

use crate::save::save_both;
use crate::stop::Stop;
use crate::work::Work;
use kid_outer::{Sink, Store};
use kid_run::{Outcome, RunEntry, RunFault, run};
use std::alloc::Global;

/// Whether the fuel ran out.
fn ran_out(outcome: Outcome) -> bool
    ensures { result ≡ ran_out outcome }
{
    match outcome {
        Outcome::Fuel => true,
        Outcome::Done | Outcome::Outside => false,
    }
}

/// The status of runs: 4 where the fuel ran out for one.
fn report_status(entries: &[RunEntry]) -> u8
    ensures { result ≡ report_status entries.now }
{
    for entry in entries {
        if ran_out(entry.outcome) {
            return 4;
        }
    }
    0
}

/// Does the work, and answers the status.
pub fn finish<S: Store, O: Sink>(
    alloc: Global,
    store: &mut S,
    out: &mut O,
    work: &Work,
) -> Result<u8, Stop>
    requires { IsReady work.now }
    ensures done { IfOk result (λ status. Finishes (plain_work work.now) status (O.written out.old) (O.written out.new) (S.held store.old) (S.held store.new)) }
    ensures late { IfErr result IsLateStop }
    ensures failed { IsErrOf result Stop.Failed → FinishRose (plain_work work.now) (S.faults store.old) (S.faults store.new) (O.faults out.old) (O.faults out.new) }
    ensures still { OnFalse (has_failed result) (NoneFailed (S.faults store.old) (S.faults store.new) (O.faults out.old) (O.faults out.new)) }
    ensures front { FinishFront (plain_work work.now) (O.written out.old) (O.written out.new) }
    ensures kept { FinishKeeps (plain_work work.now) (S.held store.old) (S.held store.new) }
    ensures whole { FinishWhole (plain_work work.now) (S.faults store.old) (S.faults store.new) (S.held store.old) (S.held store.new) }
{
    match work {
        Work::Run {
            program,
            inputs,
            fuel,
        } => match run(alloc, program, inputs, *fuel, out) {
            Ok(report) => Ok(report_status(&report.entries)),
            Err(RunFault::PutFailed) => Err(Stop::Failed),
            Err(RunFault::Memory) => Err(Stop::Memory),
        },
        Work::Save {
            derivation,
            program,
            derivation_bytes,
            program_bytes,
        } => {
            save_both(
                alloc,
                store,
                derivation,
                program,
                derivation_bytes,
                program_bytes,
            )?;
            Ok(0)
        }
    }
}
