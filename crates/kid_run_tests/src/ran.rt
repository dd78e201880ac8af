//! Runs of a program's text on the text of its inputs. `None` is want of memory, or a text that does not read.
ghost use Rattle.kid_prog.specs.ProgramView.{plain_program};
ghost use Rattle.kid_prog.specs.Rules.{IsRunnable};
ghost use Rattle.kid_run.specs.InputReading.{AllFit};

use kid_outer::{MemorySink, SteadySink};
use kid_prog::{Program, load};
use kid_run::{Inputs, Report, RunFault, read_inputs, run};
use std::alloc::Global;

/// What a run put, and what it reported.
#[derive(Drop)]
pub struct Ran {
    pub out: SteadySink,
    pub report: Report,
}

fn ran_on(alloc: Global, program: &Program, inputs: &Inputs, fuel: u32) -> Option<Ran>
    requires runnable { IsRunnable (plain_program program.now) }
    requires fit { AllFit (plain_program program.now).inputs inputs.now }
{
    let mut out = SteadySink::new(alloc);
    match run(alloc, program, inputs, u64::from(fuel), &mut out) {
        Ok(report) => Some(Ran { out, report }),
        Err(_) => None,
    }
}

fn ran_over(alloc: Global, program: &Program, inputs: &str, fuel: u32) -> Option<Ran>
    requires { IsRunnable (plain_program program.now) }
{
    match read_inputs(alloc, program, inputs.as_bytes()) {
        Ok(inputs) => ran_on(alloc, program, &inputs, fuel),
        Err(_) => None,
    }
}

/// The run with so much fuel.
pub fn run_within(alloc: Global, program: &str, inputs: &str, fuel: u32) -> Option<Ran> {
    match load(alloc, program.as_bytes()) {
        Ok(program) => ran_over(alloc, &program, inputs, fuel),
        Err(_) => None,
    }
}

/// What was put on a sink one of whose puts may fail, and why the run stopped.
#[derive(Drop)]
pub struct Stopped {
    pub out: MemorySink,
    pub fault: Option<RunFault>,
}

fn stopped_on(alloc: Global, program: &Program, inputs: &Inputs, sink: MemorySink) -> Stopped
    requires runnable { IsRunnable (plain_program program.now) }
    requires fit { AllFit (plain_program program.now).inputs inputs.now }
{
    let mut out = sink;
    let fault = run(alloc, program, inputs, 1000, &mut out).err();
    Stopped { out, fault }
}

fn stopped_over(alloc: Global, program: &Program, inputs: &str, sink: MemorySink) -> Option<Stopped>
    requires { IsRunnable (plain_program program.now) }
{
    match read_inputs(alloc, program, inputs.as_bytes()) {
        Ok(inputs) => Some(stopped_on(alloc, program, &inputs, sink)),
        Err(_) => None,
    }
}

fn failing(alloc: Global, put: u64, kept: u64) -> Option<MemorySink> {
    let mut failing = Vec::new(alloc);
    failing.push((put, kept)).ok()?;
    Some(MemorySink::new(alloc, failing))
}

fn stopped_with(
    alloc: Global,
    program: &str,
    inputs: &str,
    sink: Option<MemorySink>,
) -> Option<Stopped> {
    match (load(alloc, program.as_bytes()), sink) {
        (Ok(program), Some(sink)) => stopped_over(alloc, &program, inputs, sink),
        _ => None,
    }
}

/// The run over a sink whose put of this number fails after it kept so many bytes.
pub fn run_failing(
    alloc: Global,
    program: &str,
    inputs: &str,
    put: u64,
    kept: u64,
) -> Option<Stopped> {
    stopped_with(alloc, program, inputs, failing(alloc, put, kept))
}
