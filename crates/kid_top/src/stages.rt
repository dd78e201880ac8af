//! What each file of a command gives. Want of memory and a failure aside, the files that are held decide it.
ghost use Rattle.std.specs.Prelude.{◌≡◌, IfOk, IsErrOf, option_map};
ghost use Rattle.std.specs.Bool.{OnFalse};
ghost use Rattle.kid_outer.specs.Causes.{Rose, NeverFall};
ghost use Rattle.kid_kernel.specs.TheoryView.{plain_theory};
ghost use Rattle.kid_theory.specs.IsRead.{IsRead};
ghost use Rattle.kid_theory.specs.Reading.{theory_reading};
ghost use Rattle.kid_prog.specs.ProgramView.{plain_program};
ghost use Rattle.kid_prog.specs.Loading.{loading};
ghost use Rattle.kid_prog.specs.Rules.{IsRunnable};
ghost use Rattle.kid_run.specs.InputReading.{inputs_reading, envs_of, AllFit};
ghost use Rattle.kid_top.specs.Failed.{has_failed};
ghost use Rattle.kid_top.specs.Files.{script_file};
ghost use Rattle.kid_top.specs.Outcome.{load_stage, stage, theory_or, theory_stage, program_or, program_stage, inputs_or, inputs_stage, Outcomes, Comes};

use crate::files::script_file;
use crate::refusal::Refusal;
use crate::stop::Stop;
use kid_kernel::Theory;
use kid_outer::{LoadAnswer, Store};
use kid_prog::{LoadCode, LoadFault, Program};
use kid_run::{InputFault, Inputs, read_inputs};
use kid_theory::{TheoryCode, TheoryFault, read_theory};
use std::alloc::Global;

/// A file has no more bytes.
const MAX_FILE: u64 = 4194304;

/// The bytes of a file, and None where there are too many.
fn load<S: Store>(
    alloc: Global,
    store: &mut S,
    name: &str,
    file: u8,
) -> Result<Option<Vec<u8>>, Stop>
    ensures outcome { Outcomes (S.held store.old) (option_map (λ bytes. bytes.items)) result (λ files. load_stage file (files name.now)) }
    ensures held { S.held store.new ≡ S.held store.old }
    ensures failed { IsErrOf result Stop.Failed → Rose (S.faults store.old name.now) (S.faults store.new name.now) }
    ensures still { OnFalse (has_failed result) (S.faults store.new ≡ S.faults store.old) }
    ensures later { NeverFall (S.faults store.old) (S.faults store.new) }
    ensures fits { IsErrOf result Stop.Usage → ⊥ }
{
    match store.load(alloc, name, MAX_FILE) {
        Ok(bytes) => Ok(Some(bytes)),
        Err(LoadAnswer::Failed) => Err(Stop::Failed),
        Err(LoadAnswer::Absent) => Err(Stop::Absent(file)),
        Err(LoadAnswer::Large) => Ok(None),
        Err(LoadAnswer::Memory) => Err(Stop::Memory),
    }
}

/// The theory that the bytes spell.
fn theory_from(alloc: Global, bytes: &[u8]) -> Result<Theory, Stop>
    ensures comes { Comes plain_theory result (theory_or (theory_reading bytes.now)) }
    ensures theory { IfOk result (λ t. IsRead (plain_theory t)) }
    ensures failed { IsErrOf result Stop.Failed → ⊥ }
    ensures fits { IsErrOf result Stop.Usage → ⊥ }
{
    match read_theory(alloc, bytes) {
        Ok(theory) => Ok(theory),
        Err(
            TheoryFault {
                code: TheoryCode::Memory,
                ..
            },
        ) => Err(Stop::Memory),
        Err(fault) => Err(Stop::Theory(fault)),
    }
}

/// The theory that the first file spells.
pub fn theory_stage<S: Store>(alloc: Global, store: &mut S, name: &str) -> Result<Theory, Stop>
    ensures outcome { Outcomes (S.held store.old) plain_theory result (λ files. theory_stage 1 (files name.now)) }
    ensures theory { IfOk result (λ t. IsRead (plain_theory t)) }
    ensures held { S.held store.new ≡ S.held store.old }
    ensures failed { IsErrOf result Stop.Failed → Rose (S.faults store.old name.now) (S.faults store.new name.now) }
    ensures still { OnFalse (has_failed result) (S.faults store.new ≡ S.faults store.old) }
    ensures later { NeverFall (S.faults store.old) (S.faults store.new) }
    ensures fits { IsErrOf result Stop.Usage → ⊥ }
{
    let Some(bytes) = load(alloc, store, name, 1)? else {
        return Err(Stop::Theory(TheoryFault {
            form: 0,
            code: TheoryCode::Large,
        }));
    };
    theory_from(alloc, &bytes)
}

/// Whether the second file spells the script.
pub fn script_stage<S: Store>(alloc: Global, store: &mut S, name: &str) -> Result<(), Stop>
    ensures outcome { Outcomes (S.held store.old) (λ u. u) result (λ files. stage 2 script_file (files name.now)) }
    ensures held { S.held store.new ≡ S.held store.old }
    ensures failed { IsErrOf result Stop.Failed → Rose (S.faults store.old name.now) (S.faults store.new name.now) }
    ensures still { OnFalse (has_failed result) (S.faults store.new ≡ S.faults store.old) }
    ensures later { NeverFall (S.faults store.old) (S.faults store.new) }
    ensures fits { IsErrOf result Stop.Usage → ⊥ }
{
    let Some(bytes) = load(alloc, store, name, 2)? else {
        return Err(Stop::Unbuilt(2));
    };
    match script_file(alloc, &bytes) {
        Ok(()) => Ok(()),
        Err(Refusal::Unbuilt) => Err(Stop::Unbuilt(2)),
        Err(Refusal::Memory) => Err(Stop::Memory),
    }
}

/// The program that the bytes spell.
fn program_from(alloc: Global, bytes: &[u8]) -> Result<Program, Stop>
    ensures comes { Comes plain_program result (program_or (loading bytes.now)) }
    ensures runnable { IfOk result (λ p. IsRunnable (plain_program p)) }
    ensures failed { IsErrOf result Stop.Failed → ⊥ }
    ensures fits { IsErrOf result Stop.Usage → ⊥ }
{
    match kid_prog::load(alloc, bytes) {
        Ok(program) => Ok(program),
        Err(
            LoadFault {
                code: LoadCode::Memory,
                ..
            },
        ) => Err(Stop::Memory),
        Err(fault) => Err(Stop::Program(fault)),
    }
}

/// The program that the first file spells.
pub fn program_stage<S: Store>(alloc: Global, store: &mut S, name: &str) -> Result<Program, Stop>
    ensures outcome { Outcomes (S.held store.old) plain_program result (λ files. program_stage 1 (files name.now)) }
    ensures runnable { IfOk result (λ p. IsRunnable (plain_program p)) }
    ensures held { S.held store.new ≡ S.held store.old }
    ensures failed { IsErrOf result Stop.Failed → Rose (S.faults store.old name.now) (S.faults store.new name.now) }
    ensures still { OnFalse (has_failed result) (S.faults store.new ≡ S.faults store.old) }
    ensures later { NeverFall (S.faults store.old) (S.faults store.new) }
    ensures fits { IsErrOf result Stop.Usage → ⊥ }
{
    let Some(bytes) = load(alloc, store, name, 1)? else {
        return Err(Stop::Program(LoadFault {
            form: 0,
            code: LoadCode::Large,
        }));
    };
    program_from(alloc, &bytes)
}

/// The inputs that the bytes spell.
fn inputs_from(alloc: Global, program: &Program, bytes: &[u8]) -> Result<Inputs, Stop>
    ensures comes { Comes (envs_of (plain_program program.now).inputs) result (inputs_or (plain_program program.now).inputs (inputs_reading (plain_program program.now).inputs bytes.now)) }
    ensures fit { IfOk result (λ inputs. AllFit (plain_program program.now).inputs inputs) }
    ensures failed { IsErrOf result Stop.Failed → ⊥ }
    ensures fits { IsErrOf result Stop.Usage → ⊥ }
{
    match read_inputs(alloc, program, bytes) {
        Ok(inputs) => Ok(inputs),
        Err(InputFault::Form(number)) => Err(Stop::Inputs(number)),
        Err(InputFault::Memory) => Err(Stop::Memory),
    }
}

/// The inputs of a program that the file with this number spells.
pub fn inputs_stage<S: Store>(
    alloc: Global,
    store: &mut S,
    program: &Program,
    name: &str,
    file: u8,
) -> Result<Inputs, Stop>
    ensures outcome { Outcomes (S.held store.old) (envs_of (plain_program program.now).inputs) result (λ files. inputs_stage file (plain_program program.now).inputs (files name.now)) }
    ensures fit { IfOk result (λ inputs. AllFit (plain_program program.now).inputs inputs) }
    ensures held { S.held store.new ≡ S.held store.old }
    ensures failed { IsErrOf result Stop.Failed → Rose (S.faults store.old name.now) (S.faults store.new name.now) }
    ensures still { OnFalse (has_failed result) (S.faults store.new ≡ S.faults store.old) }
    ensures later { NeverFall (S.faults store.old) (S.faults store.new) }
    ensures fits { IsErrOf result Stop.Usage → ⊥ }
{
    let Some(bytes) = load(alloc, store, name, file)? else {
        return Err(Stop::Inputs(0));
    };
    inputs_from(alloc, program, &bytes)
}
