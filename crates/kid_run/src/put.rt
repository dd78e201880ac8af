//! Lines that are put.
ghost use Rattle.std.specs.Prelude.{◌≡◌, ◌≤◌, ◌++◌, OnOk, IsErrOf, option_map};
ghost use Rattle.std.specs.Bool.{OnFalse};
ghost use Rattle.kid_outer.specs.Causes.{Rose};
ghost use Rattle.kid_outer.specs.Written.{AppendsPrefix};
ghost use Rattle.kid_run.specs.Failed.{put_failed};
ghost use Rattle.kid_run.specs.Lines.{text_of};

use crate::runner::RunFault;
use kid_outer::{PutAnswer, Sink};
use kid_value::Text;
use std::alloc::Global;

/// Puts one line. After a failure a front of it may have been put, and after want of memory nothing.
#[tactic(auto, using(crate::proofs::Fronts::front_whole, crate::proofs::Fronts::front_none))]
fn put_line<O: Sink>(alloc: Global, out: &mut O, line: &[u8]) -> Result<(), RunFault>
    ensures ok { OnOk result (O.written out.new ≡ option_map (λ w. w ++ line.now) (O.written out.old)) }
    ensures front { AppendsPrefix line.now (O.written out.old) (O.written out.new) }
    ensures failed { IsErrOf result RunFault.PutFailed → Rose (O.faults out.old) (O.faults out.new) }
    ensures memory { IsErrOf result RunFault.Memory → O.written out.new ≡ O.written out.old }
    ensures still { OnFalse (put_failed result) (O.faults out.new ≡ O.faults out.old) }
    ensures later { O.faults out.old ≤ O.faults out.new }
{
    match out.put(alloc, line) {
        Ok(()) => Ok(()),
        Err(PutAnswer::Failed) => Err(RunFault::PutFailed),
        Err(PutAnswer::Memory) => Err(RunFault::Memory),
    }
}

/// Puts the lines, one after another. After an error a front of them was put.
pub fn put_lines<O: Sink>(alloc: Global, out: &mut O, lines: &[Text]) -> Result<(), RunFault>
    ensures ok { OnOk result (O.written out.new ≡ option_map (λ w. w ++ text_of lines.now) (O.written out.old)) }
    ensures front { AppendsPrefix (text_of lines.now) (O.written out.old) (O.written out.new) }
    ensures failed { IsErrOf result RunFault.PutFailed → Rose (O.faults out.old) (O.faults out.new) }
    ensures still { OnFalse (put_failed result) (O.faults out.new ≡ O.faults out.old) }
    ensures later { O.faults out.old ≤ O.faults out.new }
{
    for line in lines {
        put_line(alloc, out, line.as_slice())?;
    }
    Ok(())
}
