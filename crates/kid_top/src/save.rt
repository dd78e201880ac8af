ghost use Rattle.std.specs.Prelude.{◌≡◌, ◌≢◌, ◌⊎◌, OnOk, IfErr, IsErrOf};
ghost use Rattle.std.specs.Bool.{OnFalse};
ghost use Rattle.kid_outer.specs.Causes.{NeverFall, Rose};
ghost use Rattle.kid_outer.specs.Held.{ChangesOnly};
ghost use Rattle.kid_top.specs.Failed.{has_failed};
ghost use Rattle.kid_top.specs.Saves.{SavesOne, SavesBoth, SavesInOrder, NoneRose, SavesFront, IsLateStop};

use crate::stop::Stop;
use kid_outer::{SaveAnswer, Store};
use std::alloc::Global;

/// Makes a name hold these bytes. Where that is not done and no call on the name failed, it holds what it held.
fn save<S: Store>(alloc: Global, store: &mut S, name: &str, bytes: &[u8]) -> Result<(), Stop>
    ensures ok { OnOk result (SavesOne name.now bytes.now (S.held store.old) (S.held store.new)) }
    ensures others { ChangesOnly name.now (S.held store.old) (S.held store.new) }
    ensures failed { IsErrOf result Stop.Failed → Rose (S.faults store.old name.now) (S.faults store.new name.now) }
    ensures whole { (Rose (S.faults store.old name.now) (S.faults store.new name.now) → ⊥) → IfErr result (λ _. S.held store.new ≡ S.held store.old) }
    ensures late { IfErr result IsLateStop }
    ensures still { OnFalse (has_failed result) (S.faults store.new ≡ S.faults store.old) }
    ensures later { NeverFall (S.faults store.old) (S.faults store.new) }
{
    match store.save(alloc, name, bytes) {
        Ok(()) => Ok(()),
        Err(SaveAnswer::Failed) => Err(Stop::Failed),
        Err(SaveAnswer::Memory) => Err(Stop::Memory),
    }
}

/// Saves the derivation, and then the program. The two names differ. Where the second is not saved the first stays.
pub fn save_both<S: Store>(
    alloc: Global,
    store: &mut S,
    derivation: &str,
    program: &str,
    derivation_bytes: &[u8],
    program_bytes: &[u8],
) -> Result<(), Stop>
    requires { derivation.now ≢ program.now }
    ensures ok { OnOk result (SavesBoth derivation.now program.now derivation_bytes.now program_bytes.now (S.held store.old) (S.held store.new)) }
    ensures kept { SavesInOrder derivation.now program.now derivation_bytes.now (S.held store.old) (S.held store.new) }
    ensures failed { IsErrOf result Stop.Failed → Rose (S.faults store.old derivation.now) (S.faults store.new derivation.now) ⊎ Rose (S.faults store.old program.now) (S.faults store.new program.now) }
    ensures whole { NoneRose derivation.now program.now (S.faults store.old) (S.faults store.new) → SavesFront derivation.now program.now derivation_bytes.now program_bytes.now (S.held store.old) (S.held store.new) }
    ensures late { IfErr result IsLateStop }
    ensures still { OnFalse (has_failed result) (S.faults store.new ≡ S.faults store.old) }
{
    save(alloc, store, derivation, derivation_bytes)?;
    save(alloc, store, program, program_bytes)
}
