ghost use Rattle.std.specs.Prelude.{◌≡◌, ◌⊎◌};
ghost use Rattle.kid_top.specs.Stops.{status_of, Complains, ComplainsFront};
ghost use Rattle.kid_top.specs.Said.{HasNotRisen};

use crate::stop::Stop;
use kid_outer::{PutAnswer, Sink};
use std::alloc::Global;

/// Says why a call did not do its work, and answers the status. A failure of err is ignored; a front of the line may then have
/// been put.
pub fn complain<E: Sink>(alloc: Global, err: &mut E, stop: Stop) -> u8
    ensures status { (result ≡ status_of stop) ⊎ (result ≡ 1) }
    ensures said { HasNotRisen (E.faults err.old) (E.faults err.new) → Complains stop result (E.written err.old) (E.written err.new) }
    ensures front { ComplainsFront stop result (E.written err.old) (E.written err.new) }
{
    let Ok(text) = stop.text(alloc) else {
        return Stop::Memory.status();
    };
    match err.put(alloc, text.as_bytes()) {
        Ok(()) | Err(PutAnswer::Failed) => stop.status(),
        Err(PutAnswer::Memory) => Stop::Memory.status(),
    }
}
