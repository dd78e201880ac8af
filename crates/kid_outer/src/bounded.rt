//! Reading up to a limit.
ghost use Rattle.std.specs.Prelude.{◌≡◌, ◌≢◌, ◌+◌, ◌-◌, ◌^◌, ◌<◌, ◌≤◌, take, nat_lt, length, Some, None, option_map, if◌then◌else◌, IfOk, IfSome, OnErr};
ghost use Rattle.std.specs.Io.{ReadsAtMost};
ghost use Rattle.std.specs.Io.KnownBytes.{Consumes, IsAtEnd, Keeps};
ghost use Rattle.kid_outer.specs.Taken.{TakesAtMost};

use std::alloc::Global;
use std::io::{self, ErrorKind, Read};

/// The most bytes that one read asks for.
const CHUNK: usize = 65536;

/// Room for a read of that many bytes.
fn room_for(alloc: Global, count: usize) -> io::Result<Vec<u8>>
    ensures { IfOk result (λ room. length room.items ≡ count) }
{
    Ok(vec![in alloc; 0u8; count]?)
}

/// One read, made again where a signal broke it off. It fills a front of the room, and answers how long that is: 0 just
/// at the end of what there is, where there is room. At an error nothing was taken.
fn read_some<R: Read>(reader: &mut R, room: &mut [u8]) -> io::Result<usize>
    ensures bound { ReadsAtMost result room.new }
    ensures room { length room.new ≡ length room.old }
    ensures ok { IfOk result (λ n. Consumes (R.remaining reader.old) (R.remaining reader.new) (take n room.new)) }
    ensures end { IfOk result (λ n. n ≡ 0 → 0 < length room.old → IsAtEnd (R.remaining reader.new)) }
    ensures err { OnErr result (Keeps (R.remaining reader.old) (R.remaining reader.new)) }
{
    for _ in 0..u64::MAX {
        match reader.read(room) {
            Ok(count) => return Ok(count),
            Err(error) => {
                if error.kind() != ErrorKind::Interrupted {
                    return Err(error);
                }
            }
        }
    }
    Err(io::Error::from(ErrorKind::TimedOut))
}

/// All bytes that are left in the reader, or `None` where they are more than the limit. No more than one byte beyond the
/// limit is taken from it, whatever the answer.
pub fn read_within<R: Read>(
    reader: &mut R,
    alloc: Global,
    limit: u64,
) -> io::Result<Option<Vec<u8>>>
    ensures within { IfOk result (λ found. IfSome found (λ bytes. length bytes.items ≤ limit)) }
    ensures whole { IfOk result (λ found. IfSome (R.remaining reader.old)
        (λ left. option_map (λ bytes. bytes.items) found ≡ (if nat_lt limit (length left) then None else Some left))) }
    ensures taken { TakesAtMost (limit + 1) (R.remaining reader.old) (R.remaining reader.new) }
{
    let mut bytes = Vec::new(alloc);
    let mut room = room_for(alloc, CHUNK)?;
    for _ in 0..u64::MAX {
        let beyond = (limit - bytes.len() as u64).saturating_add(1);
        room.truncate(beyond.min(CHUNK as u64) as usize);
        let count = read_some(reader, room.as_mut_slice())?;
        if count == 0 {
            return Ok(Some(bytes));
        }
        bytes.extend_from_slice(&room[..count])?;
        if bytes.len() as u64 > limit {
            return Ok(None);
        }
    }
    Err(io::Error::from(ErrorKind::TimedOut))
}
