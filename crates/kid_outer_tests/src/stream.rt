//! Streams of the system, and one that takes little at a time.
use kid_outer::{PutAnswer, Sink, StandardErr, StandardOut, Stream};
use std::io::{self, Write};
use std::test::Fail;

/// Takes two bytes at a time, and nothing once it is full.
#[derive(Drop)]
struct Narrow {
    taken: Vec<u8>,
    room: usize,
}

impl Write for Narrow {
    fn write(&mut self, bytes: &[u8]) -> io::Result<usize> {
        let count = bytes.len().min(2).min(self.room);
        self.taken.extend_from_slice(&bytes[..count])?;
        self.room -= count;
        Ok(count)
    }

    fn flush(&mut self) -> io::Result<()> {
        Ok(())
    }
}

#[test]
fn goes_on_after_a_short_write(rt: HostRuntime) -> Result<(), Fail> {
    let mut narrow = Narrow {
        taken: Vec::new(rt.alloc()),
        room: 7,
    };
    {
        let mut stream = Stream::new(&mut narrow);
        stream.put(rt.alloc(), b"abcde")?;
        assert!(rt; matches!(stream.put(rt.alloc(), b"fgh"), Err(PutAnswer::Failed)));
    }
    assert_eq!(rt; narrow.taken.as_slice(), b"abcdefg".as_slice());
    Ok(())
}

#[test]
fn puts_on_the_standard_streams(rt: HostRuntime) -> Result<(), Fail> {
    let mut out = StandardOut::new(rt.stdout());
    out.put(rt.alloc(), b"on standard output\n")?;
    let mut err = StandardErr::new(rt.stderr());
    err.put(rt.alloc(), b"on standard error\n")?;
    Ok(())
}
