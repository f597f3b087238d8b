//! Bytes that are put on standard output, and where they come.
use super::StandardOutput;
use outside::{PutFault, Sink};
use std::cell::RefCell;
use std::fmt::Display;
use std::io::{self, ErrorKind};
use std::test::Fail;

/// An output that keeps what is written, and has room for so many bytes.
#[derive(Drop)]
struct Recorder {
    bytes: RefCell<Vec<u8>>,
    room: usize,
}

impl Print for Recorder {
    fn print<D: Display + Drop>(&self, _value: D) -> io::Result<()> {
        Err(ErrorKind::Unsupported.into())
    }

    fn println<D: Display + Drop>(&self, _value: D) -> io::Result<()> {
        Err(ErrorKind::Unsupported.into())
    }

    fn write_all(&self, bytes: &[u8]) -> io::Result<()> {
        match self.bytes.try_borrow_mut() {
            Ok(mut kept) if bytes.len() <= self.room.saturating_sub(kept.len()) => {
                Ok(kept.extend_from_slice(bytes)?)
            }
            _ => Err(ErrorKind::WriteZero.into()),
        }
    }
}

/// What is said of a failure isn't kept.
impl Eprint for Recorder {
    fn eprint<D: Display + Drop>(&self, _value: D) -> io::Result<()> {
        Ok(())
    }

    fn eprintln<D: Display + Drop>(&self, _value: D) -> io::Result<()> {
        Ok(())
    }
}

#[test]
fn writes_each_piece_once(rt: HostRuntime) -> Result<(), Fail> {
    let bytes = RefCell::new(Vec::new(rt.alloc()));
    let kept = Recorder { bytes, room: 7 };
    let are_put = pieces_are_put(&kept);
    let written = kept.bytes.into_inner();
    let are_written = written.as_slice() == b"ab\n\xff\0cd".as_slice();
    drop(written);
    assert_eq!(rt; (are_put, are_written), (true, true));
    Ok(())
}

fn pieces_are_put(kept: &Recorder) -> bool {
    let mut output = StandardOutput::new(kept);
    let put = (
        output.put(b"ab\n"),
        output.put(b""),
        output.put(b"\xff\0cd"),
        output.put(b"e"),
    );
    let due = (Ok(()), Ok(()), Ok(()), Err(PutFault::Failed));
    (put, output.faults) == (due, 1)
}

#[test]
fn writes_to_the_system(rt: HostRuntime) {
    let mut output = StandardOutput::new(&rt);
    let put = output.put(b"put by a test\n");
    assert_eq!(rt; (put, output.faults), (Ok(()), 0));
}
