//! Ends over a reader and a writer that fail.
use bparse::compile;
use bword::{MemIn, MemOut, Reading, Writing};
use std::alloc::Global;
use std::io::{self, Read, Write};

// A reader that gives some bytes and then fails.
#[derive(Drop)]
struct Cut {
    left: u8,
}

impl Read for Cut {
    fn read(&mut self, buf: &mut [u8]) -> io::Result<usize> {
        if self.left == 0 {
            return Err(io::Error::from(io::ErrorKind::Other));
        }
        self.left -= 1;
        let Some(first) = buf.first_mut() else {
            return Ok(0);
        };
        *first = if self.left % 2 == 0 {
            b';'
        } else {
            b'a'.wrapping_add(self.left)
        };
        Ok(1)
    }
}

#[test]
fn a_read_that_fails_in_mid_stream(rt: HostRuntime) {
    let mut out = MemOut::new(rt.alloc());
    let mut diag = MemOut::new(rt.alloc());
    let mut source = Reading::new(Cut { left: 6 });
    let answer = compile(rt.alloc(), &mut source, &mut out, &mut diag);
    assert_eq!(rt; answer, 133);
    assert_eq!(rt; out.bytes(), b"X f 0 0\nX d 0 0\n".as_slice());
    assert_eq!(rt; diag.bytes().len(), 0);
}

// A writer that takes some bytes and then fails.
#[derive(Drop)]
struct FullWriter {
    room: usize,
    taken: Vec<u8>,
}

fn writer(alloc: Global, room: usize) -> FullWriter {
    FullWriter {
        room,
        taken: Vec::new(alloc),
    }
}

impl Write for FullWriter {
    fn write(&mut self, buf: &[u8]) -> io::Result<usize> {
        let count = buf.len().min(self.room.saturating_sub(self.taken.len()));
        if count == 0 || self.taken.extend_from_slice(&buf[..count]).is_err() {
            return Err(io::Error::from(io::ErrorKind::Other));
        }
        Ok(count)
    }

    fn flush(&mut self) -> io::Result<()> {
        Ok(())
    }
}

#[test]
fn a_write_that_fails_in_mid_stream(rt: HostRuntime) {
    let mut diag = MemOut::new(rt.alloc());
    let mut out = Writing::new(writer(rt.alloc(), 10));
    let answer = compile(rt.alloc(), &mut MemIn::new(b"a;b;"), &mut out, &mut diag);
    assert_eq!(rt; answer, 133);
    assert_eq!(rt;
        out.into_writer().taken.as_slice(),
        b"X a 0 0\nX ".as_slice()
    );
    assert_eq!(rt; diag.bytes().len(), 0);
}

#[test]
fn a_line_that_can_not_be_written(rt: HostRuntime) {
    let mut out = MemOut::new(rt.alloc());
    let mut diag = Writing::new(writer(rt.alloc(), 3));
    let answer = compile(rt.alloc(), &mut MemIn::new(b"a;a;"), &mut out, &mut diag);
    assert_eq!(rt; answer, 133);
    assert_eq!(rt; out.bytes(), b"X a 0 0\n".as_slice());
    assert_eq!(rt; diag.into_writer().taken.as_slice(), b"rd ".as_slice());
}
