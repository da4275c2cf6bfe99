//! A reader and a writer that fail.
use arrayvec::ArrayVec;
use std::io::{self, ErrorKind, Read, Write};

/// A reader that gives these texts, one a call, and fails at `!`.
#[derive(Drop)]
pub(crate) struct Script<'a> {
    pub(crate) texts: &'a [&'a str],
    pub(crate) calls: usize,
}

impl Read for Script<'_> {
    fn read(&mut self, buf: &mut [u8]) -> io::Result<usize> {
        let text = self.texts.get(self.calls).copied().unwrap_or("");
        self.calls = self.calls.saturating_add(1);
        if text == "!" {
            return Err(io::Error::from(ErrorKind::Interrupted));
        }
        let count = text.len().min(buf.len());
        buf[..count].copy_from_slice(&text.as_bytes()[..count]);
        Ok(count)
    }
}

/// A writer that takes four bytes, one a call, and then none: it fails or says so.
#[derive(Drop)]
pub(crate) struct Narrow {
    pub(crate) bytes: ArrayVec<u8, 4>,
    pub(crate) fails: bool,
}

impl Write for Narrow {
    fn write(&mut self, buf: &[u8]) -> io::Result<usize> {
        let Some(byte) = buf.first() else {
            return Ok(0);
        };
        match self.bytes.try_push(*byte) {
            Ok(()) => Ok(1),
            Err(_) if self.fails => Err(io::Error::from(ErrorKind::Interrupted)),
            Err(_) => Ok(0),
        }
    }

    fn flush(&mut self) -> io::Result<()> {
        Ok(())
    }
}
