//! Files, by their names.
ghost use Rattle.std.specs.Prelude.{◌≡◌, IfOk, IfErr};
ghost use Rattle.bcore.specs.Shelves.{Holdings, IsWhole, holding, opened};

use std::alloc::Global;
use std::fs::File;
use std::io::{self, ErrorKind, Read};
use std::rt::Files;

/// Why a file was not read.
#[derive(Clone, Copy)]
pub enum FileFault {
    /// It can't be opened or read.
    Device,
    /// There was no memory for its bytes.
    Memory,
}

/// Files, by their names.
pub trait Shelf {
    // What is known of them.
    ghost holdings: { Self → Holdings };

    /// All bytes of the file of a name.
    ///
    /// # Errors
    ///
    /// `Device` if it can't be opened or read, and `Memory` if there is no memory for its bytes.
    fn read(&self, alloc: Global, name: &str) -> Result<Vec<u8>, FileFault>
        ensures text { IfOk result (λ text. Holdings.holds (holdings self.now) name.now text.items) }
        ensures fault { IfErr result (λ fault. fault ≡ FileFault.Device
            → Holdings.lacks (holdings self.now) name.now) };
}

/// The files of the system. No contract says what they hold, or which names they have.
#[derive(Drop)]
pub struct SystemFiles<'a, R> {
    pub rt: &'a R,
}

impl<R: AllocGlobal + Files> Shelf for SystemFiles<'_, R> {
    ghost holdings = { λ _. opened R.File.remaining };

    /// All bytes of a file that was opened. No contract of the system says that it has this name.
    fn read(&self, _alloc: Global, name: &str) -> Result<Vec<u8>, FileFault> {
        match read_file(self.rt, name) {
            Ok(text) => Ok(text),
            Err(error) if error.kind() == ErrorKind::OutOfMemory => Err(FileFault::Memory),
            Err(_) => Err(FileFault::Device),
        }
    }
}

fn read_file<R: AllocGlobal + Files>(rt: &R, name: &str) -> io::Result<Vec<u8>>
    ensures { IfOk result (λ text. IsWhole R.File.remaining text.items) }
{
    let mut file = File::open(rt, name)?;
    let mut text = Vec::new(rt.alloc());
    file.read_to_end(&mut text)?;
    Ok(text)
}

/// One file in memory.
#[derive(Clone, Copy)]
pub struct MemFile<'a> {
    pub name: &'a str,
    pub text: &'a [u8],
}

impl Shelf for MemFile<'_> {
    ghost holdings = { holding };

    fn read(&self, alloc: Global, name: &str) -> Result<Vec<u8>, FileFault> {
        if name != self.name {
            return Err(FileFault::Device);
        }
        match Vec::from_slice(alloc, self.text) {
            Ok(text) => Ok(text),
            Err(_) => Err(FileFault::Memory),
        }
    }
}
