//! Text that is put together in memory.
ghost use Rattle.std.specs.Prelude.{◌≡◌, ◌++◌, [], OnOk, decimal, replicate};
ghost use Rattle.btools.specs.Columns.{left, right};

use itoa::Buffer;
use std::alloc::{AllocError, Global};
use std::marker::Model;

/// As many blanks as are added at a time.
const BLANKS: &[u8] = b"                                                ";

/// A text that grows.
pub struct Text {
    bytes: Vec<u8>,
}

// Not derived: a derived drop is compiled and proved once more in each crate that drops a text.
impl Drop for Text {
    fn drop(self) {
        let Text { bytes: _ } = self;
    }
}

impl Model for Text {
    ghost use Rattle.std.specs.Prelude.{ℕ, List};

    ghost Value = { List ℕ };

    ghost view = { λ t. t.bytes.items };
}

impl Text {
    /// An empty text; it takes no memory yet.
    pub fn new(alloc: Global) -> Self
        ensures { result ≡ [] }
    {
        Text {
            bytes: Vec::new(alloc),
        }
    }

    /// Its bytes.
    pub fn as_slice(&self) -> &[u8]
        ensures { result.now ≡ self.now }
    {
        self.bytes.as_slice()
    }

    /// Takes all bytes away, and keeps the memory for others.
    pub fn clear(&mut self)
        ensures { self.new ≡ [] }
    {
        self.bytes.clear();
    }

    /// Adds these bytes.
    pub fn push(&mut self, bytes: &[u8]) -> Result<(), AllocError>
        ensures { OnOk result (self.new ≡ self.old ++ bytes.now) }
    {
        self.bytes.extend_from_slice(bytes)
    }

    /// Adds the digits of a number.
    pub fn push_number(&mut self, number: u64) -> Result<(), AllocError>
        ensures { OnOk result (self.new ≡ self.old ++ decimal number) }
    {
        self.push(Buffer::new().format(number).as_bytes())
    }

    /// Adds so many blanks.
    pub fn push_blanks(&mut self, count: usize) -> Result<(), AllocError>
        ensures { OnOk result (self.new ≡ self.old ++ replicate count 32) }
    {
        let mut left = count;
        while left > 0 {
            let next = left.min(BLANKS.len());
            self.push(&BLANKS[..next])?;
            left -= next;
        }
        Ok(())
    }

    /// Adds a text at the right of a column, which grows with the text.
    pub fn push_right(&mut self, width: usize, text: &[u8]) -> Result<(), AllocError>
        ensures { OnOk result (self.new ≡ self.old ++ right width text.now) }
    {
        self.push_blanks(width.saturating_sub(text.len()))?;
        self.push(text)
    }

    /// Adds a text at the left of a column, which grows with the text.
    pub fn push_left(&mut self, width: usize, text: &[u8]) -> Result<(), AllocError>
        ensures { OnOk result (self.new ≡ self.old ++ left width text.now) }
    {
        self.push(text)?;
        self.push_blanks(width.saturating_sub(text.len()))
    }

    /// Adds a number at the right of a column.
    pub fn push_right_number(&mut self, width: usize, number: u64) -> Result<(), AllocError>
        ensures { OnOk result (self.new ≡ self.old ++ right width (decimal number)) }
    {
        self.push_right(width, Buffer::new().format(number).as_bytes())
    }
}
