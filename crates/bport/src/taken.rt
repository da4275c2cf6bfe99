//! Names that are taken.
use crate::names::is_reserved;
use crate::source::{Done, Source};
use crate::table::{NONE, filled, hash_of, place_in, put, slot};
use btools::Text;
use std::alloc::{AllocError, Global};

/// How many names of the same first letters are tried for one.
const MOST_TRIES: u64 = 99999;

/// The names of sources, and those that were made.
#[derive(Drop)]
pub(crate) struct Taken {
    alloc: Global,
    names: Vec<Text>,
    /// The places of names, by what their letters come to.
    slots: Vec<usize>,
    /// The last numbers that were tried, by the first letters.
    tried: Vec<usize>,
}

impl Taken {
    /// The names of two sources.
    pub(crate) fn of(
        alloc: Global,
        source: &Source<'_>,
        others: &Source<'_>,
    ) -> Result<Self, AllocError> {
        let count = source.tokens.len().saturating_add(others.tokens.len());
        let size = count.saturating_mul(4).saturating_add(1);
        let mut taken = Taken {
            alloc,
            names: Vec::new(alloc),
            slots: filled(alloc, size)?,
            tried: filled(alloc, size)?,
        };
        taken.keep_all(source)?;
        taken.keep_all(others)?;
        Ok(taken)
    }

    fn keep_all(&mut self, source: &Source<'_>) -> Done {
        for index in 0..source.tokens.len() {
            if slot(source.firsts, index) == index {
                self.keep(source.word(index))?;
            }
        }
        Ok(())
    }

    fn keep(&mut self, name: &[u8]) -> Done {
        let place = place_in(&self.slots, &self.names, name);
        if slot(&self.slots, place) == NONE {
            put(&mut self.slots, place, self.names.len());
            let mut text = Text::new(self.alloc);
            text.push(name)?;
            self.names.push(text)?;
        }
        Ok(())
    }

    fn has(&self, name: &[u8]) -> bool {
        let place = place_in(&self.slots, &self.names, name);
        is_reserved(name) || slot(&self.slots, place) != NONE
    }

    /// A name that nothing has, made of the first letters of one. It is taken then.
    pub(crate) fn short_name(&mut self, word: &[u8]) -> Result<Option<Text>, AllocError> {
        let stem = numbered(self.alloc, word, 1000)?;
        let place = hash_of(stem.as_slice()) % self.tried.len().max(1);
        let from = match slot(&self.tried, place) {
            NONE => 0,
            number => number as u64,
        };
        for number in from..MOST_TRIES {
            let text = numbered(self.alloc, word, number)?;
            if !self.has(text.as_slice()) {
                put(&mut self.tried, place, number as usize);
                self.keep(text.as_slice())?;
                return Ok(Some(text));
            }
        }
        Ok(None)
    }
}

/// How many letters a name has at most.
pub(crate) const NAME_LETTERS: usize = 8;

// The first letters of a word, and a number if it isn't 0.
fn numbered(alloc: Global, word: &[u8], number: u64) -> Result<Text, AllocError> {
    let digits = match number {
        0 => 0,
        1..=9 => 1,
        10..=99 => 2,
        100..=999 => 3,
        1000..=9999 => 4,
        _ => 5,
    };
    let mut text = Text::new(alloc);
    for byte in word {
        if *byte != b'.' && text.as_slice().len().saturating_add(digits) < NAME_LETTERS {
            text.push(&[*byte])?;
        }
    }
    if number > 0 {
        text.push_number(number)?;
    }
    Ok(text)
}
