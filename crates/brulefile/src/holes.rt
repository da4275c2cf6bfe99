//! The holes of a rule.
use bmatch::{ROOT, Sort};
use bword::Name;
use std::alloc::{AllocError, Global};

/// The names of a rule's holes, or of a condition's own, with their numbers.
#[derive(Drop)]
pub(crate) struct Holes {
    names: Vec<(Name, u8)>,
    // The number of the next one.
    next: u8,
}

impl Holes {
    pub(crate) fn new(alloc: Global) -> Self {
        Holes {
            names: Vec::new(alloc),
            next: 0,
        }
    }

    /// The number of a hole, which gets one where it comes first; none if it is one too many.
    pub(crate) fn number(&mut self, name: Name) -> Result<Option<u8>, AllocError> {
        if name.as_bytes() == b"root".as_slice() {
            return Ok(Some(ROOT));
        }
        let known = self.find(name);
        if known.is_some() {
            return Ok(known);
        }
        let number = self.next;
        if number >= ROOT {
            return Ok(None);
        }
        self.names.push((name, number))?;
        self.next = number + 1;
        Ok(Some(number))
    }

    fn find(&self, name: Name) -> Option<u8> {
        for (known, number) in self.names.as_slice() {
            if *known == name {
                return Some(*number);
            }
        }
        None
    }
}

/// The sort of this name.
pub(crate) fn sort_of(word: &[u8]) -> Option<Sort> {
    match word {
        b"name" => Some(Sort::Name),
        b"num" => Some(Sort::Number),
        b"chr" => Some(Sort::Character),
        b"const" => Some(Sort::Constant),
        b"str" => Some(Sort::Text),
        _ => None,
    }
}
