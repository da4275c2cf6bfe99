//! Classes of operators in a pattern.
use crate::faults::{FaultReason, Stop};
use crate::text::{count_words, word_at};
use std::alloc::Global;

/// The most choices of operators that a pattern has.
pub(crate) const MOST_CHOICES: usize = 300;

/// A class of operators in a pattern.
#[derive(Clone, Copy)]
pub(crate) struct Class {
    // Where its text stands, without the backquotes.
    begin: usize,
    end: usize,
    // How many operators it has.
    count: usize,
    // How many choices those before it have together.
    weight: usize,
}

/// The classes of a pattern, each once.
#[derive(Drop)]
pub(crate) struct Classes<'a> {
    text: &'a [u8],
    all: Vec<Class>,
    /// How many choices of operators there are.
    pub choices: usize,
    // Where a class begins whose second backquote hasn't come.
    open: Option<usize>,
}

impl<'a> Classes<'a> {
    pub(crate) fn of(alloc: Global, text: &'a [u8]) -> Result<Self, Stop> {
        let mut classes = Classes {
            text,
            all: Vec::new(alloc),
            choices: 1,
            open: None,
        };
        for at in 0..text.len() {
            if text[at] == b'`' {
                classes.pass(at)?;
            }
        }
        match classes.open {
            Some(begin) => Err(Stop::Fault(
                FaultReason::OpenClass,
                text.len().saturating_sub(begin),
            )),
            None => Ok(classes),
        }
    }

    // A backquote.
    fn pass(&mut self, at: usize) -> Result<(), Stop> {
        match self.open {
            None => self.open = Some(at.saturating_add(1)),
            Some(begin) => {
                self.open = None;
                self.add(begin, at)?;
            }
        }
        Ok(())
    }

    fn add(&mut self, begin: usize, end: usize) -> Result<(), Stop> {
        let text = part(self.text, begin, end);
        let left = self.text.len().saturating_sub(begin);
        if self.find(text).is_some() {
            return Ok(());
        }
        let Some(operators) = operators_of(text) else {
            return Err(Stop::Fault(FaultReason::ClassWord, left));
        };
        let count = count_words(operators, 16);
        let weight = self.choices;
        let choices = weight.saturating_mul(count);
        if choices > MOST_CHOICES || count == 0 {
            return Err(Stop::Fault(FaultReason::TooManyChoices, left));
        }
        self.choices = choices;
        self.all.push(Class {
            begin,
            end,
            count,
            weight,
        })?;
        Ok(())
    }

    // The class of this text, if it came before.
    fn find(&self, text: &[u8]) -> Option<Class> {
        for class in &self.all {
            if part(self.text, class.begin, class.end) == text {
                return Some(*class);
            }
        }
        None
    }

    /// The operator of a class with this text in one of the choices.
    pub(crate) fn operator(&self, text: &'a [u8], choice: usize) -> &'a [u8] {
        match (self.find(text), operators_of(text)) {
            (Some(class), Some(operators)) => {
                let number = choice
                    .checked_div(class.weight)
                    .unwrap_or(0)
                    .checked_rem(class.count)
                    .unwrap_or(0);
                word_at(operators, number)
            }
            _ => b"",
        }
    }
}

/// The bytes of a text from one place up to another.
pub(crate) fn part(text: &[u8], begin: usize, end: usize) -> &[u8] {
    text.get(begin..end).unwrap_or(&[])
}

// The operators of a class with this text. A digit after the name tells two apart.
fn operators_of(text: &[u8]) -> Option<&[u8]> {
    match text {
        [letters @ .., b'0'..=b'9'] => named_operators(letters),
        [b'a'..=b'z', ..] => named_operators(text),
        _ if are_operators(text) => Some(text),
        _ => None,
    }
}

fn named_operators(name: &[u8]) -> Option<&[u8]> {
    match name {
        b"eq" => Some(b"== !="),
        b"rel" => Some(b"< <= > >="),
        b"cmp" => Some(b"== != < <= > >="),
        b"bit" => Some(b"& |"),
        b"arith" => Some(b"+ - * / % << >>"),
        b"op" => Some(b"| & == != < <= > >= << >> - + % * /"),
        b"asg" => Some(b"= =| =& === =!= =< =<= => =>= =<< =>> =- =+ =% =* =/"),
        b"opasg" => Some(b"=| =& === =!= =< =<= => =>= =<< =>> =- =+ =% =* =/"),
        b"relasg" => Some(b"=< =<= => =>= =!="),
        b"inc" => Some(b"++ --"),
        _ => None,
    }
}

fn are_operators(text: &[u8]) -> bool {
    text.iter().all(|byte| is_operator_byte(*byte))
}

fn is_operator_byte(byte: u8) -> bool {
    matches!(
        byte,
        b' ' | b'|' | b'&' | b'=' | b'!' | b'<' | b'>' | b'-' | b'+' | b'%' | b'*' | b'/'
    )
}
