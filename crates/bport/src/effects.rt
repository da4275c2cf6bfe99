//! What calls of the functions of a source change.
use crate::definitions::Outline;
use crate::expressions::is_assignment;
use crate::flows::is_star;
use crate::inputs::is_set;
use crate::names::is_one_of;
use crate::pointers::after_index;
use crate::source::Source;
use crate::table::{NONE, filled, put, slot};
use std::alloc::{AllocError, Global};

/// Calls that read or write.
const ACTS: [&str; 8] = [
    "getchar", "putchar", "printn", "printf", "putstr", "getstr", "read", "write",
];

/// How often what functions do is handed on to those that call them.
const MOST_ROUNDS: usize = 3;

/// Of an external in which several functions store.
const SEVERAL: usize = usize::MAX - 1;

/// What calls change, by the first tokens with the names.
#[derive(Drop)]
pub(crate) struct Effects {
    /// For each function that stores in what isn't its own, reads or writes any number.
    acting: Vec<usize>,
    /// For each external the name of the function that stores in it.
    stored: Vec<usize>,
}

impl Effects {
    /// Whether a token is a call of a function that changes something.
    pub(crate) fn is_acting(&self, source: &Source<'_>, index: usize) -> bool {
        source.is_call(index) && slot(&self.acting, slot(source.firsts, index)) != NONE
    }

    /// Whether a token is a name that a call changes, or a call of another function that changes something, and neither
    /// stands among the arguments of the other one.
    pub(crate) fn is_changed(&self, source: &Source<'_>, index: usize, call: usize) -> bool {
        let (open, other) = (call.wrapping_add(1), index.wrapping_add(1));
        let is_inside = call < index && index < source.partner(open)
            || index < call && source.is(other, b"(") && call < source.partner(other);
        let storing = slot(&self.stored, slot(source.firsts, index));
        let is_stored = storing == SEVERAL || storing == slot(source.firsts, call);
        self.is_acting(source, call)
            && !is_inside
            && (self.is_acting(source, index) || storing != NONE && is_stored)
    }

    /// Whether a token from one up to another is the same name, or what a call with it changes.
    pub(crate) fn has_changed(
        &self,
        source: &Source<'_>,
        (first, end): (usize, usize),
        name: usize,
    ) -> bool {
        for index in first..end.min(source.tokens.len()) {
            if source.is(index, source.word(name)) || self.is_changed(source, index, name) {
                return true;
            }
        }
        false
    }
}

/// What the functions of a source change.
pub(crate) fn effects_of(
    alloc: Global,
    source: &Source<'_>,
    outline: &Outline,
) -> Result<Effects, AllocError> {
    let count = source.tokens.len();
    let mut found = Effects {
        acting: filled(alloc, count)?,
        stored: filled(alloc, count)?,
    };
    let mut externals = filled(alloc, count)?;
    for external in &outline.variables {
        put(&mut externals, slot(source.firsts, external.name), 0);
    }
    for round in 0..MOST_ROUNDS {
        for index in 0..count {
            let owner = slot(&outline.owners, index);
            let Some(function) = outline.functions.get(owner) else {
                continue;
            };
            let (name, first) = (
                slot(source.firsts, function.name),
                slot(source.firsts, index),
            );
            let is_external = slot(&externals, first) != NONE && stores(source, index);
            if is_external && round == 0 {
                let is_same = matches!(slot(&found.stored, first), NONE)
                    || slot(&found.stored, first) == name;
                put(
                    &mut found.stored,
                    first,
                    if is_same { name } else { SEVERAL },
                );
            }
            let is_word = is_set(source, index) && is_star(source, index.wrapping_sub(1));
            let is_act = source.is_call(index) && is_one_of(source.word(index), ACTS.as_slice());
            if is_external || is_word || is_act || found.is_acting(source, index) {
                put(&mut found.acting, name, 0);
            }
        }
    }
    Ok(found)
}

// Whether a name, or a word of the vector with it, is set.
fn stores(source: &Source<'_>, name: usize) -> bool {
    let end = source.word(after_index(source, name));
    is_set(source, name) || is_assignment(end) || matches!(end, b"++" | b"--")
}
