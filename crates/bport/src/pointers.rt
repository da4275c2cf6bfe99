//! Names of words that hold functions, declared as `(*name)(..)`.
use crate::apply::rendered;
use crate::definitions::{Function, Outline};
use crate::expressions::is_cast;
use crate::names::{is_keyword, is_type};
use crate::row::{NoteKind, Row};
use crate::shape::{is_closing, is_opening};
use crate::sizes::told_size;
use crate::source::{Done, Draft, Source};
use crate::table::{NONE, filled, put, slot};
use btools::Text;
use std::alloc::{AllocError, Global};

/// The name in `(*name)(..)` or `(*name[..])(..)`, which begins with this token, or `NONE`.
pub(crate) fn pointed(source: &Source<'_>, open: usize) -> usize {
    let name = open.wrapping_add(2);
    let close = source.partner(open);
    let is_star = source.is_open_paren(open)
        && source.is(open.wrapping_add(1), b"*")
        && !source.is_head(close)
        && !ends_operand(source, open.wrapping_sub(1));
    let is_whole = source.is_name(name) && after_index(source, name) == close;
    if is_star && is_whole && source.is_open_paren(close.wrapping_add(1)) {
        name
    } else {
        NONE
    }
}

/// Whether an operand ends with a token: what begins after it is no other one.
pub(crate) fn ends_operand(source: &Source<'_>, index: usize) -> bool {
    match source.word(index) {
        b")" => !source.is_head(index),
        b"]" => true,
        word => source.is_name(index) && !is_keyword(word),
    }
}

/// The token after a name, or after the brackets that come after it.
pub(crate) fn after_index(source: &Source<'_>, name: usize) -> usize {
    let next = name.wrapping_add(1);
    if source.is(next, b"[") {
        source.partner(next).wrapping_add(1)
    } else {
        next
    }
}

/// The last token of `(*name)(..)`, which begins with this one.
pub(crate) fn pointed_end(source: &Source<'_>, open: usize) -> usize {
    source.partner(source.partner(open).wrapping_add(1))
}

/// Whether no call begins with a word that begins types.
pub(crate) fn is_typed(source: &Source<'_>, index: usize) -> bool {
    !source.is_call(index) || pointed(source, index.wrapping_add(1)) != NONE
}

/// Whether a token is one of the names of a declaration, or of an initial value there, within so many brackets.
#[derive(Clone, Copy)]
pub(crate) struct Declaring {
    pub has_names: bool,
    has_value: bool,
    depth: usize,
}

/// Neither, as at the beginning.
pub(crate) const UNDECLARED: Declaring = Declaring {
    has_names: false,
    has_value: false,
    depth: 0,
};

const NAMES: Declaring = Declaring {
    has_names: true,
    has_value: false,
    depth: 0,
};

impl Declaring {
    fn value(depth: usize) -> Self {
        Declaring {
            has_names: false,
            has_value: true,
            depth,
        }
    }

    /// The same for a token, from that of the token before it.
    pub(crate) fn at(self, source: &Source<'_>, index: usize) -> Self {
        let word = source.word(index);
        match word {
            b";" => UNDECLARED,
            b"auto" => NAMES,
            b"=" if self.has_names => Declaring::value(0),
            b"{" if self.has_names && !source.is(index.wrapping_sub(1), b")") => Declaring::value(
                1,
            ),
            b"," if self.has_value && self.depth == 0 => NAMES,
            _ if self.has_value && is_opening(word) => {
                Declaring::value(self.depth.saturating_add(1))
            }
            _ if self.has_value && is_closing(word) => {
                Declaring::value(self.depth.saturating_sub(1))
            }
            b"{" | b"}" | b"$(" | b"$)" => UNDECLARED,
            _ if is_type(word) && is_typed(source, index) => {
                if is_cast(source, index.wrapping_sub(1)) {
                    self
                } else {
                    NAMES
                }
            }
            _ => self,
        }
    }
}

/// A word of a function that is declared as `(*name)(..)`: the name alone, with its size, and its value as a statement.
pub(crate) fn pointer(
    source: &Source<'_>,
    draft: &mut Draft,
    values: &mut Text,
    open: usize,
    end: usize,
) -> Done {
    let name = open.wrapping_add(2);
    let next = name.wrapping_add(1);
    let close = pointed_end(source, open);
    let sign = close.wrapping_add(1);
    let last = end.wrapping_sub(1);
    let mut text = Text::new(draft.alloc);
    if source.is(next, b"[") {
        let size = told_size(source, draft, next)?;
        let Some(size) = size else {
            return draft.note(source, name, NoteKind::Called);
        };
        text.push(b" ")?;
        text.push_number(size)?;
    }
    if sign != end {
        if source.is(next, b"[") || !source.is(sign, b"=") || !source.is_plain(sign, last) {
            return draft.note(source, name, NoteKind::Called);
        }
        let own = rendered(source, draft, name, name)?;
        let value = rendered(source, draft, sign, last)?;
        values.push(b" ")?;
        values.push(own.as_slice())?;
        values.push(b" ")?;
        values.push(value.as_slice())?;
        values.push(b";")?;
        draft.put(source.end(close), source.end(last), b"", Row::Value)?;
    }
    draft.put_text(source.end(name), source.end(close), text, Row::Type)
}

/// Names by their first tokens: externals declared so, those that hold addresses of functions' words, and for each
/// name the last function that has declared it so.
#[derive(Drop)]
struct Known {
    externals: Vec<usize>,
    holders: Vec<usize>,
    locals: Vec<usize>,
    /// Whether the address of a function's word is taken, which may be in such a name then.
    has_addresses: bool,
}

/// Edits calls of what such names hold, and tells those of others.
pub(crate) fn pointer_calls(
    alloc: Global,
    source: &Source<'_>,
    draft: &mut Draft,
    outline: &Outline,
    holders: &[usize],
) -> Done {
    let mut known = Known {
        externals: filled(alloc, source.tokens.len())?,
        holders: filled(alloc, source.tokens.len())?,
        locals: filled(alloc, source.tokens.len())?,
        has_addresses: takes_addresses(alloc, source, outline)?,
    };
    for name in holders {
        put(&mut known.holders, slot(source.firsts, *name), 0);
    }
    for external in &outline.variables {
        let open = external.name.wrapping_sub(2);
        if pointed(source, open) == external.name {
            put(&mut known.externals, slot(source.firsts, external.name), 0);
        }
    }
    for number in 0..outline.functions.len() {
        calls_in(source, draft, &mut known, outline.functions[number], number)?;
    }
    Ok(())
}

/// Whether `&` stands before the name of a function, and no operand before that.
pub(crate) fn takes_addresses(
    alloc: Global,
    source: &Source<'_>,
    outline: &Outline,
) -> Result<bool, AllocError> {
    let mut functions = filled(alloc, source.tokens.len())?;
    for function in &outline.functions {
        put(&mut functions, slot(source.firsts, function.name), 0);
    }
    for index in 0..source.tokens.len() {
        let before = source.word(index.wrapping_sub(1));
        let name = slot(source.firsts, index.wrapping_add(1));
        let is_alone = matches!(before, b"(" | b"," | b"=" | b"?" | b":" | b"{");
        if source.is(index, b"&") && is_alone && slot(&functions, name) != NONE {
            return Ok(true);
        }
    }
    Ok(false)
}

// The calls in a function.
fn calls_in(
    source: &Source<'_>,
    draft: &mut Draft,
    known: &mut Known,
    function: Function,
    number: usize,
) -> Done {
    let mut declaring = UNDECLARED;
    for index in function.open.min(function.body)..function.end.min(source.tokens.len()) {
        declaring = declaring.at(source, index);
        let name = pointed(source, index);
        let first = slot(source.firsts, name);
        let star = index.wrapping_add(1);
        if name == NONE || first == NONE {
            continue;
        }
        let is_local = slot(&known.locals, first) == number;
        let is_held = slot(&known.holders, first) != NONE && !is_local;
        let is_pointer = is_local || slot(&known.externals, first) != NONE;
        if declaring.has_names {
            put(&mut known.locals, first, number);
        } else if is_pointer && !is_held && !known.has_addresses {
            draft.remove(source, star, name, Row::Called)?;
        } else if !is_held {
            draft.note(source, star, NoteKind::Called)?;
        }
    }
    Ok(())
}
