//! Which names get what others hold: by assignments, as arguments of calls, and by what functions give.
use crate::definitions::{Outline, after_types};
use crate::logic::at_level;
use crate::names::is_one_of;
use crate::pointers::after_index;
use crate::refusing::is_operand;
use crate::source::{Done, Source};
use crate::table::{NONE, filled, put, slot};
use crate::tokens::TokenKind;
use std::alloc::{AllocError, Global};

/// How often what names hold is handed on.
const MOST_ROUNDS: usize = 6;

/// How many tokens of a call are looked at.
const MOST_TOKENS: usize = 1000;

/// How many arguments of a call are looked at.
const MOST_ARGUMENTS: usize = 16;

/// Calls whose first argument is a text.
const TAKES: [&str; 5] = ["char", "lchar", "putstr", "getstr", "getbyte"];

/// What a name gets of another one: what that holds, a word there, or a word there for one of its own.
#[derive(Clone, Copy)]
enum Part {
    Whole,
    Word,
    Words,
}

/// A name that gets something of another one.
#[derive(Clone, Copy)]
struct Flow {
    from: usize,
    to: usize,
    part: Part,
}

/// What a name holds: a text, words that hold texts, the address of words, what a call fills with a text, or numbers.
#[derive(Clone, Copy)]
pub(crate) struct Held {
    pub is_text: bool,
    pub is_table: bool,
    pub is_address: bool,
    pub is_room: bool,
    pub is_number: bool,
}

const NOTHING: Held = Held {
    is_text: false,
    is_table: false,
    is_address: false,
    is_room: false,
    is_number: false,
};

/// What the names of a source hold. A name goes by the first token with it in its function, and an external by the
/// first one of all.
#[derive(Drop)]
pub(crate) struct Flows {
    owns: Vec<usize>,
    held: Vec<Held>,
    flows: Vec<Flow>,
}

impl Flows {
    /// What the name of a token holds.
    pub(crate) fn held(&self, index: usize) -> Held {
        self.of_own(slot(&self.owns, index))
    }

    fn of_own(&self, own: usize) -> Held {
        self.held.get(own).copied().unwrap_or(NOTHING)
    }

    fn set(&mut self, own: usize, held: Held) {
        if let Some(place) = self.held.get_mut(own) {
            *place = held;
        }
    }

    // Notes what a token shows of names.
    fn look(
        &mut self,
        source: &Source<'_>,
        outline: &Outline,
        fills: &[&str],
        index: usize,
    ) -> Done {
        let (before, next) = (index.wrapping_sub(1), index.wrapping_add(1));
        let word = source.word(index);
        if matches!(word, b"=" | b"return") {
            let around = outline.functions.get(slot(&outline.owners, index));
            let is_table = source.is(before, b"]");
            let name = match around {
                Some(function) if matches!(word, b"return") => function.name,
                _ if is_table => source.partner(before).wrapping_sub(1),
                _ => before,
            };
            let is_closed = matches!(word, b"return") && source.is(next, b"(");
            let first = if is_closed {
                next.wrapping_add(1)
            } else {
                next
            };
            let own = slot(&self.owns, name);
            return self.gets(source, first, own, is_table);
        }
        if source.is_call(index) {
            let name = slot(&self.owns, next.wrapping_add(1));
            let is_table = source.is(next.wrapping_add(2), b"[");
            let (held, is_taken) = (self.of_own(name), is_one_of(word, TAKES.as_slice()));
            self.set(
                name,
                Held {
                    is_text: held.is_text || is_taken && !is_table,
                    is_table: held.is_table || is_taken && is_table,
                    is_room: held.is_room || is_one_of(word, fills) && !is_table,
                    ..held
                },
            );
        }
        let own = slot(&self.owns, index);
        let held = self.of_own(own);
        let is_address = held.is_address || source.is(next, b"[") || is_star(source, before);
        self.set(own, Held { is_address, ..held });
        Ok(())
    }

    // Notes that a name, or a word of it, gets the value that begins with a token.
    fn gets(&mut self, source: &Source<'_>, first: usize, to: usize, is_table: bool) -> Done {
        let held = self.of_own(to);
        let is_star = source.is(first, b"*");
        let is_taken = source.is(first, b"&");
        let is_text = source.kind(first) == Some(TokenKind::String);
        let name = if is_star {
            first.wrapping_add(1)
        } else {
            first
        };
        let end = after_index(source, name);
        let is_word = is_star || source.is(end.wrapping_sub(1), b"]");
        let is_whole = matches!(
            source.word(end),
            b";" | b"," | b")" | b"+" | b"-" | b":" | b"("
        );
        self.set(
            to,
            Held {
                is_text: held.is_text || is_text && !is_table,
                is_table: held.is_table || is_text && is_table,
                is_address: held.is_address || is_taken,
                is_number: held.is_number || source.kind(first) == Some(TokenKind::Number),
                ..held
            },
        );
        let from = slot(&self.owns, name);
        if from == NONE || !is_whole {
            return Ok(());
        }
        let (from, to, part) = match (is_table, is_word) {
            (true, false) => (to, from, Part::Word),
            (true, true) => (from, to, Part::Words),
            (false, true) => (from, to, Part::Word),
            (false, false) => (from, to, Part::Whole),
        };
        self.flows.push(Flow { from, to, part })?;
        Ok(())
    }

    // Notes the arguments of a call of a function, whose parameters come after this parenthesis.
    fn hand(&mut self, source: &Source<'_>, open: usize, head: usize) -> Done {
        let close = source.partner(open).min(open.saturating_add(MOST_TOKENS));
        let last = source.partner(head).min(head.saturating_add(MOST_TOKENS));
        let mut first = open.wrapping_add(1);
        let mut name = head.wrapping_add(1);
        for _ in 0..MOST_ARGUMENTS {
            if first >= close || name >= last {
                break;
            }
            let own = slot(&self.owns, after_types(source, name));
            self.gets(source, first, own, false)?;
            first = at_level(source, first, close, b",").wrapping_add(1);
            name = at_level(source, name, last, b",").wrapping_add(1);
        }
        Ok(())
    }

    // Hands on what names hold, also from what gets it to what gives it.
    fn spread(&mut self, flow: Flow) {
        let (from, to) = (self.of_own(flow.from), self.of_own(flow.to));
        let is_table = from.is_table || to.is_table;
        let is_text = from.is_text || to.is_text;
        let is_address = from.is_address || to.is_address;
        let is_room = from.is_room || to.is_room;
        let is_word = from.is_table || to.is_text;
        let (giving, getting) = match flow.part {
            Part::Whole => {
                let whole = Held {
                    is_text,
                    is_table,
                    is_address,
                    ..to
                };
                let (is_number, from_room) = (from.is_number, Held { is_room, ..whole });
                (
                    Held {
                        is_number,
                        ..from_room
                    },
                    whole,
                )
            }
            Part::Word => (
                Held {
                    is_table: is_word,
                    ..from
                },
                Held {
                    is_text: is_word,
                    ..to
                },
            ),
            Part::Words => (Held { is_table, ..from }, Held { is_table, ..to }),
        };
        self.set(flow.from, giving);
        self.set(flow.to, getting);
    }
}

/// What the names of a source hold, where calls of functions with these names fill their first arguments.
pub(crate) fn flows_of(
    alloc: Global,
    source: &Source<'_>,
    outline: &Outline,
    fills: &[&str],
) -> Result<Flows, AllocError> {
    let count = source.tokens.len();
    let mut found = Flows {
        owns: owns_of(alloc, source, outline)?,
        held: Vec::new(alloc),
        flows: Vec::new(alloc),
    };
    for _ in 0..count {
        found.held.push(NOTHING)?;
    }
    let mut heads = filled(alloc, count)?;
    for function in &outline.functions {
        put(
            &mut heads,
            slot(source.firsts, function.name),
            function.open,
        );
    }
    for external in &outline.variables {
        let first = external.name.wrapping_add(1);
        for index in first..external.end.min(count) {
            let is_word = index > first || index.wrapping_add(1) < external.end;
            let own = slot(&found.owns, external.name);
            found.gets(source, index, own, is_word)?;
        }
    }
    for index in 0..count {
        found.look(source, outline, fills, index)?;
        let (open, head) = (
            index.wrapping_add(1),
            slot(&heads, slot(source.firsts, index)),
        );
        if head != NONE && head != open && source.is_call(index) {
            found.hand(source, open, head)?;
        }
    }
    for _ in 0..MOST_ROUNDS {
        for index in 0..found.flows.len() {
            if let Some(flow) = found.flows.get(index).copied() {
                found.spread(flow);
            }
        }
    }
    Ok(found)
}

// For each name the first token with it in its function, or the first one of all if it is that of an external.
fn owns_of(
    alloc: Global,
    source: &Source<'_>,
    outline: &Outline,
) -> Result<Vec<usize>, AllocError> {
    let count = source.tokens.len();
    let mut owns = Vec::new(alloc);
    let mut places = filled(alloc, count)?;
    let mut externals = filled(alloc, count)?;
    for name in &outline.externals {
        put(&mut externals, slot(source.firsts, *name), 0);
    }
    let mut next: usize = 0;
    let mut begun: usize = 0;
    for index in 0..count {
        if let Some(function) = outline.functions.get(next) {
            if function.open.min(function.body) == index {
                begun = index;
                next = next.saturating_add(1);
            }
        }
        let first = slot(source.firsts, index);
        let place = slot(&places, first);
        if place == NONE || place < begun && slot(&externals, first) == NONE {
            put(&mut places, first, index);
        }
        owns.push(slot(&places, first))?;
    }
    Ok(owns)
}

/// Whether a `*` takes the word at an address.
pub(crate) fn is_star(source: &Source<'_>, index: usize) -> bool {
    source.is(index, b"*") && !is_operand(source, index.wrapping_sub(1))
}
