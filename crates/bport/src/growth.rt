//! Values that may come past 32767, where words had more bits.
use crate::definitions::Outline;
use crate::expressions::is_tight;
use crate::flows::Flows;
use crate::logic::COMPARISONS;
use crate::meanings::open_before;
use crate::names::{is_library, is_one_of, value_of_number};
use crate::refusing::is_operand;
use crate::source::{Dialect, Source};
use crate::table::{NONE, slot};
use crate::tokens::TokenKind;

/// How many tokens are looked at on either side.
const MOST_TOKENS: usize = 64;

/// What is known of the token that is looked at: the words before it and after it, and whether words may have had more
/// than 16 bits.
#[derive(Clone, Copy)]
pub(crate) struct Growing<'a> {
    pub source: &'a Source<'a>,
    pub outline: &'a Outline,
    pub flows: &'a Flows,
    pub is_wide: bool,
}

impl<'a> Growing<'a> {
    /// Whether a number, or what an operator gives, may be past 32767.
    pub(crate) fn may_wrap(&self, index: usize) -> bool {
        let next = index.wrapping_add(1);
        let has_left = is_operand(self.source, index.wrapping_sub(1));
        match self.source.word(index) {
            b"*" => has_left && self.is_product(index),
            b"<<" => self.is_shift(index),
            b">>" => matches!(number_at(self.source, next), Some(16..)),
            b"=<<" | b"<<=" | b"*=" => true,
            b"=*" => { !is_tight(self.source, index) || self.source.dialect == Dialect::Early }
            b"=+" | b"+=" => self.is_amount(next),
            b"+" => has_left && self.is_sum(index),
            b"-" => has_left && matches!(number_at(self.source, next), Some(1000..)),
            b"<" | b"<=" | b">" | b">=" if self.source.is(next, b"0") => self.counts_up(index),
            word if self.source.kind(index) == Some(TokenKind::Number) => {
                let value = value_of_number(word).unwrap_or(0);
                value > 10000 && !word.starts_with(b"0") || value > 32767 && self.is_wide
            }
            _ => false,
        }
    }

    fn is_product(&self, index: usize) -> bool {
        let (left, right) = self.numbers(index);
        let most = match (self.is_index(index), self.is_wide) {
            (true, _) => 99,
            (false, true) => 0,
            (false, false) => 15,
        };
        match (left, right) {
            (Some(left), Some(right)) => {
                let is_third = self.source.is(index.wrapping_sub(2), b"*");
                left.saturating_mul(right) > 32767 || is_third
            }
            (None, None) => true,
            (Some(number), None) | (None, Some(number)) => {
                number > most || self.is_own(index) || self.is_given(index)
            }
        }
    }

    fn is_shift(&self, index: usize) -> bool {
        match self.numbers(index) {
            (Some(1), Some(right)) => right > 14,
            (None, Some(right)) => self.is_wide || right > 8 || self.is_own(index),
            (Some(left), Some(right)) => left > 127 || right > 8,
            (_, None) => true,
        }
    }

    // A sum of a name with itself, of what calls give, of what is stored once more, or of two names whose sum comes
    // back into one of them.
    fn is_sum(&self, index: usize) -> bool {
        let (before, next) = (index.wrapping_sub(1), index.wrapping_add(1));
        if let (Some(left), Some(right)) = self.numbers(index) {
            return left.saturating_add(right) > 32767;
        }
        let (left, right) = (self.source.word(before), self.source.word(next));
        let are_names = self.source.is_name(before) && self.source.is_name(next);
        let name = self.stored(index);
        let is_back = are_names && name != NONE && self.comes_back(name, [left, right]);
        let is_other = self.source.kind(before) != Some(TokenKind::Char) && !self.is_small(next);
        are_names && left == right
            || is_back
            || is_other && self.is_wide && !self.is_index(index)
            || self.is_given(index)
            || self.is_own(index) && self.is_amount(next)
    }

    // Whether what an operator gives is an index, or the address of words.
    fn is_index(&self, index: usize) -> bool {
        let (before, next) = (index.wrapping_sub(1), index.wrapping_add(1));
        self.source.is(open_before(self.source, index), b"[")
            || self.flows.held(before).is_address
            || self.flows.held(next).is_address && !self.source.is(next.wrapping_add(1), b"[")
    }

    // The numbers on both sides of an operator.
    fn numbers(&self, index: usize) -> (Option<u64>, Option<u64>) {
        let (before, next) = (index.wrapping_sub(1), index.wrapping_add(1));
        (number_at(self.source, before), number_at(self.source, next))
    }

    // The name in which what has a token is stored, as `x = ..`, `v[i] = ..` and `*p = ..` do.
    fn stored(&self, index: usize) -> usize {
        let mut at = index;
        for _ in 0..MOST_TOKENS {
            at = at.wrapping_sub(1);
            let before = at.wrapping_sub(1);
            match self.source.word(at) {
                b"=" if self.source.is(before, b"]") => {
                    return self.source.partner(before).wrapping_sub(1);
                }
                b"=" => return before,
                b")" | b"]" => at = self.source.partner(at),
                b";" | b"{" | b"}" | b"$(" | b"$)" | b"" => return NONE,
                _ => {}
            }
        }
        NONE
    }

    // Whether what is stored in a name is made of the name.
    fn is_own(&self, index: usize) -> bool {
        let name = self.stored(index);
        let word = self.source.word(name);
        let mut is_stored = false;
        for at in name..index.saturating_add(MOST_TOKENS) {
            match self.source.word(at) {
                b";" | b"" => return false,
                b"=" => is_stored = true,
                other if is_stored && other == word => return true,
                _ => {}
            }
        }
        false
    }

    // Whether what a function of the program gives stands on both sides, or on one side what the function around it
    // gives, or beside a product.
    fn is_given(&self, index: usize) -> bool {
        let (before, next) = (index.wrapping_sub(1), index.wrapping_add(1));
        let left = self.source.partner(before).wrapping_sub(1);
        let is_left = self.source.is(before, b")") && self.is_function(left);
        let is_right = self.is_function(next);
        let owner = slot(&self.outline.owners, index);
        let Some(around) = self.outline.functions.get(owner) else {
            return false;
        };
        let own = self.source.word(around.name);
        is_left && is_right
            || is_left && (self.source.is(left, own) || self.source.is(index, b"*"))
            || is_right && (self.source.is(next, own) || self.source.is(index, b"*"))
    }

    fn is_function(&self, name: usize) -> bool {
        self.source.is_call(name) && !is_library(self.source.word(name))
    }

    fn is_small(&self, first: usize) -> bool {
        match self.source.kind(first) {
            Some(TokenKind::Number) => number_at(self.source, first) < Some(100),
            kind => kind == Some(TokenKind::Char),
        }
    }

    // Whether what is added is more than a small number, a character or a truth value.
    fn is_amount(&self, first: usize) -> bool {
        if self.is_small(first) {
            return false;
        }
        for at in first..first.saturating_add(MOST_TOKENS) {
            match self.source.word(at) {
                b";" | b"" => break,
                b"!" => return false,
                word if is_one_of(word, COMPARISONS.as_slice()) => return false,
                _ => {}
            }
        }
        !self.source.is(first, b"-")
    }

    // Whether a name is stored near by in one of two that its sum is made of.
    fn comes_back(&self, name: usize, operands: [&[u8]; 2]) -> bool {
        let from = name.saturating_sub(MOST_TOKENS);
        for at in from..name
            .saturating_add(MOST_TOKENS)
            .min(self.source.tokens.len())
        {
            let target = self.source.word(at.wrapping_sub(1));
            let is_kept = self.source.is(at, b"=")
                && self.source.word(at.wrapping_add(1)) == self.source.word(name);
            if is_kept && operands.contains(&target) {
                return true;
            }
        }
        false
    }

    // Whether a name that is compared with 0 is counted up until it has a sign.
    fn counts_up(&self, sign: usize) -> bool {
        let before = sign.wrapping_sub(1);
        let after = sign.wrapping_add(3);
        let name = self.source.word(before);
        let (first, second) = (
            self.source.word(after),
            self.source.word(after.wrapping_add(1)),
        );
        self.source.is(before, b"++")
            || self.source.is(before.wrapping_sub(1), b"++")
            || self
                .source
                .is(self.source.partner(before).wrapping_add(2), b"=+")
            || (first == name && matches!(second, b"++" | b"=+" | b"+="))
            || (matches!(first, b"++") && second == name)
    }
}

fn number_at(source: &Source<'_>, index: usize) -> Option<u64> {
    match source.kind(index) {
        Some(TokenKind::Number) => value_of_number(source.word(index)),
        _ => None,
    }
}
