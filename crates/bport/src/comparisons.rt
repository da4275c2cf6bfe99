//! Comparisons with what ends an input or a string in other forms.
use crate::expressions::is_assignment;
use crate::refusing::is_operand;
use crate::source::Source;

/// What ends an input or a string in another form.
#[derive(Clone, Copy, PartialEq, Eq)]
pub(crate) enum EndValue {
    Zero,
    MinusOne,
}

/// Such a value: what it is, and its first and its last token.
#[derive(Clone, Copy)]
pub(crate) struct EndWord {
    pub value: EndValue,
    pub first: usize,
    pub last: usize,
}

/// A comparison of an operand with such a value: its sign, its operator as it is where the value comes last, and the
/// value.
#[derive(Clone, Copy)]
pub(crate) struct Comparison<'a> {
    pub sign: usize,
    pub operator: &'a [u8],
    pub word: EndWord,
}

/// What a comparison asks for, or for all else: 0, -1, or what is below 0.
#[derive(Clone, Copy, PartialEq, Eq)]
pub(crate) enum Asked {
    Zero,
    MinusOne,
    Sign,
}

impl<'a> Comparison<'a> {
    pub(crate) fn asked(self) -> Option<Asked> {
        match (self.word.value, self.operator) {
            (EndValue::Zero, b"<" | b">=") => Some(Asked::Sign),
            (EndValue::Zero, b"==" | b"!=" | b">" | b"<=") => Some(Asked::Zero),
            (EndValue::MinusOne, b"==" | b"!=" | b">" | b"<=") => Some(Asked::MinusOne),
            _ => None,
        }
    }
}

/// The comparison of what stands between two tokens, these included, if it isn't a part of another operand.
pub(crate) fn comparison_of<'a>(
    source: &Source<'a>,
    first: usize,
    last: usize,
) -> Option<Comparison<'a>> {
    let next = last.wrapping_add(1);
    if begins_operand(source, first.wrapping_sub(1)) {
        comparison_after(source, next)
    } else if !goes_on(source, next) {
        comparison_before(source, first.wrapping_sub(1))
    } else {
        None
    }
}

/// The comparison whose sign has the value after it.
pub(crate) fn comparison_after<'a>(source: &Source<'a>, sign: usize) -> Option<Comparison<'a>> {
    let operator = source.word(sign);
    if !matches!(operator, b"==" | b"!=" | b"<" | b"<=" | b">" | b">=") {
        return None;
    }
    let word = end_word(source, sign.wrapping_add(1))?;
    Some(Comparison {
        sign,
        operator,
        word,
    })
}

/// The comparison whose sign has the value before it.
pub(crate) fn comparison_before<'a>(source: &Source<'a>, sign: usize) -> Option<Comparison<'a>> {
    let operator: &[u8] = match source.word(sign) {
        b"==" => b"==",
        b"!=" => b"!=",
        b"<" => b">",
        b"<=" => b">=",
        b">" => b"<",
        b">=" => b"<=",
        _ => return None,
    };
    let last = sign.wrapping_sub(1);
    let word = match source.word(last) {
        b"1" => end_word(source, last.wrapping_sub(1))?,
        b")" => end_word(source, source.partner(last))?,
        _ => end_word(source, last)?,
    };
    let before = word.first.wrapping_sub(1);
    if word.last != last || !begins_operand(source, before) {
        return None;
    }
    Some(Comparison {
        sign,
        operator,
        word,
    })
}

// Whether an operand begins after a token, and not only a part of one.
fn begins_operand(source: &Source<'_>, index: usize) -> bool {
    match source.word(index) {
        b"(" | b"&&" | b"||" | b"," | b";" | b"return" | b"?" | b":" => true,
        b"&" | b"|" => is_operand(source, index.wrapping_sub(1)),
        word => is_assignment(word),
    }
}

// Whether an operand goes on with a token.
fn goes_on(source: &Source<'_>, index: usize) -> bool {
    matches!(
        source.word(index),
        b"+" | b"-" | b"*" | b"/" | b"%" | b"<<" | b">>" | b"[" | b"(" | b"++" | b"--"
    )
}

/// The value 0 or -1 that begins with a token: a number, a constant with a name, or one in parentheses.
pub(crate) fn end_word(source: &Source<'_>, first: usize) -> Option<EndWord> {
    if let Some(value) = source.end_value(first) {
        return Some(EndWord {
            value,
            first,
            last: first,
        });
    }
    let inner = if source.is_open_paren(first) {
        first.wrapping_add(1)
    } else {
        first
    };
    let one = inner.wrapping_add(1);
    let last = if inner == first {
        one
    } else {
        source.partner(first)
    };
    let is_sign = source.is(inner, b"-") && !is_operand(source, inner.wrapping_sub(1));
    let is_whole = inner == first || last == one.wrapping_add(1);
    if is_sign && source.is(one, b"1") && is_whole {
        Some(EndWord {
            value: EndValue::MinusOne,
            first,
            last,
        })
    } else {
        None
    }
}
