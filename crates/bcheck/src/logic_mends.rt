//! Edits for `&&` and `||`, and for the words `and` and `or`. Each means the same as these do in other languages.
use crate::draft::{Draft, Drafted, only_if};
use crate::kinds::{
    Like, closes_bracket, depth_after, is_comparison, is_ended, is_word, opens_bracket,
};
use crate::syntax::{IF_WHILE, is_after};
use crate::syntax_mends::after_brackets;
use blang::Keyword;
use blex::Lexeme;
use bword::BinOp;

/// What joins two conditions.
#[derive(Clone, Copy, PartialEq, Eq)]
pub(crate) enum Logic {
    And,
    Or,
}

impl Logic {
    fn operator(self) -> Lexeme {
        match self {
            Logic::And => Lexeme::Operator(BinOp::And),
            Logic::Or => Lexeme::Operator(BinOp::Or),
        }
    }

    // Whether this stands twice from a token on, or its word there.
    fn is_at(self, draft: &Draft<'_>, token: usize) -> bool {
        let lexeme = draft.at(token);
        let is_twice = lexeme == self.operator()
            && draft.at(token.wrapping_add(1)) == self.operator()
            && is_ended(&draft.at(token.wrapping_sub(1)));
        is_twice || is_word(&lexeme, if self == Logic::And { "and" } else { "or" })
    }
}

/// The tokens of an operator and of its operands: the first one of the left operand, the first and the last one of the
/// operator, and the last one of the right operand.
#[derive(Clone, Copy)]
struct Joined {
    logic: Logic,
    left: usize,
    first: usize,
    last: usize,
    right: usize,
}

/// One sign in the place of two, or of a word, where that means the same; else the form with `?`, which is a choice.
pub(crate) fn mend_logic(
    draft: &mut Draft<'_>,
    logic: Logic,
    first: usize,
    last: usize,
) -> Drafted {
    let joined = Joined {
        logic,
        left: left_of(draft, logic, first),
        first,
        last,
        right: right_of(draft, logic, last),
    };
    let is_whole = joined.left < first
        && last < joined.right
        && ends_expression(&draft.at(joined.right.wrapping_add(1)));
    only_if(is_whole)?;
    let has_and = (joined.left..=joined.right).any(|token| Logic::And.is_at(draft, token));
    if logic == Logic::Or && has_and {
        return single_signs(draft, &joined);
    }
    if is_of_bits(draft, &joined) {
        let words: &[u8] = if logic == Logic::And { b"&" } else { b"|" };
        return draft.replace(first, last, words);
    }
    with_question(draft, &joined)
}

// Whether the operator on bits gives the same: of values that are 1 or 0, or where nothing but whether it is 0 matters.
// It evaluates both operands, so the second one does nothing.
fn is_of_bits(draft: &Draft<'_>, joined: &Joined) -> bool {
    let Joined {
        logic,
        left,
        first,
        last,
        right,
    } = *joined;
    let is_split = logic == Logic::And
        && has_at_level(draft, left, right, Lexeme::Operator(BinOp::Or));
    if is_split || !has_no_effect(draft, last.wrapping_add(1), right) {
        return false;
    }
    let is_tested = logic == Logic::Or && is_condition(draft, joined);
    is_tested
        || is_truth(draft, left, first.wrapping_sub(1))
            && is_truth(draft, last.wrapping_add(1), right)
}

// One sign in the place of each two, where all operands are 1 or 0, and none after the first one does anything.
fn single_signs(draft: &mut Draft<'_>, joined: &Joined) -> Drafted {
    let mut text = draft.text();
    let mut from = draft.start(joined.left);
    let mut first = joined.right;
    for token in joined.left..joined.right {
        if Logic::And.is_at(draft, token) || Logic::Or.is_at(draft, token) {
            only_if(draft.is(token, &Like::Operator))?;
            first = first.min(token);
            text.push(draft.slice(from, draft.end(token)))?;
            from = draft.end(token.wrapping_add(1));
        }
    }
    text.push(draft.slice(from, draft.end(joined.right)))?;
    only_if(is_truth(draft, joined.left, joined.right))?;
    only_if(has_no_effect(draft, first.wrapping_add(2), joined.right))?;
    draft.put_text(draft.start(joined.left), draft.end(joined.right), text)
}

// The form with `?` in the place of both operands. Where its value is used, it is 1 or 0.
fn with_question(draft: &mut Draft<'_>, joined: &Joined) -> Drafted {
    let (before, next) = (joined.first.wrapping_sub(1), joined.last.wrapping_add(1));
    let is_plain = is_condition(draft, joined) || is_truth(draft, next, joined.right);
    let is_split = has_at_level(draft, next, joined.right, Lexeme::Operator(BinOp::Or))
        || has_at_level(draft, next, joined.right, Lexeme::Operator(BinOp::And));
    let (open, close): (&[u8], &[u8]) = match (is_plain, is_split) {
        (true, _) => (b"", b""),
        (false, true) => (b"(", b") != 0"),
        (false, false) => (b"", b" != 0"),
    };
    let (asks, ends): (&[u8], &[u8]) = match joined.logic {
        Logic::And => (b" ? ", b" : 0"),
        Logic::Or => (b" ? 1 : ", b""),
    };
    let is_alone = is_alone(draft, joined);
    let (first, last): (&[u8], &[u8]) = if is_alone { (b"", b"") } else { (b"(", b")") };
    draft.is_choice = true;
    let left = draft.bytes(joined.left, before);
    let right = draft.bytes(next, joined.right);
    let mut text = draft.text();
    for part in [first, left, asks, open, right, close, ends, last] {
        text.push(part)?;
    }
    draft.put_text(draft.start(joined.left), draft.end(joined.right), text)
}

// The first token of the operand before an operator.
fn left_of(draft: &Draft<'_>, logic: Logic, first: usize) -> usize {
    let mut depth: u64 = 0;
    for back in 0..first {
        let at = first.saturating_sub(back).saturating_sub(1);
        let lexeme = draft.at(at);
        if depth == 0 && begins_after(draft, logic, at) {
            return at.saturating_add(1);
        }
        if closes_bracket(&lexeme) {
            depth = depth.saturating_add(1);
        } else if opens_bracket(&lexeme) {
            depth = depth.saturating_sub(1);
        }
    }
    0
}

// Whether an operand begins after a token: it ends another one, or it is no part of an expression.
fn begins_after(draft: &Draft<'_>, logic: Logic, token: usize) -> bool {
    let lexeme = draft.at(token);
    let before = token.wrapping_sub(1);
    opens_bracket(&lexeme)
        || lexeme == Lexeme::CloseBrace
        || is_apart(&lexeme)
        || is_after(draft.spans, token, &IF_WHILE)
        || logic == Logic::And && (Logic::Or.is_at(draft, before) || is_word(&lexeme, "or"))
}

// The last token of the operand after an operator.
fn right_of(draft: &Draft<'_>, logic: Logic, last: usize) -> usize {
    let mut depth: u64 = 0;
    for token in last.saturating_add(1)..draft.spans.end() {
        let lexeme = draft.at(token);
        let is_end = closes_bracket(&lexeme) || is_apart(&lexeme) || lexeme == Lexeme::OpenBrace;
        if depth == 0 && (is_end || logic == Logic::And && Logic::Or.is_at(draft, token)) {
            return token.saturating_sub(1);
        }
        depth = depth_after(depth, &lexeme);
    }
    last
}

// Whether a token is between expressions, or between those of a `?` and an assignment.
fn is_apart(lexeme: &Lexeme) -> bool {
    matches!(
        lexeme,
        Lexeme::Comma
            | Lexeme::Semicolon
            | Lexeme::Question
            | Lexeme::Colon
            | Lexeme::Assign(_)
            | Lexeme::Keyword(_)
            | Lexeme::Bad(_)
            | Lexeme::End
    )
}

// Whether an operand of an expression may end before a token.
fn ends_expression(lexeme: &Lexeme) -> bool {
    matches!(
        lexeme,
        Lexeme::CloseParen
            | Lexeme::CloseBracket
            | Lexeme::Comma
            | Lexeme::Semicolon
            | Lexeme::Question
            | Lexeme::Colon
            | Lexeme::Operator(BinOp::Or)
    ) || is_word(lexeme, "or")
}

fn is_tested_by(lexeme: &Lexeme) -> bool {
    matches!(lexeme, Lexeme::Keyword(Keyword::If | Keyword::While))
}

// Whether nothing but whether it is 0 matters of the value of two operands, or nothing at all.
fn is_condition(draft: &Draft<'_>, joined: &Joined) -> bool {
    let before = joined.left.wrapping_sub(1);
    let head = draft.at(before.wrapping_sub(1));
    match (draft.at(before), draft.at(joined.right.wrapping_add(1))) {
        (_, Lexeme::Question) => true,
        (Lexeme::OpenParen, Lexeme::CloseParen) => is_tested_by(&head) || head == Lexeme::Not,
        (Lexeme::Semicolon | Lexeme::OpenBrace | Lexeme::CloseBrace, Lexeme::Semicolon) => true,
        (Lexeme::CloseParen | Lexeme::Keyword(Keyword::Else), Lexeme::Semicolon) => true,
        _ => false,
    }
}

// Whether no operator is around two operands that binds tighter than a `?`.
fn is_alone(draft: &Draft<'_>, joined: &Joined) -> bool {
    let before = draft.at(joined.left.wrapping_sub(1));
    let after = draft.at(joined.right.wrapping_add(1));
    !matches!(before, Lexeme::Operator(_))
        && !is_word(&before, "or")
        && !matches!(after, Lexeme::Operator(_) | Lexeme::Question)
        && !is_word(&after, "or")
}

// Whether one of these tokens that no brackets among them are around is this one.
fn has_at_level(draft: &Draft<'_>, from: usize, last: usize, lexeme: Lexeme) -> bool {
    let mut depth: u64 = 0;
    for token in from..last.saturating_add(1) {
        let here = draft.at(token);
        if depth == 0 && here == lexeme {
            return true;
        }
        depth = depth_after(depth, &here);
    }
    false
}

// Whether these tokens do nothing, can't be a trap and read through no address.
fn has_no_effect(draft: &Draft<'_>, from: usize, last: usize) -> bool {
    for token in from..last.saturating_add(1) {
        let is_after = token > from && is_ended(&draft.at(token.wrapping_sub(1)));
        match draft.at(token) {
            Lexeme::OpenParen if is_after => return false,
            Lexeme::Operator(BinOp::Mul) if !is_after => return false,
            Lexeme::OpenBracket
            | Lexeme::Assign(_)
            | Lexeme::Increment
            | Lexeme::Decrement
            | Lexeme::Operator(BinOp::Div | BinOp::Rem) => return false,
            _ => {}
        }
    }
    true
}

/// What is among the tokens of an expression between parentheses and the operators `&` and `|`.
#[derive(Clone, Copy)]
struct Piece {
    count: usize,
    /// Whether it begins with a `!`, and whether it is the number 1 or 0.
    is_not: bool,
    is_bit: bool,
    has_operator: bool,
    compares: bool,
}

impl Piece {
    fn new() -> Self {
        Piece {
            count: 0,
            is_not: false,
            is_bit: false,
            has_operator: false,
            compares: false,
        }
    }

    // With a token more.
    fn with(self, lexeme: &Lexeme) -> Self {
        let is_first = self.count == 0;
        Piece {
            count: self.count.saturating_add(1),
            is_not: if is_first {
                *lexeme == Lexeme::Not
            } else {
                self.is_not
            },
            is_bit: is_first && matches!(lexeme, Lexeme::Number(0 | 1)),
            has_operator: self.has_operator || !is_first && Like::Operator.fits(lexeme),
            compares: self.compares || is_comparison(lexeme),
        }
    }

    fn is_truth(self) -> bool {
        self.count == 0 || self.compares || self.is_bit || self.is_not && !self.has_operator
    }
}

// Whether the value of these tokens is 1 or 0: each piece compares, or begins with a `!`. A call and an index are parts
// of a piece.
fn is_truth(draft: &Draft<'_>, from: usize, last: usize) -> bool {
    let mut piece = Piece::new();
    let mut next = from;
    for token in from..last.saturating_add(1) {
        if token < next {
            continue;
        }
        let lexeme = draft.at(token);
        let is_after = token > from && is_ended(&draft.at(token.wrapping_sub(1)));
        let is_between = match lexeme {
            Lexeme::OpenParen => !is_after,
            Lexeme::CloseParen => true,
            Lexeme::Operator(BinOp::And | BinOp::Or) => {
                is_after || draft.at(token.wrapping_sub(1)) == lexeme
            }
            _ => false,
        };
        if is_between && !piece.is_truth() {
            return false;
        }
        piece = if is_between {
            Piece::new()
        } else {
            piece.with(&lexeme)
        };
        if opens_bracket(&lexeme) && !is_between {
            next = after_brackets(draft, token);
        }
    }
    piece.is_truth()
}
