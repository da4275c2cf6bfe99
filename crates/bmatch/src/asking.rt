//! Tests of holes and of tokens.
ghost use Rattle.std.specs.List.{find, list_any, range_with_len, take_while};
ghost use Rattle.std.specs.Prelude.{◌≡◌, Some, false, unwrap_or};
ghost use Rattle.bmatch.specs.Asking.{after, are_joined, begins_definition, begins_with, branches_up_to, bytes_at};
ghost use Rattle.bmatch.specs.Asking.{bytes_in, comes_before, compares, definition_end, distance, ends_definition};
ghost use Rattle.bmatch.specs.Asking.{follows, given_after, has_backslash, has_c_escape, has_negative, is_c_escape};
ghost use Rattle.bmatch.specs.Asking.{is_dropped, is_heading, is_inside, is_negative, is_next, is_no_close, is_no_end};
ghost use Rattle.bmatch.specs.Asking.{is_operator, is_own_name, is_parameter, is_spelled, larger, letters_in, letters_of};
ghost use Rattle.bmatch.specs.Asking.{line_in, measure_of, passes_test, place_at, product_of, remainder_of, rest_of};
ghost use Rattle.bmatch.specs.Asking.{room_of, sign_number, size_by, size_declared, size_defined, size_in, sum_of};
ghost use Rattle.bmatch.specs.Asking.{token_in, told_token, value_in};
ghost use Rattle.bmatch.specs.Same.{is_same_lexeme};

use crate::binds::Binds;
use crate::conditions::{Measure, Relation, Test};
use crate::counting::{arguments_in, indent_in, place_in};
use crate::fits::{is_named, is_word, name_in};
use crate::holds::Site;
use crate::pattern::{ROOT, Word};
use crate::same::{constant_in, is_same_lexeme};
use crate::tree::{Kind, TokenPlace, Tree, branch_at, lexeme_at, operator_number};
use blex::Lexeme;
use btree::{Construct, Node};

/// Whether a test holds.
pub(crate) fn passes_test(site: &Site<'_>, test: Test, binds: &Binds) -> bool
    ensures { result ≡ passes_test site.now test binds.now }
{
    answer(site, test, binds).unwrap_or(false)
}

// What a test comes to, if its holes stand for something.
fn answer(site: &Site<'_>, test: Test, binds: &Binds) -> Option<bool>
    ensures { unwrap_or result false ≡ passes_test site.now test binds.now }
{
    let tree = &site.sight.tree;
    let token = told_token(tree, binds);
    Some(match test {
        Test::Quiet(hole) => !branch_at(tree.rows, binds.of(hole)?).acts,
        Test::Compares(one, relation, other) => compares(
            relation,
            measure_of(tree, one, binds)?,
            measure_of(tree, other, binds)?,
        ),
        Test::Backslash(hole) => has_backslash(tree, binds.of(hole)?),
        Test::Begins(hole, word) => begins_with(tree, binds.of(hole)?, word),
        Test::Joined => token < tree.lexemes.len()
            && are_joined(place_at(tree, token), place_at(tree, token + 1)),
        Test::Followed(sign) => {
            token < tree.lexemes.len() && follows(sign, &lexeme_at(tree.lexemes, token + 1))
        }
        Test::AfterOperator => is_operator(lexeme_at(tree.lexemes, token.saturating_sub(1))),
        Test::OwnName(hole) => is_own_name(site, binds.of(hole)?),
        Test::Parameter(hole) => is_parameter(site, binds.of(hole)?),
        Test::Heading(hole) => is_heading(tree, binds.of(hole)?),
        Test::Next(hole, sign) => is_next(tree, binds.of(hole)?, sign),
        Test::Spelled(hole, bytes, len) => is_spelled(tree, binds.of(hole)?, name_in(&bytes, len)),
        Test::Defines(hole) => begins_definition(tree, binds.of(hole)?),
        Test::Negative(hole) => has_negative(tree, binds.of(hole)?),
        Test::Inside(one, other) => is_inside(tree, binds.of(one)?, binds.of(other)?),
        Test::Precedes(one, other) => comes_before(tree, binds.of(one)?, binds.of(other)?),
        Test::Dropped(hole) => is_dropped(tree, binds.of(hole)?),
    })
}

/// The token that is told, or the first one of what was found.
pub(crate) fn told_token(tree: &Tree<'_>, binds: &Binds) -> usize
    ensures { result ≡ told_token tree.now binds.now }
{
    match binds.told {
        Some(token) => token,
        None => branch_at(tree.rows, binds.of(ROOT).unwrap_or(0)).first,
    }
}

// A number that a rule compares, if it is there.
fn measure_of(tree: &Tree<'_>, measure: Measure, binds: &Binds) -> Option<u64>
    ensures { result ≡ measure_of tree.now measure binds.now }
{
    match measure {
        Measure::Number(number) => Some(u64::from(number)),
        Measure::Value(hole) => wide(value_in(tree, binds.of(hole))),
        Measure::Product(one, other) => product_of(
            value_in(tree, binds.of(one)),
            value_in(tree, binds.of(other)),
        ),
        Measure::Bytes(hole) => bytes_in(tree, binds.of(hole)),
        Measure::Remainder(one, other) => remainder_of(
            value_in(tree, binds.of(one)),
            value_in(tree, binds.of(other)),
        ),
        Measure::Arguments(hole) => arguments_in(tree, binds.of(hole)),
        Measure::Place(one, other) => place_in(tree, binds.of(one), binds.of(other)),
        Measure::Room(hole) => room_of(value_in(tree, binds.of(hole))),
        Measure::Letters(hole) => letters_in(tree, binds.of(hole)),
        Measure::Token(hole) => token_in(tree, binds.of(hole)),
        Measure::Line(hole) => line_in(tree, binds.of(hole)),
        Measure::Indent(hole) => indent_in(tree, binds.of(hole)),
        Measure::Size(hole) => size_in(tree, binds.of(hole)),
        Measure::Given(hole) => wide(given_after(tree, binds.of(hole))),
        Measure::Sum(one, other) => sum_of(
            value_in(tree, binds.of(one)),
            value_in(tree, binds.of(other)),
        ),
        Measure::Remains(one, other, step) => rest_of(
            value_in(tree, binds.of(one)),
            value_in(tree, binds.of(other)),
            value_in(tree, binds.of(step)),
        ),
    }
}

fn product_of(one: Option<u16>, other: Option<u16>) -> Option<u64>
    ensures { result ≡ product_of one other }
{
    Some(u64::from(one?) * u64::from(other?))
}

fn wide(value: Option<u16>) -> Option<u64>
    ensures { result ≡ value }
{
    Some(u64::from(value?))
}

fn remainder_of(one: Option<u16>, other: Option<u16>) -> Option<u64>
    ensures { result ≡ remainder_of one other }
{
    match (one, other) {
        (Some(one), Some(other)) if other > 0 => Some(u64::from(one % other)),
        _ => None,
    }
}

fn room_of(last: Option<u16>) -> Option<u64>
    ensures { result ≡ room_of last }
{
    Some(2 * u64::from(last?) + 1)
}

// The value of a branch that is a constant.
fn value_in(tree: &Tree<'_>, index: Option<usize>) -> Option<u16>
    ensures { result ≡ value_in tree.now index }
{
    let branch = branch_at(tree.rows, index?);
    match branch.kind {
        Kind::Node(Node::Constant) => constant_in(&lexeme_at(tree.lexemes, branch.token)),
        _ => None,
    }
}

// Whether a branch is the name with which a definition begins.
fn begins_definition(tree: &Tree<'_>, index: usize) -> bool
    ensures { result ≡ begins_definition tree.now (Some index) }
{
    index == 0 || ends_definition(tree, index - 1)
}

fn ends_definition(tree: &Tree<'_>, index: usize) -> bool
    ensures { result ≡ ends_definition tree.now index }
{
    matches!(
        branch_at(tree.rows, index).kind,
        Kind::Construct(Construct::Definition)
    )
}

// How many words a vector has, where a name declares or defines it.
fn size_in(tree: &Tree<'_>, index: Option<usize>) -> Option<u64>
    ensures { result ≡ size_in tree.now index }
{
    let index = index?;
    let rest = after(tree.lexemes, branch_at(tree.rows, index).token);
    if begins_definition(tree, index) {
        size_defined(rest, values_after(tree, index) as u64)
    } else {
        size_declared(rest)
    }
}

// The size of a vector whose name in a definition has these tokens after it, and so many branches.
fn size_defined(lexemes: &[Lexeme], count: u64) -> Option<u64>
    ensures { result ≡ size_defined lexemes.now count }
{
    match lexemes {
        [Lexeme::OpenBracket, last, ..] => Some(size_by(constant_in(last), count)),
        _ => None,
    }
}

// The size of a vector of a function whose name has these tokens after it.
fn size_declared(lexemes: &[Lexeme]) -> Option<u64>
    ensures { result ≡ size_declared lexemes.now }
{
    match lexemes {
        [Lexeme::Number(last), ..] => Some(u64::from(*last) + 1),
        _ => None,
    }
}

// Where the definition ends in which a branch is.
fn definition_end(tree: &Tree<'_>, index: usize) -> Option<usize>
    ensures { result ≡ definition_end tree.now index }
{
    (index..tree.rows.len()).find(|end| ends_definition(tree, *end))
}

// How many branches a definition has after its name.
fn values_after(tree: &Tree<'_>, index: usize) -> usize
    ensures { result ≡ branches_up_to index (definition_end tree.now index) }
{
    match definition_end(tree, index) {
        Some(end) => end.saturating_sub(index).saturating_sub(1),
        None => 0,
    }
}

// The size of a vector with this last index in brackets, if it has one, and so many branches after its name. It has a
// word at least.
fn size_by(last: Option<u16>, count: u64) -> u64
    ensures { result ≡ size_by last count }
{
    match last {
        Some(last) => larger(u64::from(last) + 1, count.saturating_sub(1)),
        None => larger(1, count),
    }
}

fn larger(one: u64, other: u64) -> u64
    ensures { result ≡ larger one other }
{
    if one < other { other } else { one }
}

fn sum_of(one: Option<u16>, other: Option<u16>) -> Option<u64>
    ensures { result ≡ sum_of one other }
{
    Some(u64::from(one?) + u64::from(other?))
}

// What is left of the difference of two values, divided by a third.
fn rest_of(one: Option<u16>, other: Option<u16>, step: Option<u16>) -> Option<u64>
    ensures { result ≡ rest_of one other step }
{
    match (one, other, step) {
        (Some(one), Some(other), Some(step)) if step > 0 => {
            Some(u64::from(distance(one, other) % step))
        }
        _ => None,
    }
}

fn distance(one: u16, other: u16) -> u16
    ensures { result ≡ distance one other }
{
    if one < other {
        other - one
    } else {
        one - other
    }
}

// Whether a number below 0, or a minus, stands after a branch, before the next `;`.
fn has_negative(tree: &Tree<'_>, index: usize) -> bool
    ensures { result ≡ has_negative tree.now (Some index) }
{
    some_negative(after(tree.lexemes, branch_at(tree.rows, index).token))
}

fn some_negative(lexemes: &[Lexeme]) -> bool
    ensures { result ≡ list_any is_negative (take_while is_no_end lexemes.now) }
{
    lexemes
        .iter()
        .take_while(|lexeme| is_no_end(lexeme))
        .any(|lexeme| is_negative(lexeme))
}

fn is_no_end(lexeme: &Lexeme) -> bool
    ensures { result ≡ is_no_end lexeme.now }
{
    !matches!(*lexeme, Lexeme::Semicolon)
}

fn is_negative(lexeme: &Lexeme) -> bool
    ensures { result ≡ is_negative lexeme.now }
{
    match *lexeme {
        Lexeme::Number(value) => value >= 32_768,
        Lexeme::Operator(op) => operator_number(op) == 10,
        _ => false,
    }
}

// Whether a branch is in another one, or is it.
fn is_inside(tree: &Tree<'_>, one: usize, other: usize) -> bool
    ensures { result ≡ is_inside tree.now (Some one) (Some other) }
{
    one <= other && branch_at(tree.rows, other).begin <= one
}

// Whether a branch ends before another one begins.
fn comes_before(tree: &Tree<'_>, one: usize, other: usize) -> bool
    ensures { result ≡ comes_before tree.now (Some one) (Some other) }
{
    one < branch_at(tree.rows, other).begin
}

// Whether a branch is all that a statement does.
fn is_dropped(tree: &Tree<'_>, index: usize) -> bool
    ensures { result ≡ is_dropped tree.now (Some index) }
{
    index < tree.rows.len()
        && matches!(
            branch_at(tree.rows, index + 1).kind,
            Kind::Node(Node::Evaluated)
        )
}

// The number that stands after a name.
fn given_after(tree: &Tree<'_>, index: Option<usize>) -> Option<u16>
    ensures { result ≡ given_after tree.now index }
{
    match after(tree.lexemes, branch_at(tree.rows, index?).token) {
        [given, ..] => constant_in(given),
        [] => None,
    }
}

fn compares(relation: Relation, one: u64, other: u64) -> bool
    ensures { result ≡ compares relation one other }
{
    match relation {
        Relation::Equal => one == other,
        Relation::Unequal => one != other,
        Relation::Less => one < other,
        Relation::AtMost => one <= other,
        Relation::Greater => other < one,
        Relation::AtLeast => other <= one,
    }
}

// How many bytes a branch that is one token has.
fn bytes_in(tree: &Tree<'_>, index: Option<usize>) -> Option<u64>
    ensures { result ≡ bytes_in tree.now index }
{
    match place_at(tree, branch_at(tree.rows, index?).first) {
        Some(place) => Some(place.len as u64),
        None => Some(0),
    }
}

fn letters_in(tree: &Tree<'_>, index: Option<usize>) -> Option<u64>
    ensures { result ≡ letters_in tree.now index }
{
    let place = place_at(tree, branch_at(tree.rows, index?).first);
    Some(letters_of(bytes_at(tree.text, place)) as u64)
}

// How many bytes are no stars, without two quotes.
fn letters_of(bytes: &[u8]) -> usize
    ensures { result ≡ letters_of bytes.now }
{
    bytes
        .iter()
        .filter(|byte| **byte != b'*')
        .count()
        .saturating_sub(2)
}

fn token_in(tree: &Tree<'_>, index: Option<usize>) -> Option<u64>
    ensures { result ≡ token_in tree.now index }
{
    Some(branch_at(tree.rows, index?).first as u64)
}

fn line_in(tree: &Tree<'_>, index: Option<usize>) -> Option<u64>
    ensures { result ≡ line_in tree.now index }
{
    Some(place_at(tree, branch_at(tree.rows, index?).first)?.line)
}

// Whether the token of a branch is the name of these letters.
fn is_spelled(tree: &Tree<'_>, index: usize, name: &[u8]) -> bool
    ensures { result ≡ is_spelled tree.now (Some index) name.now }
{
    let token = branch_at(tree.rows, index).token;
    is_named(&lexeme_at(tree.lexemes, token), name)
}

fn is_heading(tree: &Tree<'_>, index: usize) -> bool
    ensures { result ≡ is_heading tree.now (Some index) }
{
    matches!(
        branch_at(tree.rows, index).kind,
        Kind::Construct(Construct::Heading)
    )
}

// Whether a sign comes after the last token of a branch.
fn is_next(tree: &Tree<'_>, index: usize, sign: u16) -> bool
    ensures { result ≡ is_next tree.now (Some index) sign }
{
    let last = branch_at(tree.rows, index).last;
    follows(sign, &lexeme_at(tree.lexemes, last.saturating_add(1)))
}

fn has_backslash(tree: &Tree<'_>, index: usize) -> bool
    ensures { result ≡ has_backslash tree.now (Some index) }
{
    let place = place_at(tree, branch_at(tree.rows, index).first);
    has_c_escape(bytes_at(tree.text, place))
}

fn begins_with(tree: &Tree<'_>, index: usize, word: Word) -> bool
    ensures { result ≡ begins_with tree.now (Some index) word }
{
    let first = branch_at(tree.rows, index).first;
    is_word(word, &lexeme_at(tree.lexemes, first))
}

fn place_at(tree: &Tree<'_>, token: usize) -> Option<TokenPlace>
    ensures { result ≡ place_at tree.now token }
{
    tree.places.get(token).copied()
}

fn bytes_at(text: &[u8], place: Option<TokenPlace>) -> &[u8]
    ensures { result.now ≡ bytes_at text.now place }
{
    match place {
        Some(place) => {
            let rest = text.get(place.start..).unwrap_or(&[]);
            rest.get(..place.len).unwrap_or(rest)
        }
        None => &[],
    }
}

fn has_c_escape(bytes: &[u8]) -> bool
    ensures { result ≡ has_c_escape 0 bytes.now }
{
    let mut before: u8 = 0;
    for byte in bytes {
        if is_c_escape(before, *byte) {
            return true;
        }
        before = *byte;
    }
    false
}

fn is_c_escape(before: u8, byte: u8) -> bool
    ensures { result ≡ is_c_escape before byte }
{
    before == b'\\' && matches!(byte, b'n' | b't' | b'r' | b'0' | b'\\')
}

fn are_joined(first: Option<TokenPlace>, second: Option<TokenPlace>) -> bool
    ensures { result ≡ are_joined first second }
{
    match (first, second) {
        (Some(first), Some(second)) => {
            second.start >= first.start && second.start - first.start == first.len
        }
        _ => false,
    }
}

// Whether a token is this sign.
fn follows(sign: u16, lexeme: &Lexeme) -> bool
    ensures { result ≡ follows sign lexeme.now }
{
    sign > 0 && sign == sign_number(lexeme)
}

/// The sign number of a token: one for each sign that may be asked for, and 0 for all else.
pub fn sign_number(lexeme: &Lexeme) -> u16
    ensures { result ≡ sign_number lexeme.now }
{
    match *lexeme {
        Lexeme::OpenBrace => 1,
        Lexeme::CloseBrace => 2,
        Lexeme::OpenParen => 3,
        Lexeme::CloseParen => 4,
        Lexeme::OpenBracket => 5,
        Lexeme::CloseBracket => 6,
        Lexeme::Semicolon => 7,
        Lexeme::Comma => 8,
        Lexeme::Operator(op) => 10 + operator_number(op),
        _ => 0,
    }
}

fn is_operator(lexeme: Lexeme) -> bool
    ensures { result ≡ is_operator lexeme }
{
    matches!(lexeme, Lexeme::Operator(_))
}

fn is_own_name(site: &Site<'_>, index: usize) -> bool
    ensures { result ≡ is_own_name site.now (Some index) }
{
    let tree = &site.sight.tree;
    let own = branch_at(tree.rows, site.function.begin).token;
    is_same_lexeme(
        &lexeme_at(tree.lexemes, branch_at(tree.rows, index).token),
        &lexeme_at(tree.lexemes, own),
    )
}

fn is_parameter(site: &Site<'_>, index: usize) -> bool
    ensures { result ≡ is_parameter site.now (Some index) }
{
    let tree = &site.sight.tree;
    let own = branch_at(tree.rows, site.function.begin).token;
    let name = lexeme_at(tree.lexemes, branch_at(tree.rows, index).token);
    is_before_close(after(tree.lexemes, own), &name)
}

// The tokens after this one.
fn after(lexemes: &[Lexeme], token: usize) -> &[Lexeme]
    ensures { result.now ≡ after lexemes.now token }
{
    if token < lexemes.len() {
        &lexemes[token + 1..]
    } else {
        &[]
    }
}

// Whether it is one of these up to the first `)`.
fn is_before_close(lexemes: &[Lexeme], name: &Lexeme) -> bool
    ensures { result ≡ list_any (λ l. is_same_lexeme l name.now) (take_while is_no_close lexemes.now) }
{
    lexemes
        .iter()
        .take_while(|lexeme| is_no_close(lexeme))
        .any(|lexeme| is_same_lexeme(lexeme, name))
}

fn is_no_close(lexeme: &Lexeme) -> bool
    ensures { result ≡ is_no_close lexeme.now }
{
    !matches!(*lexeme, Lexeme::CloseParen)
}
