//! What a change that needs no choice keeps of a source.
ghost use Rattle.std.specs.Prelude.{◌≡◌, ◌<◌, ◌≤◌, ◌+◌, ◌==◌, ◌++◌, IfOk, OnOk, count_by, drop, length};
ghost use Rattle.std.specs.Prelude.{if◌then◌else◌, position, reverse, slice_range};
ghost use Rattle.std.specs.List.{list_any};
ghost use Rattle.bword.specs.Words.{same_name};
ghost use Rattle.bcheck.specs.ChangesExcluded.{WrongChanges};
ghost use Rattle.bcheck.specs.Spares.{adds_none, alike, are_of_class, is_one, are_comment, are_in, are_near};
ghost use Rattle.bcheck.specs.Spares.{assigns_list, before_back, begins, begins_alike, begins_declaration};
ghost use Rattle.bcheck.specs.Spares.{begins_foreign, begins_with, count_of, ends_part, first_lexeme, fits_kind};
ghost use Rattle.bcheck.specs.Spares.{fits_sign, is_foreign, is_known, is_letter, is_of_class, is_of_kind, is_other};
ghost use Rattle.bcheck.specs.Spares.{is_other_word, is_plain, is_prototype, is_quote, is_row, is_same_piece, is_sign};
ghost use Rattle.bcheck.specs.Spares.{is_type, joined, keeps, keeps_declared, keeps_quoted, knows, letters_apart};
ghost use Rattle.bcheck.specs.Spares.{open_bracket, opens, opens_at, other_words, pair_of, puts, puts_few, renames};
ghost use Rattle.bcheck.specs.Spares.{rest_back, right_piece, right_pieces, sets_index, sets_name, sets_place};
ghost use Rattle.bcheck.specs.Spares.{sets_word, spares, stands, stays, stays_declared, swap_of, takes, times};
ghost use Rattle.bcheck.specs.Spares.{translates, turns_declaration};

use crate::foreign::heading_word;
use crate::further::is_end;
use crate::kinds::{is_among, is_type_name};
use crate::places::parts;
use blang::Keyword;
use blex::{Lexeme, PlacedPiece, Scanner};
use btools::Text;
use bword::{BinOp, Edition, Name};
use std::alloc::{AllocError, Global};

/// The most comments and tokens that a change takes out.
const MOST_CHANGED: usize = 256;

/// Words of other languages that a change may take out.
const OTHER_WORDS: [&str; 2] = ["then", "do"];

/// What stands here for a sign or a word of another language, each without blanks.
#[rattlefmt::skip]
const STAND_ROWS: [(&str, &str); 42] = [
    ("==", "="), ("=", "=="), ("=<", "<="), ("=>", ">="), ("+=", "=+"), ("-=", "=-"), ("*=", "=*"), ("/=", "=/"),
    ("%=", "=%"), ("&=", "=&"), ("|=", "=|"), ("<>", "!="), (":=", "="), (";", ","), (",", ";"), (":", ";"),
    (";", ":"), (")", "]"), ("]", ")"), ("and", "&"), ("or", "|"), ("not", "!"), ("True", "1"), ("true", "1"),
    ("TRUE", "1"), ("False", "0"), ("false", "0"), ("FALSE", "0"), ("None", "0"), ("NULL", "0"), ("nil", "0"),
    ("null", "0"), ("EOF", "'*e'"), ("-1", "'*e'"), (">-1", "!='*e'"), (">=0", "!='*e'"), ("<=-1", "=='*e'"),
    ("<0", "=='*e'"), ("-1<", "'*e'!="), ("0<=", "'*e'!="), ("-1>=", "'*e'=="), ("0>", "'*e'=="),
];

/// A class of comments and tokens.
#[derive(Clone, Copy)]
enum Class {
    /// What is neither a sign that may be taken out nor a word of another language.
    Bound,
    Sign,
    /// A keyword with which a function or a loop is left.
    WayOut,
    Name,
    Number,
    Star,
    /// The `(` of a call.
    Call,
    /// A comment or a string.
    Quoted,
    /// What no token is.
    Wrong,
    /// Of what a declaration consists, and a prototype.
    Declaration,
    Prototype,
}

/// Two sources, and pieces of each.
#[derive(Clone, Copy)]
struct Both<'a> {
    source: &'a [u8],
    olds: &'a [PlacedPiece],
    new: &'a [u8],
    news: &'a [PlacedPiece],
}

/// A change of a source: all pieces, those that change, those before them, from the last one back, and the bytes that
/// it takes out, with their pieces.
#[derive(Clone, Copy)]
struct Trial<'a> {
    whole: Both<'a>,
    changed: Both<'a>,
    before: &'a [PlacedPiece],
    taken: &'a [u8],
    pieces: &'a [PlacedPiece],
}

/// Whether a change that takes these bytes of a source out, and makes another one of it, needs no choice.
pub(crate) fn spares(
    alloc: Global,
    edition: Edition,
    source: &[u8],
    new: &[u8],
    taken: &[u8],
) -> Result<bool, AllocError>
    ensures { IfOk result (λ is. is ≡ spares edition source.now new.now taken.now) }
{
    let olds = pieces(alloc, edition, source)?;
    let news = pieces(alloc, edition, new)?;
    let out = pieces(alloc, edition, taken)?;
    let whole = Both {
        source,
        olds: olds.as_slice(),
        new,
        news: news.as_slice(),
    };
    let before = before_back(alloc, &whole)?;
    let (first_olds, first_news) = rest_back(alloc, &whole)?;
    let rest = Both {
        olds: first_olds.as_slice(),
        news: first_news.as_slice(),
        ..whole
    };
    let (last_olds, last_news) = rest_back(alloc, &rest)?;
    let changed = Both {
        olds: last_olds.as_slice(),
        news: last_news.as_slice(),
        ..whole
    };
    let trial = Trial {
        whole,
        changed,
        before: before.as_slice(),
        taken,
        pieces: out.as_slice(),
    };
    keeps(alloc, &trial)
}

// Whether what changes needs no choice.
fn keeps(alloc: Global, trial: &Trial<'_>) -> Result<bool, AllocError>
    ensures { IfOk result (λ is. is ≡ keeps (swap_of trial.now)) }
{
    let both = &trial.changed;
    let is_kept = quotes(both.source) <= quotes(both.new)
        && both.olds.len() <= MOST_CHANGED
        && keeps_quoted(both)
        && adds_none(both, Class::WayOut);
    if !is_kept {
        return Ok(false);
    }
    if is_foreign(trial.taken, trial.pieces, both.olds) && translates(both, trial.taken) {
        return Ok(true);
    }
    is_of_kind(alloc, trial)
}

// Whether a change is of a kind that needs no choice.
fn is_of_kind(alloc: Global, trial: &Trial<'_>) -> Result<bool, AllocError>
    ensures { IfOk result (λ is. is ≡ is_of_kind (swap_of trial.now)) }
{
    let old = joined(alloc, trial.changed.source, trial.changed.olds)?;
    let new = joined(alloc, trial.changed.new, trial.changed.news)?;
    Ok(fits_kind(trial, old.as_slice(), new.as_slice()))
}

// Whether it is, where these are the bytes of the pieces that change.
fn fits_kind(trial: &Trial<'_>, old: &[u8], new: &[u8]) -> bool
    ensures { result ≡ fits_kind (swap_of trial.now) old.now new.now }
{
    let both = &trial.changed;
    puts(&trial.whole, both)
        || takes(both)
        || turns_declaration(&trial.whole, both, trial.taken, trial.pieces)
        || stands(both.source, trial.before, old, new)
        || renames(both, old, new)
}

// Whether all pieces stay, in their order, and no more are put in than quotes and stars, or a few.
fn puts(whole: &Both<'_>, both: &Both<'_>) -> bool
    ensures { result ≡ puts (pair_of whole.now) (pair_of both.now) }
{
    are_in(both) && (plain_bytes(both.new) <= plain_bytes(both.source) || puts_few(whole, both))
}

// Whether three pieces are put in at most, and no name but one that is known.
fn puts_few(whole: &Both<'_>, both: &Both<'_>) -> bool
    ensures { result ≡ puts_few (pair_of whole.now) (pair_of both.now) }
{
    both.news.len() <= both.olds.len().saturating_add(3)
        && (adds_none(both, Class::Name)
            || are_of_class(Class::Declaration, both.news) && knows(whole, both))
}

// Whether each name among the new pieces stands in the source.
fn knows(whole: &Both<'_>, both: &Both<'_>) -> bool
    ensures { result ≡ knows (pair_of whole.now) (pair_of both.now) }
{
    both.news
        .iter()
        .all(|piece| is_known(whole, both.new, piece))
}

#[tactic(auto, unfolding(crate::specs::Spares::is_known))]
fn is_known(whole: &Both<'_>, new: &[u8], piece: &PlacedPiece) -> bool
    ensures { result ≡ is_known (pair_of whole.now) new.now piece.now }
{
    !is_of_class(Class::Name, piece.lexeme) || 0 < times(new, piece, whole.source, whole.olds)
}

// Whether none but one or two signs and words of other languages are taken out.
fn takes(both: &Both<'_>) -> bool
    ensures { result ≡ takes (pair_of both.now) }
{
    let back = Both {
        source: both.new,
        olds: both.news,
        new: both.source,
        news: both.olds,
    };
    are_in(&back)
        && count_of(both.olds, Class::Bound) <= count_of(both.news, Class::Bound)
        && count_of(both.olds, Class::Sign) <= count_of(both.news, Class::Sign).saturating_add(2)
}

// Whether a declaration of another language, which is taken out or a part of what is, becomes one of this.
fn turns_declaration(
    whole: &Both<'_>,
    both: &Both<'_>,
    taken: &[u8],
    pieces: &[PlacedPiece],
) -> bool
    ensures { result ≡ turns_declaration (pair_of whole.now) (pair_of both.now) taken.now pieces.now }
{
    begins_declaration(both.olds, taken, pieces)
        && keeps_declared(both)
        && knows(whole, both)
        && adds_none(both, Class::Call)
}

fn keeps_declared(both: &Both<'_>) -> bool
    ensures { result ≡ keeps_declared (pair_of both.now) }
{
    both.olds.iter().all(|piece| stays_declared(both, piece))
}

#[tactic(auto, unfolding(crate::specs::Spares::stays_declared))]
fn stays_declared(both: &Both<'_>, piece: &PlacedPiece) -> bool
    ensures { result ≡ stays_declared (pair_of both.now) piece.now }
{
    !is_of_class(Class::Bound, piece.lexeme)
        || is_of_class(Class::Star, piece.lexeme)
        || stays(both, piece)
}

// Whether a declaration is taken out, or an assignment of a list, or what changes begins with a type.
fn begins_declaration(olds: &[PlacedPiece], taken: &[u8], pieces: &[PlacedPiece]) -> bool
    ensures { result ≡ begins_declaration olds.now taken.now pieces.now }
{
    is_other(first_lexeme(olds)) || begins("auto", taken, pieces) || assigns_list(taken, pieces)
}

fn assigns_list(source: &[u8], pieces: &[PlacedPiece]) -> bool
    ensures { result ≡ assigns_list source.now pieces.now }
{
    is_of_class(Class::Name, first_lexeme(pieces))
        && begins("=", source, rest_from(pieces, 1))
        && begins("[", source, rest_from(pieces, 2))
}

fn first_lexeme(pieces: &[PlacedPiece]) -> Option<Lexeme>
    ensures { result ≡ first_lexeme pieces.now }
{
    match pieces {
        [first, ..] => first.lexeme,
        [] => None,
    }
}

// Whether pieces of a source begin with a word or a sign.
fn begins(word: &str, source: &[u8], pieces: &[PlacedPiece]) -> bool
    ensures { result ≡ begins word.now source.now pieces.now }
{
    match pieces {
        [first, ..] => text_of(source, first) == word.as_bytes(),
        [] => false,
    }
}

fn rest_from(pieces: &[PlacedPiece], count: usize) -> &[PlacedPiece]
    ensures { result.now ≡ drop count pieces.now }
{
    if count < pieces.len() {
        pieces.split_at(count).1
    } else {
        &[]
    }
}

// Whether these bytes stand for those of a sign or of a word, after such pieces of a source.
fn stands(source: &[u8], before: &[PlacedPiece], old: &[u8], new: &[u8]) -> bool
    ensures { result ≡ stands source.now before.now old.now new.now }
{
    is_among_rows(old, new, &STAND_ROWS) && fits_sign(source, before, old)
}

// Whether `==`, if it changes, is the sign of a statement that sets a word, and `=` isn't.
fn fits_sign(source: &[u8], before: &[PlacedPiece], old: &[u8]) -> bool
    ensures { result ≡ fits_sign source.now before.now old.now }
{
    if old == b"==".as_slice() {
        sets_word(source, before)
    } else {
        !(old == b"=".as_slice() && sets_word(source, before))
    }
}

// Whether pieces, from the last one back, are a word that a statement begins with, or one that is counted then.
fn sets_word(source: &[u8], before: &[PlacedPiece]) -> bool
    ensures { result ≡ sets_word source.now before.now }
{
    sets_place(source, before)
        || (begins("++", source, before) || begins("--", source, before))
            && sets_place(source, rest_from(before, 1))
}

// Whether they are one of these names, or one with an index of one piece or of three.
fn sets_place(source: &[u8], before: &[PlacedPiece]) -> bool
    ensures { result ≡ sets_place source.now before.now }
{
    sets_name(source, before)
        || begins("]", source, before)
            && (sets_index(source, rest_from(before, 2))
                || sets_index(source, rest_from(before, 4)))
}

fn sets_index(source: &[u8], before: &[PlacedPiece]) -> bool
    ensures { result ≡ sets_index source.now before.now }
{
    begins("[", source, before) && sets_name(source, rest_from(before, 1))
}

// Whether they are a name, or `*` and a name.
fn sets_name(source: &[u8], before: &[PlacedPiece]) -> bool
    ensures { result ≡ sets_name source.now before.now }
{
    let rest = rest_from(before, 1);
    is_of_class(Class::Name, first_lexeme(before))
        && (ends_part(source, rest)
            || begins("*", source, rest) && ends_part(source, rest_from(before, 2)))
}

// Whether a statement may begin after them.
fn ends_part(source: &[u8], before: &[PlacedPiece]) -> bool
    ensures { result ≡ ends_part source.now before.now }
{
    begins(";", source, before)
        || begins("{", source, before)
        || begins("}", source, before)
        || begins(")", source, before)
        || begins("else", source, before)
}

fn is_among_rows(old: &[u8], new: &[u8], rows: &[(&str, &str)]) -> bool
    ensures { result ≡ list_any (λ row. is_row old.now new.now (row.0.now, row.1.now)) rows.now }
{
    for (one, other) in rows {
        if old == one.as_bytes() && new == other.as_bytes() {
            return true;
        }
    }
    false
}

// Whether a name stands for one with nearly the same letters, or a `[` parts it from an index.
fn renames(both: &Both<'_>, old: &[u8], new: &[u8]) -> bool
    ensures { result ≡ renames (pair_of both.now) old.now new.now }
{
    is_one(Class::Name, both.olds)
        && (is_one(Class::Name, both.news) && are_near(old, new) || opens(old, new))
}

fn is_one(class: Class, pieces: &[PlacedPiece]) -> bool
    ensures { result ≡ is_one class pieces.now }
{
    match pieces {
        [piece] => is_of_class(class, piece.lexeme),
        _ => false,
    }
}

fn are_near(name: &[u8], other: &[u8]) -> bool
    ensures { result ≡ are_near name.now other.now }
{
    name.len() <= other.len().saturating_add(1)
        && other.len() <= name.len().saturating_add(1)
        && letters_apart(name, other) <= 1
        && letters_apart(name, other) < name.len()
        && letters_apart(other, name) <= 1
}

// How many letters of a name another one doesn't have.
fn letters_apart(name: &[u8], other: &[u8]) -> usize
    ensures { result ≡ letters_apart name.now other.now }
{
    name.iter().filter(|byte| !has_byte(other, **byte)).count()
}

fn has_byte(bytes: &[u8], byte: u8) -> bool
    ensures { result ≡ list_any (λ c. c == byte) bytes.now }
{
    bytes.iter().any(|other| *other == byte)
}

// Whether a `[` parts a name.
fn opens(old: &[u8], new: &[u8]) -> bool
    ensures { result ≡ opens old.now new.now }
{
    opens_at(bracket_place(new), old, new)
}

fn bracket_place(text: &[u8]) -> Option<usize>
    ensures { result ≡ position (λ b. b == open_bracket) text.now }
{
    text.iter().position(|byte| *byte == b'[')
}

fn opens_at(place: Option<usize>, old: &[u8], new: &[u8]) -> bool
    ensures { result ≡ opens_at place old.now new.now }
{
    let Some(place) = place else {
        return false;
    };
    let (name, index) = parts(old, place);
    let (first, rest) = parts(new, place);
    let (_, second) = parts(rest, 1);
    name == first && index == second
}

// The bytes of pieces, without what is between them.
fn joined(alloc: Global, source: &[u8], pieces: &[PlacedPiece]) -> Result<Text, AllocError>
    ensures { IfOk result (λ text. text ≡ joined source.now pieces.now) }
{
    let mut text = Text::new(alloc);
    for piece in pieces {
        text.push(text_of(source, piece))?;
    }
    Ok(text)
}

// Whether what stands for what is of another language is all of it that is meant.
fn translates(both: &Both<'_>, taken: &[u8]) -> bool
    ensures { result ≡ translates (pair_of both.now) taken.now }
{
    if are_comment(both.new, both.news, taken) {
        return true;
    }
    if begins_with(taken, b'0') {
        return is_one(Class::Number, both.news);
    }
    if begins("define", both.source, both.olds) {
        let rest = Both {
            olds: rest_from(both.olds, 1),
            ..*both
        };
        are_in(&rest) && both.news.len() <= both.olds.len()
    } else {
        both.news.is_empty()
    }
}

// Whether these are one comment, with each letter that was taken out.
fn are_comment(new: &[u8], pieces: &[PlacedPiece], taken: &[u8]) -> bool
    ensures { result ≡ are_comment new.now pieces.now taken.now }
{
    match pieces {
        [piece] => {
            piece.lexeme.is_none()
                && letters(taken).saturating_add(2) <= letters(text_of(new, piece))
        }
        _ => false,
    }
}

// How many bytes of a text are no blanks.
fn letters(text: &[u8]) -> usize
    ensures { result ≡ count_by is_letter text.now }
{
    text.iter().filter(|byte| **byte > b' ').count()
}

// Whether pieces that change are in what was taken out alone, which is of another language.
fn is_foreign(taken: &[u8], pieces: &[PlacedPiece], olds: &[PlacedPiece]) -> bool
    ensures { result ≡ is_foreign taken.now pieces.now olds.now }
{
    (begins_foreign(taken) || is_prototype(pieces)) && olds.len() <= pieces.len()
}

// The comments and tokens of a source, but for what is wrong.
fn pieces(alloc: Global, edition: Edition, source: &[u8]) -> Result<Vec<PlacedPiece>, AllocError>
    ensures { IfOk result (λ pieces. pieces.items ≡ right_pieces edition source.now) }
{
    let mut pieces = Vec::new(alloc);
    let mut scanner = Scanner::new(source, edition);
    loop {
        let piece = scanner.next();
        if is_end(piece.lexeme) {
            return Ok(pieces);
        }
        push_right(&mut pieces, piece)?;
    }
}

// Adds a piece, if it is none that is wrong.
fn push_right(pieces: &mut Vec<PlacedPiece>, piece: PlacedPiece) -> Result<(), AllocError>
    ensures { OnOk result (pieces.new.items ≡ pieces.old.items ++ right_piece piece) }
{
    if !is_of_class(Class::Wrong, piece.lexeme) {
        pieces.push(piece)?;
    }
    Ok(())
}

// The pieces after the first ones that are the same, from the last one back.
fn rest_back(
    alloc: Global,
    both: &Both<'_>,
) -> Result<(Vec<PlacedPiece>, Vec<PlacedPiece>), AllocError>
    ensures olds { IfOk result (λ rest. rest.0.items ≡ (rest_back (pair_of both.now)).olds) }
    ensures news { IfOk result (λ rest. rest.1.items ≡ (rest_back (pair_of both.now)).news) }
{
    let count = alike(both);
    let olds = reversed(alloc, &both.olds[count..])?;
    let news = reversed(alloc, &both.news[count..])?;
    Ok((olds, news))
}

// The first pieces that are the same, from the last one back.
fn before_back(alloc: Global, both: &Both<'_>) -> Result<Vec<PlacedPiece>, AllocError>
    ensures { IfOk result (λ before. before.items ≡ before_back (pair_of both.now)) }
{
    let count = alike(both);
    reversed(alloc, &both.olds[..count])
}

// Pieces from the last one back.
fn reversed(alloc: Global, pieces: &[PlacedPiece]) -> Result<Vec<PlacedPiece>, AllocError>
    ensures { IfOk result (λ back. back.items ≡ reverse pieces.now) }
{
    let mut back = Vec::new(alloc);
    back.extend_from_slice(pieces)?;
    back.reverse();
    Ok(back)
}

// How many pieces are the same, from the first ones on.
fn alike(both: &Both<'_>) -> usize
    ensures equation { result ≡ alike both.now.source.now both.now.olds.now both.now.new.now both.now.news.now }
    ensures olds { result ≤ length both.now.olds.now }
    ensures news { result ≤ length both.now.news.now }
{
    for index in 0..both.olds.len() {
        if !is_same_at(both, index, index) {
            return index;
        }
    }
    both.olds.len()
}

// Whether an old piece and a new one are there and the same.
fn is_same_at(both: &Both<'_>, old: usize, new: usize) -> bool
    ensures { result ≡ begins_alike both.now.source.now (drop old both.now.olds.now) both.now.new.now
        (drop new both.now.news.now) }
{
    old < both.olds.len()
        && new < both.news.len()
        && is_same_piece(both.source, &both.olds[old], both.new, &both.news[new])
}

fn is_same_piece(source: &[u8], piece: &PlacedPiece, new: &[u8], other: &PlacedPiece) -> bool
    ensures { result ≡ is_same_piece source.now piece.now new.now other.now }
{
    text_of(source, piece) == text_of(new, other)
}

// The bytes of a piece of a source.
fn text_of<'a>(source: &'a [u8], piece: &PlacedPiece) -> &'a [u8]
    ensures { result.now ≡ slice_range source.now piece.now.first piece.now.end }
{
    let (_, rest) = parts(source, piece.first);
    let (text, _) = parts(rest, piece.end.saturating_sub(piece.first));
    text
}

// How often a piece is among others.
fn times(source: &[u8], piece: &PlacedPiece, new: &[u8], others: &[PlacedPiece]) -> usize
    ensures { result ≡ times source.now piece.now new.now others.now }
{
    others
        .iter()
        .filter(|other| is_same_piece(source, piece, new, other))
        .count()
}

fn stays(both: &Both<'_>, piece: &PlacedPiece) -> bool
    ensures { result ≡ stays (pair_of both.now) piece.now }
{
    times(both.source, piece, both.source, both.olds)
        <= times(both.source, piece, both.new, both.news)
}

fn keeps_quoted(both: &Both<'_>) -> bool
    ensures { result ≡ keeps_quoted (pair_of both.now) }
{
    both.olds.iter().all(|piece| !is_of_class(Class::Quoted, piece.lexeme) || stays(both, piece))
}

// Whether the old pieces are among the new ones, in their order.
fn are_in(both: &Both<'_>) -> bool
    ensures { result ≡ are_in both.now.source.now both.now.olds.now both.now.new.now both.now.news.now }
{
    let mut count = 0;
    for index in 0..both.news.len() {
        count = passed(both, count, index);
    }
    count == both.olds.len()
}

// How many of the old pieces are found after a new one, where so many were before.
fn passed(both: &Both<'_>, count: usize, index: usize) -> usize
    requires { count ≤ length both.now.olds.now }
    ensures { result ≡ (if begins_alike both.now.source.now (drop count both.now.olds.now) both.now.new.now
        (drop index both.now.news.now) then count + 1 else count) }
{
    if is_same_at(both, count, index) {
        count + 1
    } else {
        count
    }
}

// Whether no more of a class are there afterwards.
fn adds_none(both: &Both<'_>, class: Class) -> bool
    ensures { result ≡ adds_none class (pair_of both.now) }
{
    count_of(both.news, class) <= count_of(both.olds, class)
}

// How many pieces are of a class.
fn count_of(pieces: &[PlacedPiece], class: Class) -> usize
    ensures { result ≡ count_of class pieces.now }
{
    pieces
        .iter()
        .filter(|piece| is_of_class(class, piece.lexeme))
        .count()
}

fn are_of_class(class: Class, pieces: &[PlacedPiece]) -> bool
    ensures { result ≡ are_of_class class pieces.now }
{
    pieces.iter().all(|piece| is_of_class(class, piece.lexeme))
}

#[tactic(auto, unfolding(crate::specs::Spares::is_of_class))]
fn is_of_class(class: Class, lexeme: Option<Lexeme>) -> bool
    ensures { result ≡ is_of_class class lexeme }
{
    match class {
        Class::Bound => !(is_sign(lexeme) || is_other(lexeme)),
        Class::Sign => is_sign(lexeme),
        Class::WayOut => matches!(
            lexeme,
            Some(Lexeme::Keyword(Keyword::Goto | Keyword::Return | Keyword::Break))
        ),
        Class::Name => matches!(lexeme, Some(Lexeme::Name(_))),
        Class::Number => matches!(lexeme, Some(Lexeme::Number(_))),
        Class::Star => matches!(lexeme, Some(Lexeme::Operator(BinOp::Mul))),
        Class::Call => matches!(lexeme, Some(Lexeme::OpenParen)),
        Class::Quoted => matches!(lexeme, None | Some(Lexeme::String)),
        Class::Wrong => matches!(lexeme, Some(Lexeme::Bad(_))),
        Class::Declaration => matches!(
            lexeme,
            Some(
                Lexeme::Name(_)
                    | Lexeme::Keyword(Keyword::Auto | Keyword::Extrn)
                    | Lexeme::Comma
                    | Lexeme::Semicolon,
            )
        ),
        Class::Prototype => matches!(
            lexeme,
            Some(
                Lexeme::Name(_)
                    | Lexeme::Operator(_)
                    | Lexeme::Comma
                    | Lexeme::OpenParen
                    | Lexeme::CloseParen
                    | Lexeme::Semicolon,
            )
        ),
    }
}

// Whether it is a sign that may be taken out.
fn is_sign(lexeme: Option<Lexeme>) -> bool
    ensures { result ≡ is_sign lexeme }
{
    matches!(
        lexeme,
        Some(
            Lexeme::Comma
                | Lexeme::Semicolon
                | Lexeme::Colon
                | Lexeme::OpenParen
                | Lexeme::CloseParen
                | Lexeme::OpenBracket
                | Lexeme::CloseBracket
                | Lexeme::Assign(None)
                | Lexeme::Operator(BinOp::And | BinOp::Or | BinOp::Div),
        )
    )
}

fn is_other(lexeme: Option<Lexeme>) -> bool
    ensures { result ≡ is_other lexeme }
{
    match &lexeme {
        Some(Lexeme::Name(name)) => is_other_word(name),
        _ => false,
    }
}

// Whether a name is a word of another language.
#[tactic(auto, unfolding(crate::specs::Spares::is_other_word))]
fn is_other_word(name: &Name) -> bool
    ensures { result ≡ is_other_word name.now }
{
    is_type_name(name) || heading_word(name).is_some() || is_left_out(name)
}

fn is_left_out(name: &Name) -> bool
    ensures { result ≡ list_any (same_name name.now) other_words }
{
    is_among(name, &OTHER_WORDS)
}

// Whether a remark, a line of another language or a number to the base 16 begins with these bytes.
fn begins_foreign(bytes: &[u8]) -> bool
    ensures { result ≡ begins_foreign bytes.now }
{
    let (_, rest) = parts(bytes, 1);
    begins_with(bytes, b'#')
        || begins_with(bytes, b'/') && begins_with(rest, b'/')
        || begins_with(bytes, b'0') && (begins_with(rest, b'x') || begins_with(rest, b'X'))
}

// Whether these are a prototype, which begins with a type.
fn is_prototype(pieces: &[PlacedPiece]) -> bool
    ensures { result ≡ is_prototype pieces.now }
{
    is_type(first_lexeme(pieces)) && are_of_class(Class::Prototype, pieces)
}

#[tactic(auto, unfolding(crate::specs::Spares::is_type_word))]
fn is_type(lexeme: Option<Lexeme>) -> bool
    ensures { result ≡ is_type lexeme }
{
    match &lexeme {
        Some(Lexeme::Name(name)) => is_type_name(name),
        _ => false,
    }
}

fn begins_with(bytes: &[u8], byte: u8) -> bool
    ensures { result ≡ begins_with byte bytes.now }
{
    match bytes.first() {
        Some(first) => *first == byte,
        None => false,
    }
}

// How many bytes of a text are neither blanks nor quotes, backslashes or stars.
fn plain_bytes(text: &[u8]) -> usize
    ensures { result ≡ count_by is_plain text.now }
{
    text.iter()
        .filter(|byte| **byte > b' ' && !matches!(**byte, b'"' | b'\'' | b'\\' | b'*'))
        .count()
}

// How many quotes and backslashes a text has.
fn quotes(text: &[u8]) -> usize
    ensures { result ≡ count_by is_quote text.now }
{
    text.iter()
        .filter(|byte| matches!(**byte, b'"' | b'\'' | b'\\'))
        .count()
}

/// What no change without a choice does: it takes out no brace, no declaration, no statement and no byte of a string,
/// makes no declaration of a call, changes nothing at another place, and opens no comment.
pub fn wrong_changes_are_excluded()
    ensures { WrongChanges }
{}
