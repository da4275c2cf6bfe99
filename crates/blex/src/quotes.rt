//! Constants in quotes.
ghost use Rattle.std.specs.Prelude.{◌≡◌, [], IfOk, OnErr, Some};
ghost use Rattle.blang.specs.Cut.{plain_of, escape_of, character_token};
ghost use Rattle.blex.specs.Sources.{SourceFails};
ghost use Rattle.blex.specs.Lexemes.{IsLexemeOf, token_of_lexeme};
ghost use Rattle.blex.specs.Lexing.{PassesPiece, PassesLexeme, PassesCharacter, PassesQuoted};

use crate::lexeme::Lexeme;
use crate::source::Source;
use arrayvec::ArrayVec;
use blang::{Letters, STRING_LEN};
use bword::{ByteIn, Device};

/// The rest of the character constant whose opening quote was read.
pub(crate) fn character_constant<I: ByteIn>(source: &mut Source<I>) -> Result<Lexeme, Device>
    ensures ok { IfOk result (λ lexeme. PassesLexeme 39 source.old lexeme source.new) }
    ensures err { OnErr result (SourceFails source.old source.new) }
{
    let mut characters = ArrayVec::<u8, 2>::new();
    if !quoted(source, b'\'', &mut characters)? {
        return Ok(Lexeme::Bad(Letters::Constant));
    }
    Ok(character_token(&characters))
}

/// The rest of the string whose opening quote was read, and its characters.
pub(crate) fn string<I: ByteIn>(
    source: &mut Source<I>,
    characters: &mut ArrayVec<u8, STRING_LEN>,
) -> Result<Lexeme, Device>
    ensures ok { IfOk result (λ lexeme. PassesPiece 34 source.old
        (Some (token_of_lexeme lexeme characters.new.items)) source.new) }
    ensures err { OnErr result (SourceFails source.old source.new) }
{
    characters.clear();
    if !quoted(source, b'"', characters)? {
        return Ok(Lexeme::Bad(Letters::Constant));
    }
    Ok(Lexeme::String)
}

// The one or two characters of a constant, of which the first is the high byte.
fn character_token(characters: &[u8]) -> Lexeme
    ensures { IsLexemeOf result (character_token characters.now) }
{
    match characters {
        [low] => Lexeme::Character(u16::from(*low)),
        [high, low] => Lexeme::Character(u16::from(*high) * 256 + u16::from(*low)),
        _ => Lexeme::Bad(Letters::Constant),
    }
}

// Appends the characters up to the closing quote, and says whether all before it fits.
fn quoted<I: ByteIn, const ROOM: usize>(
    source: &mut Source<I>,
    quote: u8,
    characters: &mut ArrayVec<u8, ROOM>,
) -> Result<bool, Device>
    requires { characters.old.items ≡ [] }
    ensures ok { IfOk result (λ fits. PassesQuoted quote ROOM source.old fits characters.new.items source.new) }
    ensures err { OnErr result (SourceFails source.old source.new) }
{
    while let Some(byte) = source.next()? {
        if byte == quote {
            return Ok(true);
        }
        if characters.is_full() {
            return Ok(false);
        }
        let Some(character) = character(source, byte)? else {
            return Ok(false);
        };
        characters.push(character);
    }
    Ok(false)
}

// The rest of the character that begins with this byte, which is not the quote.
#[inline(always)]
fn character<I: ByteIn>(source: &mut Source<I>, first: u8) -> Result<Option<u8>, Device>
    ensures ok { IfOk result (λ character. PassesCharacter first source.old character source.new) }
    ensures err { OnErr result (SourceFails source.old source.new) }
{
    if first != b'*' {
        return Ok(plain(first));
    }
    let Some(byte) = source.next()? else {
        return Ok(None);
    };
    Ok(escape(byte))
}

fn plain(byte: u8) -> Option<u8>
    ensures { result ≡ plain_of byte }
{
    if byte == b'\t' || (32..=126).contains(&byte) {
        Some(byte)
    } else {
        None
    }
}

/// The byte of an escape with this one after its star, if there is one.
#[tactic(auto, unfolding(blang::specs::Cut::escape_of))]
pub fn escape(byte: u8) -> Option<u8>
    ensures { result ≡ escape_of byte }
{
    match byte {
        b'0' => Some(0),
        b'e' => Some(4),
        b'(' => Some(b'{'),
        b')' => Some(b'}'),
        b'n' => Some(b'\n'),
        b't' => Some(b'\t'),
        b'*' => Some(b'*'),
        b'\'' => Some(b'\''),
        b'"' => Some(b'"'),
        _ => None,
    }
}
