//! Keywords and names.
ghost use Rattle.std.specs.Prelude.{◌≡◌, IfOk, OnOk, OnErr, true, Some, None, if◌then◌else◌};
ghost use Rattle.bword.specs.Words.{is_name_start, is_name_byte};
ghost use Rattle.blang.specs.Cut.{word_token, keyword_of, is_text};
ghost use Rattle.blex.specs.Runs.{TakesName};
ghost use Rattle.blex.specs.Sources.{SourceFails};
ghost use Rattle.blex.specs.Lexing.{PassesLexeme, TakesIf};
ghost use Rattle.blex.specs.Lexemes.{IsLexemeOf};

use crate::lexeme::Lexeme;
use crate::source::Source;
use crate::spelling::Spelling;
use blang::{Keyword, Letters};
use bword::{ByteIn, Device, Edition, NAME_LEN, Name, is_name_byte};

/// The rest of the word that begins with this byte.
#[inline(always)]
pub(crate) fn word<I: ByteIn>(source: &mut Source<I>, first: u8) -> Result<Lexeme, Device>
    requires { is_name_start first ≡ true }
    ensures ok { IfOk result (λ lexeme. PassesLexeme first source.old lexeme source.new) }
    ensures err { OnErr result (SourceFails source.old source.new) }
{
    let mut spelling = Spelling::new(first);
    if !source.take_name_bytes(&mut spelling) {
        take_rest(source, &mut spelling)?;
    }
    if spelling.len > NAME_LEN as u64 {
        return Ok(Lexeme::Bad(Letters::LongName));
    }
    let name = Name::from_number(spelling.number, spelling.len as u8);
    Ok(keyword_or_name(source.edition(), name))
}

// Takes the bytes that go on with a name, one by one.
#[cold]
#[inline(never)]
fn take_rest<I: ByteIn>(source: &mut Source<I>, spelling: &mut Spelling) -> Result<(), Device>
    ensures ok { OnOk result (TakesName source.old spelling.old true source.new spelling.new) }
    ensures err { OnErr result (SourceFails source.old source.new) }
{
    while let Some(byte) = name_byte(source)? {
        spelling.push(byte);
    }
    Ok(())
}

// The next byte, if a name goes on with it.
fn name_byte<I: ByteIn>(source: &mut Source<I>) -> Result<Option<u8>, Device>
    ensures ok { IfOk result (λ byte. TakesIf is_name_byte source.old byte source.new) }
    ensures err { OnErr result (SourceFails source.old source.new) }
{
    let Some(byte) = source.peek()? else {
        return Ok(None);
    };
    if !is_name_byte(byte) {
        return Ok(None);
    }
    source.skip();
    Ok(Some(byte))
}

// The keyword or the name that this is.
#[tactic(auto, unfolding(blang::specs::Cut::word_token))]
#[inline(always)]
fn keyword_or_name(edition: Edition, name: Name) -> Lexeme
    ensures { IsLexemeOf result (word_token edition name) }
{
    match keyword(edition, name.as_bytes()) {
        Some(keyword) => Lexeme::Keyword(keyword),
        None => Lexeme::Name(name),
    }
}

#[tactic(auto, unfolding(blang::specs::Cut::keyword_of))]
#[inline(always)]
fn keyword(edition: Edition, text: &[u8]) -> Option<Keyword>
    ensures { result ≡ keyword_of edition text.now }
{
    match text.first()? {
        b'a' => keyword_if(text, b"auto", Keyword::Auto),
        b'b' if edition == Edition::Two => keyword_if(text, b"break", Keyword::Break),
        b'c' => keyword_if(text, b"case", Keyword::Case),
        b'd' if edition == Edition::Two => keyword_if(text, b"default", Keyword::Default),
        b'e' if text.len() == 4 => keyword_if(text, b"else", Keyword::Else),
        b'e' => keyword_if(text, b"extrn", Keyword::Extrn),
        b'g' => keyword_if(text, b"goto", Keyword::Goto),
        b'i' => keyword_if(text, b"if", Keyword::If),
        b'r' => keyword_if(text, b"return", Keyword::Return),
        b's' => keyword_if(text, b"switch", Keyword::Switch),
        b'w' => keyword_if(text, b"while", Keyword::While),
        _ => None,
    }
}

#[inline(always)]
fn keyword_if(text: &[u8], spelling: &[u8], keyword: Keyword) -> Option<Keyword>
    ensures { result ≡ if is_text text.now spelling.now then Some keyword else None }
{
    (text == spelling).then_some(keyword)
}
