//! Taking one token.
ghost use Rattle.std.specs.Prelude.{◌≡◌};
ghost use Rattle.bemit.specs.Drafts.{place_of};
ghost use Rattle.bread.specs.Tokens.{IsLoaded, IsSingle};
ghost use Rattle.bread.specs.Compiling.{FindsName, FindsSize, FindsConstant};

use crate::{Halt, Parser};
use blex::Lexeme;
use bword::{ByteIn, Name};

/// A name and its line.
#[derive(Clone, Copy)]
pub struct Word {
    pub name: Name,
    pub line: u64,
}

/// Takes a name, of whose line is what is made next.
pub fn name<I: ByteIn>(parser: &mut Parser<I>) -> Result<Word, Halt>
    requires { IsLoaded parser.old.tokens }
    ensures tokens { FindsName (place_of parser.old.draft) parser.old.tokens result parser.new.tokens }
    ensures draft { parser.new.draft ≡ parser.old.draft }
{
    parser.see();
    let line = parser.tokens.line();
    let name = match parser.tokens.lexeme() {
        Lexeme::Name(name) => name,
        _ => return Err(Halt::Fault),
    };
    parser.tokens.take(parser.draft.place())?;
    Ok(Word { name, line })
}

/// Takes the constant of a vector, if one comes.
pub fn size<I: ByteIn>(parser: &mut Parser<I>) -> Result<Option<u16>, Halt>
    requires { IsSingle parser.old.tokens }
    ensures tokens { FindsSize parser.old.tokens result parser.new.tokens }
    ensures draft { parser.new.draft ≡ parser.old.draft }
{
    let size = match parser.tokens.lexeme() {
        Lexeme::Number(size) => size,
        _ => return Ok(None),
    };
    parser.tokens.advance()?;
    Ok(Some(size))
}

/// Takes a constant and answers its value.
pub fn constant<I: ByteIn>(parser: &mut Parser<I>) -> Result<u16, Halt>
    requires { IsSingle parser.old.tokens }
    ensures tokens { FindsConstant parser.old.tokens result parser.new.tokens }
    ensures draft { parser.new.draft ≡ parser.old.draft }
{
    let value = match parser.tokens.lexeme() {
        Lexeme::Number(value) | Lexeme::Character(value) => value,
        _ => return Err(Halt::Fault),
    };
    parser.tokens.advance()?;
    Ok(value)
}
