//! What comes before a statement.
ghost use Rattle.std.specs.Prelude.{◌≡◌};
ghost use Rattle.blang.specs.declared.token.Token.TheVariants as token;
ghost use Rattle.bgrammar.specs.Reading.{first};
ghost use Rattle.bgrammar.specs.StatementReader.{name, declared};
ghost use Rattle.bemit.specs.Drafts as drafts;
ghost use Rattle.bemit.specs.Drafts.{imported};
ghost use Rattle.bemit.specs.Effects.{headed};
ghost use Rattle.bemit.specs.Trails.{trailed_declared, trailed_name, trailed_heading};
ghost use Rattle.bread.specs.Tokens.{IsLoaded, IsSingle};
ghost use Rattle.bread.specs.Headings.{auto, extrn, case, default};
ghost use Rattle.bread.specs.Parsers.{Does};
ghost use Rattle.bread.specs.Compiling.{untold, CompilesPart, FindsHeading};

use crate::take::{constant, name, size};
use crate::{Halt, Mark, Parser};
use blang::Keyword;
use blex::Lexeme;
use bword::{ByteIn, Name};

// A name of `auto`.
fn automatic<I: ByteIn>(parser: &mut Parser<I>) -> Result<(), Halt>
    requires { IsLoaded parser.old.tokens }
    ensures { Does (CompilesPart (untold declared) (λ d. drafts.declared d.word d.size) trailed_declared) parser.old result parser.new }
{
    let word = name(parser)?;
    let size = size(parser)?;
    parser.draft.declare(word.name, word.line, size);
    Ok(())
}

// A name of `extrn`.
fn external<I: ByteIn>(parser: &mut Parser<I>) -> Result<(), Halt>
    requires { IsLoaded parser.old.tokens }
    ensures { Does (CompilesPart (untold name) imported trailed_name) parser.old result parser.new }
{
    let word = name(parser)?;
    parser.draft.import(word.name, word.line);
    Ok(())
}

// The names after `auto`.
fn auto<I: ByteIn>(parser: &mut Parser<I>) -> Result<(), Halt>
    requires { IsLoaded parser.old.tokens }
    ensures { Does (CompilesPart (untold auto) headed trailed_heading) parser.old result parser.new }
{
    automatic(parser)?;
    'names: while parser.tokens.is_at(Mark::Comma) {
        parser.tokens.advance()?;
        automatic(parser)?;
    }
    parser.expect(Mark::Semicolon)
}

// The names after `extrn`.
fn extrn<I: ByteIn>(parser: &mut Parser<I>) -> Result<(), Halt>
    requires { IsLoaded parser.old.tokens }
    ensures { Does (CompilesPart (untold extrn) headed trailed_heading) parser.old result parser.new }
{
    external(parser)?;
    'names: while parser.tokens.is_at(Mark::Comma) {
        parser.tokens.advance()?;
        external(parser)?;
    }
    parser.expect(Mark::Semicolon)
}

// The constant after a `case` on this line.
fn case<I: ByteIn>(parser: &mut Parser<I>, line: u64) -> Result<(), Halt>
    requires { IsSingle parser.old.tokens }
    ensures { Does (CompilesPart (untold (case line)) headed trailed_heading) parser.old result parser.new }
{
    let value = constant(parser)?;
    parser.expect(Mark::Colon)?;
    parser.draft.case(line, value);
    Ok(())
}

// What stands after a `default` on this line.
fn default<I: ByteIn>(parser: &mut Parser<I>, line: u64) -> Result<(), Halt>
    requires { IsSingle parser.old.tokens }
    ensures { Does (CompilesPart (untold (default line)) headed trailed_heading) parser.old result parser.new }
{
    parser.expect(Mark::Colon)?;
    parser.draft.default(line);
    Ok(())
}

// A label, if a colon stands after this name.
fn label<I: ByteIn>(parser: &mut Parser<I>, name: Name) -> Result<bool, Halt>
    requires loaded { IsLoaded parser.old.tokens }
    requires name { first parser.old.tokens.ahead ≡ token.Name name }
    ensures { Does FindsHeading parser.old result parser.new }
{
    let line = parser.tokens.line();
    parser.tokens.look_on()?;
    if !parser.tokens.is_after(Mark::Colon) {
        return Ok(false);
    }
    parser.tokens.advance()?;
    parser.tokens.advance()?;
    parser.draft.label(name, line);
    Ok(true)
}

// A heading that begins with this keyword, if one does.
fn headed<I: ByteIn>(parser: &mut Parser<I>, keyword: Keyword) -> Result<bool, Halt>
    requires loaded { IsLoaded parser.old.tokens }
    requires keyword { first parser.old.tokens.ahead ≡ token.Keyword keyword }
    ensures { Does FindsHeading parser.old result parser.new }
{
    let line = parser.tokens.line();
    match keyword {
        Keyword::Auto => {
            parser.tokens.advance()?;
            auto(parser)?;
            Ok(true)
        }
        Keyword::Extrn => {
            parser.tokens.advance()?;
            extrn(parser)?;
            Ok(true)
        }
        Keyword::Case => {
            parser.tokens.advance()?;
            case(parser, line)?;
            Ok(true)
        }
        Keyword::Default => {
            parser.tokens.advance()?;
            default(parser, line)?;
            Ok(true)
        }
        _ => Ok(false),
    }
}

/// Takes a heading, if one comes, and says whether it did.
pub fn heading<I: ByteIn>(parser: &mut Parser<I>) -> Result<bool, Halt>
    requires { IsLoaded parser.old.tokens }
    ensures { Does FindsHeading parser.old result parser.new }
{
    parser.see();
    match parser.tokens.lexeme() {
        Lexeme::Keyword(keyword) => headed(parser, keyword),
        Lexeme::Name(name) => label(parser, name),
        _ => Ok(false),
    }
}
