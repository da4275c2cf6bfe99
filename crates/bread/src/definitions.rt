//! Reading a definition and compiling it at once.
ghost use Rattle.std.specs.Prelude.{◌≡◌, ◌+◌, ◌≤◌, false, None};
ghost use Rattle.blang.specs.declared.limits.TheConstants.{MAX_INSTRUCTIONS};
ghost use Rattle.std.specs.Map.{keys_of};
ghost use Rattle.blang.specs.Cut.{is_last};
ghost use Rattle.bgrammar.specs.Reading.{first};
ghost use Rattle.blang.specs.Code.{vector_constant};
ghost use Rattle.bgrammar.specs.DefinitionReader.{ival, after_name, vector, function};
ghost use Rattle.bgrammar.specs.StatementReader.{name};
ghost use Rattle.bemit.specs.Drafts as drafts;
ghost use Rattle.bemit.specs.Effects.{ival_done, values_done, parameters_done};
ghost use Rattle.bemit.specs.Trails.{took, trailed_name, trailed_value, trailed_values, trailed_parameters};
ghost use Rattle.bread.specs.Tokens.{IsLoaded, IsSingle};
ghost use Rattle.bread.specs.Parsers.{Does};
ghost use Rattle.bread.specs.Compiling.{untold, CompilesPart};
ghost use Rattle.bread.specs.Definitions.{TakesValue, initial_value_list, parameters, FindsList, FindsKind, FindsDefinition, definition_begun};

use crate::header::{DefinitionHead, HeadKind, MOST_COUNTED};
use crate::statement::statement;
use crate::take::{Word, name, size};
use crate::{Halt, Mark, Parser};
use bemit::Draft;
use blang::{About, Diagnostic, Instr, Ival, Letters, MAX_NESTING};
use blex::Lexeme;
use bnames::{NameTable, Probes};
use bword::ByteIn;

// The greatest level of nesting.
const NESTING: u8 = MAX_NESTING as u8;

/// Reads the definition that comes, after definitions of these names.
pub fn definition<I: ByteIn>(
    parser: &mut Parser<I>,
    names: &NameTable,
) -> Result<DefinitionHead, Halt>
    requires { IsLoaded parser.old.tokens }
    ensures { FindsDefinition (keys_of names.now) parser.old.tokens result parser.new.tokens parser.new.draft }
{
    let word = name(parser)?;
    let is_defined = names.find(&word.name, &mut Probes::new()).is_some();
    begin(&mut parser.draft, word, is_defined);
    parser.tokens.clear_lines();
    let kind = after_name(parser)?;
    Ok(DefinitionHead {
        name: word.name,
        line: word.line,
        kind,
    })
}

// A definition of this name begins, which may be defined already.
fn begin(draft: &mut Draft, word: Word, is_defined: bool)
    ensures { draft.new ≡ definition_begun (record { text = word.name; line = word.line }) is_defined }
{
    draft.start();
    if is_defined {
        draft.fail(Diagnostic {
            letters: Letters::Redeclared,
            about: About::Name(word.name),
            line: word.line,
        });
    }
}

// What stands after the name.
fn after_name<I: ByteIn>(parser: &mut Parser<I>) -> Result<HeadKind, Halt>
    requires { IsLoaded parser.old.tokens }
    ensures { Does (FindsKind (λ t. t) after_name) parser.old result parser.new }
{
    match parser.tokens.lexeme() {
        Lexeme::OpenBracket => {
            parser.tokens.advance()?;
            vector(parser)
        }
        Lexeme::OpenParen => {
            parser.tokens.advance()?;
            function(parser)
        }
        _ => {
            values(parser)?;
            parser.tokens.fill_lines(parser.draft.value_place());
            Ok(HeadKind::Simple)
        }
    }
}

// What stands after an opening bracket.
fn vector<I: ByteIn>(parser: &mut Parser<I>) -> Result<HeadKind, Halt>
    requires { IsSingle parser.old.tokens }
    ensures { Does (FindsKind took vector) parser.old result parser.new }
{
    let size = size(parser)?;
    parser.expect(Mark::CloseBracket)?;
    let count = values(parser)?;
    parser.tokens.fill_lines(parser.draft.value_place());
    let words = count.max(constant_of(size) + 1);
    parser.draft.limit_words(words);
    Ok(HeadKind::Vector {
        words: words.min(MOST_COUNTED) as u16,
    })
}

fn constant_of(size: Option<u16>) -> u32
    ensures { result ≡ vector_constant size }
{
    match size {
        Some(constant) => u32::from(constant),
        None => 0,
    }
}

// What stands after the parenthesis that opens the parameters.
fn function<I: ByteIn>(parser: &mut Parser<I>) -> Result<HeadKind, Halt>
    requires { IsLoaded parser.old.tokens }
    ensures { Does (FindsKind took function) parser.old result parser.new }
{
    let parameters = parameters(parser)?;
    statement(parser, NESTING)?;
    parser.draft.emit(Instr::Constant(0));
    parser.draft.emit(Instr::Return);
    parser.tokens.fill_lines(parser.draft.place());
    Ok(HeadKind::Function { parameters })
}

// A parameter.
fn parameter<I: ByteIn>(parser: &mut Parser<I>) -> Result<(), Halt>
    requires { IsLoaded parser.old.tokens }
    ensures { Does (CompilesPart (untold name) (λ w d. drafts.declared w None d) trailed_name) parser.old result parser.new }
{
    let word = name(parser)?;
    parser.draft.declare(word.name, word.line, None);
    Ok(())
}

// The names of the parameters, if any, and the parenthesis after them.
fn parameters<I: ByteIn>(parser: &mut Parser<I>) -> Result<u16, Halt>
    requires { IsLoaded parser.old.tokens }
    ensures { Does (FindsList parameters parameters_done trailed_parameters MOST_COUNTED) parser.old result parser.new }
{
    if parser.tokens.is_at(Mark::CloseParen) {
        parser.tokens.advance()?;
        return Ok(0);
    }
    parameter(parser)?;
    let mut count: u16 = 1;
    'names: while parser.tokens.is_at(Mark::Comma) {
        parser.tokens.advance()?;
        parameter(parser)?;
        count = count.saturating_add(1);
    }
    parser.expect(Mark::CloseParen)?;
    Ok(count)
}

// Adds the initial value of this number, and takes its token.
fn valued<I: ByteIn>(parser: &mut Parser<I>, place: u16, value: Ival) -> Result<(), Halt>
    requires loaded { IsLoaded parser.old.tokens }
    requires goes_on { is_last (first parser.old.tokens.ahead) ≡ false }
    requires place { place ≤ MAX_INSTRUCTIONS }
    ensures { Does (TakesValue value place) parser.old result parser.new }
{
    parser.tokens.take(place)?;
    parser.draft.value(value);
    Ok(())
}

// An initial value.
fn value<I: ByteIn>(parser: &mut Parser<I>) -> Result<(), Halt>
    requires { IsLoaded parser.old.tokens }
    ensures { Does (CompilesPart ival (λ v d. ival_done d v) trailed_value) parser.old result parser.new }
{
    parser.see();
    let place = parser.draft.value_place();
    match parser.tokens.lexeme() {
        Lexeme::Number(word) | Lexeme::Character(word) => valued(parser, place, Ival::Number(word)),
        Lexeme::Name(name) => valued(parser, place, Ival::Name(name)),
        Lexeme::String => {
            let offset = parser.draft.string(parser.tokens.string());
            valued(parser, place, Ival::Text(offset))
        }
        _ => Err(Halt::Fault),
    }
}

// The initial values, if any, and a semicolon.
fn values<I: ByteIn>(parser: &mut Parser<I>) -> Result<u32, Halt>
    requires { IsLoaded parser.old.tokens }
    ensures { Does (FindsList initial_value_list values_done trailed_values 4294967295) parser.old result parser.new }
{
    if parser.tokens.is_at(Mark::Semicolon) {
        parser.tokens.advance()?;
        return Ok(0);
    }
    value(parser)?;
    let mut count: u32 = 1;
    'values: while parser.tokens.is_at(Mark::Comma) {
        parser.tokens.advance()?;
        value(parser)?;
        count = count.saturating_add(1);
    }
    parser.expect(Mark::Semicolon)?;
    Ok(count)
}
