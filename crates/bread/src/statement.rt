//! Reading a statement and compiling it at once.
ghost use Rattle.std.specs.Prelude.{ℕ, List, ◌≡◌, ◌+◌, ◌≤◌, false, Some};
ghost use Rattle.std.specs.Option.{is_some};
ghost use Rattle.blang.specs.Cut.{is_last};
ghost use Rattle.blex.specs.Lexemes.{token_of_lexeme};
ghost use Rattle.blang.specs.declared.token.Token.TheVariants as token;
ghost use Rattle.bgrammar.specs.Reading.{first};
ghost use Rattle.blang.specs.Trees.{Goto};
ghost use Rattle.bgrammar.specs.StatementReader.{level, goes_on, statement, returned, compound, switched};
ghost use Rattle.bgrammar.specs.StatementReader as reader;
ghost use Rattle.blang.specs.declared.code.Instr.TheVariants as instr;
ghost use Rattle.bemit.specs.Drafts.{place_of, filled, breaks_filled};
ghost use Rattle.blang.specs.declared.limits.TheConstants.{MAX_INSTRUCTIONS};
ghost use Rattle.bemit.specs.Effects.{evaluated, done, all_done};
ghost use Rattle.bemit.specs.Trails.{trailed_ended, trailed_condition, trailed_statement, trailed_through};
ghost use Rattle.bread.specs.Tokens.{is_name, IsLoaded, IsSingle};
ghost use Rattle.bread.specs.Headings.{unheaded};
ghost use Rattle.bread.specs.Parsers.{Does};
ghost use Rattle.bread.specs.Compiling.{untold, CompilesPart, CompilesAfter};
ghost use Rattle.bread.specs.Statements.{after_current, rvalue_ended, evaluated_to, break_after, return_value, condition, conditional_after, repeated, statements, closed_loop, closed_switch, after_keyword, after_parenthesis, Chooses};

use crate::heading::heading;
use crate::{Halt, Mark, Parser};
use bemit::Draft;
use blang::{Instr, Keyword};
use blex::Lexeme;
use bword::ByteIn;

// A rvalue and a semicolon, and then an instruction.
fn ended<I: ByteIn>(parser: &mut Parser<I>, room: u8, last: Instr) -> Result<(), Halt>
    requires { IsLoaded parser.old.tokens }
    ensures { Does (CompilesPart (rvalue_ended room) (evaluated_to last) trailed_ended) parser.old result parser.new }
{
    parser.evaluate(room)?;
    parser.expect(Mark::Semicolon)?;
    parser.draft.emit(last);
    Ok(())
}

fn goto<I: ByteIn>(parser: &mut Parser<I>, room: u8) -> Result<(), Halt>
    requires loaded { IsLoaded parser.old.tokens }
    requires goes_on { is_last (first parser.old.tokens.ahead) ≡ false }
    ensures { Does (CompilesPart (after_current (λ off. reader.ended room off Goto)) done trailed_statement) parser.old result parser.new }
{
    parser.tokens.advance()?;
    ended(parser, room, Instr::Goto)
}

// What stands after a `break` on this line.
fn broken<I: ByteIn>(parser: &mut Parser<I>, line: u64) -> Result<(), Halt>
    requires { IsSingle parser.old.tokens }
    ensures { Does (CompilesAfter after_keyword (untold (break_after line)) done trailed_statement) parser.old result parser.new }
{
    parser.expect(Mark::Semicolon)?;
    parser.draft.add_break(line);
    Ok(())
}

// The value of a `return`, after the parenthesis that opens it.
fn return_value<I: ByteIn>(parser: &mut Parser<I>, room: u8) -> Result<(), Halt>
    requires { IsLoaded parser.old.tokens }
    ensures { Does (CompilesAfter after_parenthesis (return_value room) done trailed_statement) parser.old result parser.new }
{
    parser.evaluate(room)?;
    parser.expect(Mark::CloseParen)?;
    parser.expect(Mark::Semicolon)?;
    parser.draft.emit(Instr::Return);
    Ok(())
}

// What stands after `return`.
fn returned<I: ByteIn>(parser: &mut Parser<I>, room: u8) -> Result<(), Halt>
    requires { IsSingle parser.old.tokens }
    ensures { Does (CompilesAfter after_keyword (returned room) done trailed_statement) parser.old result parser.new }
{
    if parser.tokens.is_at(Mark::OpenParen) {
        parser.tokens.advance()?;
        return return_value(parser, room);
    }
    parser.expect(Mark::Semicolon)?;
    parser.draft.emit(Instr::Constant(0));
    parser.draft.emit(Instr::Return);
    Ok(())
}

// A condition in its parentheses.
fn condition<I: ByteIn>(parser: &mut Parser<I>, room: u8) -> Result<(), Halt>
    requires { IsSingle parser.old.tokens }
    ensures { Does (CompilesPart (condition room) evaluated trailed_condition) parser.old result parser.new }
{
    parser.expect(Mark::OpenParen)?;
    parser.evaluate(room)?;
    parser.expect(Mark::CloseParen)
}

// The jump at this place, taken where a test is 0, leads to what comes.
fn skip_to_here(draft: &mut Draft, test: u16)
    ensures { draft.new ≡ filled test (instr.JumpIfZero (place_of draft.old)) draft.old }
{
    let here = draft.place();
    draft.fill(test, Instr::JumpIfZero(here));
}

// The breaks since this mark lead to what comes.
fn break_to_here(draft: &mut Draft, mark: bemit::BreakCount)
    ensures { draft.new ≡ breaks_filled mark.count (place_of draft.old) draft.old }
{
    let here = draft.place();
    draft.fill_breaks(mark, here);
}

// Ends a loop after its statement: it goes back to this place, and its breaks are those since this mark.
fn close_loop(draft: &mut Draft, top: u16, mark: bemit::BreakCount)
    ensures { draft.new ≡ closed_loop top mark.count draft.old }
{
    draft.emit(Instr::Jump(top));
    draft.end_loop();
    break_to_here(draft, mark);
}

// The place of the next instruction, of which there are few.
fn next_place(draft: &Draft) -> u16
    ensures place { result ≡ place_of draft.now }
    ensures few { result ≤ MAX_INSTRUCTIONS }
{
    if draft.place() == 0 {
        return 0;
    }
    draft.code().len() as u16
}

// Ends a switch after its statements: the jump to its tests is at this place, and its breaks are those since this
// mark.
fn close_switch(draft: &mut Draft, jump: u16, mark: bemit::BreakCount)
    ensures { draft.new ≡ closed_switch jump mark.count draft.old }
{
    let tests = next_place(draft) + 1;
    let end = tests + draft.arms_size();
    draft.emit(Instr::Jump(end));
    draft.emit_tests();
    break_to_here(draft, mark);
    draft.fill(jump, Instr::Jump(tests));
    draft.end_switch();
}

// Whether a token begins a further statement of a body, if anything does.
fn goes_on(lexeme: Lexeme) -> bool
    ensures { (text : List ℕ) → result ≡ is_some (goes_on (token_of_lexeme lexeme text)) }
{
    !matches!(lexeme, Lexeme::CloseBrace | Lexeme::End)
}

/// Reads a statement with its headings, where so many levels of nesting are left.
#[cycle(statements)]
pub fn statement<I: ByteIn>(parser: &mut Parser<I>, room: u8) -> Result<(), Halt>
    requires { IsLoaded parser.old.tokens }
    ensures { Does (CompilesPart (statement room) done trailed_statement) parser.old result parser.new }
{
    'headings: while heading(parser)? {}
    unheaded(parser, room)
}

// A statement without a heading.
#[cycle(statements)]
fn unheaded<I: ByteIn>(parser: &mut Parser<I>, room: u8) -> Result<(), Halt>
    requires { IsLoaded parser.old.tokens }
    ensures { Does (CompilesPart (unheaded room) done trailed_statement) parser.old result parser.new }
{
    match parser.tokens.lexeme() {
        Lexeme::OpenBrace => compound(parser, room),
        Lexeme::Semicolon => {
            let place = parser.draft.place();
            parser.expect_at(place, Mark::Semicolon)
        }
        Lexeme::Keyword(keyword) => keyed(parser, room, keyword),
        _ => ended(parser, room, Instr::Pop),
    }
}

// A statement that begins with this keyword, if one does.
#[cycle(statements)]
fn keyed<I: ByteIn>(parser: &mut Parser<I>, room: u8, keyword: Keyword) -> Result<(), Halt>
    requires loaded { IsLoaded parser.old.tokens }
    requires keyword { first parser.old.tokens.ahead ≡ token.Keyword keyword }
    ensures { Does (CompilesPart (unheaded room) done trailed_statement) parser.old result parser.new }
{
    let line = parser.tokens.line();
    match keyword {
        Keyword::If => conditional(parser, room),
        Keyword::While => repeated(parser, room),
        Keyword::Switch => switched(parser, room),
        Keyword::Goto => goto(parser, room),
        Keyword::Break => {
            parser.tokens.take(parser.draft.place())?;
            broken(parser, line)
        }
        Keyword::Return => {
            parser.tokens.take(parser.draft.place())?;
            returned(parser, room)
        }
        _ => ended(parser, room, Instr::Pop),
    }
}

// Statements in braces.
#[cycle(statements)]
fn compound<I: ByteIn>(parser: &mut Parser<I>, room: u8) -> Result<(), Halt>
    requires loaded { IsLoaded parser.old.tokens }
    requires no_name { is_name (first parser.old.tokens.ahead) ≡ false }
    requires goes_on { is_last (first parser.old.tokens.ahead) ≡ false }
    ensures { Does (CompilesPart (compound (level room)) done trailed_statement) parser.old result parser.new }
{
    let room = parser.enter(room)?;
    body(parser, room)
}

// Statements up to a closing brace.
#[cycle(statements)]
fn body<I: ByteIn>(parser: &mut Parser<I>, room: u8) -> Result<(), Halt>
    requires { IsSingle parser.old.tokens }
    ensures { Does (CompilesPart (statements room) all_done trailed_through) parser.old result parser.new }
{
    'statements: while goes_on(parser.tokens.lexeme()) {
        statement(parser, room)?;
    }
    parser.see();
    let place = parser.draft.place();
    parser.expect_at(place, Mark::CloseBrace)
}

#[cycle(statements)]
fn conditional<I: ByteIn>(parser: &mut Parser<I>, room: u8) -> Result<(), Halt>
    requires loaded { IsLoaded parser.old.tokens }
    requires no_name { is_name (first parser.old.tokens.ahead) ≡ false }
    requires goes_on { is_last (first parser.old.tokens.ahead) ≡ false }
    ensures { Does (CompilesPart (conditional_after room) done trailed_statement) parser.old result parser.new }
{
    let room = parser.enter(room)?;
    condition(parser, room)?;
    let test = parser.draft.place();
    parser.draft.emit(Instr::JumpIfZero(0));
    statement(parser, room)?;
    otherwise(parser, room, test)
}

// An `else`, if one comes after a statement whose test is at this place.
#[cycle(statements)]
fn otherwise<I: ByteIn>(parser: &mut Parser<I>, room: u8, test: u16) -> Result<(), Halt>
    requires { IsSingle parser.old.tokens }
    ensures { Does (Chooses room test) parser.old result parser.new }
{
    if !parser.tokens.is_at(Mark::Else) {
        skip_to_here(&mut parser.draft, test);
        return Ok(());
    }
    parser.tokens.advance()?;
    let jump = parser.draft.place();
    parser.draft.emit(Instr::Jump(0));
    skip_to_here(&mut parser.draft, test);
    statement(parser, room)?;
    let end = parser.draft.place();
    parser.draft.fill(jump, Instr::Jump(end));
    Ok(())
}

#[cycle(statements)]
fn repeated<I: ByteIn>(parser: &mut Parser<I>, room: u8) -> Result<(), Halt>
    requires loaded { IsLoaded parser.old.tokens }
    requires no_name { is_name (first parser.old.tokens.ahead) ≡ false }
    requires goes_on { is_last (first parser.old.tokens.ahead) ≡ false }
    ensures { Does (CompilesPart (repeated room) done trailed_statement) parser.old result parser.new }
{
    let token = parser.tokens.taken();
    let line = parser.tokens.line();
    let top = parser.draft.place();
    let room = parser.enter(room)?;
    condition(parser, room)?;
    let test = parser.draft.place();
    parser.draft.emit(Instr::JumpIfZero(0));
    let mark = parser.draft.mark();
    parser.draft.begin_loop();
    statement(parser, room)?;
    parser.draft.at(token);
    parser.tokens.note(parser.draft.place(), line);
    close_loop(&mut parser.draft, top, mark);
    skip_to_here(&mut parser.draft, test);
    Ok(())
}

#[cycle(statements)]
fn switched<I: ByteIn>(parser: &mut Parser<I>, room: u8) -> Result<(), Halt>
    requires loaded { IsLoaded parser.old.tokens }
    requires no_name { is_name (first parser.old.tokens.ahead) ≡ false }
    requires goes_on { is_last (first parser.old.tokens.ahead) ≡ false }
    ensures { Does (CompilesPart (switched (level room)) done trailed_statement) parser.old result parser.new }
{
    let token = parser.tokens.taken();
    let line = parser.tokens.line();
    let room = parser.enter(room)?;
    parser.evaluate(room)?;
    parser.expect(Mark::OpenBrace)?;
    let mark = parser.draft.mark();
    let jump = parser.draft.place();
    parser.draft.emit(Instr::Jump(0));
    parser.draft.begin_switch();
    body(parser, room)?;
    parser.draft.at(token);
    parser.tokens.note(parser.draft.place(), line);
    close_switch(&mut parser.draft, jump, mark);
    Ok(())
}
