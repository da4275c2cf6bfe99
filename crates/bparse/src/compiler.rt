//! The compiler, which writes one definition a call.
ghost use Rattle.std.specs.Prelude.{◌≡◌, ◌≤◌, true, false, length, IfSome, OnOk};
ghost use Rattle.std.specs.Map.{keys_of};
ghost use Rattle.bword.specs.declared.edition.Edition.TheVariants as editions;
ghost use Rattle.bgrammar.specs.Reading.{first};
ghost use Rattle.blang.specs.declared.limits.TheConstants.{MAX_INSTRUCTIONS, MAX_NAMES, MAX_WORDS};
ghost use Rattle.bread.specs.Tokens.{IsReady, IsLoaded};
ghost use Rattle.bparse.specs.Compilers.{SameCompiler, CompilerGives, compiler_start};
ghost use Rattle.bparse.specs.Compilers as compilers;
ghost use Rattle.bparse.specs.Locals.{locals_in};
ghost use Rattle.bparse.specs.Steps.{AreOfSource, point, PointGives, GivesNext, is_end, to_begin};

use crate::code_out::CodeOut;
use crate::step::Step;
use crate::view::view;
use bemit::NameEntry;
use blex::Lexeme;
use bnames::NameTable;
use bread::{Halt, Parser, Tokens, definition};
use bword::{ByteIn, Edition};
use std::alloc::Global;
use std::marker::Model;
use std::snapshot::Snapshot;

/// A compiler of one source.
///
/// It holds one definition, one token after it and the names that are defined.
#[derive(Drop)]
pub struct Compiler<I: ByteIn, O: CodeOut> {
    // What the ends were at first, for contracts alone: these take no room.
    first_input: Snapshot<I>,
    first_out: Snapshot<O>,
    edition: Edition,
    parser: Parser<I>,
    names: NameTable,
    out: O,
    is_begun: bool,
    is_closed: bool,
}

impl<I: ByteIn, O: CodeOut> Model for Compiler<I, O> {
    ghost use Rattle.std.specs.Prelude.{◌≡◌, true, false};
    ghost use Rattle.std.specs.Map.{keys_of};
    ghost use Rattle.bparse.specs.Compilers.{Compiler, MoreCanBeWritten, compiler_of, compiler_start};
    ghost use Rattle.bparse.specs.Locals.{locals_in};

    ghost Value = { Compiler };

    ghost view = { λ c. compiler_of
        (compiler_start c.edition (I.incoming c.first_input.value) (I.lender c.first_input.value)
        (O.outgoing c.first_out.value) (O.lender c.first_out.value))
        c.parser.tokens (locals_in c.parser.draft) (keys_of c.names) (O.outgoing c.out) (O.lender c.out) c.is_begun c.is_closed };

    ghost invariant = { λ c. c.is_closed ≡ false → MoreCanBeWritten (compiler_of
        (compiler_start c.edition (I.incoming c.first_input.value) (I.lender c.first_input.value)
        (O.outgoing c.first_out.value) (O.lender c.first_out.value))
        c.parser.tokens (locals_in c.parser.draft) (keys_of c.names) (O.outgoing c.out) (O.lender c.out) c.is_begun c.is_closed)
        × (c.is_begun ≡ false → O.can_begin c.out) × (c.is_begun ≡ true → O.can_go_on c.out) };
}

impl<I: ByteIn, O: CodeOut> Compiler<I, O> {
    /// A compiler of the first edition that has read and written nothing.
    pub fn new(alloc: Global, input: I, out: O) -> Self
        requires { O.can_begin out }
        ensures { result ≡ compilers.new (compiler_start editions.One (I.incoming input) (I.lender input) (O.outgoing out) (O.lender out)) }
    {
        Compiler::with_edition(alloc, input, out, Edition::One)
    }

    /// A compiler of this edition that has read and written nothing.
    pub fn with_edition(alloc: Global, input: I, out: O, edition: Edition) -> Self
        requires { O.can_begin out }
        ensures { result ≡ compilers.new (compiler_start edition (I.incoming input) (I.lender input) (O.outgoing out) (O.lender out)) }
    {
        Compiler {
            first_input: Snapshot::of(&input),
            first_out: Snapshot::of(&out),
            edition,
            parser: Parser::new(input, edition),
            names: NameTable::new(alloc),
            out,
            is_begun: false,
            is_closed: false,
        }
    }

    /// Compiles the next definition.
    ///
    /// The first call writes what a code text of the edition begins with, before it reads anything. After the first
    /// answer that isn't `Written`, each call answers `Closed` and does nothing.
    pub fn next_definition(&mut self) -> Step
        ensures gives { CompilerGives self.old result self.new }
        ensures keeps { SameCompiler self.old self.new }
    {
        if self.is_closed {
            return Step::Closed;
        }
        let is_begun = self.is_begun;
        self.is_begun = true;
        match compile_next(
            self.edition,
            is_begun,
            &mut self.parser,
            &mut self.names,
            &mut self.out,
        ) {
            Ok(()) => Step::Written,
            Err(step) => {
                self.is_closed = true;
                step
            }
        }
    }

    /// The source line of each instruction of the definition that was written last, or of each of its initial values.
    ///
    /// An instruction is of the line of the token that it was made from or after which it was made, the jump back of a
    /// loop and the tests of a switch are of the line of their keyword.
    pub fn lines(&self) -> &[u64]
        ensures lines { result.now ≡ self.now.tokens.noted.lines }
        ensures few { length result.now ≤ MAX_INSTRUCTIONS }
    {
        self.parser.tokens.lines()
    }

    /// Whether the definition that was written last is a function.
    pub fn is_function(&self) -> bool
        ensures { IfSome self.now.locals (λ l. result ≡ l.is_function) }
    {
        !self.parser.draft.code().is_empty()
    }

    /// The names of the function that was written last, in the order in which they were first seen; of an external none.
    /// Each internal name has its label.
    pub fn local_names(&self) -> &[NameEntry]
        ensures names { IfSome self.now.locals (λ l. result.now ≡ l.names) }
        ensures few { length result.now ≤ MAX_NAMES }
    {
        self.parser.draft.names()
    }

    /// How many words the frame of the function that was written last has.
    pub fn frame_words(&self) -> u16
        ensures frame { IfSome self.now.locals (λ l. result ≡ l.frame) }
        ensures few { result ≤ MAX_WORDS }
    {
        self.parser.draft.frame()
    }

    /// How many tokens come before the current one: the one after the definitions that were written, or the one with
    /// which no program goes on.
    pub fn tokens_taken(&self) -> u64 {
        self.parser.tokens.taken()
    }

    /// How many tokens come before the one at which the first fault of the last definition was seen, but for a name
    /// without a label, a size, and a token with which no program goes on.
    pub fn token_at_fault(&self) -> u64 {
        self.parser.draft.token()
    }

    /// Both streams, the input without what was read ahead.
    pub fn into_ends(self) -> (I, O)
        ensures source { I.incoming result.0 ≡ self.tokens.source.end }
        ensures lender { I.lender result.0 ≡ self.tokens.source.lender }
        ensures out { O.outgoing result.1 ≡ self.out }
        ensures out_lender { O.lender result.1 ≡ self.out_lender }
    {
        let Compiler {
            first_input: _,
            first_out: _,
            edition: _,
            parser,
            names: _,
            out,
            is_begun: _,
            is_closed: _,
        } = self;
        (parser.into_input(), out)
    }
}

// Reads and writes the next definition, after what a text of the edition begins with.
fn compile_next<I: ByteIn, O: CodeOut>(
    edition: Edition,
    is_begun: bool,
    parser: &mut Parser<I>,
    names: &mut NameTable,
    out: &mut O,
) -> Result<(), Step>
    requires ready { IsReady parser.old.tokens }
    requires source { AreOfSource parser.old.tokens }
    requires new { is_begun ≡ false → O.can_begin out.old }
    requires open { is_begun ≡ true → O.can_go_on out.old }
    ensures gives { GivesNext (to_begin is_begun edition) (point parser.old.tokens (locals_in parser.old.draft) (keys_of names.old) (O.outgoing out.old)) result
        (point parser.new.tokens (locals_in parser.new.draft) (keys_of names.new) (O.outgoing out.new)) }
    ensures ready { OnOk result (IsReady parser.new.tokens) }
    ensures open { OnOk result (O.can_go_on out.new) }
    ensures same { O.lender out.new ≡ O.lender out.old }
{
    if !is_begun {
        out.begin(edition)?;
    }
    compile_definition(parser, names, out)
}

// Reads and writes the next definition, or tells why none was written.
fn compile_definition<I: ByteIn, O: CodeOut>(
    parser: &mut Parser<I>,
    names: &mut NameTable,
    out: &mut O,
) -> Result<(), Step>
    requires ready { IsReady parser.old.tokens }
    requires source { AreOfSource parser.old.tokens }
    requires open { O.can_go_on out.old }
    ensures gives { PointGives (point parser.old.tokens (locals_in parser.old.draft) (keys_of names.old) (O.outgoing out.old)) result
        (point parser.new.tokens (locals_in parser.new.draft) (keys_of names.new) (O.outgoing out.new)) }
    ensures ready { OnOk result (IsReady parser.new.tokens) }
    ensures open { OnOk result (O.can_go_on out.new) }
    ensures same { O.lender out.new ≡ O.lender out.old }
{
    parser.tokens.look()?;
    if is_at_end(&parser.tokens) {
        out.end()?;
        return Err(Step::Finished);
    }
    let header = match definition(parser, names) {
        Ok(header) => header,
        Err(Halt::Fault) => return Err(Step::Fault(parser.tokens.fault())),
        Err(Halt::Device) => return Err(Step::Device),
    };
    if let Some(fault) = parser.draft.fault(header.line) {
        return Err(Step::Fault(fault));
    }
    parser.draft.resolve();
    // A name counts alone, without a value.
    names.insert(header.name, 0)?;
    out.put(&view(&header, &parser.draft))?;
    Ok(())
}

// Whether the source ends with the current token.
fn is_at_end<I: ByteIn>(tokens: &Tokens<I>) -> bool
    requires { IsLoaded tokens.now }
    ensures { result ≡ is_end (first tokens.now.ahead) }
{
    matches!(tokens.lexeme(), Lexeme::End)
}
