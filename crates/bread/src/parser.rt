//! Reading an expression and compiling it at once.
ghost use Rattle.std.specs.Prelude.{◌≡◌, ◌+◌, ◌≤◌, false, ℕ, List, Some, OnOk};
ghost use Rattle.blang.specs.Cut.{is_last};
ghost use Rattle.blex.specs.Lexemes.{token_of_lexeme};
ghost use Rattle.bgrammar.specs.Reading.{first, line_ahead};
ghost use Rattle.blang.specs.WellFormed.{or_rank};
ghost use Rattle.bgrammar.specs.ExpressionReader.{Rvalue, inner, primary, postfix, postfix_with, call, operand, chain, conditional, reader, suffix};
ghost use Rattle.bgrammar.specs.StatementReader.{is_open_paren};
ghost use Rattle.blang.specs.Code.{assignment};
ghost use Rattle.blang.specs.declared.code.Instr.TheVariants as instr;
ghost use Rattle.blang.specs.declared.limits.TheConstants.{MAX_INSTRUCTIONS};
ghost use Rattle.bemit.specs.Drafts.{fresh, place_of, emitted, checked};
ghost use Rattle.bemit.specs.Trails.{noted_at};
ghost use Rattle.bemit.specs.Effects.{loads, prefixed};
ghost use Rattle.bread.specs.Marks.{is_mark};
ghost use Rattle.bread.specs.Tokens.{all_tokens, is_name, IsLoaded, IsSingle, work};
ghost use Rattle.bemit.specs.declared.form.Form.TheVariants.{Lone};
ghost use Rattle.blang.specs.declared.token.Token.TheVariants as token;
ghost use Rattle.bread.specs.Parsers.{Does, called_at, prefix_meant, prefix_form, suffix_meant, assigned_at, Follows, Continues, Evaluates, Passes, Expects, ExpectsTo, Enters, TakesCurrent};

use crate::halt::Halt;
use crate::mark::Mark;
use crate::operators::{Prefix, Suffix, operator_within, prefix_of, rank_of, suffix_of};
use crate::tokens::Tokens;
use bemit::{Draft, Form};
use blang::{Increment, Instr};
use blex::Lexeme;
use bword::{BinOp, ByteIn, Edition, Name};

// How loosely the loosest binary operator binds.
const LOOSEST: u8 = 7;

/// The tokens to come, and what was made of those before.
#[derive(Drop)]
pub struct Parser<I: ByteIn> {
    pub tokens: Tokens<I>,
    pub draft: Draft,
}

// The word of what was compiled last.
fn load(draft: &mut Draft, form: Form)
    ensures { draft.new ≡ loads form draft.old }
{
    if let Form::Place = form {
        draft.emit(Instr::Load);
    }
}

// A prefix operator on this line, after its operand.
fn prefix(draft: &mut Draft, op: Prefix, line: u64, form: Form) -> Form
    ensures draft { draft.new ≡ prefixed (prefix_meant op) line form draft.old }
    ensures form { result ≡ prefix_form op }
{
    match op {
        Prefix::Negate => {
            load(draft, form);
            draft.emit(Instr::Negate);
        }
        Prefix::Not => {
            load(draft, form);
            draft.emit(Instr::Not);
        }
        Prefix::Indirection => {
            load(draft, form);
            return Form::Place;
        }
        Prefix::Address => draft.want_lvalue(form, line),
        Prefix::Increment => {
            draft.want_lvalue(form, line);
            draft.emit(Instr::Increment(Increment::PreIncrement));
        }
        Prefix::Decrement => {
            draft.want_lvalue(form, line);
            draft.emit(Instr::Increment(Increment::PreDecrement));
        }
    }
    Form::Lone
}

// The operator of an assignment that a token begins after an expression, of which only an operand is assigned to.
fn assigned_at(form: Form, lexeme: Lexeme) -> Option<Option<BinOp>>
    ensures { (text : List ℕ) → result ≡ assigned_at form (token_of_lexeme lexeme text) }
{
    match (form, lexeme) {
        (Form::Joined, _) => None,
        (_, Lexeme::Assign(op)) => Some(op),
        _ => None,
    }
}

// What stores the right side of an assignment.
fn assignment(op: Option<BinOp>) -> Instr
    ensures { result ≡ assignment op }
{
    match op {
        None => Instr::Store,
        Some(op) => Instr::Modify(op),
    }
}

impl<I: ByteIn> Parser<I> {
    /// Before all tokens of the source, with nothing made yet.
    pub fn new(input: I, edition: Edition) -> Self
        ensures tokens { result.tokens ≡ all_tokens edition (I.incoming input) (I.lender input) }
        ensures draft { result.draft ≡ fresh }
    {
        Parser {
            tokens: Tokens::new(input, edition),
            draft: Draft::new(),
        }
    }

    /// The stream, without what was read ahead.
    pub fn into_input(self) -> I
        ensures end { I.incoming result ≡ self.tokens.source.end }
        ensures lender { I.lender result ≡ self.tokens.source.lender }
    {
        let Parser { tokens, draft: _ } = self;
        tokens.into_input()
    }

    /// A fault that is seen now is at the current token. No contract speaks of it.
    pub fn see(&self) {
        self.draft.at(self.tokens.taken());
    }

    /// Takes a token that must come.
    pub fn expect(&mut self, mark: Mark) -> Result<(), Halt>
        requires { IsSingle self.old.tokens }
        ensures tokens { Expects (is_mark mark) self.old.tokens result self.new.tokens }
        ensures draft { self.new.draft ≡ self.old.draft }
    {
        if !self.tokens.is_at(mark) {
            return Err(Halt::Fault);
        }
        self.tokens.advance()?;
        Ok(())
    }

    /// Takes a token that must come. What was made from this place on is of its line.
    pub fn expect_at(&mut self, place: u16, mark: Mark) -> Result<(), Halt>
        requires single { IsSingle self.old.tokens }
        requires place { place ≤ MAX_INSTRUCTIONS }
        ensures tokens { ExpectsTo (noted_at place (line_ahead self.old.tokens.ahead) self.old.tokens.noted) (is_mark mark) self.old.tokens result self.new.tokens }
        ensures draft { self.new.draft ≡ self.old.draft }
    {
        if !self.tokens.is_at(mark) {
            return Err(Halt::Fault);
        }
        self.tokens.take(place)?;
        Ok(())
    }

    /// Takes the token that opens a level, which is no name, and answers how many levels are left there.
    pub fn enter(&mut self, room: u8) -> Result<u8, Halt>
        requires loaded { IsLoaded self.old.tokens }
        requires no_name { is_name (first self.old.tokens.ahead) ≡ false }
        requires goes_on { is_last (first self.old.tokens.ahead) ≡ false }
        ensures tokens { Enters room self.old.tokens result self.new.tokens }
        ensures draft { self.new.draft ≡ self.old.draft }
    {
        if room == 0 {
            return Err(Halt::Fault);
        }
        self.tokens.advance()?;
        Ok(room - 1)
    }

    // Takes the current token, after which this stands. What was made from this place on is of its line.
    fn take(&mut self, place: u16, form: Form) -> Result<Form, Halt>
        requires loaded { IsLoaded self.old.tokens }
        requires goes_on { is_last (first self.old.tokens.ahead) ≡ false }
        requires place { place ≤ MAX_INSTRUCTIONS }
        ensures tokens { TakesCurrent place self.old.tokens form result self.new.tokens }
        ensures draft { self.new.draft ≡ self.old.draft }
    {
        self.tokens.take(place)?;
        Ok(form)
    }

    // A name.
    fn mention(&mut self, name: Name) -> Result<Form, Halt>
        requires loaded { IsLoaded self.old.tokens }
        requires here { first self.old.tokens.ahead ≡ token.Name name }
        ensures { (room : ℕ) → Does (Follows (primary (inner room)) (called_at self.new.tokens)) self.old result self.new }
    {
        let line = self.tokens.line();
        self.tokens.take(self.draft.place())?;
        let called = self.tokens.is_at(Mark::OpenParen);
        Ok(self.draft.name(name, called, line))
    }

    // A name, a constant or a string.
    fn atom(&mut self) -> Result<Form, Halt>
        requires loaded { IsLoaded self.old.tokens }
        requires no_group { is_open_paren (first self.old.tokens.ahead) ≡ false }
        ensures { (room : ℕ) → Does (Follows (primary (inner room)) (called_at self.new.tokens)) self.old result self.new }
    {
        self.see();
        let place = self.draft.place();
        match self.tokens.lexeme() {
            Lexeme::Name(name) => self.mention(name),
            Lexeme::Number(word) => {
                self.draft.emit(Instr::Constant(word));
                self.take(place, Form::Lone)
            }
            Lexeme::Character(word) => {
                self.draft.emit(Instr::Constant(word));
                self.take(place, Form::Lone)
            }
            Lexeme::String => {
                let offset = self.draft.string(self.tokens.string());
                self.draft.emit(Instr::Text(offset));
                self.take(place, Form::Lone)
            }
            _ => Err(Halt::Fault),
        }
    }

    // `++` or `--` after its operand.
    fn step(&mut self, increment: Increment, form: Form) -> Result<Form, Halt>
        requires loaded { IsLoaded self.old.tokens }
        requires goes_on { is_last (first self.old.tokens.ahead) ≡ false }
        ensures tokens { TakesCurrent (place_of self.old.draft) self.old.tokens Lone result self.new.tokens }
        ensures draft { self.new.draft ≡ emitted (instr.Increment increment) (checked form (line_ahead self.old.tokens.ahead) self.old.draft) }
    {
        self.see();
        let place = self.draft.place();
        self.draft.want_lvalue(form, self.tokens.line());
        self.draft.emit(Instr::Increment(increment));
        self.take(place, Form::Lone)
    }

    // An atom, or an expression in parentheses.
    #[cycle(expressions)]
    fn primary(&mut self, room: u8) -> Result<Form, Halt>
        requires { IsLoaded self.old.tokens }
        ensures { Does (Follows (primary (inner room)) (called_at self.new.tokens)) self.old result self.new }
    {
        if !self.tokens.is_at(Mark::OpenParen) {
            return self.atom();
        }
        let room = self.enter(room)?;
        let form = self.rvalue(room)?;
        self.expect(Mark::CloseParen)?;
        Ok(form.grouped())
    }

    // A primary expression with what goes on after it.
    #[cycle(expressions)]
    fn postfix(&mut self, room: u8) -> Result<Form, Halt>
        requires { IsLoaded self.old.tokens }
        ensures { Does (Follows (postfix (inner room)) false) self.old result self.new }
    {
        let mut form = self.primary(room)?;
        'suffixes: while let Some(next) = suffix_of(self.tokens.lexeme()) {
            form = self.suffixed(room, next, form)?;
        }
        Ok(form)
    }

    // What goes on after a postfix expression.
    #[cycle(expressions)]
    fn suffixed(&mut self, room: u8, next: Suffix, form: Form) -> Result<Form, Halt>
        requires loaded { IsLoaded self.old.tokens }
        requires here { suffix (first self.old.tokens.ahead) ≡ Some (suffix_meant next) }
        ensures tree { Does (Continues (λ offset e. postfix_with (inner room) offset (suffix_meant next) e) (called_at self.old.tokens) form (called_at self.new.tokens)) self.old result self.new }
        ensures falls { OnOk result (work self.new.tokens + 1 ≤ work self.old.tokens) }
    {
        match next {
            Suffix::Index => {
                load(&mut self.draft, form);
                let room = self.enter(room)?;
                self.evaluate(room)?;
                self.expect(Mark::CloseBracket)?;
                self.draft.emit(Instr::Binary(BinOp::Add));
                Ok(Form::Place)
            }
            Suffix::Call => {
                load(&mut self.draft, form);
                let room = self.enter(room)?;
                let count = self.arguments(room)?;
                self.draft.emit(Instr::Call(count));
                Ok(Form::Lone)
            }
            Suffix::Increment => self.step(Increment::PostIncrement, form),
            Suffix::Decrement => self.step(Increment::PostDecrement, form),
        }
    }

    // The arguments of a call through the parenthesis after them; answers how many they are.
    #[cycle(expressions)]
    fn arguments(&mut self, room: u8) -> Result<u16, Halt>
        requires { IsLoaded self.old.tokens }
        ensures { Does (Passes (call (inner (room + 1)))) self.old result self.new }
    {
        if self.tokens.is_at(Mark::CloseParen) {
            self.tokens.advance()?;
            return Ok(0);
        }
        self.evaluate(room)?;
        let mut count: u16 = 1;
        'more: while self.tokens.is_at(Mark::Comma) {
            self.tokens.advance()?;
            self.evaluate(room)?;
            count = count.saturating_add(1);
        }
        self.expect(Mark::CloseParen)?;
        Ok(count)
    }

    // Prefix operators before a postfix expression.
    #[cycle(expressions)]
    fn operand(&mut self, room: u8) -> Result<Form, Halt>
        requires { IsLoaded self.old.tokens }
        ensures { Does (Follows (operand (inner room)) false) self.old result self.new }
    {
        let token = self.tokens.taken();
        let line = self.tokens.line();
        let Some(op) = prefix_of(self.tokens.lexeme()) else {
            return self.postfix(room);
        };
        let room = self.enter(room)?;
        let form = self.operand(room)?;
        self.draft.at(token);
        self.tokens.note(self.draft.place(), line);
        Ok(prefix(&mut self.draft, op, line, form))
    }

    // Operands and the binary operators up to a rank. After an operator stands what binds tighter.
    #[cycle(expressions)]
    fn chain(&mut self, room: u8, rank: u8) -> Result<Form, Halt>
        requires loaded { IsLoaded self.old.tokens }
        requires rank { rank ≤ or_rank }
        ensures { Does (Follows (chain (inner room) rank) false) self.old result self.new }
    {
        let mut form = self.operand(room)?;
        'operators: while let Some(op) = operator_within(rank, self.tokens.lexeme()) {
            load(&mut self.draft, form);
            self.tokens.advance()?;
            let right = self.chain(room, rank_of(op) - 1)?;
            load(&mut self.draft, right);
            self.draft.emit(Instr::Binary(op));
            form = Form::Joined;
        }
        Ok(form)
    }

    // After a chain of operands: the arms of a conditional, and the jumps round them.
    #[cycle(expressions)]
    fn conditional(&mut self, room: u8, form: Form) -> Result<Form, Halt>
        requires { IsSingle self.old.tokens }
        ensures { Does (Continues (conditional (inner room)) false form false) self.old result self.new }
    {
        if !self.tokens.is_at(Mark::Question) {
            return Ok(form);
        }
        load(&mut self.draft, form);
        let room = self.enter(room)?;
        let test = self.draft.place();
        self.draft.emit(Instr::JumpIfZero(0));
        self.evaluate(room)?;
        self.expect(Mark::Colon)?;
        let end = self.draft.place();
        self.draft.emit(Instr::Jump(0));
        let second = self.draft.place();
        self.draft.fill(test, Instr::JumpIfZero(second));
        let form = self.chain(room, LOOSEST)?;
        let form = self.conditional(room, form)?;
        load(&mut self.draft, form);
        let following = self.draft.place();
        self.draft.fill(end, Instr::Jump(following));
        Ok(Form::Joined)
    }

    /// A whole expression, and what its code leaves.
    #[cycle(expressions)]
    pub fn rvalue(&mut self, room: u8) -> Result<Form, Halt>
        requires { IsLoaded self.old.tokens }
        ensures { Does (Follows (reader room Rvalue) false) self.old result self.new }
    {
        let form = self.chain(room, LOOSEST)?;
        let line = self.tokens.line();
        let Some(op) = assigned_at(form, self.tokens.lexeme()) else {
            return self.conditional(room, form);
        };
        self.see();
        self.draft.want_lvalue(form, line);
        let room = self.enter(room)?;
        self.evaluate(room)?;
        self.draft.emit(assignment(op));
        Ok(Form::Joined)
    }

    /// A whole expression, whose code leaves its word.
    #[cycle(expressions)]
    pub fn evaluate(&mut self, room: u8) -> Result<(), Halt>
        requires { IsLoaded self.old.tokens }
        ensures { Does (Evaluates (reader room Rvalue)) self.old result self.new }
    {
        let form = self.rvalue(room)?;
        load(&mut self.draft, form);
        Ok(())
    }
}
