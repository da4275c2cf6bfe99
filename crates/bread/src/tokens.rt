//! The tokens of a source, two of which may be ahead.
ghost use Rattle.std.specs.Prelude.{◌≡◌, ◌≤◌, length, true, false, OnOk, OnErr};
ghost use Rattle.blang.specs.declared.limits.TheConstants.{MAX_INSTRUCTIONS};
ghost use Rattle.bemit.specs.Trails.{no_lines, filled_to, noted_at};
ghost use Rattle.blex.specs.Lexemes.{token_of_lexeme};
ghost use Rattle.blang.specs.Cut.{is_last, placed};
ghost use Rattle.blang.specs.WellFormed.{fault_at};
ghost use Rattle.bgrammar.specs.Reading.{first, line_ahead, after};
ghost use Rattle.bread.specs.Tokens.{all_tokens, is_name, with_noted, IsReady, IsLoaded, Looks, LooksOn, Advances, AdvancesTo, TokensFail};
ghost use Rattle.bread.specs.Marks.{is_mark};

use crate::mark::Mark;
use bemit::LineTable;
use blang::{About, Diagnostic, Letters};
use blex::{Lexeme, Lexer, Seen};
use bword::{ByteIn, Device, Edition};
use std::cell::Cell;
use std::marker::Model;

/// The tokens to come, and the lines of what was made of those before.
#[derive(Drop)]
pub struct Tokens<I: ByteIn> {
    lexer: Lexer<I>,
    current: Option<Seen>,
    following: Option<Seen>,
    lines: LineTable,
    // How many tokens were taken. No contract speaks of it.
    taken: Cell<u64>,
}

impl<I: ByteIn> Model for Tokens<I> {
    ghost use Rattle.bread.specs.Tokens.{Tokens, InOrder, both, token_seen};

    ghost Value = { Tokens };

    ghost view = { λ t. record {
      source = t.lexer.source;
      progress = t.lexer.progress;
      text = t.lexer.characters;
      ahead = both (token_seen t.lexer.characters t.current) (token_seen t.lexer.characters t.following);
      noted = t.lines;
    } };

    ghost invariant = { λ t. InOrder t.lexer.source.ahead t.current t.following };
}

impl<I: ByteIn> Tokens<I> {
    /// All tokens of the source, none of them read yet.
    pub fn new(input: I, edition: Edition) -> Self
        ensures { result ≡ all_tokens edition (I.incoming input) (I.lender input) }
    {
        Tokens {
            lexer: Lexer::with_edition(input, edition),
            current: None,
            following: None,
            lines: LineTable::new(),
            taken: Cell::new(0),
        }
    }

    /// The stream, without what was read ahead.
    pub fn into_input(self) -> I
        ensures end { I.incoming result ≡ self.source.end }
        ensures lender { I.lender result ≡ self.source.lender }
    {
        let Tokens {
            lexer,
            current: _,
            following: _,
            lines: _,
            taken: _,
        } = self;
        lexer.into_input()
    }

    /// The current token, without the characters of a string.
    #[inline(always)]
    pub fn lexeme(&self) -> Lexeme
        requires { IsLoaded self.now }
        ensures { token_of_lexeme result self.now.text ≡ first self.now.ahead }
    {
        let Some(seen) = self.current else {
            unreachable!()
        };
        seen.lexeme
    }

    /// The characters of the current token, if it is a string.
    pub fn string(&self) -> &[u8]
        ensures { result.now ≡ self.now.text }
    {
        self.lexer.string()
    }

    /// The line of the current token.
    #[inline(always)]
    pub fn line(&self) -> u64
        ensures { result ≡ line_ahead self.now.ahead }
    {
        match self.current {
            Some(seen) => seen.line,
            None => 0,
        }
    }

    /// How many tokens were taken: as many as come before the current one.
    #[inline(always)]
    pub fn taken(&self) -> u64 {
        self.taken.get()
    }

    /// What is wrong where no program goes on with the current token.
    pub fn fault(&self) -> Diagnostic
        requires { IsLoaded self.now }
        ensures { result ≡ fault_at (placed (first self.now.ahead) (line_ahead self.now.ahead)) }
    {
        let letters = match self.lexeme() {
            Lexeme::Bad(letters) => letters,
            _ => Letters::Syntax,
        };
        Diagnostic {
            letters,
            about: About::Nothing,
            line: self.line(),
        }
    }

    /// Whether the current token is this one.
    #[inline(always)]
    pub fn is_at(&self, mark: Mark) -> bool
        ensures { result ≡ is_mark mark (first self.now.ahead) }
    {
        match self.current {
            Some(seen) => mark.is(seen.lexeme),
            None => false,
        }
    }

    /// Reads the current token, unless it is there.
    #[inline(always)]
    pub fn look(&mut self) -> Result<(), Device>
        requires { IsReady self.old }
        ensures ok { OnOk result (Looks self.old self.new) }
        ensures err { OnErr result (TokensFail self.old self.new) }
    {
        if self.current.is_none() {
            let Ok(seen) = self.lexer.next_lexeme() else {
                return Err(Device);
            };
            self.current = Some(seen);
        }
        Ok(())
    }

    /// Reads the token after the current one, which is a name, unless it is there.
    #[inline(always)]
    pub fn look_on(&mut self) -> Result<(), Device>
        requires loaded { IsLoaded self.old }
        requires name { is_name (first self.old.ahead) ≡ true }
        ensures ok { OnOk result (LooksOn self.old self.new) }
        ensures err { OnErr result (TokensFail self.old self.new) }
    {
        if self.following.is_none() {
            let Ok(seen) = self.lexer.next_lexeme() else {
                return Err(Device);
            };
            self.following = Some(seen);
        }
        Ok(())
    }

    /// Whether this token was read after the current one.
    pub fn is_after(&self, mark: Mark) -> bool
        ensures { result ≡ is_mark mark (first (after self.now.ahead)) }
    {
        match self.following {
            Some(seen) => mark.is(seen.lexeme),
            None => false,
        }
    }

    /// Takes the current token, which is no last one, and reads the next.
    #[inline(always)]
    pub fn advance(&mut self) -> Result<(), Device>
        requires loaded { IsLoaded self.old }
        requires goes_on { is_last (first self.old.ahead) ≡ false }
        ensures ok { OnOk result (Advances self.old self.new) }
        ensures err { OnErr result (TokensFail self.old self.new) }
    {
        self.taken.set(self.taken.get().wrapping_add(1));
        if self.following.is_some() {
            self.current = self.following.take();
            return Ok(());
        }
        self.current = None;
        self.look()
    }

    /// Takes the current token, of whose line is what was made from this place on.
    #[inline(always)]
    pub fn take(&mut self, place: u16) -> Result<(), Device>
        requires loaded { IsLoaded self.old }
        requires goes_on { is_last (first self.old.ahead) ≡ false }
        requires place { place ≤ MAX_INSTRUCTIONS }
        ensures ok { OnOk result (AdvancesTo (noted_at place (line_ahead self.old.ahead) self.old.noted) self.old self.new) }
        ensures err { OnErr result (TokensFail self.old self.new) }
    {
        let line = self.line();
        self.advance()?;
        self.note(place, line);
        Ok(())
    }

    /// What is made from this place on is of this line.
    pub fn note(&mut self, place: u16, line: u64)
        requires { place ≤ MAX_INSTRUCTIONS }
        ensures { self.new ≡ with_noted (noted_at place line self.old.noted) self.old }
    {
        self.lines.note(place, line);
    }

    /// What was made up to this place, since the last note, is of the line of that.
    pub fn fill_lines(&mut self, place: u16)
        requires { place ≤ MAX_INSTRUCTIONS }
        ensures { self.new ≡ with_noted (filled_to place self.old.noted) self.old }
    {
        self.lines.fill(place);
    }

    /// Forgets all lines, for the next definition.
    pub fn clear_lines(&mut self)
        ensures { self.new ≡ with_noted no_lines self.old }
    {
        self.lines.clear();
    }

    /// The lines of what was made, up to the place that was noted or filled to last.
    pub fn lines(&self) -> &[u64]
        ensures lines { result.now ≡ self.now.noted.lines }
        ensures few { length result.now ≤ MAX_INSTRUCTIONS }
    {
        self.lines.lines()
    }
}
