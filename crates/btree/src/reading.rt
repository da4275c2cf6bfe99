//! Making the tags of tokens.
ghost use Rattle.std.specs.Prelude.{◌≡◌, ◌++◌, ◌∷◌, IfOk};
ghost use Rattle.btree.specs.Machine.{arm_inside, at_end, begin, begin_name, begins, close, closings, condition, heading_or, inside, over, step, token_in, unparen};
ghost use Rattle.btree.specs.Reading.{AreTags, Ended, EndedOne, Took, TookElse, after_over, is_in_block, is_over, takes_else};

use crate::opens::Opens;
use crate::sorts::Sort;
use crate::tags::{Construct, Phase, Tag};
use std::alloc::{AllocError, Global};

/// The tags of tokens of these sorts. Those of a program are the tags of its tree; any others have tags, too.
///
/// # Errors
///
/// If memory was refused.
pub fn tags_of(alloc: Global, sorts: &[Sort]) -> Result<Vec<Tag>, AllocError>
    ensures { IfOk result (λ tags. AreTags sorts.now tags.items) }
{
    let mut reader = Reader {
        phase: Phase::Start,
        opens: Opens::new(alloc),
        tags: Vec::new(alloc),
    };
    for index in 0..sorts.len() {
        let next = sorts.get(index + 1).copied();
        reader.take(sorts[index], next.unwrap_or(Sort::Other))?;
    }
    reader.finish()?;
    let Reader { tags, .. } = reader;
    Ok(tags)
}

/// What was read so far.
#[derive(Drop)]
struct Reader {
    phase: Phase,
    opens: Opens,
    tags: Vec<Tag>,
}

impl Reader {
    fn take(&mut self, sort: Sort, next: Sort) -> Result<(), AllocError>
        ensures { IfOk result (λ done. Took self.old (step self.old.phase self.old.opens sort next) self.new) }
    {
        match self.phase {
            Phase::Start => self.begin(sort, next),
            Phase::Over => self.over(sort, next),
            Phase::Inside => self.inside(sort),
            Phase::Condition => self.condition(sort),
        }
    }

    fn begin(&mut self, sort: Sort, next: Sort) -> Result<(), AllocError>
        ensures { IfOk result (λ done. Took self.old (begin self.old.opens sort next) self.new) }
    {
        match sort {
            Sort::Name => self.begin_name(next),
            Sort::If => self.begins(Construct::If, Phase::Condition),
            Sort::While => self.begins(Construct::While, Phase::Condition),
            Sort::Switch => self.begins(Construct::Switch, Phase::Inside),
            Sort::Arm | Sort::Declares => self.begins(Construct::Heading, Phase::Inside),
            Sort::OpenBrace => self.begins(Construct::Block, Phase::Start),
            Sort::CloseBrace => self.close(),
            Sort::Semicolon => self.begins(Construct::Plain, Phase::Over),
            Sort::Else => self.token(Phase::Start),
            _ => self.begins(Construct::Plain, Phase::Inside),
        }
    }

    // Outside of all constructs it is the name of a definition.
    fn begin_name(&mut self, next: Sort) -> Result<(), AllocError>
        ensures { IfOk result (λ done. Took self.old (begin_name self.old.opens next) self.new) }
    {
        match (self.opens.top(), next) {
            (None, Sort::OpenParen) => self.begins(Construct::Definition, Phase::Condition),
            (None, _) => self.begins(Construct::Definition, Phase::Inside),
            (Some(_), Sort::Colon) => self.begins(Construct::Heading, Phase::Inside),
            (Some(_), _) => self.begins(Construct::Plain, Phase::Inside),
        }
    }

    // What waited for a statement is over with it, unless it is an `if` and `else` comes.
    fn over(&mut self, sort: Sort, next: Sort) -> Result<(), AllocError>
        ensures { IfOk result (λ done. Took self.old (over self.old.opens sort next) self.new) }
    {
        while is_over(self.opens.top(), sort) {
            self.end_innermost()?;
        }
        self.after_over(sort, next)
    }

    fn after_over(&mut self, sort: Sort, next: Sort) -> Result<(), AllocError>
        ensures { IfOk result (λ done. Took self.old (after_over self.old.opens sort next) self.new) }
    {
        if takes_else(self.opens.top(), sort) {
            self.take_else()
        } else {
            self.begin(sort, next)
        }
    }

    // The innermost construct is over. Parentheses have no tags.
    fn end_innermost(&mut self) -> Result<(), AllocError>
        ensures { IfOk result (λ done. EndedOne self.old self.new) }
    {
        match self.opens.pop() {
            None | Some(Construct::Parens) => Ok(()),
            Some(_) => {
                self.tags.push(Tag::Ends)?;
                Ok(())
            }
        }
    }

    fn take_else(&mut self) -> Result<(), AllocError>
        ensures { IfOk result (λ done. TookElse self.old self.new) }
    {
        let _ = self.opens.pop();
        self.opens.push(Construct::IfElse)?;
        self.token(Phase::Start)
    }

    fn inside(&mut self, sort: Sort) -> Result<(), AllocError>
        ensures { IfOk result (λ done. Took self.old (inside self.old.opens sort) self.new) }
    {
        match sort {
            Sort::Semicolon => self.heading_or(Phase::Over),
            Sort::Colon => self.heading_or(Phase::Inside),
            Sort::OpenBrace => self.begins(Construct::Block, Phase::Start),
            Sort::CloseBrace => self.close(),
            Sort::Arm => self.arm_inside(),
            _ => self.token(Phase::Inside),
        }
    }

    // A case after what a `switch` looks at, without a block. No program has one there.
    fn arm_inside(&mut self) -> Result<(), AllocError>
        ensures { IfOk result (λ done. Took self.old (arm_inside self.old.opens) self.new) }
    {
        match self.opens.top() {
            Some(Construct::Switch) => self.begins(Construct::Heading, Phase::Inside),
            _ => self.token(Phase::Inside),
        }
    }

    fn condition(&mut self, sort: Sort) -> Result<(), AllocError>
        ensures { IfOk result (λ done. Took self.old (condition self.old.opens sort) self.new) }
    {
        match sort {
            Sort::OpenParen => {
                self.opens.push(Construct::Parens)?;
                self.token(Phase::Condition)
            }
            Sort::CloseParen => self.unparen(),
            Sort::Semicolon => self.heading_or(Phase::Over),
            Sort::OpenBrace => self.begins(Construct::Block, Phase::Start),
            Sort::CloseBrace => self.close(),
            _ => self.token(Phase::Condition),
        }
    }

    // A `)` of a condition.
    fn unparen(&mut self) -> Result<(), AllocError>
        ensures { IfOk result (λ done. Took self.old (unparen self.old.opens) self.new) }
    {
        if let Some(Construct::Parens) = self.opens.top() {
            let _ = self.opens.pop();
            if let Some(Construct::Parens) = self.opens.top() {
                return self.token(Phase::Condition);
            }
        }
        self.token(Phase::Start)
    }

    // A `;` or `:`, with which a heading is over.
    fn heading_or(&mut self, phase: Phase) -> Result<(), AllocError>
        ensures { IfOk result (λ done. Took self.old (heading_or phase self.old.opens) self.new) }
    {
        match self.opens.top() {
            Some(Construct::Heading) => self.ends(Phase::Start),
            _ => self.token(phase),
        }
    }

    // A `}` ends the innermost block, and what is open in it.
    fn close(&mut self) -> Result<(), AllocError>
        ensures { IfOk result (λ done. Took self.old (close self.old.opens) self.new) }
    {
        while is_in_block(self.opens.top()) {
            self.end_innermost()?;
        }
        match self.opens.top() {
            None => self.token(Phase::Over),
            Some(_) => self.ends(Phase::Over),
        }
    }

    // A construct begins with the token.
    fn begins(&mut self, construct: Construct, phase: Phase) -> Result<(), AllocError>
        ensures { IfOk result (λ done. Took self.old (begins construct phase self.old.opens) self.new) }
    {
        self.opens.push(construct)?;
        self.tags.push(Tag::Begins(construct))?;
        self.token(phase)
    }

    // The innermost construct ends with the token.
    fn ends(&mut self, phase: Phase) -> Result<(), AllocError>
        ensures { IfOk result (λ done. Ended phase self.old self.new) }
    {
        let _ = self.opens.pop();
        self.token(phase)?;
        self.tags.push(Tag::Ends)?;
        Ok(())
    }

    fn token(&mut self, phase: Phase) -> Result<(), AllocError>
        ensures { IfOk result (λ done. Took self.old (token_in phase self.old.opens) self.new) }
    {
        self.phase = phase;
        self.tags.push(Tag::Token)?;
        Ok(())
    }

    // After the last token.
    fn finish(&mut self) -> Result<(), AllocError>
        ensures { IfOk result (λ done. self.new.tags.items ≡ self.old.tags.items ++ at_end self.old.phase self.old.opens) }
    {
        match self.phase {
            Phase::Over => self.end_all(),
            _ => Ok(()),
        }
    }

    // Where the source ends after a statement, what waited for it is over.
    fn end_all(&mut self) -> Result<(), AllocError>
        ensures { IfOk result (λ done. self.new.tags.items ≡ self.old.tags.items ++ closings self.old.opens) }
    {
        while is_over(self.opens.top(), Sort::Other) {
            self.end_innermost()?;
        }
        Ok(())
    }
}

// Whether this construct is over with a statement before this token.
fn is_over(top: Option<Construct>, sort: Sort) -> bool
    ensures { result ≡ is_over top sort }
{
    match (top, sort) {
        (None | Some(Construct::Block), _) => false,
        (Some(Construct::If), Sort::Else) => false,
        _ => true,
    }
}

fn is_in_block(top: Option<Construct>) -> bool
    ensures { result ≡ is_in_block top }
{
    !matches!(top, None | Some(Construct::Block))
}

fn takes_else(top: Option<Construct>, sort: Sort) -> bool
    ensures { result ≡ takes_else top sort }
{
    matches!((top, sort), (Some(Construct::If), Sort::Else))
}
