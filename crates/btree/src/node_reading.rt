//! Making the nodes of expressions.
ghost use Rattle.std.specs.Prelude.{◌≡◌, ◌∷◌, [], IfOk};
ghost use Rattle.btree.specs.NodeMachine.{after_statement, before_operand, begin_keyword, begin_named, bound, close_paren, complete, end_statement, finish, heading, joining, node_step, open_arguments, open_switch, operand, operated, outer, outside, parenthesis, pass, rest, start};
ghost use Rattle.btree.specs.NodeReading.{AreNodes, MadeBefore, TookNodes};

use crate::nodes::{Node, NodeTag, Pending, Stage, rank_of};
use crate::waiting::Waiting;
use blang::Keyword;
use blex::Lexeme;
use bword::BinOp;
use std::alloc::{AllocError, Global};

/// The nodes of the expressions among these tokens, each after its last token. Those of a program are the nodes of its
/// tree; any other tokens have some, too, which may lack parts.
///
/// # Errors
///
/// If memory was refused.
pub fn nodes_of(alloc: Global, lexemes: &[Lexeme]) -> Result<Vec<NodeTag>, AllocError>
    ensures { IfOk result (λ tags. AreNodes lexemes.now tags.items) }
{
    let mut reader = NodeReader {
        stage: Stage::Over,
        waiting: Waiting::new(alloc),
        tags: Vec::new(alloc),
    };
    for index in 0..lexemes.len() {
        let next = lexemes.get(index + 1).copied();
        reader.take(lexemes[index], next.unwrap_or(Lexeme::End))?;
    }
    let NodeReader { tags, .. } = reader;
    Ok(tags)
}

/// What was read so far.
#[derive(Drop)]
struct NodeReader {
    stage: Stage,
    waiting: Waiting,
    tags: Vec<NodeTag>,
}

impl NodeReader {
    fn take(&mut self, lexeme: Lexeme, next: Lexeme) -> Result<(), AllocError>
        ensures { IfOk result (λ done. TookNodes self.old (node_step self.old.stage self.old.waiting lexeme next) self.new) }
    {
        match self.stage {
            Stage::Start => self.start(lexeme, next),
            Stage::Over => self.after_statement(lexeme, next),
            Stage::Rest => self.rest(lexeme),
            Stage::Heading => self.heading(lexeme),
            Stage::Parenthesis => self.parenthesis(lexeme),
            Stage::Operand => self.operand(lexeme),
            Stage::Operated => self.operated(&lexeme),
        }
    }

    fn start(&mut self, lexeme: Lexeme, next: Lexeme) -> Result<(), AllocError>
        ensures { IfOk result (λ done. TookNodes self.old (start self.old.waiting lexeme next) self.new) }
    {
        match lexeme {
            Lexeme::Name(_) => self.begin_named(next),
            Lexeme::Keyword(keyword) => self.begin_keyword(keyword),
            Lexeme::Semicolon => self.pass(Stage::Over),
            Lexeme::OpenBrace => self.wait(Pending::Block, Stage::Start),
            Lexeme::CloseBrace => self.end(Stage::Over),
            _ => self.operand(lexeme),
        }
    }

    fn begin_named(&mut self, next: Lexeme) -> Result<(), AllocError>
        ensures { IfOk result (λ done. TookNodes self.old (begin_named self.old.waiting next) self.new) }
    {
        match next {
            Lexeme::Colon => self.pass(Stage::Heading),
            _ => self.complete(Node::Name),
        }
    }

    fn begin_keyword(&mut self, keyword: Keyword) -> Result<(), AllocError>
        ensures { IfOk result (λ done. TookNodes self.old (begin_keyword self.old.waiting keyword) self.new) }
    {
        match keyword {
            Keyword::If | Keyword::While => self.wait(Pending::Condition, Stage::Parenthesis),
            Keyword::Return => self.wait(Pending::Result, Stage::Parenthesis),
            Keyword::Switch => self.pass(Stage::Operand),
            Keyword::Goto => self.wait(Pending::Goto, Stage::Operand),
            Keyword::Break => self.pass(Stage::Rest),
            Keyword::Else => self.pass(Stage::Start),
            _ => self.pass(Stage::Heading),
        }
    }

    fn after_statement(&mut self, lexeme: Lexeme, next: Lexeme) -> Result<(), AllocError>
        ensures { IfOk result (λ done. TookNodes self.old (after_statement self.old.waiting lexeme next) self.new) }
    {
        if self.waiting.is_empty() {
            self.outside(lexeme)
        } else {
            self.start(lexeme, next)
        }
    }

    fn outside(&mut self, lexeme: Lexeme) -> Result<(), AllocError>
        requires { self.old.waiting ≡ [] }
        ensures { IfOk result (λ done. TookNodes self.old (outside lexeme) self.new) }
    {
        match lexeme {
            Lexeme::Name(_) => self.pass(Stage::Rest),
            Lexeme::Keyword(Keyword::Else) => self.pass(Stage::Start),
            _ => self.pass(Stage::Over),
        }
    }

    fn rest(&mut self, lexeme: Lexeme) -> Result<(), AllocError>
        ensures { IfOk result (λ done. TookNodes self.old (rest self.old.waiting lexeme) self.new) }
    {
        match lexeme {
            Lexeme::Semicolon => self.pass(Stage::Over),
            Lexeme::OpenParen => self.pass(Stage::Heading),
            _ => self.pass(Stage::Rest),
        }
    }

    fn heading(&mut self, lexeme: Lexeme) -> Result<(), AllocError>
        ensures { IfOk result (λ done. TookNodes self.old (heading self.old.waiting lexeme) self.new) }
    {
        match lexeme {
            Lexeme::Semicolon | Lexeme::Colon | Lexeme::CloseParen => self.pass(Stage::Start),
            _ => self.pass(Stage::Heading),
        }
    }

    fn parenthesis(&mut self, lexeme: Lexeme) -> Result<(), AllocError>
        ensures { IfOk result (λ done. TookNodes self.old (parenthesis self.old.waiting lexeme) self.new) }
    {
        match lexeme {
            Lexeme::OpenParen => self.pass(Stage::Operand),
            Lexeme::Semicolon => self.end(Stage::Over),
            _ => self.pass(Stage::Parenthesis),
        }
    }

    fn operand(&mut self, lexeme: Lexeme) -> Result<(), AllocError>
        ensures { IfOk result (λ done. TookNodes self.old (operand self.old.waiting lexeme) self.new) }
    {
        match lexeme {
            Lexeme::Name(_) => self.complete(Node::Name),
            Lexeme::Number(_) | Lexeme::Character(_) => self.complete(Node::Constant),
            Lexeme::String => self.complete(Node::Text),
            Lexeme::OpenParen => self.wait(Pending::Group, Stage::Operand),
            Lexeme::CloseParen => self.end_with(Node::Called),
            Lexeme::Operator(BinOp::Sub) => self.operator(Node::Negate),
            Lexeme::Operator(BinOp::Mul) => self.operator(Node::Indirection),
            Lexeme::Operator(BinOp::And) => self.operator(Node::Address),
            Lexeme::Not => self.operator(Node::Not),
            Lexeme::Increment => self.operator(Node::PreIncrement),
            Lexeme::Decrement => self.operator(Node::PreDecrement),
            _ => self.pass(Stage::Operand),
        }
    }

    // What binds tighter than the token is over.
    fn operated(&mut self, lexeme: &Lexeme) -> Result<(), AllocError>
        ensures { IfOk result (λ done. TookNodes self.old (operated self.old.waiting lexeme.now) self.new) }
    {
        self.settle(bound(lexeme))?;
        self.joining(lexeme)
    }

    fn settle(&mut self, bound: u8) -> Result<(), AllocError>
        ensures { IfOk result (λ done. MadeBefore bound self.old self.new) }
    {
        while let Some(node) = self.waiting.pop_over(bound) {
            self.tags.push(NodeTag::Made(node))?;
        }
        Ok(())
    }

    fn joining(&mut self, lexeme: &Lexeme) -> Result<(), AllocError>
        ensures { IfOk result (λ done. TookNodes self.old (joining self.old.waiting lexeme.now) self.new) }
    {
        match *lexeme {
            Lexeme::OpenBracket => self.wait(Pending::Index, Stage::Operand),
            Lexeme::OpenParen => self.open_arguments(),
            Lexeme::Increment => self.complete(Node::PostIncrement),
            Lexeme::Decrement => self.complete(Node::PostDecrement),
            Lexeme::Operator(op) => self.operator(Node::Binary(op)),
            Lexeme::Assign(op) => self.operator(Node::Assigned(op)),
            Lexeme::Question => self.wait(Pending::Choice, Stage::Operand),
            Lexeme::Colon => {
                let _ = self.waiting.pop();
                self.operator(Node::Conditional)
            }
            Lexeme::Comma => {
                self.tags.push(NodeTag::Made(Node::Argument))?;
                self.pass(Stage::Operand)
            }
            Lexeme::CloseBracket => self.end_with(Node::Indexed),
            Lexeme::CloseParen => self.close_paren(),
            Lexeme::Semicolon => self.end_statement(),
            Lexeme::OpenBrace => self.open_switch(),
            _ => self.pass(Stage::Operated),
        }
    }
    // Parentheses around arguments, of which there are none yet.
    fn open_arguments(&mut self) -> Result<(), AllocError>
        ensures { IfOk result (λ done. TookNodes self.old (open_arguments self.old.waiting) self.new) }
    {
        self.wait(Pending::Call, Stage::Operand)?;
        self.tags.push(NodeTag::Made(Node::NoArguments))?;
        Ok(())
    }

    fn close_paren(&mut self) -> Result<(), AllocError>
        ensures { IfOk result (λ done. TookNodes self.old (close_paren self.old.waiting) self.new) }
    {
        let Some(pending) = self.waiting.pop() else {
            return self.pass(Stage::Operated);
        };
        match pending {
            Pending::Group => self.complete(Node::Grouped),
            Pending::Call => {
                self.tags.push(NodeTag::Made(Node::Argument))?;
                self.complete(Node::Called)
            }
            Pending::Condition => self.finish(Node::Tested, Stage::Start),
            Pending::Result => self.finish(Node::Returned, Stage::Rest),
            _ => self.pass(Stage::Operated),
        }
    }

    fn operator(&mut self, node: Node) -> Result<(), AllocError>
        ensures { IfOk result (λ done. TookNodes self.old (before_operand node self.old.waiting) self.new) }
    {
        self.wait(Pending::Operator(node), Stage::Operand)
    }

    // Something waits from this token on.
    fn wait(&mut self, pending: Pending, stage: Stage) -> Result<(), AllocError>
        ensures { IfOk result (λ done. TookNodes self.old (pass stage (pending ∷ self.old.waiting)) self.new) }
    {
        self.waiting.push(pending)?;
        self.pass(stage)
    }

    // With the token the innermost that waits is over.
    fn end(&mut self, stage: Stage) -> Result<(), AllocError>
        ensures { IfOk result (λ done. TookNodes self.old (pass stage (outer self.old.waiting)) self.new) }
    {
        let _ = self.waiting.pop();
        self.pass(stage)
    }

    fn end_with(&mut self, node: Node) -> Result<(), AllocError>
        ensures { IfOk result (λ done. TookNodes self.old (complete node (outer self.old.waiting)) self.new) }
    {
        let _ = self.waiting.pop();
        self.complete(node)
    }

    // A `;` after an expression.
    fn end_statement(&mut self) -> Result<(), AllocError>
        ensures { IfOk result (λ done. TookNodes self.old (end_statement self.old.waiting) self.new) }
    {
        match self.waiting.innermost() {
            Some(Pending::Goto) => {
                let _ = self.waiting.pop();
                self.finish(Node::Target, Stage::Over)
            }
            _ => self.finish(Node::Evaluated, Stage::Over),
        }
    }

    // The `{` of a `switch`.
    fn open_switch(&mut self) -> Result<(), AllocError>
        ensures { IfOk result (λ done. TookNodes self.old (open_switch self.old.waiting) self.new) }
    {
        self.wait(Pending::Block, Stage::Start)?;
        self.tags.push(NodeTag::Made(Node::Switched))?;
        Ok(())
    }

    fn complete(&mut self, node: Node) -> Result<(), AllocError>
        ensures { IfOk result (λ done. TookNodes self.old (complete node self.old.waiting) self.new) }
    {
        self.finish(node, Stage::Operated)
    }

    // A node ends with the token.
    fn finish(&mut self, node: Node, stage: Stage) -> Result<(), AllocError>
        ensures { IfOk result (λ done. TookNodes self.old (finish node stage self.old.waiting) self.new) }
    {
        self.pass(stage)?;
        self.tags.push(NodeTag::Made(node))?;
        Ok(())
    }

    fn pass(&mut self, stage: Stage) -> Result<(), AllocError>
        ensures { IfOk result (λ done. TookNodes self.old (pass stage self.old.waiting) self.new) }
    {
        self.stage = stage;
        self.tags.push(NodeTag::Token)?;
        Ok(())
    }
}

// After an operand, operators that bind looser than so wait on for this token.
fn bound(lexeme: &Lexeme) -> u8
    ensures { result ≡ bound lexeme.now }
{
    match *lexeme {
        Lexeme::OpenBracket | Lexeme::OpenParen | Lexeme::Increment | Lexeme::Decrement => 0,
        Lexeme::Assign(_) => 1,
        Lexeme::Operator(op) => rank_of(op) + 1,
        Lexeme::Question => 8,
        _ => 10,
    }
}
