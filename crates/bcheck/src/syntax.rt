//! What is said of a token with which no program goes on, by the tokens around it.
ghost use Rattle.std.specs.List.{list_all};
ghost use Rattle.std.specs.Prelude.{◌∷◌, [], IsTrue};
ghost use Rattle.bcheck.specs.Checks.{is_on_line};

use crate::around::{Around, Region, opener_of};
use crate::foreign::Foreign;
use crate::kinds::Like::{
    Assigns, Compares, Constant, Ended, Is, Name, Op, Operand, Operator, Relates, Type, Waits, Word,
};
use crate::kinds::{
    ANY, CLOSE_PAREN, COMMA, Like, OPEN_PAREN, STRING, closes_bracket, is_ended, is_operand,
    is_word,
};
use crate::spans::{Spans, is_joined, is_next_line, lexeme_at, place_of};
use crate::syntax::Marking::{Before, First, Head, Here};
use blang::Keyword;
use blex::Lexeme;
use blex::Lexeme::{Assign, CloseBrace, CloseBracket, Colon, OpenBrace, OpenBracket, Semicolon};
use bword::BinOp::{Div, Gt, Lt, Or, Rem, Sub};

/// What a token with which no program goes on comes of.
#[derive(Clone, Copy, PartialEq, Eq)]
pub(crate) enum Syntax {
    CodeText,
    BraceOpen,
    ParenOpen,
    OtherBracket,
    SourceEnds,
    Slashes,
    SlashesDivide,
    BraceSemicolon,
    BraceCloses,
    StatementOutside,
    LabelOutside,
    FileNamed,
    NameMissing,
    TypeFirst,
    TypeParameter,
    VectorParameter,
    ParameterComma,
    EqualsOutside,
    SignOutside,
    BracesOutside,
    TwoSizes,
    HeadParens,
    CallOutside,
    AutoValue,
    AutoBrackets,
    AutoList,
    ExtrnList,
    For,
    Do,
    DoAfter,
    ForEach,
    Then,
    TypeInside,
    CaseSign,
    CaseValue,
    CaseString,
    CaseList,
    CaseRange,
    CaseColon,
    Condition,
    ReturnValue,
    SwitchBraces,
    ElseInBraces,
    ElseAlone,
    ElseCondition,
    OrOr,
    EqualsAfter,
    Arrow,
    QuoteEscaped,
    QuoteInside,
    NumberName,
    FunctionInside,
    CallBody,
    HeadColon,
    Prototype,
    CompareSigns,
    LessGreater,
    ColonEquals,
    Foreign(Foreign),
    OperandMissing,
    AssignLeft,
    CommaAlone,
    TwoAssigned,
    ListAssigned,
    Thousands,
    TwoIndices,
    ReturnTwo,
    ParenEarly,
    CommentEnded,
    ColonMissing,
    Unopened,
    NoStatement,
    CallParens,
    SemicolonMissing,
    SemicolonBefore,
    TwoOperands,
    Other,
}

impl Syntax {
    /// One sentence on it, and how to fix it. `%` stands for the line of the second place.
    #[rattlefmt::skip]
    pub(crate) fn advice(self) -> (&'static str, &'static str)
        ensures { IsTrue (list_all is_on_line (result.0.now ∷ result.1.now ∷ [])) }
    {
        match self {
            Syntax::CodeText => ("this is a code text, and no source", "b run runs it; check its source in its place"),
            Syntax::BraceOpen => ("the source ends here, and the { of line % is open", "write the } that is missing"),
            Syntax::ParenOpen =>
                ("the bracket of line % is still open here", "write the ) or the ] that is missing before this"),
            Syntax::OtherBracket =>
                ("the bracket of line % is of another kind", "] closes what [ opens, ) what ( opens, and } what {"),
            Syntax::SourceEnds =>
                ("the source ends here, and something is open", "write what is missing: a value, a ; or a statement"),
            Syntax::Slashes => ("this is no comment: // is the operator / twice", "/* remark */"),
            Syntax::SlashesDivide => ("there is no operator //: / drops the fraction, too", "a / b"),
            Syntax::BraceSemicolon => ("a function ends with its }", "take the ; out"),
            Syntax::BraceCloses =>
                ("no { is open that this } closes", "take it out, or look before it for a } too many"),
            Syntax::StatementOutside =>
                ("this statement is outside of every function", "look before it for a } too many, or put it in main"),
            Syntax::LabelOutside =>
                ("this label is outside of every function", "put it before a statement of the function"),
            Syntax::FileNamed =>
                ("no line names another file: files come with the command", "take it out: b go FILE --with print"),
            Syntax::NameMissing => ("a definition begins with its name", "n 5; or v[3]; or f(x) { .. }"),
            Syntax::TypeFirst =>
                ("there are no types: a definition begins with its name",
                 "main() and not int main(); n 5; and not int n = 5;"),
            Syntax::TypeParameter => ("there are no types: parameters are names alone", "f(a, b)"),
            Syntax::VectorParameter => ("a parameter is a word, and has no brackets", "f(v), and then v[i] in f"),
            Syntax::ParameterComma => ("parameters have commas between them", "f(a, b)"),
            Syntax::EqualsOutside => ("outside of functions a value comes without =", "n 5; or v[2] 1, 2, 3;"),
            Syntax::SignOutside => ("an initial value has no sign", "65535 is -1, and 65536 - x is -x"),
            Syntax::HeadParens => ("a function has parentheses after its name", "main() { .. }"),
            Syntax::BracesOutside => ("the values of a vector come without braces", "v[2] 1, 2, 3;"),
            Syntax::TwoSizes =>
                ("a vector has one last index", "v[11]; for 3 rows of 4: v[4 * i + k] is the word k of row i"),
            Syntax::CallOutside =>
                ("outside of functions only definitions come", "look before it for a } too many, or put it in main"),
            Syntax::AutoValue => ("auto gives no value", "auto i; i = 0;"),
            Syntax::AutoBrackets =>
                ("auto has the last index of a vector without brackets", "auto v 10; has v[0] to v[10]"),
            Syntax::AutoList => ("auto has names, with commas; a vector has a number", "auto a, b, v 10;"),
            Syntax::ExtrnList => ("extrn has names alone, with commas between them", "extrn n, v;"),
            Syntax::For => ("there is no for: this is taken for a call", "i = 0; while(i < 3) { .. i++; }"),
            Syntax::ForEach => ("there is no for: a while counts", "i = 0; while(i < 3) { .. i++; }"),
            Syntax::Do => ("there is no do", "L: { .. } and then, in place of its while, if(..) goto L;"),
            Syntax::DoAfter => ("no do comes here: the body follows the ) of the while", "while(x > 3) { .. }"),
            Syntax::Then => ("there is no then", "if(x) f(); else g();"),
            Syntax::TypeInside => ("there are no types", "auto i;"),
            Syntax::CaseSign => ("a case has a number without a sign", "case 65535: is the case of -1"),
            Syntax::CaseValue => ("a case has a number or a character", "case 1: or case 'a':"),
            Syntax::CaseString =>
                ("a case has a number or a character, and no string",
                 "case 'a': has one character; compare of lib/strings.b takes strings"),
            Syntax::CaseList => ("a case has one value", "case 1: case 2: .."),
            Syntax::CaseRange =>
                ("a case has one value, and no range", "before the switch: if(c >= 'a' & c <= 'z') .."),
            Syntax::CaseColon => ("a : comes after the value of a case", "case 1: .."),
            Syntax::Condition => ("a condition is in parentheses", "if(x > 3) or while(x > 3)"),
            Syntax::ReturnValue => ("the value of a return is in parentheses", "return(x);"),
            Syntax::SwitchBraces => ("a switch has its statements in braces", "switch x { case 1: .. }"),
            Syntax::ElseInBraces => ("this else has no if: the { of line % is open", "write a } before the else"),
            Syntax::ElseAlone =>
                ("no if ends right before this else", "between if(x) and else is one statement: put { } around more"),
            Syntax::ElseCondition => ("an else has no condition of its own", "else if(x > 3) .."),
            Syntax::OrOr => ("there is no operator ||", "a | b between comparisons, and else a ? 1 : b"),
            Syntax::EqualsAfter => ("the = of an assignment comes first", "x =+ 2; and not x += 2;"),
            Syntax::Arrow => ("there are no structures, and no ->", "a vector has its parts by numbers: p[0], p[1]"),
            Syntax::QuoteEscaped =>
                ("the string before this ends at its second quote", "write *\" for a quote in a string, and not \\\""),
            Syntax::QuoteInside =>
                ("the string before this ends at its second quote", "write *\" for a quote in a string"),
            Syntax::NumberName => ("a number has only digits", "31, or 037 to the base 8; there is no 0x1F"),
            Syntax::FunctionInside =>
                ("a function begins here, and the { of line % is open",
                 "write the } that is missing before the function"),
            Syntax::CallBody =>
                ("a call has no { } after it", "look for another spelling before the (; no function is within another"),
            Syntax::HeadColon =>
                ("no : comes here: braces are around several statements", "if(x) { .. } else { .. }"),
            Syntax::Prototype => ("there are no prototypes: a call needs none", "take it out"),
            Syntax::CompareSigns => ("no comparison has these signs", "a == b, a != b, a <= b or a >= b"),
            Syntax::LessGreater => ("there is no operator <>", "a != b"),
            Syntax::ColonEquals => ("there is no operator :=", "x = 5;"),
            Syntax::Foreign(word) => word.advice(),
            Syntax::OperandMissing =>
                ("an operand is missing before this", "write a name, a constant or an expression there"),
            Syntax::AssignLeft =>
                ("more than one operand is before this assignment", "== compares; or put ( ) around the assignment"),
            Syntax::CommaAlone =>
                ("a comma is only between arguments and between names", "two statements have a ; between them"),
            Syntax::TwoAssigned => ("an assignment has one word before its =", "t = a; a = b; b = t; swaps a and b"),
            Syntax::ListAssigned => ("no assignment sets several words", "v[0] = 1; v[1] = 2;"),
            Syntax::Thousands => ("a number has no comma in it", "1000 and not 1,000"),
            Syntax::TwoIndices => ("an index is one value", "v[4 * i + k] is the word k of row i, in rows of 4"),
            Syntax::ReturnTwo =>
                ("a return has one value", "return(a); *p = b; hands a second one over, at an address p"),
            Syntax::ParenEarly => ("this ) ends the arguments, and more come", "take it out"),
            Syntax::CommentEnded =>
                ("the comment before this ended at its first */",
                 "no comment is within another: take the inner one out"),
            Syntax::ColonMissing => ("a ? has a : after it", "x ? 1 : 2"),
            Syntax::Unopened =>
                ("no bracket is open that this closes", "take it out, or write the one that is missing before it"),
            Syntax::NoStatement =>
                ("a statement has to come before this", "write a ; after the declaration or the label"),
            Syntax::CallParens => ("a call has its arguments in parentheses", "f(1, 2);"),
            Syntax::SemicolonMissing => ("line % has no ; at its end", "write the ; there, or go on with an operator"),
            Syntax::SemicolonBefore => ("a ; is missing before this", "write it there"),
            Syntax::TwoOperands => ("an operator, a comma or a ; is missing before this", "write it there"),
            Syntax::Other => ("no program goes on with this", "look before it, too: for a ; or a ) or an operator"),
        }
    }
}

/// What else has to be so.
#[derive(Clone, Copy)]
enum If {
    Always,
    /// The token before stands on another line.
    NextLine,
    /// The token stands right after the one before.
    Joined,
    /// The token before is the statement's first one.
    Second,
    /// The statement begins at the beginning of a line.
    LineStart,
    /// The string before ends with a backslash.
    Backslash,
    /// A `?` has no `:`.
    Asked,
    ParenOpen,
    /// The token closes a bracket of another kind, and none is missing in the statement.
    OtherBracket,
    /// The token closes a parenthesis or a bracket on a line of its own, where a brace is open.
    BraceMeant,
    /// Two slashes stand between an operand and another one, which a `;` or a bracket ends on the same line.
    Divides,
    BraceOpen,
    /// The brace that is open is the one after the condition of an `if`.
    IfBrace,
    /// The parenthesis that is open is the one after `for`.
    For,
    /// A `;` comes after the parameters.
    Prototype,
    /// The parenthesis that ends before is the one after an `else`.
    Else,
    /// The token before is the statement's first one, and a `=` comes after the next one.
    Assigned,
    /// Nothing is between the token and those around it.
    Tight,
    /// A `]` is open, and comes after the next token.
    Indexed,
    /// The parenthesis that is open is the one after a `return`.
    Returned,
    /// No parenthesis is open that the next `)` of the statement closes.
    Unopened,
}

/// Which token is marked.
#[derive(Clone, Copy)]
pub(crate) enum Marking {
    Here,
    Before,
    First,
    Head,
}

/// In which part of a definition, and what else is so; the first token of the statement, the two tokens before, the
/// token and the next one; what is said, and which token is marked.
#[derive(Clone, Copy)]
struct Mistake(Option<Region>, If, [Like; 5], Syntax, Marking);

const AUTO: Like = Like::Is(Lexeme::Keyword(Keyword::Auto));

const EXTRN: Like = Like::Is(Lexeme::Keyword(Keyword::Extrn));

const CASE: Like = Like::Is(Lexeme::Keyword(Keyword::Case));

const IF: Like = Like::Is(Lexeme::Keyword(Keyword::If));

/// The keywords after which a condition is in parentheses.
pub(crate) const IF_WHILE: Like = Like::Either(
    Lexeme::Keyword(Keyword::If),
    Lexeme::Keyword(Keyword::While),
);

const SWITCH: Like = Like::Is(Lexeme::Keyword(Keyword::Switch));

const RETURN: Like = Like::Is(Lexeme::Keyword(Keyword::Return));

const ELSE: Like = Like::Is(Lexeme::Keyword(Keyword::Else));

const SEMICOLON_COLON: Like = Like::Either(Lexeme::Semicolon, Lexeme::Colon);

const CLOSE_BRACKETS: Like = Like::Either(Lexeme::CloseParen, Lexeme::CloseBracket);

const STATEMENT_END: Like = Like::Either(Lexeme::Semicolon, Lexeme::CloseBrace);

const START: Option<Region> = Some(Region::Start);

const EXTERNAL: Option<Region> = Some(Region::External);

const HEADER: Option<Region> = Some(Region::Header);

const BODY: Option<Region> = Some(Region::Body);

/// The end of the source, comments, and the first token of a definition.
#[rattlefmt::skip]
const BEGINNINGS: [Mistake; 11] = [
    Mistake(None, If::ParenOpen, [ANY, ANY, ANY, Is(Lexeme::End), ANY], Syntax::ParenOpen, Here),
    Mistake(None, If::BraceOpen, [ANY, ANY, ANY, Is(Lexeme::End), ANY], Syntax::BraceOpen, Here),
    Mistake(None, If::Always, [ANY, ANY, ANY, Is(Lexeme::End), ANY], Syntax::SourceEnds, Here),
    Mistake(BODY, If::Divides, [ANY, Ended, Op(Div), Op(Div), ANY], Syntax::SlashesDivide, Before),
    Mistake(None, If::Joined, [ANY, ANY, Op(Div), Op(Div), ANY], Syntax::Slashes, Before),
    Mistake(None, If::Always, [ANY, ANY, ANY, Op(Div), Op(Div)], Syntax::Slashes, Here),
    Mistake(START, If::Always, [ANY, ANY, Is(CloseBrace), Is(Semicolon), ANY], Syntax::BraceSemicolon, Here),
    Mistake(START, If::Always, [ANY, ANY, ANY, Is(CloseBrace), ANY], Syntax::BraceCloses, Here),
    Mistake(START, If::Always, [ANY, ANY, ANY, Like::Keyword, ANY], Syntax::StatementOutside, Here),
    Mistake(START, If::Always, [ANY, ANY, ANY, Op(Rem), Name], Syntax::FileNamed, Here),
    Mistake(START, If::Always, [ANY, ANY, ANY, ANY, ANY], Syntax::NameMissing, Here),
];

/// Externals and the parameters of a function.
#[rattlefmt::skip]
const OUTSIDE: [Mistake; 20] = [
    Mistake(EXTERNAL, If::Prototype, [Type, ANY, Name, OPEN_PAREN, ANY], Syntax::Prototype, First),
    Mistake(HEADER, If::Prototype, [ANY, ANY, Type, Name, ANY], Syntax::Prototype, Before),
    Mistake(EXTERNAL, If::Always, [Type, ANY, ANY, ANY, ANY], Syntax::TypeFirst, First),
    Mistake(EXTERNAL, If::Second, [ANY, ANY, Name, Is(Colon), ANY], Syntax::LabelOutside, First),
    Mistake(EXTERNAL, If::NextLine, [ANY, ANY, Ended, Name, ANY], Syntax::SemicolonMissing, Here),
    Mistake(EXTERNAL, If::Always, [ANY, Is(CloseBracket), Name, OPEN_PAREN, ANY], Syntax::SemicolonBefore, Before),
    Mistake(EXTERNAL, If::Always, [ANY, ANY, Name, OPEN_PAREN, ANY], Syntax::TypeFirst, First),
    Mistake(EXTERNAL, If::Always, [ANY, Name, Name, Name, ANY], Syntax::TypeFirst, First),
    Mistake(EXTERNAL, If::Always, [ANY, ANY, ANY, Assigns, ANY], Syntax::EqualsOutside, Here),
    Mistake(EXTERNAL, If::Always, [ANY, ANY, ANY, Op(Sub), ANY], Syntax::SignOutside, Here),
    Mistake(EXTERNAL, If::Always, [ANY, ANY, Is(CloseBracket), Is(OpenBracket), ANY], Syntax::TwoSizes, Here),
    Mistake(EXTERNAL, If::Second, [ANY, ANY, Name, Is(OpenBrace), ANY], Syntax::HeadParens, Here),
    Mistake(EXTERNAL, If::Always, [ANY, ANY, ANY, Is(OpenBrace), ANY], Syntax::BracesOutside, Here),
    Mistake(HEADER, If::Always, [ANY, ANY, Name, Name, ANY], Syntax::TypeParameter, Before),
    Mistake(HEADER, If::Always, [ANY, ANY, ANY, Like::Keyword, ANY], Syntax::TypeParameter, Here),
    Mistake(HEADER, If::Always, [ANY, ANY, Name, Is(OpenBracket), ANY], Syntax::VectorParameter, Here),
    Mistake(HEADER, If::Always, [ANY, ANY, Name, Is(Semicolon), Name], Syntax::ParameterComma, Here),
    Mistake(HEADER, If::Always, [ANY, ANY, ANY, Constant, ANY], Syntax::CallOutside, Here),
    Mistake(HEADER, If::Always, [ANY, ANY, ANY, STRING, ANY], Syntax::CallOutside, Here),
    Mistake(HEADER, If::Always, [ANY, ANY, Name, OPEN_PAREN, ANY], Syntax::CallOutside, Here),
];

/// Declarations in a function.
#[rattlefmt::skip]
const DECLARATIONS: [Mistake; 7] = [
    Mistake(BODY, If::Always, [AUTO, ANY, Type, Name, ANY], Syntax::TypeInside, Before),
    Mistake(BODY, If::Always, [AUTO, ANY, Name, Is(Assign(None)), ANY], Syntax::AutoValue, Here),
    Mistake(BODY, If::Always, [AUTO, ANY, Name, Is(OpenBracket), ANY], Syntax::AutoBrackets, Here),
    Mistake(BODY, If::NextLine, [AUTO, ANY, Operand, ANY, ANY], Syntax::SemicolonMissing, Here),
    Mistake(BODY, If::Always, [AUTO, ANY, ANY, ANY, ANY], Syntax::AutoList, Here),
    Mistake(BODY, If::NextLine, [EXTRN, ANY, Name, ANY, ANY], Syntax::SemicolonMissing, Here),
    Mistake(BODY, If::Always, [EXTRN, ANY, ANY, ANY, ANY], Syntax::ExtrnList, Here),
];

/// Words, with what has to come after them.
#[rattlefmt::skip]
const WORDS: [Mistake; 18] = [
    Mistake(BODY, If::For, [ANY, ANY, ANY, ANY, ANY], Syntax::For, Head),
    Mistake(BODY, If::Always, [Word("for"), ANY, CLOSE_PAREN, ANY, ANY], Syntax::For, First),
    Mistake(BODY, If::Always, [ANY, ANY, Word("for"), Name, ANY], Syntax::ForEach, Before),
    Mistake(BODY, If::Always, [ANY, CLOSE_PAREN, Word("do"), ANY, ANY], Syntax::DoAfter, Before),
    Mistake(BODY, If::Always, [ANY, ANY, Word("do"), ANY, ANY], Syntax::Do, Before),
    Mistake(BODY, If::Always, [ANY, ANY, Word("then"), ANY, ANY], Syntax::Then, Before),
    Mistake(BODY, If::Prototype, [ANY, ANY, Type, Name, OPEN_PAREN], Syntax::Prototype, Before),
    Mistake(BODY, If::Always, [ANY, ANY, Type, Name, ANY], Syntax::TypeInside, Before),
    Mistake(BODY, If::Always, [ANY, ANY, CASE, Op(Sub), ANY], Syntax::CaseSign, Here),
    Mistake(BODY, If::Always, [ANY, ANY, CASE, STRING, ANY], Syntax::CaseString, Here),
    Mistake(BODY, If::Always, [ANY, ANY, CASE, ANY, ANY], Syntax::CaseValue, Here),
    Mistake(BODY, If::Always, [ANY, CASE, Constant, COMMA, ANY], Syntax::CaseList, Here),
    Mistake(BODY, If::Always, [ANY, CASE, Constant, Op(Sub), Constant], Syntax::CaseRange, Here),
    Mistake(BODY, If::Always, [ANY, CASE, Constant, ANY, ANY], Syntax::CaseColon, Here),
    Mistake(BODY, If::Joined, [ANY, Constant, Is(Colon), Is(Colon), ANY], Syntax::CaseRange, Before),
    Mistake(BODY, If::Second, [ANY, Is(Colon), Constant, Is(Colon), ANY], Syntax::CaseRange, Here),
    Mistake(BODY, If::Always, [ANY, ANY, IF_WHILE, ANY, ANY], Syntax::Condition, Here),
    Mistake(BODY, If::Always, [ANY, ANY, RETURN, ANY, ANY], Syntax::ReturnValue, Here),
];

/// Operators and operands, and brackets around them.
#[rattlefmt::skip]
const OPERANDS: [Mistake; 27] = [
    Mistake(BODY, If::Always, [ANY, ANY, Op(Or), Op(Or), ANY], Syntax::OrOr, Here),
    Mistake(BODY, If::Always, [IF_WHILE, ANY, CLOSE_PAREN, Is(Colon), ANY], Syntax::HeadColon, Here),
    Mistake(BODY, If::Always, [ELSE, ANY, CLOSE_PAREN, Is(Colon), ANY], Syntax::HeadColon, Here),
    Mistake(BODY, If::Always, [ANY, ANY, ELSE, Is(Colon), ANY], Syntax::HeadColon, Here),
    Mistake(BODY, If::LineStart, [Name, ANY, CLOSE_PAREN, Is(Colon), ANY], Syntax::HeadColon, Here),
    Mistake(BODY, If::Joined, [ANY, ANY, Is(Colon), Assigns, ANY], Syntax::ColonEquals, Before),
    Mistake(BODY, If::Joined, [ANY, ANY, Op(Lt), Op(Gt), ANY], Syntax::LessGreater, Before),
    Mistake(BODY, If::Always, [ANY, ANY, Compares, Assigns, ANY], Syntax::CompareSigns, Before),
    Mistake(BODY, If::Always, [ANY, ANY, Relates, Assigns, ANY], Syntax::CompareSigns, Before),
    Mistake(BODY, If::Always, [ANY, ANY, Operator, Assigns, ANY], Syntax::EqualsAfter, Here),
    Mistake(BODY, If::Always, [ANY, ANY, Is(Assign(None)), Is(OpenBracket), ANY], Syntax::ListAssigned, Here),
    Mistake(BODY, If::Always, [ANY, ANY, Is(Assign(None)), Is(OpenBrace), ANY], Syntax::ListAssigned, Here),
    Mistake(BODY, If::Joined, [ANY, ANY, Op(Sub), Op(Gt), ANY], Syntax::Arrow, Before),
    Mistake(BODY, If::Backslash, [ANY, ANY, STRING, ANY, ANY], Syntax::QuoteEscaped, Here),
    Mistake(BODY, If::Joined, [ANY, ANY, STRING, Name, ANY], Syntax::QuoteInside, Here),
    Mistake(BODY, If::Joined, [ANY, ANY, Constant, Name, ANY], Syntax::NumberName, Here),
    Mistake(BODY, If::Always, [ANY, ANY, Waits, Like::Closes, ANY], Syntax::OperandMissing, Here),
    Mistake(BODY, If::Always, [ANY, ANY, Waits, Operator, ANY], Syntax::OperandMissing, Here),
    Mistake(BODY, If::Always, [ANY, ANY, Waits, Assigns, ANY], Syntax::OperandMissing, Here),
    Mistake(BODY, If::Always, [ANY, ANY, Waits, Like::Keyword, ANY], Syntax::OperandMissing, Here),
    Mistake(BODY, If::ParenOpen, [ANY, ANY, Ended, Is(OpenBrace), ANY], Syntax::ParenOpen, Here),
    Mistake(BODY, If::Asked, [ANY, ANY, Ended, Like::Closes, ANY], Syntax::ColonMissing, Here),
    Mistake(BODY, If::Indexed, [ANY, ANY, Ended, COMMA, Operand], Syntax::TwoIndices, Here),
    Mistake(BODY, If::Returned, [ANY, ANY, Ended, COMMA, ANY], Syntax::ReturnTwo, Here),
    Mistake(BODY, If::OtherBracket, [ANY, ANY, Ended, Like::Closes, ANY], Syntax::OtherBracket, Here),
    Mistake(BODY, If::BraceMeant, [ANY, ANY, STATEMENT_END, CLOSE_BRACKETS, ANY], Syntax::OtherBracket, Here),
    Mistake(BODY, If::ParenOpen, [ANY, ANY, Ended, Like::Closes, ANY], Syntax::ParenOpen, Here),
];

/// Statements that begin or end at the wrong place.
#[rattlefmt::skip]
const STATEMENTS: [Mistake; 7] = [
    Mistake(BODY, If::ParenOpen, [ANY, ANY, Ended, Like::Keyword, ANY], Syntax::ParenOpen, Here),
    Mistake(BODY, If::Always, [SWITCH, ANY, Ended, ANY, ANY], Syntax::SwitchBraces, Here),
    Mistake(BODY, If::IfBrace, [ANY, ANY, STATEMENT_END, ELSE, ANY], Syntax::ElseInBraces, Here),
    Mistake(BODY, If::Always, [ANY, ANY, STATEMENT_END, ELSE, ANY], Syntax::ElseAlone, Here),
    Mistake(BODY, If::Else, [ANY, ANY, CLOSE_PAREN, ANY, ANY], Syntax::ElseCondition, Here),
    Mistake(BODY, If::LineStart, [Name, ANY, CLOSE_PAREN, Is(OpenBrace), ANY], Syntax::FunctionInside, First),
    Mistake(BODY, If::Always, [Name, ANY, CLOSE_PAREN, Is(OpenBrace), ANY], Syntax::CallBody, First),
];

/// The rest, where what comes after an operand is no part of its expression.
#[rattlefmt::skip]
const REST: [Mistake; 14] = [
    Mistake(BODY, If::Always, [ANY, ANY, ANY, Assigns, ANY], Syntax::AssignLeft, Here),
    Mistake(BODY, If::Assigned, [ANY, ANY, Name, COMMA, Name], Syntax::TwoAssigned, Here),
    Mistake(BODY, If::Unopened, [ANY, ANY, CLOSE_PAREN, COMMA, ANY], Syntax::ParenEarly, Before),
    Mistake(BODY, If::Tight, [ANY, ANY, Constant, COMMA, Constant], Syntax::Thousands, Here),
    Mistake(BODY, If::Always, [Name, ANY, Constant, COMMA, Constant], Syntax::ListAssigned, Here),
    Mistake(BODY, If::Always, [ANY, ANY, ANY, COMMA, ANY], Syntax::CommaAlone, Here),
    Mistake(BODY, If::Always, [ANY, ANY, ANY, CLOSE_BRACKETS, ANY], Syntax::Unopened, Here),
    Mistake(BODY, If::Always, [ANY, ANY, SEMICOLON_COLON, Is(CloseBrace), ANY], Syntax::NoStatement, Here),
    Mistake(BODY, If::NextLine, [ANY, ANY, Ended, ANY, ANY], Syntax::SemicolonMissing, Here),
    Mistake(BODY, If::Always, [ANY, ANY, Ended, Is(CloseBrace), ANY], Syntax::SemicolonBefore, Here),
    Mistake(BODY, If::Second, [ANY, ANY, Name, Operand, ANY], Syntax::CallParens, Here),
    Mistake(BODY, If::Always, [ANY, ANY, Ended, Operand, ANY], Syntax::TwoOperands, Here),
    Mistake(BODY, If::Always, [ANY, ANY, Ended, Like::Keyword, ANY], Syntax::TwoOperands, Here),
    Mistake(BODY, If::Always, [ANY, ANY, Ended, Is(OpenBrace), ANY], Syntax::TwoOperands, Here),
];

/// What is said of a token with which no program goes on, and which token is marked: the first row that fits tells it.
pub(crate) fn found(source: &[u8], spans: &Spans, around: &Around) -> (Syntax, Marking) {
    let place = Tried {
        source,
        spans,
        around,
        tokens: window(spans, around),
    };
    let found = match around.part {
        Region::Body => in_body(&place),
        _ => outside(&place),
    };
    found.unwrap_or((Syntax::Other, Marking::Here))
}

/// A token on which rows are tried.
#[derive(Clone, Copy)]
struct Tried<'a> {
    source: &'a [u8],
    spans: &'a Spans,
    around: &'a Around,
    tokens: [Lexeme; 5],
}

fn outside(tried: &Tried<'_>) -> Option<(Syntax, Marking)> {
    first_of(tried, &BEGINNINGS).or(first_of(tried, &OUTSIDE))
}

fn in_body(tried: &Tried<'_>) -> Option<(Syntax, Marking)> {
    first_of(tried, &BEGINNINGS)
        .or(first_of(tried, &DECLARATIONS))
        .or(first_of(tried, &WORDS))
        .or(first_of(tried, &OPERANDS))
        .or(first_of(tried, &STATEMENTS))
        .or(first_of(tried, &REST))
}

// What the first row says that fits.
fn first_of(tried: &Tried<'_>, rows: &[Mistake]) -> Option<(Syntax, Marking)> {
    let row = rows.iter().find(|row| fits(row, tried))?;
    Some((row.3, row.4))
}

fn window(spans: &Spans, around: &Around) -> [Lexeme; 5] {
    [
        lexeme_at(spans, around.first),
        lexeme_at(spans, around.token.wrapping_sub(2)),
        lexeme_at(spans, around.token.wrapping_sub(1)),
        lexeme_at(spans, around.token),
        lexeme_at(spans, around.token.wrapping_add(1)),
    ]
}

fn fits(row: &Mistake, tried: &Tried<'_>) -> bool {
    row.0.is_none_or(|part| part == tried.around.part)
        && Like::fit(&row.2, &tried.tokens)
        && holds(row.1, tried.source, tried.spans, tried.around)
}

// Whether this is so of a token.
fn holds(condition: If, source: &[u8], spans: &Spans, around: &Around) -> bool {
    let before = around.token.wrapping_sub(1);
    match condition {
        If::Always => true,
        If::NextLine => is_next_line(spans, before),
        If::Joined => is_joined(spans, before),
        If::Second => around.own == before,
        If::LineStart => is_line_start(source, spans, around.first),
        If::Backslash => ends_with_backslash(source, spans, before),
        If::Asked => around.is_asked,
        If::ParenOpen => around.is_in(spans, Lexeme::OpenParen)
            || around.is_in(spans, Lexeme::OpenBracket),
        If::OtherBracket => is_other_bracket(spans, around),
        If::BraceMeant => is_next_line(spans, before) && around.is_in(spans, Lexeme::OpenBrace),
        If::Divides => divides(spans, around.token),
        If::BraceOpen => around.is_in(spans, Lexeme::OpenBrace),
        If::IfBrace => around.is_in(spans, Lexeme::OpenBrace)
            && is_after(spans, around.head(), &IF),
        If::For => around.is_in(spans, Lexeme::OpenParen)
            && is_word(&lexeme_at(spans, around.head()), "for"),
        If::Prototype => is_prototype(spans, around.token),
        If::Else => is_after(spans, before, &ELSE),
        If::Tight => is_joined(spans, before) && is_joined(spans, around.token),
        If::Indexed => around.is_in(spans, Lexeme::OpenBracket)
            && Is(Lexeme::CloseBracket).fits(&lexeme_at(spans, around.token.wrapping_add(2))),
        If::Returned => around.is_in(spans, Lexeme::OpenParen)
            && RETURN.fits(&lexeme_at(spans, around.head())),
        If::Unopened => is_unopened(spans, around.token),
        If::Assigned => around.own == before
            && Is(Lexeme::Assign(None)).fits(&lexeme_at(spans, around.token.wrapping_add(2))),
    }
}

// Whether a bracket closes one of another kind, and as many close in the statement as are open there.
fn is_other_bracket(spans: &Spans, around: &Around) -> bool {
    let Some(opener) = around.opener else {
        return false;
    };
    let next = lexeme_at(spans, around.token.wrapping_add(1));
    let is_other = match (lexeme_at(spans, opener), lexeme_at(spans, around.token)) {
        (Lexeme::OpenBracket, Lexeme::CloseParen) | (Lexeme::OpenParen, Lexeme::CloseBracket) => {
            true
        }
        (Lexeme::OpenBracket | Lexeme::OpenParen, Lexeme::CloseBrace) => {
            !is_next_line(spans, around.token.wrapping_sub(1))
                && matches!(
                    next,
                    Lexeme::CloseParen | Lexeme::CloseBracket | Lexeme::Semicolon
                )
        }
        _ => false,
    };
    is_other && closing_from(spans, around.token) >= open_before(spans, around.token)
}

// How many brackets are open before a token in its statement.
fn open_before(spans: &Spans, token: usize) -> u64 {
    let (mut open, mut depth): (u64, u64) = (0, 0);
    for back in 0..token {
        match lexeme_at(spans, token.saturating_sub(back).saturating_sub(1)) {
            Lexeme::CloseParen | Lexeme::CloseBracket => depth = depth.saturating_add(1),
            Lexeme::OpenParen | Lexeme::OpenBracket if depth == 0 => open = open.saturating_add(1),
            Lexeme::OpenParen | Lexeme::OpenBracket => depth = depth.saturating_sub(1),
            lexeme if Like::Border.fits(&lexeme) => return open,
            _ => {}
        }
    }
    open
}

// How many brackets are closed from a token on in its statement that were opened before. The token closes one.
fn closing_from(spans: &Spans, token: usize) -> u64 {
    let (mut closed, mut depth): (u64, u64) = (1, 0);
    for at in token.saturating_add(1)..spans.end() {
        match lexeme_at(spans, at) {
            Lexeme::OpenParen | Lexeme::OpenBracket => depth = depth.saturating_add(1),
            Lexeme::CloseParen | Lexeme::CloseBracket if depth == 0 => {
                closed = closed.saturating_add(1);
            }
            Lexeme::CloseParen | Lexeme::CloseBracket => depth = depth.saturating_sub(1),
            lexeme if Like::Border.fits(&lexeme) => return closed,
            _ => {}
        }
    }
    closed
}

// Whether two slashes, of which this token is the second one, stand between the operands of a division: an operand ends
// before them, and an expression of numbers and of names that stand before comes after them, up to a `;` or a bracket
// on the same line.
fn divides(spans: &Spans, token: usize) -> bool {
    let (first, before) = (token.wrapping_sub(1), token.wrapping_sub(2));
    let next = token.saturating_add(1);
    if is_after(spans, before, &IF_WHILE)
        || !is_joined(spans, first)
        || is_next_line(spans, token)
    {
        return false;
    }
    let mut is_after = false;
    for at in next..spans.end() {
        let lexeme = lexeme_at(spans, at);
        if closes_bracket(&lexeme) || matches!(lexeme, Lexeme::Semicolon | Lexeme::Comma) {
            return is_after;
        }
        let is_known = !Like::Name.fits(&lexeme)
            || (spans.first..first).any(|at| lexeme_at(spans, at) == lexeme);
        let is_part = if is_operand(&lexeme) {
            !is_after && is_known
        } else {
            matches!(
                lexeme,
                Lexeme::Operator(_) | Lexeme::OpenParen | Lexeme::OpenBracket
            )
        };
        if !is_part || is_next_line(spans, at) {
            return false;
        }
        is_after = is_ended(&lexeme);
    }
    false
}

/// Whether a token is the `)` of a parenthesis right after such a keyword.
pub(crate) fn is_after(spans: &Spans, closer: usize, keyword: &Like) -> bool {
    lexeme_at(spans, closer) == Lexeme::CloseParen
        && matches!(
            opener_of(spans, closer),
            Some(opener) if keyword.fits(&lexeme_at(spans, opener.wrapping_sub(1)))
        )
}

// Whether a `;` comes right after the first `)` after a token.
fn is_prototype(spans: &Spans, token: usize) -> bool {
    let closer = (token..spans.end()).find(|at| lexeme_at(spans, *at) == Lexeme::CloseParen);
    closer.is_some_and(|at| lexeme_at(spans, at.wrapping_add(1)) == Lexeme::Semicolon)
}

// Whether a `)` that no parenthesis from a token on opens comes before a `;`.
fn is_unopened(spans: &Spans, token: usize) -> bool {
    let mut depth: u64 = 0;
    for at in token..spans.end() {
        match lexeme_at(spans, at) {
            Lexeme::OpenParen => depth = depth.saturating_add(1),
            Lexeme::CloseParen if depth == 0 => return true,
            Lexeme::CloseParen => depth = depth.saturating_sub(1),
            lexeme if Like::Border.fits(&lexeme) => return false,
            _ => {}
        }
    }
    false
}

/// Whether the last comment before a place has the beginning of another one in it, and the end of one comes after the
/// place.
pub(crate) fn is_after_comments(source: &[u8], place: usize) -> bool {
    is_before_end(source, place) && is_after_two(source, place)
}

// Whether the end of a comment comes after a place, and no beginning before it.
fn is_before_end(source: &[u8], place: usize) -> bool {
    for at in place..source.len() {
        match (source.get(at), source.get(at.saturating_add(1))) {
            (Some(b'*'), Some(b'/')) => return true,
            (Some(b'/'), Some(b'*')) => return false,
            _ => {}
        }
    }
    false
}

fn is_after_two(source: &[u8], place: usize) -> bool {
    let mut end = None;
    for back in 2..place.saturating_add(1) {
        let at = place.saturating_sub(back);
        match (source.get(at), source.get(at.saturating_add(1)), end) {
            (Some(b'*'), Some(b'/'), None) => end = Some(at),
            (Some(b'*'), Some(b'/'), Some(_)) => return false,
            (Some(b'/'), Some(b'*'), Some(_)) => return has_another(source, at),
            _ => {}
        }
    }
    false
}

// Whether another comment begins before one on the same line, or before its end on the lines above.
fn has_another(source: &[u8], place: usize) -> bool {
    for back in 2..place.saturating_add(1) {
        let at = place.saturating_sub(back);
        match (source.get(at), source.get(at.saturating_add(1))) {
            (Some(b'*'), Some(b'/')) => return false,
            (Some(b'/'), Some(b'*')) => return true,
            _ => {}
        }
    }
    false
}

fn is_line_start(source: &[u8], spans: &Spans, token: usize) -> bool {
    let before = place_of(spans, token).start.wrapping_sub(1);
    matches!(source.get(before), None | Some(b'\n'))
}

// Whether the last character of a string is a backslash.
fn ends_with_backslash(source: &[u8], spans: &Spans, token: usize) -> bool {
    matches!(
        spans.get(token),
        Some(span) if source.get(span.end().wrapping_sub(2)) == Some(&b'\\')
    )
}
