use blang::{Keyword, Letters, Token};
use blex::{Lexeme, Lexer, Scanner};
use bword::{BinOp, Edition, MemIn};
use std::alloc::{AllocError, Global};
use std::process::Abort;
use std::test::Fail;

fn operator(op: BinOp) -> &'static str {
    match op {
        BinOp::Eq => "==",
        BinOp::Ne => "!=",
        BinOp::Sub => "-",
        BinOp::Add => "+",
        BinOp::Mul => "*",
        BinOp::Div => "/",
        _ => "another operator",
    }
}

fn bad(letters: Letters) -> &'static str {
    match letters {
        Letters::OpenComment => "bad:*/",
        Letters::Character => "bad:ch",
        Letters::LongName => "bad:nm",
        Letters::Constant => "bad:ct",
        _ => "other letters",
    }
}

// A token as it is spelled in the rows: a character constant is its number between quotes.
fn spelled(alloc: Global, token: &Token) -> Result<String, AllocError> {
    match token {
        Token::Name(name) => String::from_str(alloc, name.as_str()),
        Token::Number(number) => format!(in alloc; "{number}"),
        Token::Character(number) => format!(in alloc; "'{number}'"),
        Token::Operator(op) => String::from_str(alloc, operator(*op)),
        Token::Assign(Some(op)) => format!(in alloc; "={}", operator(*op)),
        Token::Assign(None) => String::from_str(alloc, "="),
        Token::Keyword(Keyword::Return) => String::from_str(alloc, "return"),
        Token::Not => String::from_str(alloc, "!"),
        Token::Increment => String::from_str(alloc, "++"),
        Token::Bad(letters) => String::from_str(alloc, bad(*letters)),
        Token::End => String::from_str(alloc, "end"),
        _ => String::from_str(alloc, "another token"),
    }
}

// Compares the tokens of a source with those to come, one a word; after the last one it comes again.
fn gives(rt: &(impl AllocGlobal + Abort), source: &[u8], tokens: &str) -> Result<(), Fail> {
    let mut lexer = Lexer::new(MemIn::new(source));
    for token in tokens.split(' ') {
        let Ok(placed) = lexer.next() else {
            return Err("a token".into());
        };
        let given = spelled(rt.alloc(), &placed.token)?;
        assert_eq!(rt; given.as_str(), token, "one of {tokens}");
    }
    Ok(())
}

// Sources, each with `~` and its tokens; `@` parts them.
#[test]
fn tokens_of_sources(rt: HostRuntime) -> Result<(), Fail> {
    let rows = "\
x=-1~x =- 1 end end
@
x=!y~x = ! y end
@
x=!=y~x =!= y end
@
x==-y~x == - y end
@
x====y~x === = y end
@
x+++y~x ++ + y end
@
=/*p~=/ * p end
@
/**/a~a end
@
/*/~bad:*/ bad:*/
@
/* /* */ \u{ff}~bad:ch bad:ch
@
12ab~12 ab end
@
0177777~65535 end
@
0200000~bad:ct
@
08~bad:ct bad:ct
@
'*e''\"''*''~'4' '34' '39' end
@
'ab'~'24930' end
@
aaaaaaaa~aaaaaaaa end
@
return abcdefghi~return bad:nm bad:nm
@
''~bad:ct
@
'abc'~bad:ct
@
'*x'~bad:ct
@
'a
'~bad:ct
@
'a~bad:ct
@
\"a
\"~bad:ct
@
\"*~bad:ct
@
\"\u{80}\"~bad:ct";
    for row in rows.split("\n@\n") {
        let (source, tokens) = row.split_once('~').unwrap_or((row, ""));
        gives(&rt, source.as_bytes(), tokens)?;
    }
    Ok(())
}

// Comments and tokens with their lines, first bytes and ends; the end comes again.
#[test]
fn places_of_pieces(rt: HostRuntime) -> Result<(), Fail> {
    let mut scanner = Scanner::new(b"a /**/\n=- ", Edition::One);
    let rows = [
        (Some(Lexeme::Assign(Some(BinOp::Sub))), 2, 7, 9),
        (Some(Lexeme::End), 2, 10, 10),
        (Some(Lexeme::End), 2, 10, 10),
    ];
    let name = scanner.next();
    assert_eq!(rt; (name.line, name.first, name.end), (1, 0, 1));
    let comment = scanner.next();
    assert!(rt; comment.lexeme == None);
    assert_eq!(rt; (comment.line, comment.first, comment.end), (1, 2, 6));
    for (lexeme, line, first, end) in rows {
        let piece = scanner.next();
        assert!(rt; piece.lexeme == lexeme);
        assert_eq!(rt; (piece.line, piece.first, piece.end), (line, first, end));
    }
    Ok(())
}
