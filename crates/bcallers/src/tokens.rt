use blang::{Letters, Placed, Token};
use blex::{LexStop, Lexer};
use bword::{Edition, FailIn, MemIn};

// The letters of a token that can't be one, with its line.
fn letters_of(placed: Result<Placed, LexStop>) -> Option<(Letters, u64)> {
    match placed {
        Ok(
            Placed {
                token: Token::Bad(letters),
                line,
            },
        ) => Some((letters, line)),
        _ => None,
    }
}

#[test]
fn lexers(rt: HostRuntime) {
    let mut owned = Lexer::new(MemIn::new(b"\n#"));
    assert!(rt; letters_of(owned.next()) == Some((Letters::Character, 2)));
    let mut input = MemIn::new(b"break");
    let mut lent = Lexer::with_edition(&mut input, Edition::Two);
    assert!(rt;
        matches!(
            lent.next(),
            Ok(Placed {
                token: Token::Keyword(_),
                line: 1
            })
        )
    );
    assert!(rt;
        matches!(
            lent.next(),
            Ok(Placed {
                token: Token::End,
                line: 1
            })
        )
    );
    let mut failing = Lexer::new(FailIn::new(b"a", 0));
    assert!(rt; matches!(failing.next(), Err(LexStop::Device)));
    assert!(rt; matches!(failing.next(), Err(LexStop::Closed)));
}
