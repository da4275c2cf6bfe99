use bcode::read_code;
use bmach::{Image, load};
use bsession::{Held, Limits, Session, SliceEnd};
use std::alloc::Global;
use std::test::Fail;

// Reads a character and writes it: the fifth step reads, the sixth writes, and the ninth is the last.
const ONE: &str = "F main 0 0 0 0 9\nx putchar\nv\nx getchar\nv\nk 0\nk 1\np\nc 0\nr\nE\n";

// Every second step puts an operand, without end.
const PUTS: &str = "F main 0 0 0 0 2\nc 1\nj 0\nE\n";

// Writes a character each six steps, in the fourth of them.
const WRITES: &str = "F main 0 0 0 0 6\nx putchar\nv\nc 97\nk 1\np\nj 0\nE\n";

fn image(alloc: Global, code: &str) -> Result<Image, Fail> {
    Ok(load(alloc, read_code(alloc, code.as_bytes())?)?)
}

#[test]
fn a_session_is_fed(rt: HostRuntime) -> Result<(), Fail> {
    let image = image(rt.alloc(), ONE)?;
    let mut session = Session::start(rt.alloc(), &image).ok().ok_or("a session")?;
    assert!(rt; session.continue_for(2) == SliceEnd::Limit);
    assert!(rt; session.continue_for(100) == SliceEnd::WantsInput);
    assert!(rt; session.continue_for(100) == SliceEnd::WantsInput);
    assert_eq!(rt; session.steps(), 4);
    let call = session.call().ok_or("a call")?;
    assert!(rt; call.place == 4 && session.callers() == 0);
    session.feed(b"ab")?;
    assert!(rt; session.continue_for(1) == SliceEnd::Limit);
    assert_eq!(rt; session.unread(), b"b".as_slice());
    assert!(rt; session.continue_for(100) == SliceEnd::Halted(0));
    assert_eq!(rt; session.steps(), 9);
    assert_eq!(rt; session.output(), b"a".as_slice());
    session.take_output(rt.alloc(), 1);
    assert_eq!(rt; session.output(), b"".as_slice());
    assert!(rt; session.continue_for(1) == SliceEnd::Halted(0));
    assert_eq!(rt; session.steps(), 9);
    Ok(())
}

#[test]
fn a_session_whose_input_is_closed(rt: HostRuntime) -> Result<(), Fail> {
    let image = image(rt.alloc(), ONE)?;
    let mut session = Session::start(rt.alloc(), &image).ok().ok_or("a session")?;
    assert!(rt; session.word(7) == Some(7) && session.word(8) == Some(0));
    assert!(rt; session.set_word(8, 5).is_ok() && session.word(8) == Some(5));
    assert!(rt; session.continue_for(100) == SliceEnd::WantsInput && !session.is_closed());
    session.close_input();
    assert!(rt; session.continue_for(100) == SliceEnd::Halted(0) && session.is_closed());
    assert_eq!(rt; session.output(), [4].as_slice());
    Ok(())
}

#[test]
fn a_session_that_holds_too_much(rt: HostRuntime) -> Result<(), Fail> {
    let image = image(rt.alloc(), PUTS)?;
    let mut session = Session::start(rt.alloc(), &image).ok().ok_or("a session")?;
    let mut limits = Limits::none();
    limits.operands = 100_000;
    session.set_limits(limits);
    // It looks after each 65,536 steps, which put 32,768 operands.
    assert!(rt; session.continue_for(u64::MAX) == SliceEnd::Holds(Held::Operands));
    assert_eq!(rt; session.steps(), 262_144);
    assert!(rt; session.continue_for(1) == SliceEnd::Holds(Held::Operands));
    assert_eq!(rt; session.steps(), 262_144);
    session.set_limits(Limits::none());
    assert!(rt; session.continue_for(1) == SliceEnd::Limit);
    assert_eq!(rt; session.steps(), 262_145);
    Ok(())
}

#[test]
fn a_session_that_stops_where_output_is_there(rt: HostRuntime) -> Result<(), Fail> {
    let image = image(rt.alloc(), WRITES)?;
    let mut session = Session::start(rt.alloc(), &image).ok().ok_or("a session")?;
    let mut limits = Limits::none();
    limits.output = 0;
    session.set_limits(limits);
    assert!(rt; session.continue_for(3) == SliceEnd::Limit);
    assert!(rt; session.continue_for(1) == SliceEnd::Holds(Held::Output));
    assert!(rt; session.continue_for(1) == SliceEnd::Holds(Held::Output));
    assert_eq!(rt; session.steps(), 4);
    session.take_output(rt.alloc(), 1);
    assert!(rt; session.continue_for(5) == SliceEnd::Limit);
    assert!(rt; session.continue_for(70_000) == SliceEnd::Holds(Held::Output));
    assert_eq!(rt; session.steps(), 65_545);
    Ok(())
}
