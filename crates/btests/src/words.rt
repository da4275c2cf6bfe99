use crate::devices::{Narrow, Script};
use arrayvec::ArrayVec;
use bword::{
    BinOp, ByteIn, ByteOut, Device, DivZero, EndFault, FlatStore, MemIn, MemOut, Name, Reading,
    Store, Writing, binary, char_at, negate, not, set_char,
};
use std::process::Abort;
use std::test::Fail;

#[test]
fn operators_on_words(rt: HostRuntime) {
    for (op, a, b, want) in [
        (BinOp::Or, 12, 10, Ok(14)),
        (BinOp::And, 12, 10, Ok(8)),
        (BinOp::Eq, 7, 7, Ok(1)),
        (BinOp::Ne, 7, 7, Ok(0)),
        (BinOp::Lt, 65535, 0, Ok(1)),
        (BinOp::Le, 0, 65535, Ok(0)),
        (BinOp::Gt, 32767, 32768, Ok(1)),
        (BinOp::Ge, 5, 5, Ok(1)),
        (BinOp::Shl, 1, 15, Ok(32768)),
        (BinOp::Shl, 1, 16, Ok(0)),
        (BinOp::Shr, 65535, 15, Ok(1)),
        (BinOp::Shr, 65535, 65535, Ok(0)),
        (BinOp::Sub, 0, 1, Ok(65535)),
        (BinOp::Add, 65535, 2, Ok(1)),
        (BinOp::Mul, 256, 257, Ok(256)),
        (BinOp::Div, 65529, 2, Ok(65533)),
        (BinOp::Rem, 65529, 2, Ok(65535)),
        (BinOp::Div, 32768, 65535, Ok(32768)),
        (BinOp::Rem, 32768, 65535, Ok(0)),
        (BinOp::Div, 1, 0, Err(DivZero)),
        (BinOp::Rem, 1, 0, Err(DivZero)),
    ] {
        assert!(rt; binary(op, a, b) == want, "at {a} and {b}");
    }
}

#[test]
fn operators_on_one_word(rt: HostRuntime) {
    for (word, want) in [
        (0, [0, 1]),
        (1, [65535, 0]),
        (32768, [32768, 0]),
        (65535, [1, 0]),
    ] {
        assert_eq!(rt; [negate(word), not(word)], want, "at {word}");
    }
}

// Stores `c` as a byte of a string and gives back the byte that stands there then.
fn char_after<S: Store + Drop>(mut store: S, s: u16, i: u16, c: u16) -> Option<u16> {
    set_char(&mut store, s, i, c).ok()?;
    Some(char_at(&store, s, i))
}

#[test]
fn strings_in_a_store(rt: HostRuntime) -> Result<(), Fail> {
    let mut store = FlatStore::new(rt.alloc())?;
    store.set(10, 25185)?;
    for (s, i, c, byte, address, word) in [
        (10, 0, 97, 97, 10, 25185),
        (10, 1, 98, 98, 10, 25185),
        (10, 1, 321, 65, 10, 16737),
        (65535, 3, 120, 120, 0, 30720),
        (65535, 2, 121, 121, 0, 30841),
        (65535, 0, 0, 0, 65535, 0),
    ] {
        let stored = char_after(&mut store, s, i, c);
        assert_eq!(rt;
            (stored, store.get(address)),
            (Some(byte), word),
            "{c} at {s} and {i}"
        );
    }
    Ok(())
}

// Takes all that an end gives to another one.
fn copy<I: ByteIn + Drop, O: ByteOut + Drop>(mut from: I, mut to: O) -> Result<(), EndFault> {
    for _ in 0..u64::MAX {
        match from.next() {
            Ok(Some(byte)) => to.put(&[byte])?,
            Ok(None) => return Ok(()),
            Err(Device) => return Err(EndFault::Device),
        }
    }
    Ok(())
}

#[test]
fn ends_over_memory(rt: HostRuntime) {
    let mut from = MemIn::new(b"abc");
    let mut to = MemOut::new(rt.alloc());
    let copied = copy(&mut from, &mut to);
    assert!(rt; copied.is_ok());
    assert!(rt; from.next() == Ok(None));
    assert_eq!(rt; to.bytes(), b"abc".as_slice());
}

#[test]
fn a_read_that_fails_and_a_read_of_no_byte(rt: HostRuntime) {
    let mut script = Script {
        texts: &["ab", "!", "c", "", "d"],
        calls: 0,
    };
    let mut end = Reading::new(&mut script);
    for want in [
        Ok(Some(b'a')),
        Ok(Some(b'b')),
        Err(Device),
        Ok(Some(b'c')),
        Ok(None),
        Ok(None),
        Ok(None),
    ] {
        assert!(rt; end.next() == want);
    }
    assert_eq!(rt; script.calls, 4);
}

// Compares what a writer of room for four bytes takes.
fn takes_four(rt: &impl Abort, fails: bool) {
    let mut narrow = Narrow {
        bytes: ArrayVec::new(),
        fails,
    };
    let mut end = Writing::new(&mut narrow);
    for (bytes, want) in [
        (b"abc".as_slice(), Ok(())),
        (b"", Ok(())),
        (b"def", Err(EndFault::Device)),
        (b"g", Err(EndFault::Device)),
    ] {
        assert_eq!(rt; end.put(bytes), want);
    }
    assert_eq!(rt; narrow.bytes.as_slice(), b"abcd".as_slice());
}

#[test]
fn a_writer_that_takes_one_byte_a_call(rt: HostRuntime) {
    takes_four(&rt, false);
    takes_four(&rt, true);
}

// Texts, whether they are names, and whether they come before the name `ab`.
#[test]
fn names(rt: HostRuntime) {
    for (text, is, comes_before) in [
        ("a", true, true),
        ("_x9", true, true),
        ("ab", true, false),
        ("abcdefgh", true, false),
        ("", false, true),
        ("9a", false, true),
        ("a-b", false, true),
        ("abcdefghi", false, true),
        ("é", false, true),
    ] {
        let name = Name::new(text);
        assert_eq!(rt; name.as_ref().map(Name::as_str), is.then_some(text));
        assert_eq!(rt; name < Name::new("ab"), comes_before, "{text}");
    }
}
