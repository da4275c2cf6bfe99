use bword::{ByteIn, ByteOut, Device, EndFault, FailIn, FailOut, MemIn, MemOut, Reading, Writing};
use std::test::Fail;

// What two calls give.
fn two<I: ByteIn + Drop>(mut input: I) -> [Result<Option<u8>, Device>; 2] {
    [input.next(), input.next()]
}

// What the second of two calls gives.
fn second_put<O: ByteOut + Drop>(mut out: O) -> Result<(), EndFault> {
    out.put(b"a")?;
    out.put(b"bc")
}

#[test]
fn inputs(rt: HostRuntime) {
    let all = [Ok(Some(b'a')), Ok(None)];
    assert!(rt; two(MemIn::new(b"a")) == all);
    assert!(rt; two(&mut MemIn::new(b"a")) == all);
    assert!(rt; two(Reading::new(b"a".as_slice())) == all);
    assert!(rt; two(&mut Reading::new(b"a".as_slice())) == all);
    assert!(rt; two(FailIn::new(b"a", 1)) == [Ok(Some(b'a')), Err(Device)]);
    assert!(rt; two(&mut FailIn::new(b"a", 0)) == [Err(Device), Ok(Some(b'a'))]);
}

#[test]
fn outputs(rt: HostRuntime) -> Result<(), Fail> {
    let mut out = MemOut::new(rt.alloc());
    assert!(rt; second_put(&mut out) == Ok(()));
    assert_eq!(rt; out.bytes(), b"abc".as_slice());
    assert!(rt; second_put(out) == Ok(()));
    let mut written = Writing::new(Vec::new(rt.alloc()));
    assert!(rt; second_put(&mut written) == Ok(()));
    assert!(rt; second_put(written) == Ok(()));
    let mut narrow = FailOut::new(rt.alloc(), 2);
    assert!(rt; second_put(&mut narrow) == Err(EndFault::Device));
    assert_eq!(rt; narrow.bytes(), b"ab".as_slice());
    assert!(rt; second_put(FailOut::new(rt.alloc(), 3)) == Ok(()));
    Ok(())
}
