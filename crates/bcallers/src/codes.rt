use bcode::{
    CodeFault, CodeReader, CodeStep, CodeStop, read_code, write_begin, write_definition, write_end,
};
use bword::{ByteIn, ByteOut, Edition, MemIn, MemOut};
use std::test::Fail;

const CODE: &str = "X n 1 0\nc 2000\nE\n";

// Writes the definitions of the code text as one of the second edition.
fn write<O: ByteOut>(code: &[bcode::Definition], out: &mut O) -> Result<(), Fail> {
    write_begin(Edition::Two, out)?;
    for definition in code {
        write_definition(definition.view(), out)?;
    }
    Ok(write_end(out)?)
}

#[test]
fn code_texts(rt: HostRuntime) -> Result<(), Fail> {
    let code = read_code(rt.alloc(), CODE.as_bytes())?;
    let mut out = MemOut::new(rt.alloc());
    write(code.as_slice(), &mut out)?;
    assert_eq!(rt; out.bytes(), b"B 2\nX n 1 0\nc 2000\nE\n".as_slice());
    let mut lent = MemOut::new(rt.alloc());
    write(code.as_slice(), &mut &mut lent)?;
    assert_eq!(rt; lent.bytes(), out.bytes());
    let fault = read_code(rt.alloc(), b"X n 1 0\nc 007\nE\n").err();
    assert!(rt; fault == Some(CodeFault::Line(2)));
    Ok(())
}

#[test]
fn readers(rt: HostRuntime) {
    let mut owned = CodeReader::new(rt.alloc(), MemIn::new(CODE.as_bytes()), Edition::One);
    assert!(rt; matches!(owned.next(), CodeStep::Definition(_)));
    assert!(rt; matches!(owned.next(), CodeStep::End));
    assert!(rt; owned.into_end().next() == Ok(None));
    let mut input = MemIn::new(CODE.as_bytes());
    let mut lent = CodeReader::new(rt.alloc(), &mut input, Edition::Two);
    assert!(rt; matches!(lent.next(), CodeStep::Fault(CodeFault::Line(1))));
    assert!(rt; matches!(lent.next(), CodeStep::Closed));
}

#[test]
fn copies(rt: HostRuntime) {
    let mut owned = CodeReader::new(rt.alloc(), MemIn::new(CODE.as_bytes()), Edition::One);
    let mut text = Vec::new(rt.alloc());
    assert!(rt; matches!(owned.copy_next(&mut text), Ok(true)));
    assert_eq!(rt; text.as_slice(), b"X n 1 0\nc 2000\n".as_slice());
    let mut input = MemIn::new(CODE.as_bytes());
    let mut lent = CodeReader::new(rt.alloc(), &mut input, Edition::Two);
    assert!(rt;
        matches!(
            lent.copy_next(&mut text),
            Err(CodeStop::Fault(CodeFault::Line(1)))
        )
    );
}
