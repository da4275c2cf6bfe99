use bparse::{
    Compiler, Step, Unwatched, compile, compile_definitions, compile_edition, compile_list,
    compile_watched,
};
use bword::{Edition, MemIn, MemOut};
use std::test::Fail;

#[test]
fn a_compiler_of_its_own_streams(rt: HostRuntime) {
    let mut compiler = Compiler::new(rt.alloc(), MemIn::new(b"n 2000;"), MemOut::new(rt.alloc()));
    assert!(rt; matches!(compiler.next_definition(), Step::Written));
    assert!(rt; matches!(compiler.next_definition(), Step::Finished));
    assert!(rt; matches!(compiler.next_definition(), Step::Closed));
    let (_, out) = compiler.into_ends();
    assert_eq!(rt; out.bytes(), b"X n 1 0\nc 2000\nE\n".as_slice());
}

#[test]
fn a_compiler_of_lent_streams(rt: HostRuntime) -> Result<(), Fail> {
    let mut source = MemIn::new(b"a;\na;");
    let mut out = MemOut::new(rt.alloc());
    let mut compiler = Compiler::with_edition(rt.alloc(), &mut source, &mut out, Edition::Two);
    assert!(rt; matches!(compiler.next_definition(), Step::Written));
    let Step::Fault(fault) = compiler.next_definition() else {
        return Err("a fault".into());
    };
    drop(compiler);
    assert_eq!(rt; fault.line, 2);
    assert_eq!(rt; out.bytes(), b"B 2\nX a 0 0\n".as_slice());
    Ok(())
}

#[test]
fn whole_sources(rt: HostRuntime) {
    let (mut out, mut diag) = (MemOut::new(rt.alloc()), MemOut::new(rt.alloc()));
    let status = compile(rt.alloc(), &mut MemIn::new(b"a;a;"), &mut out, &mut diag);
    assert_eq!(rt; status, 1);
    assert_eq!(rt; out.bytes(), b"X a 0 0\n".as_slice());
    assert_eq!(rt; diag.bytes(), b"rd a 1\n".as_slice());
    let mut source = MemIn::new(b"");
    let (mut out, mut diag) = (MemOut::new(rt.alloc()), MemOut::new(rt.alloc()));
    let status = compile_edition(
        rt.alloc(),
        &mut &mut source,
        &mut &mut out,
        &mut &mut diag,
        Edition::Two,
    );
    assert_eq!(rt; status, 0);
    assert_eq!(rt; out.bytes(), b"B 2\nE\n".as_slice());
}

#[test]
fn watched_sources(rt: HostRuntime) {
    let (mut out, mut diag) = (MemOut::new(rt.alloc()), MemOut::new(rt.alloc()));
    let status = compile_watched(
        rt.alloc(),
        &mut MemIn::new(b"a;"),
        &mut out,
        &mut diag,
        &mut Unwatched,
        Edition::One,
    );
    assert_eq!(rt; status, 0);
    let mut source = MemIn::new(b"#");
    let status = compile_watched(
        rt.alloc(),
        &mut &mut source,
        &mut &mut out,
        &mut &mut diag,
        &mut Unwatched,
        Edition::One,
    );
    assert_eq!(rt; status, 1);
    assert_eq!(rt; out.bytes(), b"X a 0 0\nE\n".as_slice());
    assert_eq!(rt; diag.bytes(), b"ch 1\n".as_slice());
}

#[test]
fn definitions_of_sources(rt: HostRuntime) {
    let mut diag = MemOut::new(rt.alloc());
    let mut source = MemIn::new(b"a;v[2];");
    let (status, code) = compile_list(rt.alloc(), &mut source, &mut diag, Edition::One);
    assert!(rt; status == 0 && code.len() == 2);
    let mut source = MemIn::new(b"a;a;");
    let (status, _) = compile_list(rt.alloc(), &mut &mut source, &mut &mut diag, Edition::Two);
    assert_eq!(rt; status, 1);
    assert_eq!(rt; diag.bytes(), b"rd a 1\n".as_slice());
    let mut source = MemIn::new(b"f(){}");
    let (last, code) = compile_definitions(rt.alloc(), &mut source, &mut Unwatched, Edition::One);
    assert!(rt; matches!(last, Step::Finished) && code.len() == 1);
    let mut source = MemIn::new(b"f(){");
    let (last, _) = compile_definitions(rt.alloc(), &mut &mut source, &mut Unwatched, Edition::One);
    assert!(rt; matches!(last, Step::Fault(_)));
}
