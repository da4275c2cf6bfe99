use bemit::{Binding, Branch, CodeBuffer, DeclareFault, Declared, Scope};
use blang::Instr;
use bword::Name;
use std::test::Fail;

#[test]
fn scopes(rt: HostRuntime) -> Result<(), Fail> {
    let (a, f, label) = (
        Name::new("a").ok_or("a name")?,
        Name::new("f").ok_or("a name")?,
        Name::new("L").ok_or("a name")?,
    );
    let mut scope = Scope::new();
    assert!(rt; scope.declare(a, Declared::Auto(3)) == Ok(()));
    assert!(rt; scope.declare(a, Declared::External) == Err(DeclareFault::Redeclared));
    assert!(rt; scope.mention(f, true, 1) == Ok(Binding::External));
    assert!(rt; scope.mention(label, false, 2) == Ok(Binding::Internal(2)));
    let Err(undefined) = scope.finish() else {
        return Err("a name without a label".into());
    };
    assert!(rt; undefined.fault as u8 == 2 && undefined.name == label && undefined.line == 2);
    assert!(rt; scope.place_label(label, 7) == Ok(0));
    assert!(rt; scope.finish() == Ok(()));
    assert_eq!(rt; scope.targets(), [7].as_slice());
    Ok(())
}

#[test]
fn buffers(rt: HostRuntime) -> Result<(), Fail> {
    let mut buffer = CodeBuffer::new();
    assert!(rt; buffer.add_default(0, 4).is_ok());
    assert_eq!(rt; buffer.take_default(0), Some(4));
    assert!(rt; buffer.add_case(0, 7, 1) == Ok(()));
    assert!(rt; buffer.emit(Instr::Constant(1)) == Ok(0));
    assert!(rt; buffer.emit_label(0) == Ok(1));
    assert!(rt; buffer.text(b"hi") == Ok(0));
    assert_eq!(rt; buffer.strings(), [26984, 4].as_slice());
    assert!(rt; buffer.cases().len() == 1 && buffer.code().len() == 2);
    Ok(())
}

#[test]
fn breaks(rt: HostRuntime) {
    let mut buffer = CodeBuffer::new();
    let mark = buffer.mark();
    let place = buffer.add_break();
    buffer.fill_breaks(mark, 5);
    assert!(rt; place == Ok(0) && buffer.code() == [Instr::Jump(5)].as_slice());
}

#[test]
fn holes(rt: HostRuntime) -> Result<(), Fail> {
    let mut buffer = CodeBuffer::new();
    let hole = buffer.hole(Branch::J).ok().ok_or("a hole")?;
    assert_eq!(rt; hole.place(), 0);
    buffer.fill(hole, 9);
    let hole = buffer.hole(Branch::Z).ok().ok_or("a hole")?;
    buffer.fill(hole, 3);
    assert!(rt; buffer.code() == [Instr::Jump(9), Instr::JumpIfZero(3)].as_slice());
    Ok(())
}
