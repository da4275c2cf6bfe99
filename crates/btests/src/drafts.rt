use bemit::{
    Binding, Branch, CaseFault, CodeBuffer, DeclareFault, Declared, DefaultFault, EmitFault,
    FinishFault, MentionFault, Scope, Undefined,
};
use blang::Instr;
use bword::Name;
use std::test::Fail;

// A call of a scope, with its answer.
#[derive(Clone, Copy)]
enum ScopeCall {
    Declare(&'static str, Declared, Result<(), DeclareFault>),
    Mention(&'static str, bool, Result<Binding, MentionFault>),
    Label(&'static str, u16, Result<u16, DeclareFault>),
    // The name without a label, which was mentioned on line 2.
    Finish(Option<&'static str>),
    Clear,
}

fn name(text: &str) -> Result<Name, Fail> {
    Ok(Name::new(text).ok_or("a name")?)
}

// Whether the scope gives this answer.
fn is_answered(scope: &mut Scope, call: ScopeCall) -> Result<bool, Fail> {
    Ok(match call {
        ScopeCall::Declare(text, how, want) => scope.declare(name(text)?, how) == want,
        ScopeCall::Mention(text, called, want) => scope.mention(name(text)?, called, 2) == want,
        ScopeCall::Label(text, place, want) => scope.place_label(name(text)?, place) == want,
        ScopeCall::Finish(Some(text)) => {
            let name = name(text)?;
            let fault = FinishFault::Undefined;
            scope.finish()
                == Err(Undefined {
                    fault,
                    name,
                    line: 2,
                })
        }
        ScopeCall::Finish(None) => scope.finish() == Ok(()),
        ScopeCall::Clear => {
            scope.clear();
            scope.targets().is_empty()
        }
    })
}

// The first row that the scope answers otherwise.
fn wrong_row(scope: &mut Scope, calls: &[ScopeCall]) -> Result<Option<usize>, Fail> {
    for (row, call) in calls.iter().enumerate() {
        if !is_answered(scope, *call)? {
            return Ok(Some(row));
        }
    }
    Ok(None)
}

#[test]
fn names_are_bound_where_they_are_declared_or_mentioned(rt: HostRuntime) -> Result<(), Fail> {
    let calls = [
        ScopeCall::Declare("a", Declared::Auto(3), Ok(())),
        ScopeCall::Declare("n", Declared::External, Ok(())),
        ScopeCall::Declare("a", Declared::External, Err(DeclareFault::Redeclared)),
        ScopeCall::Mention("a", true, Ok(Binding::Automatic(3))),
        ScopeCall::Mention("n", false, Ok(Binding::External)),
        ScopeCall::Mention("f", true, Ok(Binding::External)),
        ScopeCall::Mention("L", false, Ok(Binding::Internal(3))),
        ScopeCall::Mention("M", false, Ok(Binding::Internal(4))),
        ScopeCall::Label("M", 7, Ok(0)),
        ScopeCall::Finish(Some("L")),
        ScopeCall::Label("M", 8, Err(DeclareFault::Redeclared)),
        ScopeCall::Label("f", 8, Err(DeclareFault::Redeclared)),
        ScopeCall::Label("N", 9, Ok(1)),
        ScopeCall::Label("L", 4, Ok(2)),
        ScopeCall::Mention("L", true, Ok(Binding::Internal(3))),
        ScopeCall::Finish(None),
        ScopeCall::Clear,
        ScopeCall::Finish(None),
        ScopeCall::Mention("a", true, Ok(Binding::External)),
    ];
    assert_eq!(rt; wrong_row(&mut Scope::new(), &calls)?, None);
    Ok(())
}

// A scope with the names Aa to Hp.
fn full_scope() -> Result<Scope, Fail> {
    let mut scope = Scope::new();
    for number in 0..128u8 {
        let text = [b'A' + number / 16, b'a' + number % 16];
        let name = Name::from_bytes(&text).ok_or("a name")?;
        let Ok(()) = scope.declare(name, Declared::External) else {
            return Err("room for 128 names".into());
        };
    }
    Ok(scope)
}

#[test]
fn a_function_has_128_names(rt: HostRuntime) -> Result<(), Fail> {
    let calls = [
        ScopeCall::Declare("x", Declared::External, Err(DeclareFault::TooManyNames)),
        ScopeCall::Mention("x", false, Err(MentionFault::TooManyNames)),
        ScopeCall::Label("x", 0, Err(DeclareFault::TooManyNames)),
        ScopeCall::Declare("Hp", Declared::External, Err(DeclareFault::Redeclared)),
        ScopeCall::Mention("Aa", false, Ok(Binding::External)),
    ];
    assert_eq!(rt; wrong_row(&mut full_scope()?, &calls)?, None);
    Ok(())
}

// What a buffer answers to one call more of each kind.
fn answers(buffer: &mut CodeBuffer) -> [Option<u16>; 3] {
    let emitted = buffer.emit(Instr::Pop).ok();
    let hole = buffer.hole(Branch::J).ok().map(|hole| hole.place());
    let label = buffer.emit_label(5).ok();
    [emitted, hole, label]
}

fn emit_pops(buffer: &mut CodeBuffer, count: u16) {
    for _ in 0..count {
        let _ = buffer.emit(Instr::Pop);
    }
}

#[test]
fn code_has_a_room(rt: HostRuntime) {
    let mut buffer = CodeBuffer::new();
    for (count, want) in [
        (0, [Some(0), Some(1), Some(2)]),
        (4090, [Some(4093), Some(4094), Some(4095)]),
        (1, [None; 3]),
    ] {
        emit_pops(&mut buffer, count);
        assert_eq!(rt; answers(&mut buffer), want, "after {count}");
    }
    buffer.clear();
    assert_eq!(rt; answers(&mut buffer), [Some(0), Some(1), Some(2)]);
}

// A buffer doesn't know which label instructions have their numbers.
#[test]
fn each_label_instruction_is_resolved(rt: HostRuntime) -> Result<(), Fail> {
    let calls = [
        ScopeCall::Mention("L", false, Ok(Binding::Internal(0))),
        ScopeCall::Label("M", 7, Ok(0)),
        ScopeCall::Label("L", 9, Ok(1)),
    ];
    let mut scope = Scope::new();
    assert_eq!(rt; wrong_row(&mut scope, &calls)?, None);
    let mut buffer = CodeBuffer::new();
    assert!(rt; buffer.emit_label(0).is_ok());
    assert!(rt; buffer.emit(Instr::Label(1)).is_ok());
    for [first, second] in [[1, 0], [0, 1]] {
        buffer.resolve(&scope);
        assert!(rt; buffer.code() == [Instr::Label(first), Instr::Label(second)].as_slice());
    }
    Ok(())
}

#[test]
fn a_hole_is_filled(rt: HostRuntime) -> Result<(), Fail> {
    let mut buffer = CodeBuffer::new();
    let end = buffer.hole(Branch::Z).ok().ok_or("room")?;
    buffer.fill(end, 3);
    assert!(rt; buffer.code() == [Instr::JumpIfZero(3)].as_slice());
    Ok(())
}

#[test]
fn strings_have_a_room(rt: HostRuntime) {
    let mut buffer = CodeBuffer::new();
    for (text, offset) in [
        (b"hi".as_slice(), Ok(0)),
        (b"", Ok(2)),
        (b"x", Ok(3)),
        (&[b'a'; 2039], Ok(4)),
        (b"", Err(EmitFault::TooLarge)),
    ] {
        assert!(rt; buffer.text(text) == offset);
    }
    assert_eq!(rt; buffer.strings().len(), 1024);
    assert_eq!(rt; &buffer.strings()[..4], [26984, 4, 4, 1144].as_slice());
}

#[test]
fn cases_are_those_of_their_switch(rt: HostRuntime) {
    let mut buffer = CodeBuffer::new();
    for value in 0..256 {
        assert!(rt; buffer.add_case(0, value, 9) == Ok(()));
    }
    assert!(rt; buffer.add_case(0, 255, 9) == Err(CaseFault::Redeclared));
    assert!(rt; buffer.add_case(1, 255, 9) == Err(CaseFault::TooManyCases));
    assert_eq!(rt; buffer.cases().len(), 256);
    assert_eq!(rt; buffer.take_default(0), None);
}

#[test]
fn refusals_have_their_numbers(rt: HostRuntime) {
    let numbers = [
        DeclareFault::Redeclared as u8,
        FinishFault::Undefined as u8,
        DeclareFault::TooManyNames as u8,
        MentionFault::TooManyNames as u8,
        EmitFault::TooLarge as u8,
        CaseFault::Redeclared as u8,
        CaseFault::TooManyCases as u8,
        DefaultFault::Redeclared as u8,
    ];
    assert_eq!(rt; numbers, [1, 2, 3, 3, 4, 1, 5, 1]);
}
