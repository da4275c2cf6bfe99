use bcode::read_code;
use blang::Outcome;
use bmach::{Stepper, load, load_slice, run};
use bpages::PagedStore;
use brun::{go, go_edition, migrate, run_text};
use bword::{Edition, FlatStore, MemIn, MemOut, Name};
use std::test::Fail;

const HI: &str = "F main 0 0 0 0 7\nx putchar\nv\nc 26729\nk 1\np\nc 0\nr\nE\n";

#[test]
fn images(rt: HostRuntime) -> Result<(), Fail> {
    let image = load(rt.alloc(), read_code(rt.alloc(), HI.as_bytes())?)?;
    let main = Name::new("main").ok_or("a name")?;
    assert_eq!(rt; image.address(&main), Some(7));
    assert!(rt; image.word(7) == 7 && image.data_end() == 8);
    let mut out = MemOut::new(rt.alloc());
    let store = FlatStore::new(rt.alloc())?;
    let input = &mut MemIn::new(b"");
    assert!(rt; run(rt.alloc(), &image, store, input, &mut out, 9) == Outcome::Exit(0));
    let pages = PagedStore::new(rt.alloc())?;
    let answer = run(
        rt.alloc(),
        &image,
        pages,
        &mut &mut *input,
        &mut &mut out,
        6,
    );
    assert!(rt; answer == Outcome::Limit);
    assert_eq!(rt; out.bytes(), b"hihi".as_slice());
    Ok(())
}

// The first three steps, and then the others.
#[test]
fn steps(rt: HostRuntime) -> Result<(), Fail> {
    let code = read_code(rt.alloc(), HI.as_bytes())?;
    let image = load_slice(rt.alloc(), code.as_slice())?;
    let store = FlatStore::new(rt.alloc())?;
    let begun = Stepper::begin(rt.alloc(), &image, store);
    let mut stepper = begun.ok().ok_or("a run")?;
    let (mut input, mut out) = (MemIn::new(b""), MemOut::new(rt.alloc()));
    assert!(rt; stepper.step(&mut input, &mut out) == Ok(()));
    assert!(rt; stepper.step(&mut &mut input, &mut &mut out) == Ok(()));
    assert!(rt; stepper.step(&mut input, &mut out) == Ok(()));
    assert_eq!(rt; stepper.operands(), [4, 26729].as_slice());
    assert!(rt; stepper.top().place == 3 && stepper.top().parameters == 0);
    assert!(rt; stepper.callers() == 0 && stepper.caller(0).is_none());
    assert!(rt; stepper.word(7) == 7 && stepper.stored().is_empty());
    let stop = stepper.run(&mut input, &mut out, 9);
    assert!(rt; stop.outcome == Outcome::Exit(0) && stop.steps == 4);
    assert_eq!(rt; out.bytes(), b"hi".as_slice());
    let pages = Stepper::begin(rt.alloc(), &image, PagedStore::new(rt.alloc())?);
    let stepper = pages.ok().ok_or("a run")?;
    let stop = stepper.run(&mut &mut input, &mut &mut out, 2);
    assert!(rt; stop.outcome == Outcome::Limit && stop.call.place == 2);
    Ok(())
}

#[test]
fn programs(rt: HostRuntime) {
    let (mut out, mut diag) = (MemOut::new(rt.alloc()), MemOut::new(rt.alloc()));
    let source = b"main(){putchar('hi');}";
    let input = &mut MemIn::new(b"");
    let status = go(
        rt.alloc(),
        &mut MemIn::new(source),
        input,
        &mut out,
        &mut diag,
        9,
    );
    assert_eq!(rt; status, 0);
    let status = go_edition(
        rt.alloc(),
        &mut &mut MemIn::new(b"main(){while(1) ;}"),
        &mut &mut *input,
        &mut &mut out,
        &mut &mut diag,
        9,
        Edition::Two,
    );
    assert_eq!(rt; status, 131);
    let status = run_text(rt.alloc(), HI.as_bytes(), input, &mut out, &mut diag, 9);
    assert_eq!(rt; status, 0);
    assert_eq!(rt; out.bytes(), b"hihi".as_slice());
    assert_eq!(rt; diag.bytes(), b"limit\n".as_slice());
}

#[test]
fn migrations(rt: HostRuntime) {
    let (mut out, mut diag) = (MemOut::new(rt.alloc()), MemOut::new(rt.alloc()));
    let status = migrate(
        rt.alloc(),
        &mut MemIn::new(b"X a 0 0\nE\n"),
        &mut out,
        &mut diag,
    );
    assert_eq!(rt; status, 0);
    assert_eq!(rt; out.bytes(), b"B 2\nX a 0 0\nE\n".as_slice());
    let (mut source, mut lent) = (MemIn::new(b""), MemOut::new(rt.alloc()));
    let status = migrate(rt.alloc(), &mut &mut source, &mut &mut lent, &mut &mut diag);
    assert_eq!(rt; status, 132);
    assert_eq!(rt; diag.bytes(), b"code 1\n".as_slice());
}
