//! Instructions that the machine joins, beside the same instructions made one by one.
use bcode::read_code;
use blang::Outcome;
use bmach::{Image, Stepper, load};
use bpages::PagedStore;
use bword::{MemIn, MemOut};
use std::alloc::Global;
use std::process::Abort;
use std::test::Fail;

// Instructions that are joined. `O` is an operator, `C` is the number in `a 1` and in `n`, and 1 is a place that writes
// `J`. An operand is the number, the one below it the address of `a 0`, and the one below that 9.
const FORMS: [&str; 41] = [
    "a 0,v",
    "x n,v",
    "a 0,v,c C,b O",
    "a 0,v,a 1,v,b O",
    "a 0,v,x n,v,b O",
    "x n,v,a 0,v,b O",
    "a 0,v,c C,b O,z 1",
    "a 0,v,a 1,v,b O,z 1",
    "a 0,v,x n,v,b O,z 1",
    "x n,v,a 0,v,b O,z 1",
    "c C,b O",
    "a 1,v,b O",
    "c C,b O,z 1",
    "a 1,v,b O,z 1",
    "a 0,i 0,p",
    "a 0,i 1,p",
    "a 0,i 2,p",
    "a 0,i 3,p",
    "w,p",
    "m O,p",
    "p,j 1",
    "x n,v,a 0,v",
    "x n,v,c C",
    "a 0,x n,v",
    "a 1,a 0,v,c C,b O",
    "a 0,v,c C,b O,b -",
    "a 0,v,c 6,b -,b O",
    "a 0,i 0,b O",
    "a 0,i 1,b O",
    "a 0,i 2,b O",
    "a 0,i 3,b O",
    "a 0,c C,m O,p",
    "a 0,i 0,p,j 1",
    "a 0,i 3,p,j 1",
    "w,p,j 1",
    "w,c C,b O,z 1",
    "l 0,g",
    "c C,g",
    "e 3 1",
    "e 1 6,e 0 1,e 3 1",
    "e 9 6,e 8 6,e 7 6,e 5 6,e 4 6,e 2 6,e 1 6,e 10 6,e 3 1,e 0 1",
];

// Before them. At 1 it writes `J`, at 6 both automatics and `n`, and then it exits with operands in one. Then come the
// numbers and the operands of a trial.
const BEFORE: &str =
    "j 29,x putchar,v,c 74,k 1,p,x putchar,v,a 0,v,k 1,p,x putchar,v,a 1,v,k 1,p,x putchar,v,x n,v,k 1,p,j F,\
    b -,b -,b -,r,a 0,c V,w,p,a 1,c C,w,p,j D,c 9,a 0,c C,j S,";

const AFTER: &str = ",a 0,p,j 6";

// The place of the first of the instructions.
const FIRST: u16 = 42;

// A program with some of these instructions.
#[derive(Clone, Copy)]
struct Trial {
    form: &'static str,
    operator: u8,
    // What `a 0` and `a 1` have.
    numbers: (u16, u16),
    operands: u16,
    // At which of the instructions it begins.
    start: u16,
    // How many operators put operands in one.
    folds: u16,
}

fn put_number(alloc: Global, code: &mut Vec<u8>, number: u16) -> Result<(), Fail> {
    code.extend_from_slice(format!(in alloc; "{number}")?.as_bytes())?;
    Ok(())
}

fn put_code(alloc: Global, code: &mut Vec<u8>, part: &str, trial: Trial) -> Result<(), Fail> {
    for byte in part.as_bytes() {
        match *byte {
            b',' => code.push(b'\n')?,
            b'O' => code.push(trial.operator)?,
            b'V' => put_number(alloc, code, trial.numbers.0)?,
            b'C' => put_number(alloc, code, trial.numbers.1)?,
            b'D' => put_number(alloc, code, (FIRST - 1).saturating_sub(trial.operands))?,
            b'S' => put_number(alloc, code, FIRST.saturating_add(trial.start))?,
            b'F' => put_number(alloc, code, 28_u16.saturating_sub(trial.folds))?,
            other => code.push(other)?,
        }
    }
    Ok(())
}

fn length(form: &str) -> u16 {
    let mut length: u16 = 1;
    for byte in form.as_bytes() {
        length = length.saturating_add(u16::from(*byte == b','));
    }
    length
}

fn image(alloc: Global, trial: Trial) -> Result<Image, Fail> {
    let mut code = Vec::from_slice(alloc, b"X n 1 0\nc ")?;
    put_number(alloc, &mut code, trial.numbers.1)?;
    code.extend_from_slice(b"\nF main 0 2 1 0 ")?;
    let count = length(trial.form).saturating_add(FIRST + 3);
    put_number(alloc, &mut code, count)?;
    code.extend_from_slice(b"\nt 1\n")?;
    for part in [BEFORE, trial.form, AFTER] {
        put_code(alloc, &mut code, part, trial)?;
    }
    code.extend_from_slice(b"\nE\n")?;
    Ok(load(alloc, read_code(alloc, code.as_slice())?)?)
}

// What a run came to, after how many steps, with its output.
#[derive(Drop)]
struct Came {
    outcome: Outcome,
    steps: u64,
    out: MemOut,
}

fn joined(alloc: Global, image: &Image, steps: u64) -> Result<Came, Fail> {
    let mut out = MemOut::new(alloc);
    let stepper = Stepper::begin(alloc, image, PagedStore::new(alloc)?);
    let stop = stepper
        .ok()
        .ok_or("a run")?
        .run(&mut MemIn::new(b""), &mut out, steps);
    Ok(Came {
        outcome: stop.outcome,
        steps: stop.steps,
        out,
    })
}

fn one_by_one(alloc: Global, image: &Image, steps: u64) -> Result<Came, Fail> {
    let mut out = MemOut::new(alloc);
    let stepper = Stepper::begin(alloc, image, PagedStore::new(alloc)?);
    let mut stepper = stepper.ok().ok_or("a run")?;
    for step in 0..steps {
        if let Err(outcome) = stepper.step(&mut MemIn::new(b""), &mut out) {
            return Ok(Came {
                outcome,
                steps: step + 1,
                out,
            });
        }
    }
    Ok(Came {
        outcome: Outcome::Limit,
        steps,
        out,
    })
}

// Runs a trial in both ways.
fn compare(rt: &impl Abort, alloc: Global, trial: Trial, steps: u64) -> Result<(), Fail> {
    let image = image(alloc, trial)?;
    let came = joined(alloc, &image, steps)?;
    let wanted = one_by_one(alloc, &image, steps)?;
    assert!(rt;
        came.outcome == wanted.outcome && came.steps == wanted.steps,
        "{} at {steps} steps with {} operands, from {}",
        trial.form,
        trial.operands,
        trial.start
    );
    assert_eq!(rt; came.out.bytes(), wanted.out.bytes(), "{}", trial.form);
    Ok(())
}

// At limits before, in and after what is joined.
fn at_limits(rt: &impl Abort, alloc: Global, trial: Trial) -> Result<(), Fail> {
    let before = 11_u64.saturating_add(u64::from(trial.operands));
    for further in 0..=10 {
        compare(rt, alloc, trial, before.saturating_add(further))?;
    }
    Ok(())
}

// To the end, from each of the instructions.
fn from_each(rt: &impl Abort, alloc: Global, trial: Trial) -> Result<(), Fail> {
    for start in 0..=length(trial.form) {
        for folds in [0, trial.operands.min(3)] {
            compare(
                rt,
                alloc,
                Trial {
                    start,
                    folds,
                    ..trial
                },
                1000,
            )?;
        }
    }
    Ok(())
}

// With numbers of which one is 0 or none, and with operands or without.
fn with_numbers(rt: &impl Abort, alloc: Global, trial: Trial) -> Result<(), Fail> {
    for numbers in [(6, 3), (6, 0), (0, 3)] {
        for operands in 0..=3 {
            let trial = Trial {
                numbers,
                operands,
                ..trial
            };
            at_limits(rt, alloc, trial)?;
            from_each(rt, alloc, trial)?;
        }
    }
    Ok(())
}

#[test]
fn joined_and_one_by_one(rt: HostRuntime) -> Result<(), Fail> {
    for form in FORMS {
        let count = if form.contains("O") { 3 } else { 1 };
        for operator in &b"+/<"[..count] {
            let trial = Trial {
                form,
                operator: *operator,
                numbers: (0, 0),
                operands: 0,
                start: 0,
                folds: 0,
            };
            with_numbers(&rt, rt.alloc(), trial)?;
        }
    }
    Ok(())
}
