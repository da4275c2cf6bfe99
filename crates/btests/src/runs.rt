//! Runs over ends that fail, and without memory.
use crate::devices::{Narrow, Script};
use arrayvec::ArrayVec;
use bcode::read_code;
use blang::Outcome;
use bmach::{load, run};
use bword::{ByteIn, ByteOut, FlatStore, MemIn, MemOut, Reading, Writing};
use std::alloc::Global;
use std::test::Fail;

// `main(){auto c; while((c=getchar())!='*e') putchar(c);}`
const COPY: &str =
    "F main 0 1 0 0 17\na 0\nx getchar\nv\nk 0\nw\nc 4\nb !=\nz 15\nx putchar\nv\na 0\nv\nk 1\np\nj 0\nc 0\nr\nE\n";

fn copies(alloc: Global, from: &mut impl ByteIn, to: &mut impl ByteOut) -> Result<Outcome, Fail> {
    let image = load(alloc, read_code(alloc, COPY.as_bytes())?)?;
    let store = FlatStore::new(alloc)?;
    Ok(run(alloc, &image, store, from, to, 1000))
}

// `f(n) { putchar('0'+n); if(n) f(n-1); putchar('a'+n); } main() { auto v; v = 7; v =* f(2); while(v < 3) v++; }`
const CALLS: &str =
    "F f 1 1 0 0 29\nx putchar\nv\nc 48\na 0\nv\nb +\nk 1\np\na 0\nv\nz 19\nx f\nv\na 0\nv\nc 1\nb -\nk 1\np\nx putchar\nv\nc 97\na 0\nv\nb +\nk 1\np\nc 0\nr\nF main 0 1 0 0 22\na 0\nc 7\nw\np\na 0\nx f\nv\nc 2\nk 1\nm *\np\na 0\nv\nc 3\nb <\nz 20\na 0\ni 2\np\nj 11\nc 0\nr\nE\n";

// The number of the step that writes each byte of the output, and that of the last step.
const WRITTEN: [(u64, u8); 6] = [
    (16, b'2'),
    (34, b'1'),
    (52, b'0'),
    (63, b'a'),
    (74, b'b'),
    (85, b'c'),
];

const LAST: u64 = 124;

// At each limit just so many steps are made, calls and returns among them.
#[test]
fn each_limit(rt: HostRuntime) -> Result<(), Fail> {
    let image = load(rt.alloc(), read_code(rt.alloc(), CALLS.as_bytes())?)?;
    for steps in 0..=LAST {
        let mut out = MemOut::new(rt.alloc());
        let store = FlatStore::new(rt.alloc())?;
        let answer = run(
            rt.alloc(),
            &image,
            store,
            &mut MemIn::new(b""),
            &mut out,
            steps,
        );
        let written = WRITTEN.iter().filter(|(step, _)| *step <= steps);
        let bytes: Vec<u8> = written.map(|(_, byte)| *byte).collect(rt.alloc())?;
        assert_eq!(rt; answer == Outcome::Limit, steps < LAST);
        assert_eq!(rt; out.bytes(), bytes.as_slice());
    }
    Ok(())
}

#[test]
fn a_read_that_fails(rt: HostRuntime) -> Result<(), Fail> {
    let mut end = Reading::new(Script {
        texts: &["h", "!", "i"],
        calls: 0,
    });
    let mut out = MemOut::new(rt.alloc());
    let answer = copies(rt.alloc(), &mut end, &mut out)?;
    assert!(rt; answer == Outcome::Device);
    assert!(rt; end.next() == Ok(Some(b'i')));
    assert_eq!(rt; out.bytes(), b"h".as_slice());
    Ok(())
}

#[test]
fn a_write_that_fails(rt: HostRuntime) -> Result<(), Fail> {
    let mut narrow = Narrow {
        bytes: ArrayVec::new(),
        fails: true,
    };
    let mut to = Writing::new(&mut narrow);
    let answer = copies(rt.alloc(), &mut MemIn::new(b"hello"), &mut to)?;
    assert!(rt; answer == Outcome::Device);
    assert_eq!(rt; narrow.bytes.as_slice(), b"hell".as_slice());
    Ok(())
}
