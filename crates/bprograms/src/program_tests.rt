//! Programs: how often they ask for input, and one that may make no step.
ghost use Rattle.std.specs.Prelude.{[]};
ghost use Rattle.bword.specs.ByteEnds.{incoming_of, bounded_of};

use crate::source_tests::compares;
use brun::{go, run_text};
use bword::{ByteIn, Device, MemIn, MemOut};

/// The most steps of a run that no row limits.
pub(crate) const STEPS: u64 = 10_000_000;

/// An end that counts its calls.
#[derive(Drop)]
pub(crate) struct CountingEnd<'a> {
    pub(crate) end: MemIn<'a>,
    pub(crate) calls: u64,
}

impl ByteIn for CountingEnd<'_> {
    ghost incoming = { λ c. incoming_of c.end };

    ghost lender = { λ _. [] };

    fn next(&mut self) -> Result<Option<u8>, Device> {
        self.calls = self.calls.saturating_add(1);
        self.end.next()
    }

    ghost bounded = { λ c. bounded_of c.end };
}

// Each `getchar` asks for one byte, after the last one too, and nothing else asks.
#[test]
fn calls_of_the_input(rt: HostRuntime) {
    let rows = "\
main() ;~0
main(){putchar('a');}~0
main(){getchar();}~1
main(){auto c; while((c=getchar())!='*e') putchar(c);}~3
main(){auto c; while((c=getchar())!='*e') putchar(c); getchar(); getchar();}~5
main(){getchar(); exit(1/0);}~1
main(){getchar(); getchar(); getchar(); while(1) ;}~3
main(){getchar();} n~0
n;~0
";
    for row in rows.lines() {
        let (source, calls) = row.split_once('~').unwrap_or((row, ""));
        let mut input = CountingEnd {
            end: MemIn::new(b"hi"),
            calls: 0,
        };
        let mut out = MemOut::new(rt.alloc());
        let mut diag = MemOut::new(rt.alloc());
        let _ = go(
            rt.alloc(),
            &mut MemIn::new(source.as_bytes()),
            &mut input,
            &mut out,
            &mut diag,
            1000,
        );
        let asked = calls.parse::<u64>().unwrap_or(0);
        assert_eq!(rt; input.calls, asked, "the calls of {source}");
    }
}

// No command line asks for no steps.
#[test]
fn no_steps(rt: HostRuntime) {
    let mut out = MemOut::new(rt.alloc());
    let mut diag = MemOut::new(rt.alloc());
    let answer = run_text(
        rt.alloc(),
        b"F main 0 0 0 0 2\nc 0\nr\nE\n",
        &mut MemIn::new(b""),
        &mut out,
        &mut diag,
        0,
    );
    compares(&rt, "no steps", &out, "", &diag, "limit\n");
    assert_eq!(rt; answer, 131);
}
