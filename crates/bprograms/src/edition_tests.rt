//! The two editions: `break` and `default`, and what differs between them.
use crate::program_tests::{CountingEnd, STEPS};
use crate::source_tests::{all_begin_in, compares};
use bparse::{compile, compile_edition};
use brun::{go, go_edition};
use bword::{Edition, MemIn, MemOut, Writing};
use std::test::Fail;

#[test]
fn limits_of_the_second_edition(rt: HostRuntime) -> Result<(), Fail> {
    let rows = "\
1|f() ~200|switch 1 { default: ~1|;~200|}^1|F f 0 0 0 0 1002
c 1
j 998
c 1
j 995
^@
1|f() ~201|switch 1 { default: ~1|;~201|}^^sx 1
@
1|f() switch 1 {~256|case #: ;~1|default: ; }^1|F f 0 0 0 0 263
c 1
j 3
j 261
e 0 2
^@
1|f() switch 1 {~256|case #: ;~1|default: ;
case 256: ; }^^>c 2
@
1|f() while(1) {~4092|break;~1|}^^>e 1
@
1|f() while(1) {~5000|break;~1|}^^>e 1
@
1|f() { while(1) {~4092|break;~1|}
break; }^^sx break 2
@
1|f() while(1) {~4091|break;~1|}^1|F f 0 0 0 0 4096
c 1
z 4094
~4091|j 4094
~1|j 0
c 0
r
E
@
1|f() while(1) {~2000|break;~1|while(2) {~2000|break;~1|} }^1|F f 0 0 0 0 4008
c 1
z 4006
~2000|j 4006
~1|c 2
z 4005
~2000|j 4005
~1|j 2002
j 0
c 0
r
E
";
    all_begin_in(&rt, &[Edition::Two], rows)
}

// A program with a label `default`, to which no case leads, or with the statement.
const LABEL: &str = "\
main() {
    switch 5 {
        case 1: putchar('1');
        default: putchar('d');
    }
    putchar('e');
}
";

// The output takes so many bytes of the text, and then fails. The line `B 2` comes before the first read.
#[test]
fn outputs_that_are_full(rt: HostRuntime) {
    let text = b"B 2\nX a 0 0\nE\n";
    for room in 0..text.len() + 1 {
        let mut taken = [0; 14];
        let mut source = CountingEnd {
            end: MemIn::new(b"a;"),
            calls: 0,
        };
        let mut diag = MemOut::new(rt.alloc());
        let answer = compile_edition(
            rt.alloc(),
            &mut source,
            &mut Writing::new(&mut taken[..room]),
            &mut diag,
            Edition::Two,
        );
        let status = if room == text.len() { 0 } else { 133 };
        let is_right = answer == status
            && taken[..room] == text[..room]
            && (source.calls == 0) == (room < 4)
            && diag.bytes().is_empty();
        assert!(rt; is_right, "with room for {room}");
    }
}

// With an allocation that fails there is no other status than that, and a beginning of the text. The compiler itself
// takes no memory for a source without a definition, and reads nothing where the line `B 2` is refused.
#[test]
fn want_of_memory_for_the_empty_source(rt: HostRuntime) {
    let mut source = CountingEnd {
        end: MemIn::new(b""),
        calls: 0,
    };
    let mut out = MemOut::new(rt.alloc());
    let mut diag = MemOut::new(rt.alloc());
    let answer = compile_edition(rt.alloc(), &mut source, &mut out, &mut diag, Edition::Two);
    assert!(rt; answer == 0 || answer == 134);
    assert!(rt; b"B 2\nE\n".starts_with(out.bytes()));
    assert_eq!(rt; source.calls == 0, out.bytes().is_empty());
    assert_eq!(rt; diag.bytes().len(), 0);
    let answer = go_edition(
        rt.alloc(),
        &mut MemIn::new(b""),
        &mut MemIn::new(b""),
        &mut out,
        &mut diag,
        STEPS,
        Edition::Two,
    );
    assert!(rt; answer == 132 || answer == 134);
}

// The calls that are told no edition.
#[test]
fn the_first_edition_is_taken(rt: HostRuntime) {
    let mut out = MemOut::new(rt.alloc());
    let mut diag = MemOut::new(rt.alloc());
    let answer = compile(rt.alloc(), &mut MemIn::new(b"break;"), &mut out, &mut diag);
    compares(&rt, "break;", &out, "X break 0 0\nE\n", &diag, "");
    assert_eq!(rt; answer, 0);
    let mut out = MemOut::new(rt.alloc());
    let answer = go(
        rt.alloc(),
        &mut MemIn::new(LABEL.as_bytes()),
        &mut MemIn::new(b""),
        &mut out,
        &mut diag,
        STEPS,
    );
    compares(&rt, LABEL, &out, "e", &diag, "");
    assert_eq!(rt; answer, 0);
}
