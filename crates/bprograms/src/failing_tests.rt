//! Calls and commands over ends of which each read and each write fails in turn.
ghost use Rattle.std.specs.Prelude.{[], true, Some};

use crate::command_tests::{answer_to, serves};
use crate::program_tests::STEPS;
use crate::source_tests::compares;
use bparse::{Status, compile};
use brun::{go, migrate, run_text};
use bword::{ByteIn, ByteOut, Device, EndFault, FailIn, FailOut, MemIn, MemOut};
use std::alloc::Global;
use std::fs;
use std::process::Abort;
use std::rt::Files;
use std::test::Fail;

// What is called with which text and input, and what comes of it where nothing fails.
#[derive(Clone, Copy)]
struct FailingCall<'a> {
    call: &'a str,
    text: &'a str,
    input: &'a str,
    output: &'a str,
    line: &'a str,
    status: Status,
}

// A row `call~text~input~output~line~status`.
fn row_of(row: &str) -> FailingCall<'_> {
    let mut parts = row.split('~');
    FailingCall {
        call: parts.next().unwrap_or(""),
        text: parts.next().unwrap_or(""),
        input: parts.next().unwrap_or(""),
        output: parts.next().unwrap_or(""),
        line: parts.next().unwrap_or(""),
        status: parts.next().unwrap_or("").parse::<Status>().unwrap_or(0),
    }
}

// The ends that a call reads.
#[derive(Drop)]
struct Reads<'a> {
    source: FailIn<'a>,
    input: FailIn<'a>,
}

// Ends that don't fail.
fn reads_of<'a>(row: &FailingCall<'a>) -> Reads<'a> {
    Reads {
        source: FailIn::new(row.text.as_bytes(), u64::MAX),
        input: FailIn::new(row.input.as_bytes(), u64::MAX),
    }
}

fn answer<O: ByteOut, D: ByteOut>(
    alloc: Global,
    row: &FailingCall<'_>,
    reads: &mut Reads<'_>,
    out: &mut O,
    line: &mut D,
) -> Status {
    let source = &mut reads.source;
    let input = &mut reads.input;
    match row.call {
        "compile" => compile(alloc, source, out, line),
        "go" => go(alloc, source, input, out, line, STEPS),
        "migrate" => migrate(alloc, source, out, line),
        _ => run_text(alloc, row.text.as_bytes(), input, out, line, STEPS),
    }
}

// Sources without a fault, and code texts that are migrated, each of which is read to its end; the end may be asked for
// again.
const SOURCES: &str = "\
compile~n 2000;~~X n 1 0
c 2000
E
~~0@
compile~s \"ab\", t, 'x'; t;~~X s 3 2
s 0
x t
c 120
w 25185
w 4
X t 0 0
E
~~0@
compile~f(a) { auto v 1, i; L: v[i] =+ a; switch a { case 2: goto L; } return(i); }~~F f 1 5 1 0 26
t 4
a 1
a 2
w
p
a 1
v
a 4
v
b +
a 0
v
m +
p
a 0
v
j 19
l 0
g
j 21
e 2 16
p
a 4
v
r
c 0
r
E
~~0@
go~main(){auto x; x=5; x=-1; printn(x,10);}~~4~~0@
go~main(){auto c; while((c=getchar())!='*e') putchar(c);}~hi~hi~~0@
go~main() { extrn putchar, n, v; auto i, c, col, a; i = col = 0; while(i<n) v[i++] = 1; while(col<n) { a = n+1; \
c = i = 0; while(i<n) { c =+ v[i]*10; v[i++] = c%a; c =/ a--; } putchar(c+'0'); if(!(++col%5)) \
putchar(col%50?' ':'*n'); } putchar('*n*n'); } v[10]; n 10;~~71828 18261 \n\n~~0@
compile~a;b;~~X a 0 0
X b 0 0
E
~~0@
go~main(){printn(-7/2,10);printn(-7%2,10);}~~-3-1~~0@
migrate~X a 0 0
E
~~B 2
X a 0 0
E
~~0@
migrate~X a 0 0
V v 2 1 0
c 7
F f 0 0 0 0 2
c 0
r
E
~~B 2
X a 0 0
V v 2 1 0
c 7
F f 0 0 0 0 2
c 0
r
E
~~0";

// Sources with a fault, and code texts.
const STOPPING: &str = "\
compile~a;a;~~X a 0 0
~rd a 1
~1@
go~main(){printn(1/0,10);}~~~trap dz
~130@
run~X n 1 0
c 007
E
~~~code 2
~132@
run~F main 0 0 0 0 2
c 0
~~~code 3
~132@
run~E~~~code 1
~132@
run~~~~code 1
~132@
run~E
E
~~~code 2
~132@
run~F f 0 0 1 0 0
E
~~~code 1
~132@
migrate~X a 0 0
X b 1 0
c 007
E
~~B 2
X a 0 0
~code 3
~132@
migrate~~~B 2
~code 1
~132@
migrate~B 2
E
~~B 2
~code 1
~132@
migrate~E
E
~~B 2
~code 2
~132@
migrate~X a 0 0
~~B 2
X a 0 0
~code 2
~132";

// How a call ended whose output and line were written into so much room.
#[derive(Drop)]
struct CallEnds {
    status: Status,
    out: FailOut,
    line: FailOut,
}

impl CallEnds {
    fn is(&self, status: Status, output: &[u8], line: &[u8]) -> bool {
        self.status == status && self.out.bytes() == output && self.line.bytes() == line
    }
}

fn limited(
    alloc: Global,
    row: &FailingCall<'_>,
    reads: &mut Reads<'_>,
    output: usize,
    line: usize,
) -> CallEnds {
    let mut out = FailOut::new(alloc, output as u64);
    let mut line = FailOut::new(alloc, line as u64);
    let status = answer(alloc, row, reads, &mut out, &mut line);
    CallEnds { status, out, line }
}

// A beginning of the code was written, nothing is run, and nothing is read after the failure.
#[test]
fn each_read_of_a_source_fails(rt: HostRuntime) {
    for row in SOURCES.split("@\n") {
        let row = row_of(row);
        for k in 0..=row.text.len() {
            let mut reads = reads_of(&row);
            reads.source = FailIn::new(row.text.as_bytes(), k as u64);
            let ended = limited(rt.alloc(), &row, &mut reads, row.output.len(), 0);
            let code = if row.call == "go" { "" } else { row.output };
            let next = row.text.as_bytes().get(k).copied();
            let is_right = code.as_bytes().starts_with(ended.out.bytes())
                && ended.is(133, ended.out.bytes(), b"")
                && reads.source.next() == Ok::<Option<u8>, Device>(next);
            assert!(rt; is_right, "read {k} of {}", row.text);
        }
    }
}

// A definition is written when the token after it was read, and a name ends with the byte after it.
#[test]
fn no_code_before_the_next_token(rt: HostRuntime) {
    let row = row_of("compile~a;b;c;d;~~X a 0 0\nX b 0 0\nX c 0 0\nX d 0 0\n");
    for k in 0..=row.text.len() {
        let mut reads = reads_of(&row);
        reads.source = FailIn::new(row.text.as_bytes(), k as u64);
        let ended = limited(rt.alloc(), &row, &mut reads, row.output.len(), 0);
        let written = (k / 2).saturating_sub(1).saturating_mul(8);
        let code = row.output.as_bytes().get(..written).unwrap_or(b"?");
        assert!(rt; ended.is(133, code, b""), "read {k}");
    }
}

// A definition that is migrated is written when its last line was read.
#[test]
fn each_read_of_a_faulty_text_fails(rt: HostRuntime) {
    let row = row_of("migrate~X a 0 0\nX b 1 0\nc 007\nE\n");
    for k in 0..16 {
        let mut reads = reads_of(&row);
        reads.source = FailIn::new(row.text.as_bytes(), k);
        let ended = limited(rt.alloc(), &row, &mut reads, 12, 0);
        let output: &[u8] = if k < 8 { b"B 2\n" } else { b"B 2\nX a 0 0\n" };
        assert!(rt; ended.is(133, output, b""), "read {k}");
    }
}

// The bytes before the failure were written, and nothing is read after it.
#[test]
fn each_read_of_the_input_fails(rt: HostRuntime) {
    let row = row_of("go~main(){auto c; while((c=getchar())!='*e') putchar(c);}~hi~hi~~0");
    for k in 0..=row.input.len() {
        let mut reads = reads_of(&row);
        reads.input = FailIn::new(row.input.as_bytes(), k as u64);
        let ended = limited(rt.alloc(), &row, &mut reads, row.output.len(), 0);
        let written = row.output.as_bytes().get(..k).unwrap_or(b"?");
        let next = row.input.as_bytes().get(k).copied();
        let is_right = ended.is(133, written, b"")
            && reads.input.next() == Ok::<Option<u8>, Device>(next);
        assert!(rt; is_right, "read {k}");
    }
}

// There is room for so many bytes of the output and of the line after it: they were written, and no others.
#[test]
fn each_write_fails(rt: HostRuntime) {
    for row in SOURCES.split("@\n").chain(STOPPING.split("@\n")) {
        let row = row_of(row);
        let all = row.output.len().saturating_add(row.line.len());
        for room in 0..=all {
            let output = room.min(row.output.len());
            let line = room - output;
            let ended = limited(rt.alloc(), &row, &mut reads_of(&row), output, line);
            let status = if room == all { row.status } else { 133 };
            let written = row.output.as_bytes().get(..output).unwrap_or(b"?");
            let told = row.line.as_bytes().get(..line).unwrap_or(b"?");
            assert!(rt;
                ended.is(status, written, told),
                "room {room} for {}",
                row.text
            );
        }
    }
}

// An end over memory of which one call is refused, counted from 0.
#[derive(Drop)]
struct RefusingEnd {
    bytes: MemOut,
    calls: u64,
    refused: u64,
    refusals: u64,
}

fn end_refusing(alloc: Global, refused: u64) -> RefusingEnd {
    RefusingEnd {
        bytes: MemOut::new(alloc),
        calls: 0,
        refused,
        refusals: 0,
    }
}

impl ByteOut for RefusingEnd {
    ghost outgoing = { λ r. record { written = Some r.bytes.bytes; failures = 0; refusals = r.refusals } };

    ghost lender = { λ _. [] };

    ghost refuses_whole = { true };

    fn put(&mut self, bytes: &[u8]) -> Result<(), EndFault> {
        let call = self.calls;
        self.calls = self.calls.saturating_add(1);
        if call == self.refused || self.bytes.put(bytes).is_err() {
            self.refusals = self.refusals.saturating_add(1);
            return Err(EndFault::Memory);
        }
        Ok(())
    }
}

// Whether one of these calls of the output and of the line was made, and so refused: then a beginning was written, and
// no call follows it.
fn is_refused(
    rt: &(impl AllocGlobal + Abort),
    row: &FailingCall<'_>,
    of_output: u64,
    of_line: u64,
) -> bool {
    let mut out = end_refusing(rt.alloc(), of_output);
    let mut line = end_refusing(rt.alloc(), of_line);
    let status = answer(rt.alloc(), row, &mut reads_of(row), &mut out, &mut line);
    let is_refused = out.calls > of_output || line.calls > of_line;
    let output = row.output.as_bytes();
    let is_whole = out.bytes.bytes() == output;
    let is_right = if is_refused {
        status == 134
            && output.starts_with(out.bytes.bytes())
            && row.line.as_bytes().starts_with(line.bytes.bytes())
            && out.calls <= of_output.saturating_add(1)
            && line.calls <= of_line.saturating_add(1)
            && (line.calls == 0 || is_whole)
    } else {
        status == row.status && is_whole && line.bytes.bytes() == row.line.as_bytes()
    };
    assert!(rt; is_right, "calls {of_output} and {of_line} of {}", row.text);
    is_refused
}

// Up to the first call that there isn't.
#[test]
fn each_write_is_refused_memory(rt: HostRuntime) {
    for row in SOURCES.split("@\n").chain(STOPPING.split("@\n")) {
        let row = row_of(row);
        for call in 0..100 {
            let is_refused_output = is_refused(&rt, &row, call, u64::MAX);
            let is_refused_line = is_refused(&rt, &row, u64::MAX, call);
            if !is_refused_output && !is_refused_line {
                break;
            }
        }
    }
}

// A program that reads and traps, of which each command writes something.
const READING: &str = "\
v[3] 1, 2;
main() {
    extrn v;
    v[2] = getchar();
    f(v[2]);
}
f(a) {
    auto t;
    printn(a, 10);
    printn(a / 0, 10);
}
";

// Code that reads and traps.
const READING_CODE: &str = "\
F main 0 0 0 0 6
x putchar
v
x getchar
v
k 0
k 1
E
";

// Commands on them, each with `~` and its status.
const COMMANDS: &str = "\
b list x.b~0
b map x.b~0
b map --svg x.b~0
b map --steps 9 x.b~0
b check x.b~0
b check --json x.b~0
b trace x.b~130
b trace --steps 6 x.b~131
b go --where x.b~130
b run --where x.code~130
b list --code x.code~0
b trace --code x.code~130
b count --code x.code~130";

// Writes both into files.
fn keep_readings(rt: &impl Files) -> Result<(), Fail> {
    fs::write(rt, "x.b", READING.as_bytes())?;
    fs::write(rt, "x.code", READING_CODE.as_bytes())?;
    Ok(())
}

fn remove_readings(rt: &impl Files) -> Result<(), Fail> {
    fs::remove_file(rt, "x.b")?;
    fs::remove_file(rt, "x.code")?;
    Ok(())
}

// What comes of a command whose output and line are written into so much room.
fn served(
    rt: &(impl AllocGlobal + Files),
    words: &str,
    output: usize,
    line: usize,
) -> Result<CallEnds, Fail> {
    let mut out = FailOut::new(rt.alloc(), output as u64);
    let mut line = FailOut::new(rt.alloc(), line as u64);
    let status = answer_to(rt, words, &mut MemIn::new(b"x"), &mut out, &mut line)?;
    Ok(CallEnds { status, out, line })
}

// The output goes out in one piece, and then the line: of each there is what it has room for.
fn is_cut_off(
    rt: &(impl AllocGlobal + Files + Abort),
    words: &str,
    status: Status,
) -> Result<(), Fail> {
    let (output, line) = serves(rt, words, "x", status)?;
    let whole = output.bytes().len();
    let all = whole.saturating_add(line.bytes().len());
    for room in (0..whole).step_by(97).chain(whole..=all) {
        let following = room.saturating_sub(whole);
        let ended = served(rt, words, room.min(whole), following)?;
        let status = if room == all { status } else { 133 };
        let begun = output.bytes().get(..room.min(whole)).unwrap_or(b"?");
        let told = line.bytes().get(..following).unwrap_or(b"?");
        assert!(rt; ended.is(status, begun, told), "room {room} for {words}");
    }
    Ok(())
}

#[test]
fn each_write_of_a_command_fails(rt: HostRuntime) -> Result<(), Fail> {
    keep_readings(&rt)?;
    for row in COMMANDS.lines() {
        let (words, status) = row.split_once('~').unwrap_or((row, ""));
        is_cut_off(&rt, words, status.parse::<Status>().unwrap_or(0))?;
    }
    remove_readings(&rt)
}

// Commands that tell the place of a fault in a second file, on a line of its own.
const PLACED: &str = "\
b trace x.b --with y.b
b count x.b --with y.b
b show x.b --with y.b
b go --where x.b --with y.b";

#[test]
fn each_write_of_a_place_fails(rt: HostRuntime) -> Result<(), Fail> {
    fs::write(&rt, "x.b", READING.as_bytes())?;
    fs::write(&rt, "y.b", b")")?;
    for words in PLACED.lines() {
        is_cut_off(&rt, words, 1)?;
    }
    fs::remove_file(&rt, "y.b")?;
    fs::remove_file(&rt, "x.b")?;
    Ok(())
}

// There is room for so many bytes of what is said.
#[test]
fn each_write_of_a_check_fails(rt: HostRuntime) -> Result<(), Fail> {
    fs::write(&rt, "x.b", b"f() return x;")?;
    let (said, _) = serves(&rt, "b check x.b", "", 1)?;
    let all = said.bytes().len();
    for room in 0..=all {
        let ended = served(&rt, "b check x.b", room, 0)?;
        let status = if room == all { 1 } else { 133 };
        let begun = said.bytes().get(..room).unwrap_or(b"?");
        assert!(rt; ended.is(status, begun, b""), "room {room}");
    }
    fs::remove_file(&rt, "x.b")?;
    Ok(())
}

// A command writes its output once: where that is refused memory nothing was written, and there is no line.
#[test]
fn each_command_is_refused_memory(rt: HostRuntime) -> Result<(), Fail> {
    keep_readings(&rt)?;
    for row in COMMANDS.lines() {
        let (words, _) = row.split_once('~').unwrap_or((row, ""));
        let mut out = end_refusing(rt.alloc(), 0);
        let mut line = end_refusing(rt.alloc(), 0);
        let status = answer_to(&rt, words, &mut MemIn::new(b"x"), &mut out, &mut line)?;
        let is_right = status == 134 && out.bytes.bytes().is_empty() && line.calls == 0;
        assert!(rt; is_right, "the output of {words}");
    }
    remove_readings(&rt)
}

// The line of a trap is refused memory after the whole trace.
#[test]
fn the_line_of_a_trace_is_refused_memory(rt: HostRuntime) -> Result<(), Fail> {
    fs::write(&rt, "x.b", READING.as_bytes())?;
    let (whole, _) = serves(&rt, "b trace x.b", "x", 130)?;
    let mut out = MemOut::new(rt.alloc());
    let mut line = end_refusing(rt.alloc(), 0);
    let status = answer_to(
        &rt,
        "b trace x.b",
        &mut MemIn::new(b"x"),
        &mut out,
        &mut line,
    )?;
    assert_eq!(rt; status, 134);
    assert_eq!(rt; out.bytes(), whole.bytes());
    assert!(rt; line.bytes.bytes().is_empty());
    fs::remove_file(&rt, "x.b")?;
    Ok(())
}

// Commands on that program, each with `~` and what is written where its input can't be read.
const UNREAD: &str = "\
b map --steps 9 x.b~@
b go --where x.b~@
b run --where x.code~@
b trace --from 5 x.b~    step  function place  line  code         operands, signed
       5  main         4     4  x getchar    10
       6  main         5     4  v            10 3
       7  main         6     4  k 0          10 3
";

#[test]
fn each_command_can_not_read(rt: HostRuntime) -> Result<(), Fail> {
    keep_readings(&rt)?;
    for row in UNREAD.split("@\n") {
        let (words, output) = row.split_once('~').unwrap_or((row, ""));
        let mut out = MemOut::new(rt.alloc());
        let mut line = MemOut::new(rt.alloc());
        let status = answer_to(&rt, words, &mut FailIn::new(b"", 0), &mut out, &mut line)?;
        assert_eq!(rt; status, 133, "the status of {words}");
        compares(&rt, words, &out, output, &line, "");
    }
    remove_readings(&rt)
}
