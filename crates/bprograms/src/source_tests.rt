//! Long sources with their code or its first lines, and their diagnostics.
use bparse::compile_edition;
use bword::{Edition, MemIn, MemOut};
use itoa::Buffer;
use std::alloc::{AllocError, Global};
use std::process::Abort;
use std::test::Fail;

// What has no `break` and no `default` is the same in both editions, but for what its code text begins with.
const BOTH: [Edition; 2] = [Edition::One, Edition::Two];

// What stands in a code text after what those of this edition begin with.
fn after_beginning(edition: Edition, text: &[u8]) -> Option<&[u8]> {
    match edition {
        Edition::One => Some(text),
        Edition::Two => text.strip_prefix(b"B 2\n"),
    }
}

/// Compares what was written for this source, text or command line, and the line beside it, with what was to come.
pub(crate) fn compares(
    rt: &impl Abort,
    name: &str,
    out: &MemOut,
    output: &str,
    diag: &MemOut,
    line: &str,
) {
    assert_eq!(rt; out.bytes(), output.as_bytes(), "the output of {name}");
    assert_eq!(rt; diag.bytes(), line.as_bytes(), "the line of {name}");
}

// Adds a piece `count|text`: the text so many times, where `#` is the number of each, from 0.
fn push_piece(source: &mut String, piece: &str) -> Result<(), AllocError> {
    let (count, text) = piece.split_once('|').unwrap_or(("0", ""));
    for number in 0..count.parse::<u64>().unwrap_or(0) {
        let (before, after) = text.split_once('#').unwrap_or((text, ""));
        source.push_str(before)?;
        if text.contains('#') {
            source.push_str(Buffer::new().format(number))?;
        }
        source.push_str(after)?;
    }
    Ok(())
}

// A text of pieces, which `~` parts.
fn of_pieces(alloc: Global, pieces: &str) -> Result<String, AllocError> {
    let mut text = String::new(alloc);
    for piece in pieces.split('~') {
        push_piece(&mut text, piece)?;
    }
    Ok(text)
}

// Compares the code of a source in pieces, or the first lines of it, and its diagnostic with what was to come.
fn begins_in(
    rt: &(impl AllocGlobal + Abort),
    editions: &[Edition],
    pieces: &str,
    code: &str,
    line: &str,
) -> Result<(), Fail> {
    let source = of_pieces(rt.alloc(), pieces)?;
    let code = of_pieces(rt.alloc(), code)?;
    let begins_alone = line.is_empty() && !code.as_bytes().ends_with(b"E\n");
    for edition in editions {
        let mut out = MemOut::new(rt.alloc());
        let mut diag = MemOut::new(rt.alloc());
        let answer = compile_edition(
            rt.alloc(),
            &mut MemIn::new(source.as_bytes()),
            &mut out,
            &mut diag,
            *edition,
        );
        let text = after_beginning(*edition, out.bytes()).unwrap_or(b"no code text");
        let is_right = text.starts_with(code.as_bytes())
            && (begins_alone || text.len() == code.len())
            && diag.bytes() == line.as_bytes()
            && answer == u8::from(!line.is_empty());
        assert!(rt; is_right, "what comes of {pieces}");
    }
    Ok(())
}

/// Pieces of sources, each with `^`, those of its code or of the first lines of it, `^` and its diagnostic; `@` parts
/// them.
pub(crate) fn all_begin_in(
    rt: &(impl AllocGlobal + Abort),
    editions: &[Edition],
    rows: &str,
) -> Result<(), Fail> {
    for row in rows.split("@\n") {
        let (pieces, rest) = row.split_once('^').unwrap_or((row, ""));
        let (code, line) = rest.split_once('^').unwrap_or((rest, ""));
        begins_in(rt, editions, pieces, code, line)?;
    }
    Ok(())
}

// Each limit of size, and one past it.
#[test]
fn limits(rt: HostRuntime) -> Result<(), Fail> {
    let rows = "\
1|f() {~2047|1;~1|}^1|F f 0 0 0 0 4096
^@
1|f() {~2046|1;~1|-1; }^^>e 1
@
1|f() {~2048|1;~1|}^^>e 1
@
1|f() {~2048|1;~1|goto L; }^^un L 1
@
1|f() {~2047|1;~1|goto L; }^^un L 1
@
1|f() {~2048|1;~1|) }^^sx 1
@
1|f() {~512|\"ab\";~1|}^1|F f 0 0 0 1024 1026
^@
1|f() {~512|\"ab\";~1|\"\"; }^^>e 1
@
1|f() {\"~254|a~1|\";\"~254|a~1|\";\"~254|a~1|\";\"~254|a~1|\";\"~254|a~1|\";\"~254|a~1|\";\"~254|a~1|\";\"~254|a~1|\";}^1|F f 0 0 0 1024 18
w 24929
^@
1|f() {\"~254|a~1|\";\"~254|a~1|\";\"~254|a~1|\";\"~254|a~1|\";\"~254|a~1|\";\"~254|a~1|\";\"~254|a~1|\";\"~254|a~1|\";\"~254|a~1|\"; }^^>e 1
@
1|f() \"~254|a~1|\";^1|F f 0 0 0 128 4
w 24929
^@
1|f() \"~255|a~1|\";^^ct 1
@
1|v ~1023|0,~1|0;^1|X v 1024 0
c 0
^@
1|a;
v ~1024|0,~1|0;^1|X a 0 0
^>e 2
@
1|v[] ~1023|0,~1|0;^1|V v 1024 1024 0
c 0
^@
1|v[] ~1024|0,~1|0;^^>e 1
@
1|s ~511|\"ab\",~1|\"ab\";^1|X s 512 1024
s 0
s 2
^@
1|s ~511|\"ab\",~1|\"ab\", \"\";^^>e 1
@
1|f(~2|p#,~1|q) { auto a, v 32761; ; }^1|F f 3 32767 0 0 6
a 4
^@
1|f(~2|p#,~1|q) { auto a, b, v 32761; ; }^^>e 1
@
1|f(~127|p#,~1|q) ;^1|F f 128 128 0 0 2
^@
1|f(
~128|p#,~1|
q) ;^^>s 3
@
1|f(~128|p#,~1|q) ;^^>s 1
@
1|f(~127|p#,~1|q) g();^^>s 1
@
1|f() switch 1 {~255|case #: ;~1|}^1|F f 0 0 0 0 261
c 1
j 3
j 259
e 0 2
^@
1|f() switch 1 {~256|case #: ;~1|}^1|F f 0 0 0 0 262
c 1
j 3
j 260
e 0 2
^@
1|f() switch 1 {
~256|case #: ;~1|

case 256: ; }^^>c 4
@
1|f() switch 1 {~257|case #: ;~1|}^^>c 1
@
1|f() switch 1 {~256|case #: ;~1|case 7: ; }^^rd case 1
@
1|f() ~200|!~1|1;^1|F f 0 0 0 0 204
c 1
h
^@
1|f() ~201|!~1|1;^^sx 1
@
1|f() ~200|{~200|}^1|F f 0 0 0 0 2
^@
1|f() ~201|{~201|}^^sx 1
@
1|f() ~200|(~1|1~200|)~1|;^1|F f 0 0 0 0 4
c 1
p
c 0
r
E
^@
1|f() ~201|(~1|1~201|)~1|;^^sx 1
@
1|f()~200|(~1|1~200|)~1|;^1|F f 0 0 0 0 4
c 1
p
c 0
r
E
^@
1|f()~201|(~1|1~201|)~1|;^^sx 1
@
1|f(n~127|, n#~1|) ;^1|F f 128 128 0 0 2
c 0
r
E
^@
1|f(n~128|, n#~1|) ;^^>s 1
@
1|f() switch 1 {~257| case #:~1| ; }^^>c 1
";
    all_begin_in(&rt, &BOTH, rows)
}
