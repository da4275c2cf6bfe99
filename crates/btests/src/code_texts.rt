use bcode::{CodeFault, CodeReader, CodeStep, read_code, write_definition, write_end};
use bword::{Edition, FailIn, MemOut};
use std::alloc::Global;
use std::test::Fail;

const CODE: &str =
    "X s 3 2\ns 0\nx t\nc 120\nw 25185\nw 4\nV v 4 1 0\nc 1\nF f 1 5 1 1 21\nt 4\nw 4\na 1\nx v\nc 65535\ns 0\nl 0\n\
    v\nw\nb +\nm >>\nn\nh\ni 0\ni 3\nj 20\nz 0\ng\ne 2 16\nk 65535\nr\np\nb <\nE\n";

// The text of the definitions that are read from a text.
fn written(alloc: Global, text: &str) -> Result<MemOut, Fail> {
    let mut out = MemOut::new(alloc);
    for definition in &read_code(alloc, text.as_bytes())? {
        write_definition(definition.view(), &mut out)?;
    }
    write_end(&mut out)?;
    Ok(out)
}

#[test]
fn code_read_and_written(rt: HostRuntime) -> Result<(), Fail> {
    assert_eq!(rt; written(rt.alloc(), CODE)?.bytes(), CODE.as_bytes());
    Ok(())
}

// The text of `f(a) { auto v 1, i; L: v[i] =+ a; switch a { case 2: goto L; } return(i); }`, of 29 lines.
const WORKED: &str =
    "F f 1 5 1 0 26\nt 4\na 1\na 2\nw\np\na 1\nv\na 4\nv\nb +\na 0\nv\nm +\np\na 0\nv\nj 19\n\
    l 0\ng\nj 21\ne 2 16\np\na 4\nv\nr\nc 0\nr\nE\n";

// A beginning that isn't the whole text is at fault in the line after its last newline.
#[test]
fn beginnings_of_a_text(rt: HostRuntime) {
    let text = WORKED.as_bytes();
    let mut line = 1_u64;
    for len in 0..text.len() {
        let fault = read_code(rt.alloc(), &text[..len]).err();
        assert_eq!(rt; fault, Some(CodeFault::Line(line)), "of {len} bytes");
        line = line.saturating_add(u64::from(text[len] == b'\n'));
    }
    assert_eq!(rt; line, 30);
}

// Whatever byte stands after the last line.
#[test]
fn a_byte_after_a_text(rt: HostRuntime) -> Result<(), Fail> {
    for byte in 0..=u8::MAX {
        let mut text = Vec::from_slice(rt.alloc(), WORKED.as_bytes())?;
        text.push(byte)?;
        let fault = read_code(rt.alloc(), text.as_slice()).err();
        assert_eq!(rt; fault, Some(CodeFault::Line(30)), "{byte}");
    }
    Ok(())
}

#[test]
fn texts_of_faults(rt: HostRuntime) -> Result<(), Fail> {
    let text = format!(in rt.alloc(); "{}, {}", CodeFault::Line(3), CodeFault::Memory)?;
    assert_eq!(rt; text.as_str(), "code 3, memory");
    Ok(())
}

// What a reader gives of a text, one of whose reads fails: the text of the definitions, and how it stopped.
fn streamed(
    alloc: Global,
    edition: Edition,
    text: &str,
    read: u64,
) -> Result<(MemOut, CodeStep), Fail> {
    let mut out = MemOut::new(alloc);
    let mut reader = CodeReader::new(alloc, FailIn::new(text.as_bytes(), read), edition);
    for _ in 0..text.len() {
        match reader.next() {
            CodeStep::Definition(definition) => write_definition(definition.view(), &mut out)?,
            step => return Ok((out, step)),
        }
    }
    Ok((out, reader.next()))
}

#[test]
fn code_read_in_a_stream(rt: HostRuntime) -> Result<(), Fail> {
    let (out, step) = streamed(rt.alloc(), Edition::One, CODE, 1000)?;
    assert!(rt; matches!(step, CodeStep::End));
    assert_eq!(rt;
        out.bytes(),
        CODE.strip_suffix("E\n").unwrap_or("").as_bytes()
    );
    Ok(())
}

// Each read fails in turn, the one that sees the end included: the definitions before it are those of the text.
#[test]
fn reads_that_fail_in_a_stream(rt: HostRuntime) -> Result<(), Fail> {
    for read in 0..CODE.len() as u64 + 1 {
        let (out, step) = streamed(rt.alloc(), Edition::One, CODE, read)?;
        assert!(rt; matches!(step, CodeStep::Device));
        assert!(rt; CODE.as_bytes().starts_with(out.bytes()));
    }
    Ok(())
}

// The line of the fault in texts of an edition.
#[test]
fn faults_in_a_stream(rt: HostRuntime) -> Result<(), Fail> {
    for (edition, line, text) in [
        (Edition::One, 1, ""),
        (Edition::One, 1, "E"),
        (Edition::One, 2, "E\nE\n"),
        (Edition::One, 1, "B 2\nE\n"),
        (Edition::One, 3, "X a 0 0\nX b 1 0\nc 007\nE\n"),
        (Edition::Two, 1, "E\n"),
        (Edition::Two, 2, "B 2\n"),
        (Edition::Two, 2, "B 2\nB 2\nE\n"),
        (Edition::Two, 3, "B 2\nE\nE\n"),
    ] {
        let (_, step) = streamed(rt.alloc(), edition, text, 1000)?;
        assert!(rt;
            matches!(step, CodeStep::Fault(CodeFault::Line(n)) if n == line),
            "{text}"
        );
    }
    Ok(())
}
