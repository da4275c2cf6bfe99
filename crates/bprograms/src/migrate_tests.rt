//! Code texts of the first edition, written in the second by `b migrate`, and what comes of a run of each.
use crate::command_tests::serves;
use crate::program_tests::STEPS;
use crate::source_tests::compares;
use bcode::read_code;
use blang::LoadFault;
use bmach::{Image, load};
use brun::run_text;
use bword::{MemIn, MemOut, Name};
use std::alloc::Global;
use std::fs::Files;
use std::process::Abort;
use std::test::Fail;

// Sources, each with `~` and what a run of its code writes, `~` and the line beside it, `~` and the status; `@` parts
// them.
const SOURCES: &str = "\
main() { extrn putchar, n, v; auto i, c, col, a; i = col = 0; while(i<n) v[i++] = 1; while(col<n) { a = n+1; \
c = i = 0; while(i<n) { c =+ v[i]*10; v[i++] = c%a; c =/ a--; } putchar(c+'0'); if(!(++col%5)) \
putchar(col%50?' ':'*n'); } putchar('*n*n'); } v[10]; n 10;~71828 18261 \n\n~~0@
f(a) { auto v 1, i; L: v[i] =+ a; switch a { case 2: goto L; } return(i); }~~load 4
~132@
main() exit(7);~~~7@
main() { printn(1/0, 10); }~~trap dz
~130";

fn runs(
    rt: &(impl AllocGlobal + Abort),
    code: &[u8],
    source: &str,
    output: &str,
    line: &str,
    status: &str,
) {
    let mut out = MemOut::new(rt.alloc());
    let mut diag = MemOut::new(rt.alloc());
    let answer = run_text(
        rt.alloc(),
        code,
        &mut MemIn::new(b""),
        &mut out,
        &mut diag,
        STEPS,
    );
    compares(rt, source, &out, output, &diag, line);
    let wanted = status.parse::<u8>().unwrap_or(u8::MAX);
    assert_eq!(rt; answer, wanted, "the status of {source}");
}

// The line of the edition comes before what there was, and each runs as the other.
#[test]
fn code_that_is_migrated(rt: HostRuntime) -> Result<(), Fail> {
    for row in SOURCES.split("@\n") {
        let mut parts = row.split('~');
        let source = parts.next().unwrap_or("");
        let output = parts.next().unwrap_or("");
        let line = parts.next().unwrap_or("");
        let status = parts.next().unwrap_or("");
        let (old, _) = serves(&rt, "b compile", source, 0)?;
        let Ok(text) = str::from_utf8(old.bytes()) else {
            continue;
        };
        let (new, diag) = serves(&rt, "b migrate", text, 0)?;
        assert!(rt; diag.bytes().is_empty(), "the line of {source}");
        assert!(rt;
            new.bytes().starts_with(b"B 2\n"),
            "the first line of {source}"
        );
        assert!(rt; new.bytes().ends_with(old.bytes()), "the rest of {source}");
        assert_eq!(rt; new.bytes().len(), old.bytes().len().saturating_add(4));
        runs(&rt, old.bytes(), source, output, line, status);
        runs(&rt, new.bytes(), source, output, line, status);
    }
    Ok(())
}

// The code text of a source, and what it is migrated to.
fn migrated(
    rt: &(impl AllocGlobal + Files + Abort),
    source: &str,
) -> Result<(MemOut, MemOut), Fail> {
    let (old, _) = serves(rt, "b compile", source, 0)?;
    let text = str::from_utf8(old.bytes())?;
    let (new, _) = serves(rt, "b migrate", text, 0)?;
    Ok((old, new))
}

fn loaded(alloc: Global, code: &MemOut) -> Result<Result<Image, LoadFault>, Fail> {
    Ok(load(alloc, read_code(alloc, code.bytes())?))
}

// The names of the first source with their addresses, after those of the library.
const ADDRESSES: [(&str, Option<u16>); 5] = [
    ("char", Some(1)),
    ("main", Some(7)),
    ("v", Some(8)),
    ("n", Some(20)),
    ("none", None),
];

#[test]
fn the_image_stays(rt: HostRuntime) -> Result<(), Fail> {
    let (old, new) = migrated(&rt, SOURCES.split('~').next().unwrap_or(""))?;
    let before = loaded(rt.alloc(), &old)??;
    let after = loaded(rt.alloc(), &new)??;
    assert_eq!(rt; [before.data_end(), after.data_end()], [21, 21]);
    for address in 0..=u16::MAX {
        assert_eq!(rt; before.word(address), after.word(address), "at {address}");
    }
    for (text, address) in ADDRESSES {
        let name = Name::new(text).ok_or("a name")?;
        assert_eq!(rt;
            [before.address(&name), after.address(&name)],
            [address, address]
        );
    }
    Ok(())
}

#[test]
fn the_load_fault_stays(rt: HostRuntime) -> Result<(), Fail> {
    let (old, new) = migrated(
        &rt,
        "f(a) { auto v 1, i; L: v[i] =+ a; switch a { case 2: goto L; } return(i); }",
    )?;
    for code in [old, new] {
        let image = loaded(rt.alloc(), &code)?;
        assert!(rt; matches!(image, Err(LoadFault::NoMain)));
    }
    Ok(())
}
