//! What it means that there is no program.
ghost use Rattle.std.specs.Prelude.{◌≡◌, IfOk};
ghost use Rattle.blang.specs.Reports.{run_ends};
ghost use Rattle.bsources.specs.Files.{files_shown};
ghost use Rattle.bcli.specs.Explains.{Explains, LocatesAndExplains, explained, fault_explained, letters_meaning};
ghost use Rattle.bcli.specs.Explains.{load_advice, load_meaning};
ghost use Rattle.btools.specs.Origins.{origin_shown};

use crate::trying::Attempt;
use blang::status::{self, Status};
use blang::{Letters, LoadFault};
use btools::{Origin, ProgramFault, Text, read_program, tell};
use btrace::locate;
use bword::{ByteIn, ByteOut};
use std::alloc::{AllocError, Global};

/// What tells more of a code text.
const CODE_ADVICE: &[u8] = b"b run --where of the code text tells more";

/// Runs a program and tells where its run was over; or what it means that there is none.
pub(crate) fn locate_and_explain<I: ByteIn, O: ByteOut, D: ByteOut>(
    alloc: Global,
    origin: Origin<'_>,
    attempt: Attempt<'_>,
    input: &mut I,
    out: &mut O,
    diag: &mut D,
) -> Status
    ensures locates { LocatesAndExplains (origin_shown origin.entry) attempt.entry.text.now
        (files_shown attempt.entry.files) attempt.entry.steps (run_ends
        (I.incoming input.old) (I.incoming input.new) (O.outgoing out.old) (O.outgoing out.new)
        (D.outgoing diag.old) (D.outgoing diag.new)) result }
    ensures input_lender { I.lender input.new ≡ I.lender input.old }
    ensures out_lender { O.lender out.new ≡ O.lender out.old }
    ensures diag_lender { D.lender diag.new ≡ D.lender diag.old }
{
    let text = attempt.text;
    let located = locate(
        alloc,
        text,
        origin,
        attempt.files,
        attempt.steps,
        input,
        out,
        diag,
    );
    explain(alloc, text, origin, located, diag)
}

// Tells what a status means that may be that of an origin without a program.
fn explain<D: ByteOut>(
    alloc: Global,
    text: &[u8],
    origin: Origin<'_>,
    located: Status,
    diag: &mut D,
) -> Status
    ensures explains { Explains (origin_shown origin.entry) text.now located (D.outgoing diag.old)
        (D.outgoing diag.new) result }
    ensures diag_lender { D.lender diag.new ≡ D.lender diag.old }
{
    if located != status::FAULT && located != status::REFUSED {
        return located;
    }
    let fault = match read_program(alloc, text, origin) {
        Ok(_) => return located,
        Err(fault) => fault,
    };
    match &fault {
        ProgramFault::Memory => return status::MEMORY,
        _ => {}
    }
    match fault_text(alloc, origin, &fault) {
        Ok(told) => tell(told.as_slice(), located, diag),
        Err(_) => status::MEMORY,
    }
}

fn fault_text(alloc: Global, origin: Origin<'_>, fault: &ProgramFault) -> Result<Text, AllocError>
    ensures { IfOk result (λ text. text ≡ fault_explained (origin_shown origin.entry) fault.now) }
{
    match fault {
        ProgramFault::Faulty(diagnostic) => explained(
            alloc,
            letters_meaning(diagnostic.letters),
            b"b check in place of b go --where shows the place, and a fix",
        ),
        ProgramFault::Unloaded(fault) => {
            explained(alloc, load_meaning(fault), load_advice(origin, fault))
        }
        ProgramFault::Unread(_) => {
            explained(alloc, b"no code text goes on with this line", CODE_ADVICE)
        }
        ProgramFault::Unlined(..) | ProgramFault::Unnamed(..) | ProgramFault::Memory => {
            Ok(Text::new(alloc))
        }
    }
}

fn explained(alloc: Global, meaning: &[u8], advice: &[u8]) -> Result<Text, AllocError>
    ensures { IfOk result (λ text. text ≡ explained meaning.now advice.now) }
{
    let mut text = Text::new(alloc);
    text.push(b"  means: ")?;
    text.push(meaning)?;
    text.push(b"\nnext: ")?;
    text.push(advice)?;
    text.push(b"\n")?;
    Ok(text)
}

fn letters_meaning(letters: Letters) -> &'static [u8]
    ensures { result.now ≡ letters_meaning letters }
{
    match letters {
        Letters::OpenComment => b"a comment without an end",
        Letters::Character => b"a byte that begins no token",
        Letters::LongName => b"a name of more than eight characters",
        Letters::Constant => b"a wrong number, character constant or string",
        Letters::Syntax => b"a token that can't be there",
        Letters::Redeclared => b"a name or a case that is there already",
        Letters::NotLvalue => b"an operand that must be an lvalue and isn't",
        Letters::TooManyNames => b"the 129th name of a function",
        Letters::TooManyCases => b"the 257th case of a function",
        Letters::Undefined => b"a name that is neither declared nor a label",
        Letters::TooLarge => b"a definition past a limit of size",
    }
}

fn load_meaning(fault: &LoadFault) -> &'static [u8]
    ensures { result.now ≡ load_meaning fault.now }
{
    match fault {
        LoadFault::Duplicate(_) => b"a name is defined twice",
        LoadFault::TooLarge => b"there are too many data or labels",
        LoadFault::Undefined(_) => b"a name isn't defined",
        LoadFault::NoMain => b"there is no function main",
        LoadFault::Memory => b"",
    }
}

fn load_advice(origin: Origin<'_>, fault: &LoadFault) -> &'static [u8]
    ensures { result.now ≡ load_advice (origin_shown origin.entry) fault.now }
{
    match (origin, fault) {
        (_, LoadFault::NoMain) => b"write a function main, with which a run begins",
        (Origin::Source(_), _) => b"b check in place of b go --where tells more",
        (Origin::Code(_), _) => CODE_ADVICE,
    }
}
