//! Compiling a whole source.
ghost use Rattle.std.specs.Prelude.{◌≡◌};
ghost use Rattle.bword.specs.declared.edition.Edition.TheVariants as editions;
ghost use Rattle.blang.specs.Compiles.{CompileHeadline, Compiles};
ghost use Rattle.bparse.specs.CodeLists.{CompilesList, ListGives, ListTexts};
ghost use Rattle.bparse.specs.Compilers as compilers;
ghost use Rattle.bparse.specs.Compiles.{CodeGives, LastGives, run_of};
ghost use Rattle.bparse.specs.LocalRows.{AllNamed, HasTable, named, named_of_two};
ghost use Rattle.bparse.specs.Watches.{KeptAll, Watched};
ghost use Rattle.blang.specs.declared.status.TheConstants.{DONE};
ghost use Rattle.bparse.specs.CompileExcluded.{Excluded};

use crate::code_list::CodeList;
use crate::code_out::CodeOut;
use crate::compiler::Compiler;
use crate::diagnostic::write_diagnostic;
use crate::step::Step;
use crate::watcher::{Unwatched, Watcher};
use blang::Definition;
use blang::status::{self, Status};
use bword::{ByteIn, ByteOut, Edition};
use std::alloc::Global;

/// Compiles a source of the first edition, as `compile_edition` does.
pub fn compile<I: ByteIn, O: ByteOut, D: ByteOut>(
    alloc: Global,
    source: &mut I,
    code: &mut O,
    diag: &mut D,
) -> Status
    ensures compiles { Compiles (run_of editions.One (I.incoming source.old) (I.incoming source.new)
        (O.outgoing code.old) (O.outgoing code.new) (D.outgoing diag.old) (D.outgoing diag.new) result) }
    ensures headline { CompileHeadline (run_of editions.One (I.incoming source.old) (I.incoming source.new)
        (O.outgoing code.old) (O.outgoing code.new) (D.outgoing diag.old) (D.outgoing diag.new) result) }
    ensures source_lender { I.lender source.new ≡ I.lender source.old }
    ensures code_lender { O.lender code.new ≡ O.lender code.old }
    ensures diag_lender { D.lender diag.new ≡ D.lender diag.old }
{
    compile_edition(alloc, source, code, diag, Edition::One)
}

/// Compiles the source to its code text, or to the code of the definitions before its first fault and a
/// line that names that fault.
///
/// The status is 0, or 1 if there is a fault. It is 133 if a read or a write failed and 134 if memory ran
/// out. Then a beginning of the code was written, and of the line only if its own stream
/// refused it.
pub fn compile_edition<I: ByteIn, O: ByteOut, D: ByteOut>(
    alloc: Global,
    source: &mut I,
    code: &mut O,
    diag: &mut D,
    edition: Edition,
) -> Status
    ensures compiles { Compiles (run_of edition (I.incoming source.old) (I.incoming source.new)
        (O.outgoing code.old) (O.outgoing code.new) (D.outgoing diag.old) (D.outgoing diag.new) result) }
    ensures headline { CompileHeadline (run_of edition (I.incoming source.old) (I.incoming source.new)
        (O.outgoing code.old) (O.outgoing code.new) (D.outgoing diag.old) (D.outgoing diag.new) result) }
    ensures source_lender { I.lender source.new ≡ I.lender source.old }
    ensures code_lender { O.lender code.new ≡ O.lender code.old }
    ensures diag_lender { D.lender diag.new ≡ D.lender diag.old }
{
    compile_watched(alloc, source, code, diag, &mut Unwatched, edition)
}

/// Compiles a source as `compile_edition` does, and lets the watcher look at the compiler after each definition.
pub fn compile_watched<I: ByteIn, O: ByteOut, D: ByteOut, W: Watcher>(
    alloc: Global,
    source: &mut I,
    code: &mut O,
    diag: &mut D,
    watcher: &mut W,
    edition: Edition,
) -> Status
    ensures compiles { Compiles (run_of edition (I.incoming source.old) (I.incoming source.new)
        (O.outgoing code.old) (O.outgoing code.new) (D.outgoing diag.old) (D.outgoing diag.new) result) }
    ensures headline { CompileHeadline (run_of edition (I.incoming source.old) (I.incoming source.new)
        (O.outgoing code.old) (O.outgoing code.new) (D.outgoing diag.old) (D.outgoing diag.new) result) }
    ensures source_lender { I.lender source.new ≡ I.lender source.old }
    ensures code_lender { O.lender code.new ≡ O.lender code.old }
    ensures diag_lender { D.lender diag.new ≡ D.lender diag.old }
    ensures watched { result ≡ DONE → KeptAll edition (I.incoming source.old) (I.incoming source.new)
        (W.kept watcher.old) (W.kept watcher.new) }
{
    let (status, end) = compile_and_tell(alloc, source, code, diag, watcher, edition);
    let _ = end;
    status
}

/// Compiles a source as `compile_edition` does, and gives the definitions of its code in place of their text. Where the
/// status isn't 0, they are some of those before its first fault.
pub fn compile_list<I: ByteIn, D: ByteOut>(
    alloc: Global,
    source: &mut I,
    diag: &mut D,
    edition: Edition,
) -> (Status, Vec<Definition>)
    ensures compiles { CompilesList edition (I.incoming source.old) (I.incoming source.new) result.1.items
        (D.outgoing diag.old) (D.outgoing diag.new) result.0 }
    ensures source_lender { I.lender source.new ≡ I.lender source.old }
    ensures diag_lender { D.lender diag.new ≡ D.lender diag.old }
{
    let code = CodeList::new(alloc);
    let (status, code) = compile_and_tell(alloc, source, code, diag, &mut Unwatched, edition);
    (status, code.into_definitions())
}

// Compiles to what takes the code part by part, and gives that back.
fn compile_and_tell<I: ByteIn, C: CodeOut, D: ByteOut, W: Watcher>(
    alloc: Global,
    source: &mut I,
    code: C,
    diag: &mut D,
    watcher: &mut W,
    edition: Edition,
) -> (Status, C)
    requires { C.can_begin code }
    ensures compiles { Compiles (run_of edition (I.incoming source.old) (I.incoming source.new)
        (C.outgoing code) (C.outgoing result.1) (D.outgoing diag.old) (D.outgoing diag.new) result.0) }
    ensures source_lender { I.lender source.new ≡ I.lender source.old }
    ensures code_lender { C.lender result.1 ≡ C.lender code }
    ensures diag_lender { D.lender diag.new ≡ D.lender diag.old }
    ensures watched { result.0 ≡ DONE → KeptAll edition (I.incoming source.old) (I.incoming source.new)
        (W.kept watcher.old) (W.kept watcher.new) }
{
    let (last, code) = compile_into(alloc, source, code, watcher, edition);
    match last {
        Step::Finished => (status::DONE, code),
        Step::Fault(fault) => match write_diagnostic(&fault, diag) {
            Ok(()) => (status::FAULT, code),
            Err(fault) => (status::of_fault(fault), code),
        },
        Step::Device => (status::DEVICE, code),
        Step::Memory => (status::MEMORY, code),
        Step::Written | Step::Closed => unreachable!(),
    }
}

/// Compiles all definitions from one end to the other, and gives the last answer, and the definitions of the code in
/// place of its text. The watcher looks at the compiler after each one. Where the source has a fault or isn't read to
/// its end, they are some of those before.
pub fn compile_definitions<I: ByteIn, W: Watcher>(
    alloc: Global,
    source: &mut I,
    watcher: &mut W,
    edition: Edition,
) -> (Step, Vec<Definition>)
    ensures gives { ListGives edition (I.incoming source.old) result.0 (I.incoming source.new) result.1.items }
    ensures watched { Watched edition (I.incoming source.old) (W.kept watcher.old) result.0 (I.incoming source.new) (W.kept watcher.new) }
    ensures source_lender { I.lender source.new ≡ I.lender source.old }
{
    let code = CodeList::new(alloc);
    let (last, code) = compile_into(alloc, source, code, watcher, edition);
    (last, code.into_definitions())
}

// Compiles all definitions to what takes the code part by part, and gives the last answer.
// The compiler is large, and a caller that had it inlined would keep its room in each frame.
#[inline(never)]
fn compile_into<I: ByteIn, C: CodeOut, W: Watcher>(
    alloc: Global,
    source: &mut I,
    code: C,
    watcher: &mut W,
    edition: Edition,
) -> (Step, C)
    requires { C.can_begin code }
    ensures gives { CodeGives edition (I.incoming source.old) (C.outgoing code) result.0
        (I.incoming source.new) (C.outgoing result.1) }
    ensures watched { Watched edition (I.incoming source.old) (W.kept watcher.old) result.0 (I.incoming source.new) (W.kept watcher.new) }
    ensures source_lender { I.lender source.new ≡ I.lender source.old }
    ensures code_lender { C.lender result.1 ≡ C.lender code }
{
    let mut compiler = Compiler::with_edition(alloc, source, code, edition);
    let last = compile_all(&mut compiler, watcher);
    let (source, code) = compiler.into_ends();
    let _ = source;
    (last, code)
}

// Compiles definitions until there is none, or one can't be written.
fn compile_all<I: ByteIn, O: CodeOut, W: Watcher>(
    compiler: &mut Compiler<I, O>,
    watcher: &mut W,
) -> Step
    requires { compiler.old ≡ compilers.new compiler.old.first }
    ensures gives { LastGives compiler.old result compiler.new }
    ensures watched { Watched compiler.old.first.edition compiler.old.first.source (W.kept watcher.old) result
        compiler.new.tokens.source.end (W.kept watcher.new) }
{
    'definitions: loop {
        let step = compiler.next_definition();
        watcher.watch(compiler, &step);
        match step {
            Step::Written => {}
            last => return last,
        }
    }
}

/// What no compiling gives: other code than the source's, a line where there is no fault, none where there is one,
/// a failure that isn't told or was none, or a fault after tokens that it doesn't want.
pub fn wrong_compilings_are_excluded()
    ensures excluded { Excluded }
    ensures lists { ListTexts }
{}

/// The names of the functions of whole sources, and the words of their frames.
pub fn rows_of_names()
    ensures one { AllNamed editions.One named }
    ensures two { AllNamed editions.Two named_of_two }
    ensures table { HasTable }
{}
