//! Compiling a source and running its program.
ghost use Rattle.std.specs.Prelude.{◌≡◌};
ghost use Rattle.bword.specs.declared.edition.Edition.TheVariants as editions;
ghost use Rattle.blang.specs.Headline.{GoesOff, Headline};
ghost use Rattle.blang.specs.Reports.{run_ends};
ghost use Rattle.brun.specs.OneRun.{OneCompilationIsKnown, OneRunIsKnown};

use crate::text::run_definitions;
use blang::status::{self, Status};
use bparse::compile_list;
use bword::{ByteIn, ByteOut, Edition};
use std::alloc::Global;

/// Compiles a source of the first edition and runs its program, as `go_edition` does.
pub fn go<S: ByteIn, I: ByteIn, O: ByteOut, D: ByteOut>(
    alloc: Global,
    source: &mut S,
    input: &mut I,
    out: &mut O,
    diag: &mut D,
    steps: u64,
) -> Status
    ensures goes { GoesOff editions.One steps (S.incoming source.old) (S.incoming source.new) (run_ends
        (I.incoming input.old) (I.incoming input.new) (O.outgoing out.old) (O.outgoing out.new)
        (D.outgoing diag.old) (D.outgoing diag.new)) result }
    ensures headline { Headline editions.One steps (S.incoming source.old) (S.incoming source.new) (run_ends
        (I.incoming input.old) (I.incoming input.new) (O.outgoing out.old) (O.outgoing out.new)
        (D.outgoing diag.old) (D.outgoing diag.new)) result }
    ensures source_lender { S.lender source.new ≡ S.lender source.old }
    ensures input_lender { I.lender input.new ≡ I.lender input.old }
    ensures out_lender { O.lender out.new ≡ O.lender out.old }
    ensures diag_lender { D.lender diag.new ≡ D.lender diag.old }
{
    go_edition(alloc, source, input, out, diag, steps, Edition::One)
}

/// Compiles a source, keeps its code in memory, and runs its program for at most so many steps.
///
/// Only the program writes to the output, and it does what the source means. The status is that of the program, or 131
/// if it didn't end within the limit. The others are those of `compile_edition` and `run_text`.
pub fn go_edition<S: ByteIn, I: ByteIn, O: ByteOut, D: ByteOut>(
    alloc: Global,
    source: &mut S,
    input: &mut I,
    out: &mut O,
    diag: &mut D,
    steps: u64,
    edition: Edition,
) -> Status
    ensures goes { GoesOff edition steps (S.incoming source.old) (S.incoming source.new) (run_ends
        (I.incoming input.old) (I.incoming input.new) (O.outgoing out.old) (O.outgoing out.new)
        (D.outgoing diag.old) (D.outgoing diag.new)) result }
    ensures headline { Headline edition steps (S.incoming source.old) (S.incoming source.new) (run_ends
        (I.incoming input.old) (I.incoming input.new) (O.outgoing out.old) (O.outgoing out.new)
        (D.outgoing diag.old) (D.outgoing diag.new)) result }
    ensures source_lender { S.lender source.new ≡ S.lender source.old }
    ensures input_lender { I.lender input.new ≡ I.lender input.old }
    ensures out_lender { O.lender out.new ≡ O.lender out.old }
    ensures diag_lender { D.lender diag.new ≡ D.lender diag.old }
{
    let (status, definitions) = compile_list(alloc, source, diag, edition);
    if status != status::DONE {
        return status;
    }
    run_definitions(alloc, definitions, input, out, diag, steps)
}

/// The headlines say something: by them alone one run and one compilation over streams in memory are known.
pub fn one_run_is_known()
    ensures run { OneRunIsKnown }
    ensures compilation { OneCompilationIsKnown }
{}
