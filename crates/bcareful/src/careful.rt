//! Running a program carefully.
ghost use Rattle.std.specs.Prelude.{◌≡◌};
ghost use Rattle.blang.specs.Reports.{run_ends};
ghost use Rattle.bsources.specs.Files.{files_shown};
ghost use Rattle.btools.specs.Functions.{entries_of, functions_of};
ghost use Rattle.btools.specs.Origins.{IsProgramOf, NamesOf, PlacesOf, origin_shown, places_kept};
ghost use Rattle.btrace.specs.RowTexts.{legend_in, legend_of};
ghost use Rattle.bcareful.specs.CareExcluded.{NoCarefulRuns};
ghost use Rattle.bcareful.specs.Runs.{Runs, careful_asked, finds_wraps};
ghost use Rattle.bcareful.specs.Things.{atlas_in, atlas_of};
ghost use Rattle.bcareful.specs.Warned.{told_after};

use crate::atlas::{Atlas, extents_of};
use crate::care::CarefulRequest;
use crate::recorded::{careful_recorded, warned_recorded};
use crate::telling::{tell_found, tell_over};
use crate::warnings::Teller;
use crate::watching::Ended;
use bendless::endless_of;
use blang::status::{self, Status};
use bmach::{Stepper, Stop};
use bpages::PagedStore;
use brun::finish;
use btools::{Tables, read_program, tell, tell_placed};
use btrace::Legend;
use bword::{ByteIn, ByteOut};
use std::alloc::Global;

/// Runs a program carefully.
///
/// A program without a finding has the output, the line and the status of `go_edition`, and the place of a trap or of
/// the limit comes after its line, as `locate` tells it; the same where the run goes on after its findings. A finding
/// at which the run stays is told in the place of this line, with the status of a trap: first its kind, then the
/// function, the place in it, the number of the line of the source and that of the step, this line of the source, and
/// what is wrong. What was written before stays.
pub fn go_careful<I: ByteIn, O: ByteOut, D: ByteOut>(
    alloc: Global,
    source: &[u8],
    wanted: CarefulRequest<'_>,
    input: &mut I,
    out: &mut O,
    diag: &mut D,
) -> Status
    ensures runs { Runs (careful_asked wanted.entry) source.now (run_ends
        (I.incoming input.old) (I.incoming input.new) (O.outgoing out.old) (O.outgoing out.new)
        (D.outgoing diag.old) (D.outgoing diag.new)) result }
    ensures input_lender { I.lender input.new ≡ I.lender input.old }
    ensures out_lender { O.lender out.new ≡ O.lender out.old }
    ensures diag_lender { D.lender diag.new ≡ D.lender diag.old }
{
    let program = match read_program(alloc, source, wanted.origin) {
        Ok(program) => program,
        Err(fault) => return tell_placed(alloc, &fault, wanted.files, diag),
    };
    let Ok(tables) = Tables::new(alloc, &program) else {
        return status::MEMORY;
    };
    let Ok(extents) = extents_of(alloc, &program.definitions) else {
        return status::MEMORY;
    };
    let teller = Teller {
        alloc,
        atlas: Atlas {
            program: &program,
            tables: &tables,
            extents: extents.as_slice(),
            wraps: wanted.care.finds_wraps(),
        },
        legend: Legend {
            tables: &tables,
            files: wanted.files,
        },
        source,
    };
    run_asked(&teller, wanted, input, out, diag)
}

// Runs a program as is asked.
fn run_asked<I: ByteIn, O: ByteOut, D: ByteOut>(
    teller: &Teller<'_>,
    wanted: CarefulRequest<'_>,
    input: &mut I,
    out: &mut O,
    diag: &mut D,
) -> Status
    requires program { IsProgramOf (origin_shown wanted.origin) teller.now.source.now teller.now.atlas.program.now }
    requires functions { entries_of teller.now.atlas.tables.now
        ≡ functions_of teller.now.atlas.program.now.definitions.items }
    requires atlas { atlas_of teller.now.atlas ≡ atlas_in teller.now.atlas.program.now.definitions.items
        teller.now.atlas.program.now.names.frames.items (finds_wraps wanted.care) }
    requires legend { legend_of teller.now.legend ≡ legend_in teller.now.atlas.program.now.definitions.items
        (places_kept teller.now.atlas.program.now) (files_shown wanted.files) }
    ensures runs { NamesOf (origin_shown wanted.entry.origin) teller.now.source.now
        teller.now.atlas.program.now.names.frames.items
        → PlacesOf (origin_shown wanted.entry.origin) teller.now.source.now
        (places_kept teller.now.atlas.program.now)
        → Runs (careful_asked wanted.entry) teller.now.source.now (run_ends
        (I.incoming input.old) (I.incoming input.new) (O.outgoing out.old) (O.outgoing out.new)
        (D.outgoing diag.old) (D.outgoing diag.new)) result }
    ensures input_lender { I.lender input.new ≡ I.lender input.old }
    ensures out_lender { O.lender out.new ≡ O.lender out.old }
    ensures diag_lender { D.lender diag.new ≡ D.lender diag.old }
{
    let alloc = teller.alloc;
    let atlas = &teller.atlas;
    let legend = &teller.legend;
    let source = teller.source;
    let Ok(store) = PagedStore::new(alloc) else {
        return status::MEMORY;
    };
    let mut stepper = match Stepper::begin(alloc, &atlas.program.image, store) {
        Ok(stepper) => stepper,
        Err(outcome) => return finish(outcome, diag),
    };
    if !wanted.care.stays() {
        let ran = warned_recorded(teller, &mut stepper, wanted.steps, input, out);
        let stop = ran.warned.stop;
        let again = endless_of(
            alloc,
            atlas.program,
            atlas.tables,
            &ran.record,
            stop.outcome,
        );
        let told = tell_over(alloc, legend, source, stop, &again, diag);
        return tell(told_after(told, ran.warned.text.as_slice()), told, diag);
    }
    let ran = careful_recorded(alloc, atlas, &mut stepper, wanted.steps, input, out);
    match ran.ended {
        Ended::Over(stop) => {
            let again = endless_of(
                alloc,
                atlas.program,
                atlas.tables,
                &ran.record,
                stop.outcome,
            );
            tell_over(alloc, legend, source, stop, &again, diag)
        }
        Ended::Found(found) => tell_found(alloc, atlas, legend, source, &stepper, found, diag),
    }
}

// What is told after what had this status: this text, unless a read or a write failed, or memory ran out.
fn told_after(answer: Status, text: &[u8]) -> &[u8]
    ensures { result.now ≡ told_after answer text.now }
{
    if answer == status::DEVICE || answer == status::MEMORY {
        &[]
    } else {
        text
    }
}

/// No careful run of a program has its line without its place, none of a program passes a finding over, and none takes
/// a byte that no step asked for.
pub fn wrong_careful_runs_are_excluded()
    ensures { NoCarefulRuns }
{}
