//! Trying a source: its check, its careful run, and what to do next.
ghost use Rattle.std.specs.Prelude.{◌≡◌, ◌==◌};
ghost use Rattle.blang.specs.Reports.{run_ends};
ghost use Rattle.blang.specs.declared.status.TheConstants.{DONE};
ghost use Rattle.bsources.specs.Files.{files_shown};
ghost use Rattle.bcli.specs.Tries.{RunsWhere, Tries, next_after, next_text};

use bcareful::{Care, CarefulRequest, go_careful};
use bcheck::{FindingForm, Request, check};
use blang::status::{self, Status};
use bsources::SourceFiles;
use btools::{Origin, tell};
use bword::{ByteIn, ByteOut, Edition};
use std::alloc::Global;

/// A source that is tried, and the most steps of its run.
#[derive(Clone, Copy)]
pub(crate) struct Attempt<'a> {
    pub edition: Edition,
    pub files: SourceFiles<'a>,
    pub text: &'a [u8],
    pub steps: u64,
}

impl<'a> Attempt<'a> {
    pub(crate) fn new(edition: Edition, files: SourceFiles<'a>, text: &'a [u8], steps: u64) -> Self
        ensures { result ≡ record { edition = edition; files = files.entry; text = text.entry; steps = steps } }
    {
        Attempt {
            edition,
            files,
            text,
            steps,
        }
    }
}

/// Checks a source, runs its program carefully where that finds no fault, and tells what to do next.
pub(crate) fn try_source<I: ByteIn, O: ByteOut, D: ByteOut>(
    alloc: Global,
    attempt: Attempt<'_>,
    input: &mut I,
    out: &mut O,
    diag: &mut D,
) -> Status
    ensures tries { Tries attempt.entry.edition (files_shown attempt.entry.files) attempt.entry.text.now
        attempt.entry.steps (run_ends
        (I.incoming input.old) (I.incoming input.new) (O.outgoing out.old) (O.outgoing out.new)
        (D.outgoing diag.old) (D.outgoing diag.new)) result }
    ensures input_lender { I.lender input.new ≡ I.lender input.old }
    ensures out_lender { O.lender out.new ≡ O.lender out.old }
    ensures diag_lender { D.lender diag.new ≡ D.lender diag.old }
{
    let request = Request {
        edition: attempt.edition,
        files: attempt.files,
        form: FindingForm::Text,
    };
    let checked = check(alloc, attempt.text, request, out);
    let ran = run_checked(alloc, attempt, checked, input, out, diag);
    let next = next_text(attempt.steps, checked, ran);
    tell(next.as_bytes(), ran, diag)
}

// Runs a source carefully, where its check had the status of one without a fault.
fn run_checked<I: ByteIn, O: ByteOut, D: ByteOut>(
    alloc: Global,
    attempt: Attempt<'_>,
    checked: Status,
    input: &mut I,
    out: &mut O,
    diag: &mut D,
) -> Status
    ensures runs { RunsWhere (checked == DONE) checked attempt.entry.edition (files_shown attempt.entry.files)
        attempt.entry.text.now attempt.entry.steps (run_ends
        (I.incoming input.old) (I.incoming input.new) (O.outgoing out.old) (O.outgoing out.new)
        (D.outgoing diag.old) (D.outgoing diag.new)) result }
    ensures input_lender { I.lender input.new ≡ I.lender input.old }
    ensures out_lender { O.lender out.new ≡ O.lender out.old }
    ensures diag_lender { D.lender diag.new ≡ D.lender diag.old }
{
    if checked != status::DONE {
        return checked;
    }
    let wanted = CarefulRequest {
        origin: Origin::Source(attempt.edition),
        files: attempt.files,
        care: Care::Stays,
        steps: attempt.steps,
    };
    go_careful(alloc, attempt.text, wanted, input, out, diag)
}

// What to do next, by the status of the check and that of the run.
fn next_text(steps: u64, checked: Status, ran: Status) -> &'static str
    ensures { result.now ≡ next_text steps checked ran }
{
    if checked == status::FAULT || checked == status::REFUSED {
        "next: do what stands after fix, and try it again\n"
    } else {
        next_after(steps, ran)
    }
}

// What to do after a run, by its most steps and its status. A page has a limit of steps.
fn next_after(steps: u64, ran: Status) -> &'static str
    ensures { result.now ≡ next_after steps ran }
{
    match ran {
        status::DONE if steps == u64::MAX => {
            "next: no finding; b show in place of b try --no-limit, with > run.html, shows each step\n"
        }
        status::DONE => {
            "next: no finding; b show in place of b try, with > run.html, shows each step\n"
        }
        status::TRAP if steps == u64::MAX =>
            "next: b show --careful in place of b try --no-limit, with > run.html, shows what led there\n",
        status::TRAP =>
            "next: b show --careful in place of b try, with > run.html, shows what led there\n",
        status::LIMIT => "next: b count in place of b try shows which lines take so many steps\n",
        status::REFUSED => "next: write a function main, with which a run begins\n",
        status::DEVICE | status::MEMORY => "",
        _ => "next: no finding; the status is the one that the program gave to exit\n",
    }
}
