//! Who looks on at a run and keeps its page.
ghost use Rattle.std.specs.Prelude.{◌≡◌, ◌+◌, ◌%◌, ◌<◌, ◌^◌, ◌++◌, ◌∷◌, [], IfOk, OnOk, drop, option_map};
ghost use Rattle.std.specs.Prelude.{reverse, if◌then◌else◌};
ghost use Rattle.bwatch.specs.Sights.{sight_at};
ghost use Rattle.bshow.specs.Facts.{sentence};
ghost use Rattle.bshow.specs.Rows.{table_code};
ghost use Rattle.bshow.specs.Shows.{head, last_facts, said_text, tail};
ghost use Rattle.bshow.specs.Steps.{Awaits, EndsRows, FollowsCalls, HasSeen, HasTold, KeepsIf, idle_cells, may_show};
ghost use Rattle.bshow.specs.Steps.{next_row, whole_rows};

use crate::ending::push_sentence;
use crate::facts::push_run;
use crate::page::{BETWEEN, HEAD, SCRIPT};
use crate::parts::push_end;
use crate::rows::{calls_getchar, operand};
use crate::seen::{KeptRows, SeenStep, push_steps};
use bendless::Repeat;
use blang::Outcome;
use bmach::{Active, Stepper, Stop};
use btools::{Tables, Text};
use bwatch::{Onlooker, TraceRows};
use bword::Store;
use std::alloc::{AllocError, Global};
use std::collections::VecDeque;

/// What is kept of a run for its page.
#[derive(Drop)]
pub struct Recorder<'a, 'b> {
    alloc: Global,
    tables: &'a Tables<'b>,
    which: TraceRows,
    /// What the page tells of the program.
    program: Text,
    pub rows: KeptRows,
    /// The calls below the running one, the nearest last, before the step after so many.
    calls: Vec<Active>,
    calls_at: u64,
    /// What `getchar` gave, and what was written.
    heard: Text,
    output: Text,
    // Whether the step that is being made has a row, and whether it calls `getchar`.
    shows: bool,
    hears: bool,
}

impl<'a, 'b> Recorder<'a, 'b> {
    /// No step was made yet.
    #[tactic(auto, unfolding(crate::specs::Shows::head))]
    pub fn new(
        alloc: Global,
        tables: &'a Tables<'b>,
        which: TraceRows,
        program: Text,
    ) -> Result<Self, AllocError>
        ensures tables { IfOk result (λ r. r.tables.now ≡ tables.now) }
        ensures which { IfOk result (λ r. r.which ≡ which) }
        ensures program { IfOk result (λ r. r.program ≡ program) }
        ensures rows { IfOk result (λ r. (r.rows.page ≡ head) × (r.rows.last.items ≡ [])) }
        ensures calls { IfOk result (λ r. (r.calls.items ≡ []) × (r.calls_at ≡ 0)) }
        ensures heard { IfOk result (λ r. r.heard ≡ []) }
        ensures output { IfOk result (λ r. r.output ≡ []) }
    {
        let mut page = Text::new(alloc);
        page.push(HEAD)?;
        Ok(Recorder {
            alloc,
            tables,
            which,
            program,
            rows: KeptRows {
                page,
                last: VecDeque::new(alloc),
                step: SeenStep::new(alloc),
            },
            calls: Vec::new(alloc),
            calls_at: 0,
            heard: Text::new(alloc),
            output: Text::new(alloc),
            shows: false,
            hears: false,
        })
    }
}

impl Recorder<'_, '_> {
    /// Ends the facts of a run, with its finding and a state that comes again, and the page.
    pub fn push_end(
        &mut self,
        tables: &Tables<'_>,
        finding: Option<&[u8]>,
        again: Option<Repeat>,
    ) -> Result<(), AllocError>
        ensures { OnOk result (self.new.rows.page ≡ self.old.rows.page
            ++ last_facts (table_code tables.now) (option_map (λ t. t.now) finding.entry) again ++ tail) }
    {
        push_end(&mut self.rows.page, tables, finding, again)
    }
}

impl<'a, 'b> Onlooker for Recorder<'a, 'b> {
    ghost has_seen = { HasSeen };

    ghost awaits = { Awaits };

    ghost has_told = { HasTold };

    fn before<S: Store + Drop>(
        &mut self,
        stepper: &Stepper<'_, S>,
        made: u64,
    ) -> Result<(), AllocError> {
        self.shows = may_show(self.which, made);
        self.hears = calls_getchar(self.tables, stepper);
        if self.shows {
            self.rows.step.see(stepper, made)
        } else {
            Ok(())
        }
    }

    fn after<S: Store + Drop>(
        &mut self,
        stepper: &Stepper<'_, S>,
        made: u64,
        written: &[u8],
    ) -> Result<(), AllocError> {
        follow_calls(&mut self.calls, stepper)?;
        self.calls_at = made + 1;
        self.output.push(written)?;
        let heard = self.heard.as_slice().len();
        push_heard(&mut self.heard, self.hears, operand(stepper, 0))?;
        if !self.shows {
            return Ok(());
        }
        let read = since(self.heard.as_slice(), heard);
        self.rows.step.did(stepper, read, written)?;
        self.rows.keep(self.alloc, self.tables, self.which)
    }

    fn end<S: Store + Drop>(
        &mut self,
        stepper: &Stepper<'_, S>,
        stop: Stop,
    ) -> Result<(), AllocError> {
        end_rows(
            self.alloc,
            &mut self.rows,
            self.tables,
            self.which,
            self.shows,
            stepper,
            stop,
        )?;
        let page = &mut self.rows.page;
        push_said(page, stop, self.program.as_slice())?;
        push_run(
            page,
            stepper,
            &self.calls,
            self.calls_at,
            self.heard.as_slice(),
            self.output.as_slice(),
        )
    }
}

// Whether the step after so many may have a row.
fn may_show(which: TraceRows, made: u64) -> bool
    requires { made + 1 < 2 ^ 64 }
    ensures { result ≡ may_show which made }
{
    which.first() <= made + 1
}

// Makes one call more or one less of those that were below before a step, where the step began a call or returned.
fn follow_calls<S: Store + Drop>(
    calls: &mut Vec<Active>,
    stepper: &Stepper<'_, S>,
) -> Result<(), AllocError>
    ensures { OnOk result (FollowsCalls stepper.now.below (reverse calls.old.items) (reverse calls.new.items)) }
{
    let depth = stepper.callers();
    if depth == calls.len() {
        return Ok(());
    }
    if depth < calls.len() {
        calls.pop();
        return Ok(());
    }
    if let Some(caller) = stepper.caller(0) {
        calls.push(caller)?;
    }
    Ok(())
}

fn push_heard(heard: &mut Text, hears: bool, word: u16) -> Result<(), AllocError>
    ensures { OnOk result (heard.new ≡ heard.old ++ (if hears then word % 256 ∷ [] else [])) }
{
    if hears {
        heard.push(&[(word % 256) as u8])
    } else {
        Ok(())
    }
}

// What comes after so many bytes.
fn since(bytes: &[u8], before: usize) -> &[u8]
    ensures { result.now ≡ drop before bytes.now }
{
    &bytes[before.min(bytes.len())..]
}

// Spells the last rows, with that of the step by which the run is over, or with the call before the next one.
fn end_rows<S: Store + Drop>(
    alloc: Global,
    rows: &mut KeptRows,
    tables: &Tables<'_>,
    which: TraceRows,
    shows: bool,
    stepper: &Stepper<'_, S>,
    stop: Stop,
) -> Result<(), AllocError>
    ensures { OnOk result (EndsRows (table_code tables.now) which shows stepper.now stop.outcome stop.steps rows.old
        rows.new) }
{
    match stop.outcome {
        Outcome::Limit => push_next(rows, tables, stepper, stop.steps),
        _ => {
            keep_idle(alloc, rows, tables, which, shows)?;
            push_steps(&mut rows.page, &rows.last, tables)
        }
    }
}

fn push_next<S: Store + Drop>(
    rows: &mut KeptRows,
    tables: &Tables<'_>,
    stepper: &Stepper<'_, S>,
    made: u64,
) -> Result<(), AllocError>
    ensures { OnOk result (rows.new.page ≡ whole_rows (table_code tables.now) rows.old
        ++ next_row (table_code tables.now) (made + 1) (sight_at stepper.now [])) }
{
    push_steps(&mut rows.page, &rows.last, tables)?;
    rows.step.see(stepper, made)?;
    rows.step.push_call(&mut rows.page, tables)?;
    rows.page.push(b"</tr>\n")
}

// Keeps the step by which a run is over. It has stored, read and written nothing.
fn keep_idle(
    alloc: Global,
    rows: &mut KeptRows,
    tables: &Tables<'_>,
    which: TraceRows,
    shows: bool,
) -> Result<(), AllocError>
    ensures { OnOk result (KeepsIf (table_code tables.now) shows which
        (idle_cells (table_code tables.now) rows.old.step) rows.old rows.new) }
{
    if !shows {
        return Ok(());
    }
    rows.step.did_nothing();
    rows.keep(alloc, tables, which)
}

// What stands between the rows of a run and its facts.
fn push_said(page: &mut Text, stop: Stop, program: &[u8]) -> Result<(), AllocError>
    ensures { OnOk result (page.new ≡ page.old ++ said_text (sentence stop.outcome stop.steps) program.now) }
{
    page.push(BETWEEN)?;
    push_sentence(page, stop.outcome, stop.steps)?;
    page.push(SCRIPT)?;
    page.push(program)
}
