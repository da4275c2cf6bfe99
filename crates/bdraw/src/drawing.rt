//! Drawing the memory of a program.
ghost use Rattle.std.specs.Prelude.{◌≡◌, IfOk};
ghost use Rattle.blang.specs.Reports.{run_ends};
ghost use Rattle.bmach.specs.Resolved.{IsLoadedFrom};
ghost use Rattle.bdraw.specs.DrawExcluded.{NoPictures, NoTags};
ghost use Rattle.bdraw.specs.Draws.{Draws, DrawsRun, IsDrawn, ShowsMemory, moment_of, title_of};
ghost use Rattle.bdraw.specs.Pictures.{rows_of, stacked_text};
ghost use Rattle.bdraw.specs.Stacks.{IsOf, drawn_in};
ghost use Rattle.btools.specs.Origins.{origin_shown};

use crate::picture::{picture_of, title_of};
use crate::scene::{Memory, Moment, Scene, calls_of, no_calls};
use crate::shapes::picture_text;
use blang::Outcome;
use blang::status::{self, Status};
use bmach::{Stepper, Stop};
use btools::{Origin, Program, Tables, Text, read_program, tell, tell_fault};
use bwatch::{Onlooker, Watched, watch};
use bword::{ByteIn, ByteOut, Store};
use std::alloc::{AllocError, Global};

/// Draws the memory of a program as an SVG picture: before its run, or after so many steps of it.
///
/// The output of these steps is dropped. The status is 0, or that of `go` if there is no program. It is
/// 133 if the program can't read its input.
pub fn draw<I: ByteIn, O: ByteOut, D: ByteOut>(
    alloc: Global,
    source: &[u8],
    origin: Origin<'_>,
    steps: Option<u64>,
    input: &mut I,
    out: &mut O,
    diag: &mut D,
) -> Status
    ensures draws { Draws (origin_shown origin.entry) source.now steps (run_ends
        (I.incoming input.old) (I.incoming input.new) (O.outgoing out.old) (O.outgoing out.new)
        (D.outgoing diag.old) (D.outgoing diag.new)) result }
    ensures input_lender { I.lender input.new ≡ I.lender input.old }
    ensures out_lender { O.lender out.new ≡ O.lender out.old }
    ensures diag_lender { D.lender diag.new ≡ D.lender diag.old }
{
    let program = match read_program(alloc, source, origin) {
        Ok(program) => program,
        Err(fault) => return tell_fault(&fault, diag),
    };
    let Ok(tables) = Tables::new(alloc, &program) else {
        return status::MEMORY;
    };
    match steps {
        None => show_before(alloc, &program, &tables, Moment::Before, out),
        Some(steps) => draw_run(alloc, &program, &tables, steps, input, out),
    }
}

// Draws the memory of a program after so many steps, or where its run is over before.
fn draw_run<I: ByteIn, O: ByteOut>(
    alloc: Global,
    program: &Program,
    tables: &Tables<'_>,
    steps: u64,
    input: &mut I,
    out: &mut O,
) -> Status
    requires { IsLoadedFrom program.now.definitions.items program.now.image }
    ensures draws { DrawsRun (drawn_in program.now tables.now) steps (I.incoming input.old) (I.incoming input.new)
        (O.outgoing out.old) (O.outgoing out.new) result }
    ensures input_lender { I.lender input.new ≡ I.lender input.old }
    ensures out_lender { O.lender out.new ≡ O.lender out.old }
{
    let mut drawer = Drawer {
        alloc,
        program,
        tables,
        picture: Text::new(alloc),
    };
    let stop = match watch(alloc, program, steps, input, &mut drawer) {
        Ok(Watched::Ended(stop)) => stop,
        Ok(Watched::Unbegun(_)) => {
            return show_before(alloc, program, tables, Moment::End(0), out);
        }
        Err(_) => return status::MEMORY,
    };
    match stop.outcome {
        Outcome::Device => return status::DEVICE,
        _ => {}
    }
    tell(drawer.picture.as_slice(), status::DONE, out)
}

// Draws memory as it is before the run.
fn show_before<O: ByteOut>(
    alloc: Global,
    program: &Program,
    tables: &Tables<'_>,
    moment: Moment,
    out: &mut O,
) -> Status
    ensures shows { ShowsMemory (drawn_in program.now tables.now) moment (O.outgoing out.old) (O.outgoing out.new) result }
    ensures out_lender { O.lender out.new ≡ O.lender out.old }
{
    let calls = no_calls(alloc);
    let scene = Scene {
        program,
        tables,
        memory: &program.image,
        moment,
        calls: &calls,
    };
    match text_of(alloc, &scene) {
        Ok(text) => tell(text.as_slice(), status::DONE, out),
        Err(_) => status::MEMORY,
    }
}

fn text_of<M: Memory>(alloc: Global, scene: &Scene<'_, M>) -> Result<Text, AllocError>
    ensures { IfOk result (λ text. text ≡ stacked_text (title_of scene.now.moment) (rows_of (drawn_in scene.now.program.now
        scene.now.tables.now) (M.seen_words scene.now.memory.now) scene.now.calls.now.drawn.items scene.now.calls.now.others)) }
{
    let title = title_of(alloc, scene.moment)?;
    let picture = picture_of(alloc, scene)?;
    picture_text(
        alloc,
        title.as_slice(),
        picture.height,
        picture.shapes.as_slice(),
    )
}

/// Draws memory where a run ends.
#[derive(Drop)]
struct Drawer<'a> {
    alloc: Global,
    program: &'a Program,
    tables: &'a Tables<'a>,
    picture: Text,
}

impl<'a> Onlooker for Drawer<'a> {
    ghost has_seen = { λ first now sights made. IsOf first now };

    ghost awaits = { λ first now sights made. IsOf first now };

    ghost has_told = { λ first now sights made result. IsDrawn (drawn_in first.program.now first.tables.now) now.picture sights made result };

    fn before<S: Store + Drop>(
        &mut self,
        _stepper: &Stepper<'_, S>,
        _made: u64,
    ) -> Result<(), AllocError> {
        Ok(())
    }

    fn after<S: Store + Drop>(
        &mut self,
        _stepper: &Stepper<'_, S>,
        _made: u64,
        _written: &[u8],
    ) -> Result<(), AllocError> {
        Ok(())
    }

    fn end<S: Store + Drop>(
        &mut self,
        stepper: &Stepper<'_, S>,
        stop: Stop,
    ) -> Result<(), AllocError> {
        let calls = calls_of(self.alloc, stepper, stop.call)?;
        let scene = Scene {
            program: self.program,
            tables: self.tables,
            memory: stepper,
            moment: moment_of(stop),
            calls: &calls,
        };
        self.picture = text_of(self.alloc, &scene)?;
        Ok(())
    }
}

// The moment where a run ends.
fn moment_of(stop: Stop) -> Moment
    ensures { result ≡ moment_of stop.outcome stop.steps }
{
    match stop.outcome {
        Outcome::Limit => Moment::After(stop.steps),
        _ => Moment::End(stop.steps),
    }
}

/// No picture shows the machine at another step, or has a tag in a text, or another status.
pub fn wrong_pictures_are_excluded()
    ensures tags { NoTags }
    ensures pictures { NoPictures }
{}
