//! What a program does beside compiling and running.
ghost use Rattle.std.specs.Prelude.{◌≡◌, ℕ};
ghost use Rattle.blang.specs.Reports.{RunEnds, run_ends};
ghost use Rattle.bcommand.specs.CommandLine.{Asked};
ghost use Rattle.bcore.specs.Shelves.{Holdings};
ghost use Rattle.bcore.specs.Tools.{LacksTool, tool_asked};

use crate::serving::tell;
use crate::shelf::Shelf;
use bcommand::{Question, Search, SourceNames};
use blang::status::Status;
use bword::{ByteIn, ByteOut};
use std::alloc::Global;

/// The status of a program without the tool that is asked for.
pub const LACKS_TOOL: Status = 136;

const LACKING: &str =
    "b: the core alone compiles and runs; this command or option is a tool of the whole program\n";

/// What can be asked of tools.
#[derive(Clone, Copy)]
pub enum ToolJob<'a> {
    /// A run of the code text in a file, of so many steps at most, and where it went wrong.
    LocateCode(&'a str, u64),
    /// What may go wrong in any run of the code text in a file.
    Verify(&'a str),
    Ask(SourceNames<'a>, Question<'a>),
    /// What is wrong in a source, and where the rules in a file fit; and whether an editor reads it.
    CheckBy(SourceNames<'a>, &'a str, bool),
    /// Where a pattern fits.
    Find(Search<'a>),
}

/// The tools of a program.
pub trait Tools {
    // What they do for what is asked for, of these files.
    ghost answers: { Holdings → Asked → RunEnds → ℕ → Type 0 };

    /// Does what is asked of a tool.
    fn answer<S: Shelf, I: ByteIn, O: ByteOut, D: ByteOut>(
        &self,
        alloc: Global,
        shelf: &S,
        job: ToolJob<'_>,
        input: &mut I,
        out: &mut O,
        diag: &mut D,
    ) -> Status
        ensures answers { answers (S.holdings shelf.now) (tool_asked job.entry) (run_ends
            (I.incoming input.old) (I.incoming input.new) (O.outgoing out.old) (O.outgoing out.new)
            (D.outgoing diag.old) (D.outgoing diag.new)) result }
        ensures input_lender { I.lender input.new ≡ I.lender input.old }
        ensures out_lender { O.lender out.new ≡ O.lender out.old }
        ensures diag_lender { D.lender diag.new ≡ D.lender diag.old };
}

/// No tools: a program of the core alone.
#[derive(Clone, Copy)]
pub struct NoTools;

impl Tools for NoTools {
    ghost answers = { LacksTool };

    /// Says that there is no such tool, and reads and writes nothing else.
    fn answer<S: Shelf, I: ByteIn, O: ByteOut, D: ByteOut>(
        &self,
        _alloc: Global,
        _shelf: &S,
        _job: ToolJob<'_>,
        _input: &mut I,
        _out: &mut O,
        diag: &mut D,
    ) -> Status {
        tell(LACKING.as_bytes(), LACKS_TOOL, diag)
    }
}
