//! A source that is compiled and loaded, or a code text that is loaded.
ghost use Rattle.std.specs.Prelude.{◌≡◌, [], IfOk, MatchResult, Some, drop, take};
ghost use Rattle.blang.specs.Lines.{size_of};
ghost use Rattle.btools.specs.FrameNames.{HasNames};
ghost use Rattle.btools.specs.KeptNames.{notes_in, notes_kept};
ghost use Rattle.btools.specs.Origins.{ColumnsOf, HasCode, HasNoCode, HasNoProgramOf, HasTextColumns, HasTextLines};
ghost use Rattle.btools.specs.Origins.{HasTextNames, IsProgramOf, LinesOf, NamesOf, code_text_shown, origin_shown};
ghost use Rattle.btools.specs.ProgramLines.{HasLines, KeepsNotesOf};
ghost use Rattle.btools.specs.Programs.{HasFault, HasNoProgram, IsCodeOf, IsThisProgram, LoadGives};

use crate::named_frames::frames_of_text;
use crate::names::{NameKeeper, Names};
use crate::origin::{CodeText, Origin};
use crate::place_lines::{SourcePlaces, source_places};
use bauthor::{LineWanted, Wanted, places_of};
use bcode::{CodeFault, read_code};
use blang::{Definition, Diagnostic, LoadFault};
use bmach::{Image, load_slice};
use bparse::{Step, Watcher, compile_definitions};
use bword::{Edition, MemIn};
use std::alloc::{AllocError, Global};

/// A program, as it was compiled and as it was loaded.
pub struct Program {
    pub definitions: Vec<Definition>,
    pub image: Image,
    pub names: Names,
    /// The column of the source of each place, beside its line in the names: from 1 on, in bytes, or 0 where none is
    /// told. There is none at all but for a code text with a file of lines.
    pub columns: Vec<u64>,
}

// Not derived: a derived drop is compiled and proved once more in each crate that drops a program.
impl Drop for Program {
    fn drop(self) {
        let Program {
            definitions: _,
            image: _,
            names: _,
            columns: _,
        } = self;
    }
}

/// Why a source or a code text has no program.
#[derive(Drop)]
pub enum ProgramFault {
    /// The source doesn't compile.
    Faulty(Diagnostic),
    /// No code text goes on with this line. Lines count from 1.
    Unread(u64),
    /// The first wrong line of the file of lines of the code text, from 1 on, and what it has to be.
    Unlined(u64, LineWanted),
    /// The first wrong line of the file of names of the code text, from 1 on, and what it has to be.
    Unnamed(u64, Wanted),
    /// The code doesn't load.
    Unloaded(LoadFault),
    /// Memory ran out.
    Memory,
}

/// The lines of a definition, one for each instruction or initial value, and those of the definitions after it.
pub fn split_lines<'a>(lines: &'a [u64], definition: &Definition) -> (&'a [u64], &'a [u64])
    ensures own { result.0.now ≡ take (size_of definition.now) lines.now }
    ensures later { result.1.now ≡ drop (size_of definition.now) lines.now }
{
    lines.split_at(lines.len().min(places_of(definition)))
}

/// Reads the program of a source, or of a code text.
///
/// What a code text was made from may be given as its source, which isn't looked at.
pub fn read_program(
    alloc: Global,
    source: &[u8],
    origin: Origin<'_>,
) -> Result<Program, ProgramFault>
    ensures program { MatchResult result (IsProgramOf (origin_shown origin.entry) source.now)
        (HasNoProgramOf (origin_shown origin.entry) source.now) }
    ensures lines { IfOk result (λ p. LinesOf (origin_shown origin.entry) source.now p.names.lines.items) }
    ensures names { IfOk result (λ p. NamesOf (origin_shown origin.entry) source.now p.names.frames.items) }
    ensures columns { IfOk result (λ p. ColumnsOf (origin_shown origin.entry) p.columns.items) }
{
    match origin {
        Origin::Source(edition) => read_source(alloc, source, edition),
        Origin::Code(text) => read_text(alloc, text),
    }
}

// Compiles and loads a source.
fn read_source(alloc: Global, source: &[u8], edition: Edition) -> Result<Program, ProgramFault>
    ensures program { MatchResult result (IsThisProgram edition source.now) (HasNoProgram edition source.now) }
    ensures lines { IfOk result (λ p. HasLines edition source.now p.names.lines.items) }
    ensures names { IfOk result (λ p. HasNames edition source.now p.names.frames.items) }
    ensures columns { IfOk result (λ p. p.columns.items ≡ []) }
{
    let mut keeper = NameKeeper::new(alloc);
    match compile_source(alloc, source, edition, &mut keeper) {
        Ok(Ok(definitions)) => load(alloc, definitions, keeper),
        Ok(Err(fault)) => Err(ProgramFault::Faulty(fault)),
        Err(_) => Err(ProgramFault::Memory),
    }
}

// Loads definitions, with the names that were kept of their source.
fn load(
    alloc: Global,
    definitions: Vec<Definition>,
    keeper: NameKeeper,
) -> Result<Program, ProgramFault>
    ensures gives { LoadGives definitions.items result }
    ensures notes { IfOk result (λ p. notes_kept keeper ≡ Some (notes_in p.names)) }
    ensures columns { IfOk result (λ p. p.columns.items ≡ []) }
{
    match keeper.into_names() {
        Some(names) => load_named(alloc, definitions, names, Vec::new(alloc)),
        None => Err(ProgramFault::Memory),
    }
}

// Loads definitions, with these names and columns.
fn load_named(
    alloc: Global,
    definitions: Vec<Definition>,
    names: Names,
    columns: Vec<u64>,
) -> Result<Program, ProgramFault>
    ensures gives { LoadGives definitions.items result }
    ensures same { IfOk result (λ p. p.names ≡ names) }
    ensures columns { IfOk result (λ p. p.columns ≡ columns) }
{
    match load_slice(alloc, &definitions) {
        Ok(image) => Ok(Program {
            definitions,
            image,
            names,
            columns,
        }),
        Err(LoadFault::Memory) => Err(ProgramFault::Memory),
        Err(fault) => Err(ProgramFault::Unloaded(fault)),
    }
}

// Loads a code text.
fn read_text(alloc: Global, text: CodeText<'_>) -> Result<Program, ProgramFault>
    ensures program { MatchResult result (λ p. HasCode text.entry.code.now p.definitions.items p.image)
        (HasNoCode (code_text_shown text.entry)) }
    ensures lines { IfOk result (λ p. HasTextLines (code_text_shown text.entry) p.names.lines.items) }
    ensures names { IfOk result (λ p. HasTextNames (code_text_shown text.entry) p.names.frames.items) }
    ensures columns { IfOk result (λ p. HasTextColumns (code_text_shown text.entry) p.columns.items) }
{
    let definitions = match read_code(alloc, text.code) {
        Ok(definitions) => definitions,
        Err(CodeFault::Line(line)) => return Err(ProgramFault::Unread(line)),
        Err(CodeFault::Memory) => return Err(ProgramFault::Memory),
    };
    let SourcePlaces { lines, columns } = match source_places(alloc, text, &definitions) {
        Ok(places) => places,
        Err(fault) => return Err(fault),
    };
    let frames = match frames_of_text(alloc, text, &definitions) {
        Ok(frames) => frames,
        Err(fault) => return Err(fault),
    };
    load_named(alloc, definitions, Names { frames, lines }, columns)
}

/// Compiles a source to the definitions of its code, or to its fault. The watcher looks at the compiler after each one.
pub fn compile_source<W: Watcher>(
    alloc: Global,
    source: &[u8],
    edition: Edition,
    watcher: &mut W,
) -> Result<Result<Vec<Definition>, Diagnostic>, AllocError>
    ensures code { IfOk result (λ code. MatchResult code (λ v. IsCodeOf edition source.now v.items) (HasFault edition source.now)) }
    ensures notes { IfOk result (λ code. IfOk code (λ v. KeepsNotesOf edition source.now (W.kept watcher.old) (W.kept watcher.new))) }
{
    let mut input = MemIn::new(source);
    let (last, definitions) = compile_definitions(alloc, &mut input, watcher, edition);
    match last {
        Step::Finished => Ok(Ok(definitions)),
        Step::Fault(fault) => Ok(Err(fault)),
        Step::Memory => Err(AllocError),
        Step::Written | Step::Device | Step::Closed => unreachable!(),
    }
}
