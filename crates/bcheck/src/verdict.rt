//! What the compiler and the loader say of a source.
ghost use Rattle.std.specs.Prelude.{◌≡◌, ◌≢◌, IfOk, List, None, ℕ};
ghost use Rattle.blang.specs.Layout.{load_fault};
ghost use Rattle.blang.specs.declared.status.TheConstants.{FAULT};
ghost use Rattle.bword.specs.declared.edition.Edition.{Edition};
ghost use Rattle.bcheck.specs.Checks.{Judged, severity_of, verdict_line, status_told, told_first};
ghost use Rattle.bcheck.specs.Findings.{IsCompiled, IsStopOf};

use crate::compiled::{Compiled, compile};
use crate::finding::Severity;
use crate::spans::SourceText;
use blang::status::{self, Status};
use blang::{Definition, Diagnostic, LoadFault};
use bmach::load_slice;
use btools::{diagnostic_line, load_line};
use bword::MemOut;
use std::alloc::{AllocError, Global};

/// What is said of a source.
#[derive(Drop)]
pub enum Verdict {
    /// It compiles, and its code loads but for a function `main`.
    Clean,
    /// It doesn't compile, and this is the line of the compiler.
    Faulty(MemOut, Diagnostic),
    /// Its code doesn't load.
    Unloaded(LoadFault),
}

/// A verdict, and what compiling the source gave.
#[derive(Drop)]
pub(crate) struct Judgement {
    pub verdict: Verdict,
    pub compiled: Compiled,
}

impl Verdict {
    /// The line of the compiler, or that of the code.
    pub fn first(&self) -> &[u8]
        ensures { result.now ≡ verdict_line self.now }
    {
        match self {
            Verdict::Clean => b"",
            Verdict::Faulty(line, _) => line.bytes(),
            Verdict::Unloaded(fault) => load_line(fault).unwrap_or(b""),
        }
    }

    /// The status.
    pub fn status(&self) -> Status
        ensures { result ≡ status_told self.now }
    {
        match self {
            Verdict::Clean => status::DONE,
            Verdict::Faulty(_, _) => status::FAULT,
            Verdict::Unloaded(_) => status::REFUSED,
        }
    }

    /// Of what is found.
    pub(crate) fn severity(&self) -> Severity
        ensures { result ≡ severity_of (status_told self.now) }
    {
        match self {
            Verdict::Clean => Severity::Warning,
            Verdict::Faulty(_, _) | Verdict::Unloaded(_) => Severity::Error,
        }
    }
}

/// What the compiler and the loader say of a source.
pub(crate) fn judge(alloc: Global, source: SourceText<'_>) -> Result<Judgement, AllocError>
    ensures judged { IfOk result (λ j. Judged source.entry.edition source.entry.text.now j.verdict) }
    ensures stop { IfOk result (λ j. IsStopOf source.entry.edition source.entry.text.now j.verdict) }
    ensures compiled { IfOk result (λ j. IsCompiled source.entry.edition source.entry.text.now j.compiled) }
{
    let compiled = compile(alloc, source)?;
    let verdict = verdict_of(alloc, &compiled)?;
    Ok(Judgement { verdict, compiled })
}

// The verdict on a source that was compiled.
fn verdict_of(alloc: Global, compiled: &Compiled) -> Result<Verdict, AllocError>
    ensures judged { IfOk result (λ v. (edition : Edition) (source : List ℕ) → IsCompiled edition source compiled.now
        → Judged edition source v) }
    ensures stop { IfOk result (λ v. (edition : Edition) (source : List ℕ) → IsCompiled edition source compiled.now
        → IsStopOf edition source v) }
{
    match &compiled.code {
        Ok(definitions) => judge_code(alloc, definitions),
        Err(fault) => Ok(Verdict::Faulty(diagnostic_line(alloc, fault)?, *fault)),
    }
}

// What the loader says of the definitions of a code text.
fn judge_code(alloc: Global, definitions: &[Definition]) -> Result<Verdict, AllocError>
    ensures told { IfOk result (λ v. (verdict_line v, status_told v) ≡ told_first None (load_fault definitions.now)) }
    ensures other { IfOk result (λ v. status_told v ≢ FAULT) }
{
    let Err(fault) = load_slice(alloc, definitions) else {
        return Ok(Verdict::Clean);
    };
    match fault {
        LoadFault::NoMain => Ok(Verdict::Clean),
        LoadFault::Memory => Err(AllocError),
        _ => Ok(Verdict::Unloaded(fault)),
    }
}
