//! Code texts of the first edition, written as texts of the second.
ghost use Rattle.std.specs.Prelude.{◌≡◌, []};
ghost use Rattle.bword.specs.declared.edition.Edition.TheVariants as editions;
ghost use Rattle.bcode.specs.Readers.{SameReader, HasTaken};
ghost use Rattle.brun.specs.Migrates.{Migrates, RewritingGives, DefinitionsGive, rewriting};
ghost use Rattle.brun.specs.Unmigrated.{Unmigrated};

use crate::text::refuse;
use bcode::{CodeReader, CodeStop, write_begin, write_end};
use blang::status::{self, Status};
use bword::{ByteIn, ByteOut, Edition};
use std::alloc::Global;

/// Writes a code text of the first edition as one of the second, each definition when it has been read.
///
/// The status is 0. If the input is no such text, a line tells where, and the status is 132. It is 133 if a read or a
/// write failed, and 134 if memory ran out.
pub fn migrate<I: ByteIn, O: ByteOut, D: ByteOut>(
    alloc: Global,
    input: &mut I,
    out: &mut O,
    diag: &mut D,
) -> Status
    ensures migrates { Migrates (rewriting (I.incoming input.old) (I.incoming input.new) (O.outgoing out.old) (O.outgoing out.new))
        (D.outgoing diag.old) (D.outgoing diag.new) result }
    ensures input_lender { I.lender input.new ≡ I.lender input.old }
    ensures out_lender { O.lender out.new ≡ O.lender out.old }
    ensures diag_lender { D.lender diag.new ≡ D.lender diag.old }
{
    match migrate_code(alloc, input, out) {
        Ok(()) => status::DONE,
        Err(CodeStop::Fault(fault)) => refuse(fault, diag),
        Err(CodeStop::Device) => status::DEVICE,
    }
}

// Writes the text up to its end, or up to what stops it.
fn migrate_code<I: ByteIn, O: ByteOut>(
    alloc: Global,
    input: &mut I,
    out: &mut O,
) -> Result<(), CodeStop>
    ensures gives { RewritingGives (rewriting (I.incoming input.old) (I.incoming input.new) (O.outgoing out.old) (O.outgoing out.new)) result }
    ensures input_lender { I.lender input.new ≡ I.lender input.old }
    ensures out_lender { O.lender out.new ≡ O.lender out.old }
{
    write_begin(Edition::Two, out)?;
    let mut reader = CodeReader::new(alloc, input, Edition::One);
    let result = copy_definitions(alloc, &mut reader, out);
    let input = reader.into_end();
    let _ = input;
    result
}

// Writes the text of each definition that comes as it was read, and the last line at the end.
fn copy_definitions<I: ByteIn, O: ByteOut>(
    alloc: Global,
    reader: &mut CodeReader<I>,
    out: &mut O,
) -> Result<(), CodeStop>
    requires since { HasTaken reader.old [] }
    requires edition { reader.old.first.edition ≡ editions.One }
    ensures gives { DefinitionsGive reader.old (O.outgoing out.old) result reader.new (O.outgoing out.new) }
    ensures keeps { SameReader reader.old reader.new }
    ensures out_lender { O.lender out.new ≡ O.lender out.old }
{
    let mut text = Vec::new(alloc);
    'definitions: loop {
        text.clear();
        if !reader.copy_next(&mut text)? {
            return Ok(write_end(out)?);
        }
        out.put(text.as_slice())?;
    }
}

/// No migration succeeds without each definition, none waits for the next one before it writes, none takes a byte after
/// a wrong line or a refused definition, and none fails or is out of memory for no reason.
pub fn wrong_migrations_are_excluded()
    ensures { Unmigrated }
{}
