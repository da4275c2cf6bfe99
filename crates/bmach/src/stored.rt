//! The words that a step stores.
ghost use Rattle.std.specs.Prelude.{◌≡◌, ◌-◌, ◌≤◌, [], ◌∷◌, drop, map, reverse, take};
ghost use Rattle.std.specs.List.{range_with_len};
ghost use Rattle.blang.specs.declared.code.Instr.TheVariants as instr;
ghost use Rattle.bmach.specs.Images.{loaded_of};
ghost use Rattle.bmach.specs.Operations.{instr_of};
ghost use Rattle.bmach.specs.Steps.{callee_in, calls_below, machine_call};
ghost use Rattle.bmach.specs.Stored.{stored_by, stored_by_callee, stored_next};

use crate::Library;
use crate::act::operation_at;
use crate::calls::{argument, callee, frame_of};
use crate::image::LoadedFunction;
use crate::machine::{Callee, Calls};
use crate::operation::Operation;
use std::ops::Range;

/// The addresses of the words that the next step stores, if the run goes on after it.
pub fn stored_next<'a>(calls: &Calls<'a>, functions: &[LoadedFunction]) -> Range<u32>
    ensures stored { range_with_len result.start (result.end - result.start)
        ≡ stored_next (map loaded_of functions.now) (machine_call calls.now.top) (calls_below calls.now) }
    ensures within { result.end ≤ 65536 }
{
    let call = &calls.top;
    match operation_at(&call.function.code, call.place) {
        None => 0..0,
        Some(operation) => stored_by(calls, functions, operation),
    }
}

fn stored_by<'a>(
    calls: &Calls<'a>,
    functions: &[LoadedFunction],
    operation: Operation,
) -> Range<u32>
    ensures stored { range_with_len result.start (result.end - result.start)
        ≡ stored_by (map loaded_of functions.now) (machine_call calls.now.top) (calls_below calls.now) (instr_of operation) }
    ensures within { result.end ≤ 65536 }
{
    let operands = calls.top.operands.own();
    match operation {
        Operation::Store
        | Operation::StorePop
        | Operation::StorePopJump(_)
        | Operation::StoreBranch(..)
        | Operation::Modify(_)
        | Operation::ModifyPop(_) => operand(operands, 1),
        Operation::Increment(_) => operand(operands, 0),
        Operation::Call(count) => stored_by_call(calls, functions, count),
        _ => 0..0,
    }
}

// The operand that has so many above it, if there is one.
fn operand(operands: &[u16], above: usize) -> Range<u32>
    ensures stored { range_with_len result.start (result.end - result.start) ≡ take 1 (drop above (reverse operands.now)) }
    ensures within { result.end ≤ 65536 }
{
    if operands.len() <= above {
        return 0..0;
    }
    one_word(operands[operands.len() - 1 - above])
}

fn one_word(address: u16) -> Range<u32>
    ensures stored { range_with_len result.start (result.end - result.start) ≡ address ∷ [] }
    ensures within { result.end ≤ 65536 }
{
    let first = u32::from(address);
    first..first + 1
}

fn stored_by_call<'a>(calls: &Calls<'a>, functions: &[LoadedFunction], count: u16) -> Range<u32>
    ensures stored { range_with_len result.start (result.end - result.start)
        ≡ stored_by (map loaded_of functions.now) (machine_call calls.now.top) (calls_below calls.now) (instr.Call count) }
    ensures within { result.end ≤ 65536 }
{
    match calls.top.operands.call(count) {
        None => 0..0,
        Some((value, arguments)) => stored_by_callee(calls, callee(functions, value), arguments),
    }
}

// Of the library `lchar` alone stores a word, and a function of the program its parameters.
fn stored_by_callee<'a>(calls: &Calls<'a>, callee: Callee<'_>, arguments: &[u16]) -> Range<u32>
    ensures stored { range_with_len result.start (result.end - result.start)
        ≡ stored_by_callee (callee_in callee.entry) arguments.now (machine_call calls.now.top) (calls_below calls.now) }
    ensures within { result.end ≤ 65536 }
{
    match callee {
        Callee::OfLibrary(Library::Lchar) => {
            let character = argument(arguments, 1);
            one_word(argument(arguments, 0).wrapping_add(character / 2))
        }
        Callee::OfProgram(function) => match frame_of(calls, function) {
            Err(_) => 0..0,
            Ok(start) => start..start + u32::from(function.parameters),
        },
        Callee::NoFunction | Callee::OfLibrary(_) => 0..0,
    }
}
