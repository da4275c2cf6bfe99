//! Operations that look at one call alone.
ghost use Rattle.std.specs.Prelude.{◌≡◌, ℕ, ◌+◌, ◌^◌, ◌<◌, ◌∷◌, List, IfOk, OnOk, slice_set};
ghost use Rattle.blang.specs.declared.code.Instr.TheVariants as instr;
ghost use Rattle.blang.specs.Machine as machine;
ghost use Rattle.blang.specs.Layout.{label_target, left_word, stored_word};
ghost use Rattle.blang.specs.Machine.{Running, at_place};
ghost use Rattle.bmach.specs.Steps.{Acts, Paced, machine_call};
ghost use Rattle.blang.specs.Layout.{World};

use crate::machine::{Call, Pace, STUCK};
use crate::{Outcome, Trap};
use blang::Increment;
use bword::{BinOp, Store, binary, negate, not};
use std::alloc::AllocError;

/// Puts a word on top, and goes on after the operation.
#[inline(always)]
pub fn put<'a>(call: &mut Call<'a>, word: u16) -> Pace
    requires { call.old.place + 1 < 2 ^ 64 }
    ensures paced { (image : machine.Image) (below : List machine.Call) (w : World) (s : machine.State) →
        Paced image result (machine_call call.new) below w s
        (Running (at_place (machine_call call.old) (call.old.place + 1) (word ∷ call.old.operands.own)) below w) }
    ensures below { call.new.operands.below ≡ call.old.operands.below }
{
    call.place += 1;
    if call.operands.put_in_room(word) {
        Pace::GoesOn
    } else {
        Pace::Gives(word)
    }
}

/// Takes an address and puts its word.
#[inline(always)]
pub fn load<'a, S: Store>(call: &mut Call<'a>, store: &S) -> Pace
    requires { call.old.place + 1 < 2 ^ 64 }
    ensures acts { Acts instr.Load call.old (S.words store.now) result call.new (S.words store.now) }
    ensures below { call.new.operands.below ≡ call.old.operands.below }
{
    match call.operands.take() {
        None => Pace::Ends(STUCK),
        Some(address) => put(call, store.get(address)),
    }
}

/// Takes a word and an address below it, stores the word and puts it.
#[inline(always)]
pub fn store<'a, S: Store>(call: &mut Call<'a>, store: &mut S) -> Pace
    requires { call.old.place + 1 < 2 ^ 64 }
    ensures acts { Acts instr.Store call.old (S.words store.old) result call.new (S.words store.new) }
    ensures below { call.new.operands.below ≡ call.old.operands.below }
{
    match call.operands.take() {
        None => Pace::Ends(STUCK),
        Some(word) => match call.operands.take() {
            None => Pace::Ends(STUCK),
            Some(address) => match store.set(address, word) {
                Err(_) => Pace::Ends(Outcome::Memory),
                Ok(()) => put(call, word),
            },
        },
    }
}

/// Stores a word.
pub fn set<S: Store>(store: &mut S, address: u16, word: u16) -> Result<(), AllocError>
    ensures { OnOk result (S.words store.new ≡ slice_set (S.words store.old) address word) }
{
    match store.set(address, word) {
        Ok(()) => Ok(()),
        Err(_) => Err(AllocError),
    }
}

#[inline(always)]
pub fn negate_word<'a>(call: &mut Call<'a>) -> Pace
    requires { call.old.place + 1 < 2 ^ 64 }
    ensures acts { (words : List ℕ) → Acts instr.Negate call.old words result call.new words }
    ensures below { call.new.operands.below ≡ call.old.operands.below }
{
    match call.operands.take() {
        None => Pace::Ends(STUCK),
        Some(word) => put(call, negate(word)),
    }
}

#[inline(always)]
pub fn not_word<'a>(call: &mut Call<'a>) -> Pace
    requires { call.old.place + 1 < 2 ^ 64 }
    ensures acts { (words : List ℕ) → Acts instr.Not call.old words result call.new words }
    ensures below { call.new.operands.below ≡ call.old.operands.below }
{
    match call.operands.take() {
        None => Pace::Ends(STUCK),
        Some(word) => put(call, not(word)),
    }
}

#[inline(always)]
pub fn operate<'a>(call: &mut Call<'a>, operator: BinOp) -> Pace
    requires { call.old.place + 1 < 2 ^ 64 }
    ensures acts { (words : List ℕ) → Acts (instr.Binary operator) call.old words result call.new words }
    ensures below { call.new.operands.below ≡ call.old.operands.below }
{
    match call.operands.take() {
        None => Pace::Ends(STUCK),
        Some(right) => match call.operands.take() {
            None => Pace::Ends(STUCK),
            Some(left) => match binary(operator, left, right) {
                Err(_) => Pace::Ends(Outcome::Trap(Trap::ZeroDivisor)),
                Ok(word) => put(call, word),
            },
        },
    }
}

#[inline(always)]
pub fn modify<'a, S: Store>(call: &mut Call<'a>, store: &mut S, operator: BinOp) -> Pace
    requires { call.old.place + 1 < 2 ^ 64 }
    ensures acts { Acts (instr.Modify operator) call.old (S.words store.old) result call.new (S.words store.new) }
    ensures below { call.new.operands.below ≡ call.old.operands.below }
{
    match call.operands.take() {
        None => Pace::Ends(STUCK),
        Some(right) => match call.operands.take() {
            None => Pace::Ends(STUCK),
            Some(address) => match binary(operator, store.get(address), right) {
                Err(_) => Pace::Ends(Outcome::Trap(Trap::ZeroDivisor)),
                Ok(word) => match store.set(address, word) {
                    Err(_) => Pace::Ends(Outcome::Memory),
                    Ok(()) => put(call, word),
                },
            },
        },
    }
}

/// The word that an increment or decrement stores.
#[inline(always)]
pub fn counted(which: Increment, word: u16) -> u16
    ensures { result ≡ stored_word which word }
{
    match which {
        Increment::PreIncrement | Increment::PostIncrement => word.wrapping_add(1),
        Increment::PreDecrement | Increment::PostDecrement => word.wrapping_sub(1),
    }
}

/// The word that it leaves.
#[inline(always)]
pub fn left(which: Increment, word: u16) -> u16
    ensures { result ≡ left_word which word }
{
    match which {
        Increment::PreIncrement | Increment::PreDecrement => counted(which, word),
        Increment::PostIncrement | Increment::PostDecrement => word,
    }
}

#[inline(always)]
pub fn count<'a, S: Store>(call: &mut Call<'a>, store: &mut S, which: Increment) -> Pace
    requires { call.old.place + 1 < 2 ^ 64 }
    ensures acts { Acts (instr.Increment which) call.old (S.words store.old) result call.new (S.words store.new) }
    ensures below { call.new.operands.below ≡ call.old.operands.below }
{
    match call.operands.take() {
        None => Pace::Ends(STUCK),
        Some(address) => {
            let word = store.get(address);
            match store.set(address, counted(which, word)) {
                Err(_) => Pace::Ends(Outcome::Memory),
                Ok(()) => put(call, left(which, word)),
            }
        }
    }
}

#[inline(always)]
pub fn jump<'a>(call: &mut Call<'a>, target: u32) -> Pace
    ensures acts { (words : List ℕ) → Acts (instr.Jump target) call.old words result call.new words }
    ensures below { call.new.operands.below ≡ call.old.operands.below }
{
    call.place = target as usize;
    Pace::GoesOn
}

#[inline(always)]
pub fn jump_if_zero<'a>(call: &mut Call<'a>, target: u32) -> Pace
    requires { call.old.place + 1 < 2 ^ 64 }
    ensures acts { (words : List ℕ) → Acts (instr.JumpIfZero target) call.old words result call.new words }
    ensures below { call.new.operands.below ≡ call.old.operands.below }
{
    match call.operands.take() {
        None => Pace::Ends(STUCK),
        Some(word) => {
            if word == 0 {
                call.place = target as usize;
            } else {
                call.place += 1;
            }
            Pace::GoesOn
        }
    }
}

#[inline(always)]
pub fn go_to_label<'a>(call: &mut Call<'a>) -> Pace
    ensures acts { (words : List ℕ) → Acts instr.Goto call.old words result call.new words }
    ensures below { call.new.operands.below ≡ call.old.operands.below }
{
    match call.operands.take() {
        None => Pace::Ends(STUCK),
        Some(value) => match target_of(call, value) {
            None => Pace::Ends(Outcome::Trap(Trap::NotALabel)),
            Some(target) => {
                call.place = target as usize;
                Pace::GoesOn
            }
        },
    }
}

/// The target of a label's value, if it is one of the function.
#[inline(always)]
pub fn target_of<'a>(call: &Call<'a>, value: u16) -> Option<u16>
    ensures { result ≡ label_target call.now.function.now.first_label call.now.function.now.targets.items value }
{
    let first = call.function.first_label;
    if u32::from(value) < first {
        return None;
    }
    call.function
        .targets
        .get((u32::from(value) - first) as usize)
        .copied()
}

#[inline(always)]
pub fn jump_if_case<'a>(call: &mut Call<'a>, value: u16, target: u32) -> Pace
    requires { call.old.place + 1 < 2 ^ 64 }
    ensures acts { (words : List ℕ) → Acts (instr.JumpIfCase value target) call.old words result call.new words }
    ensures below { call.new.operands.below ≡ call.old.operands.below }
{
    match call.operands.take() {
        None => Pace::Ends(STUCK),
        Some(word) => {
            if word == value {
                call.place = target as usize;
                Pace::GoesOn
            } else {
                put(call, word)
            }
        }
    }
}

#[inline(always)]
pub fn pop<'a>(call: &mut Call<'a>) -> Pace
    requires { call.old.place + 1 < 2 ^ 64 }
    ensures acts { (words : List ℕ) → Acts instr.Pop call.old words result call.new words }
    ensures below { call.new.operands.below ≡ call.old.operands.below }
{
    match call.operands.take() {
        None => Pace::Ends(STUCK),
        Some(_) => {
            call.place += 1;
            Pace::GoesOn
        }
    }
}

/// Goes on after a call, which is left to do.
#[inline(always)]
pub fn begin_call<'a>(call: &mut Call<'a>, count: u16) -> Pace
    requires { call.old.place + 1 < 2 ^ 64 }
    ensures acts { (words : List ℕ) → Acts (instr.Call count) call.old words result call.new words }
    ensures below { call.new.operands.below ≡ call.old.operands.below }
{
    call.place += 1;
    Pace::Calls(count)
}
