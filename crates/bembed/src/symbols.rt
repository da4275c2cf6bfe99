//! What the names of a program in memory stand for.
ghost use Rattle.std.specs.Prelude.{◌≡◌, []};
ghost use Rattle.bword.specs.Words.{is_name};
ghost use Rattle.bhost.specs.Statuses.{Answers, FindsName, answer_symbol};
ghost use Rattle.bhost.specs.declared.desk.Deed.TheVariants as deed;
ghost use Rattle.bhost.specs.declared.desk.Query.TheVariants as query;

use bhost::calls::{find, tell};
use bhost::{Host, Query, Symbol};
use std::alloc::Global;

/// Tells what the definition of a name is.
#[unsafe(no_mangle)]
pub extern "C" fn b_find(alloc: Global, session: &mut Host, name: &[u8], told: &mut Symbol) -> u8
    ensures program { session.new.read ≡ session.old.read }
    ensures finds { FindsName (is_name name.now) name.now session.old session.new result told.new }
{
    find(alloc, session, name, told)
}

/// Tells which definition the word at an address is of.
#[unsafe(no_mangle)]
pub extern "C" fn b_symbol_at(
    alloc: Global,
    session: &mut Host,
    address: u32,
    told: &mut Symbol,
) -> u8
    ensures program { session.new.read ≡ session.old.read }
    ensures tells { Answers (deed.Tell (query.At address)) [] session.old.read session.old.run session.new.run result
        (λ _ answered. told.new ≡ answer_symbol answered) }
{
    tell(alloc, session, Query::At(address), told)
}

/// Tells of a named word of the frame of a function, by its number.
#[unsafe(no_mangle)]
pub extern "C" fn b_local(
    alloc: Global,
    session: &mut Host,
    function: u32,
    number: usize,
    told: &mut Symbol,
) -> u8
    ensures program { session.new.read ≡ session.old.read }
    ensures tells { Answers (deed.Tell (query.Local function number)) [] session.old.read session.old.run
        session.new.run result (λ _ answered. told.new ≡ answer_symbol answered) }
{
    tell(alloc, session, Query::Local(function, number), told)
}

/// Tells of a label of a function, by its number.
#[unsafe(no_mangle)]
pub extern "C" fn b_label(
    alloc: Global,
    session: &mut Host,
    function: u32,
    number: usize,
    told: &mut Symbol,
) -> u8
    ensures program { session.new.read ≡ session.old.read }
    ensures tells { Answers (deed.Tell (query.Label function number)) [] session.old.read session.old.run
        session.new.run result (λ _ answered. told.new ≡ answer_symbol answered) }
{
    tell(alloc, session, Query::Label(function, number), told)
}

/// Tells of an instruction of a function, by its place.
#[unsafe(no_mangle)]
pub extern "C" fn b_instruction(
    alloc: Global,
    session: &mut Host,
    function: u32,
    place: u32,
    told: &mut Symbol,
) -> u8
    ensures program { session.new.read ≡ session.old.read }
    ensures tells { Answers (deed.Tell (query.Instruction function place)) [] session.old.read session.old.run
        session.new.run result (λ _ answered. told.new ≡ answer_symbol answered) }
{
    tell(alloc, session, Query::Instruction(function, place), told)
}
