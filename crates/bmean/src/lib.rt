//! What a program means, and that its code does it. Definitions and laws alone: each function here is a law, by its
//! contract. The laws hold of every program whose code loads, of the code itself and of each image loaded from it.
#![tactic(auto)]

ghost use Rattle.bmean.specs.Endless.{SilenceExcluded};
ghost use Rattle.bmean.specs.Laws.{EndsForGood, HaltsAsMeant, MeantIsDone, NeverStuck, OfCode, OfImage, RunsWithoutEnd, WantsAsItRuns, WritesAsMeant};
ghost use Rattle.bmean.specs.Sentences.{EachGoesOn};

/// Where the machine halts, the program ends so: with the same outcome, the same output and the same store, by as much
/// fuel as the machine made steps, and one more.
pub fn the_code_does_what_the_program_means()
    ensures code { OfCode HaltsAsMeant }
    ensures image { OfImage HaltsAsMeant }
{
    bmach::resolving_changes_no_run();
}

/// Where a program ends, the machine with its code halts so after some number of steps.
pub fn what_the_program_means_is_done()
    ensures code { OfCode MeantIsDone }
    ensures image { OfImage MeantIsDone }
{
    bmach::resolving_changes_no_run();
}

/// Compiled code never lacks an operand or an instruction.
pub fn compiled_code_is_never_stuck()
    ensures code { OfCode NeverStuck }
    ensures image { OfImage NeverStuck }
{
    bmach::resolving_changes_no_run();
}

/// What a run has written so far is a beginning of what the program writes.
pub fn what_is_written_is_meant()
    ensures code { OfCode WritesAsMeant }
    ensures image { OfImage WritesAsMeant }
{
    bmach::resolving_changes_no_run();
}

/// Where fuel runs out, the machine goes on for at least as many steps, and has written the same.
pub fn a_program_that_wants_fuel_still_runs()
    ensures code { OfCode WantsAsItRuns }
    ensures image { OfImage WantsAsItRuns }
{
    bmach::resolving_changes_no_run();
}

/// A program that wants more fuel at every number runs without end.
pub fn a_program_without_end_runs_forever()
    ensures code { OfCode RunsWithoutEnd }
    ensures image { OfImage RunsWithoutEnd }
{
    bmach::resolving_changes_no_run();
}

/// More fuel doesn't change how a program ends.
pub fn more_fuel_changes_no_end()
    ensures { EndsForGood }
{}

/// Going on with a statement is going on with what it puts in its place.
pub fn statements_are_done_in_place()
    ensures { EachGoesOn }
{}

/// A machine that falls silent doesn't do what a program means that writes without end.
pub fn silent_machines_are_excluded()
    ensures { SilenceExcluded }
{}
