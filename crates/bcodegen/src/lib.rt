//! One pass over a definition makes the code that its tree has. Definitions and laws alone.
#![tactic(auto)]

ghost use Rattle.bcodegen.specs.Laws.{OnePass, OneTrail};

/// The fault is the definition's, and without one so is the code.
pub fn one_pass_makes_the_code()
    ensures { OnePass }
{}

/// Of a definition without a fault, the lines that one pass notes are those of its code.
pub fn one_pass_notes_the_lines()
    ensures { OneTrail }
{}
