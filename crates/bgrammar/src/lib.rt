//! The grammar of the language as trees, with the laws of reading them. Definitions and laws alone: the trees exist in
//! contracts only, and each function here is a law, by its contract.
#![tactic(auto)]

ghost use Rattle.bgrammar.specs.Laws.{BeginsWithName, ByMembership, DefinitionRead, EachSourceComes, ExpressionRead, GoesOnWithElse, HasTwin, OneDefinition, OneExpression, OneStatement, OutcomesAreEqual, ReadsAgain, ReadsOn, ReadsSpelling, StatementRead};
ghost use Rattle.bgrammar.specs.CodeRows.{CodeEnds, CodeRows, CountsWords, FaultRows, ScansOn};
ghost use Rattle.bgrammar.specs.Editions.{BeginsOld, OldTokensOldTree, PartOfOld, TokensOfOne};
ghost use Rattle.bgrammar.specs.Levels.{CanBeEnded, HasLevels, LevelsOfTokens, NeedsLevels};
ghost use Rattle.bgrammar.specs.ProgramRules.{FormedWithin, HasParts, OneProgram, OneWay};
ghost use Rattle.bgrammar.specs.OutcomeRows.{OutcomeRows};
ghost use Rattle.bgrammar.specs.GrammarRows.{all_refused, assignments, cases, definitions, operands, operators, refused, refused_in_two, rvalues, statements, statements_of_two};
ghost use Rattle.bgrammar.specs.SourceRows.{AllCome, edges, externals, faults, functions, names_of_one, of_two, places};
ghost use Rattle.bgrammar.specs.LineRows.{AllLined, AreLeft, lined, lined_of_two};
ghost use Rattle.blang.specs.Text.{edition_line};
ghost use Rattle.bword.specs.declared.edition.Edition.TheVariants as editions;
ghost use Rattle.std.specs.Prelude.{[]};
ghost use Rattle.bgrammar.specs.Unread.{LinesUnread};
ghost use Rattle.bgrammar.specs.Rows.{DefinitionRows, ExpressionRows, LevelRows};
ghost use Rattle.bgrammar.specs.ReadsBack.{ReadsBack};

pub use blang::{MAX_CASES, MAX_NAMES, MAX_NESTING};

/// What is read is spelled by the tokens that were taken, and well formed.
pub fn what_is_read_is_spelled_so()
    ensures kept { ReadsSpelling }
    ensures definitions { DefinitionRead }
    ensures statements { StatementRead }
    ensures expressions { ExpressionRead }
{}

/// A spelling is read as the tree that has it.
pub fn a_spelling_is_read_again()
    ensures { ReadsAgain }
{}

/// One token ahead is enough, and wherever reading stops, other tokens would have ended the definition.
pub fn reading_depends_on_one_token_more()
    ensures { ReadsOn }
{}

/// An `else` after an open definition belongs to it.
pub fn an_else_goes_on()
    ensures { GoesOnWithElse }
{}

/// Lines decide nothing about well-formed trees.
pub fn lines_are_free()
    ensures { HasTwin }
{}

/// The readers may as well be given what trees keep of the tokens.
pub fn other_lines_are_never_read()
    ensures { LinesUnread }
{}

pub fn a_definition_begins_with_its_name()
    ensures { BeginsWithName }
{}

/// No two well-formed trees have the same spelling.
pub fn a_spelling_has_one_tree()
    ensures expressions { OneExpression }
    ensures statements { OneStatement }
    ensures definitions { OneDefinition }
{}

/// Operators, assignments and conditionals, where they could be read otherwise.
pub fn rows_of_expressions()
    ensures { ExpressionRows }
{}

/// What opens a level of nesting, and what doesn't.
pub fn rows_of_levels()
    ensures { LevelRows }
{}

/// Statements and definitions, where they could be read otherwise.
pub fn rows_of_definitions()
    ensures { DefinitionRows }
{}

/// Definitions and their code.
pub fn rows_of_code()
    ensures { CodeRows }
{}

/// Definitions and their first fault beside the syntax.
pub fn rows_of_faults()
    ensures { FaultRows }
{}

/// A scan goes on from where another ended.
pub fn a_scan_goes_on()
    ensures { ScansOn }
{}

/// The offsets of strings count the words that they take.
pub fn offsets_count_string_words()
    ensures { CountsWords }
{}

/// The code of a statement ends where it is said to, wherever a break leads.
pub fn code_ends_where_it_is_said()
    ensures { CodeEnds }
{}

/// Each source has one outcome: its code texts and its diagnostic, if there is one.
pub fn one_outcome()
    ensures comes { EachSourceComes }
    ensures once { OutcomesAreEqual }
{}

/// The names defined before decide by which they are, and not by their order.
pub fn names_count_by_membership_alone()
    ensures { ByMembership }
{}

/// Sources with what comes of them.
pub fn rows_of_outcomes()
    ensures { OutcomeRows }
{}

/// Whole sources, with the code text and the line of the diagnostic that come of each.
pub fn rows_of_sources()
    ensures externals { AllCome editions.One externals }
    ensures functions { AllCome editions.One functions }
    ensures faults { AllCome editions.One faults }
    ensures places { AllCome editions.One places }
    ensures edges { AllCome editions.One edges }
    ensures names { AllCome editions.One names_of_one }
    ensures two { AllCome editions.Two of_two }
{}

/// The line of each instruction and initial value of whole sources, where each token stands on a line of its own.
pub fn rows_of_lines()
    ensures lines { AllLined editions.One lined }
    ensures two { AllLined editions.Two lined_of_two }
    ensures left { AreLeft }
{}

/// Each production of the grammar at each place where it may stand, and what is refused beside it.
pub fn rows_of_the_grammar()
    ensures definitions { AllCome editions.One definitions }
    ensures statements { AllCome editions.One statements }
    ensures cases { AllCome editions.One cases }
    ensures rvalues { AllCome editions.One rvalues }
    ensures assignments { AllCome editions.One assignments }
    ensures operators { AllCome editions.One operators }
    ensures operands { AllCome editions.One operands }
    ensures refused { AllCome editions.One (all_refused [] refused) }
    ensures statements_of_two { AllCome editions.Two statements_of_two }
    ensures refused_in_two { AllCome editions.Two (all_refused edition_line refused_in_two) }
{}

/// The tokens of a source of the first edition are without `break` and `default`, and are read as without these two:
/// their trees have neither, and where they begin a program, they begin one without.
pub fn the_first_edition_stays()
    ensures tokens { TokensOfOne }
    ensures trees { OldTokensOldTree }
    ensures begins { BeginsOld }
    ensures part { PartOfOld }
{}

/// The levels of a program are those of its tokens.
pub fn levels_are_those_of_tokens()
    ensures tokens { LevelsOfTokens }
    ensures needs { NeedsLevels }
    ensures has { HasLevels }
{}

/// A beginning of a program whose levels are not above some number can be ended within that number of levels.
pub fn a_beginning_can_be_ended()
    ensures { CanBeEnded }
{}

/// Two well-formed programs of the same tokens are equal, and well formed is what a reader checks.
pub fn tokens_are_of_one_program()
    ensures one { OneProgram }
    ensures within { FormedWithin }
{}

/// The tokens of a source have one way of parts: definitions, a part of one more, and where no program goes on.
pub fn one_way_of_parts()
    ensures some { HasParts }
    ensures once { OneWay }
{}

/// The code text of a source without a fault is that of the definitions of the source, each within its ranges.
pub fn what_is_written_is_read_back()
    ensures { ReadsBack }
{}
