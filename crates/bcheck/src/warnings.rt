//! What is said of code that compiles and is probably a mistake.
ghost use Rattle.std.specs.List.{list_all};
ghost use Rattle.std.specs.Prelude.{◌≡◌, ◌∷◌, [], IsTrue};
ghost use Rattle.bcheck.specs.Checks.{is_on_line};
ghost use Rattle.bcheck.specs.RuleWarnings.{slip_code, warning_code};

use blint::{Slip, Warning};

/// By which code a warning is known, one sentence on it, and how to fix it.
#[rattlefmt::skip]
pub(crate) fn advice_of(warning: Warning) -> (&'static str, &'static str, &'static str)
    ensures on_lines { IsTrue (list_all is_on_line (result.0.now ∷ result.1.now ∷ result.2.now ∷ [])) }
    ensures code { result.0.now ≡ warning_code warning }
{
    match warning {
        Warning::CommentGoesOn => ("*/", "this comment goes on into another file", "write */ where it ends"),
        Warning::AndAnd =>
            ("and", "&& is the operator & and then an address", "a & b between comparisons, and else a ? b : 0"),
        Warning::Power =>
            ("and", "** is the operator * and then the word at an address", "a loop multiplies: p =* x;"),
        Warning::OperatorAssigns =>
            ("op", "this operator changes what stands before it", "a blank after the = sets it: x = -1;"),
        Warning::ConditionAssigns =>
            ("if", "this condition assigns", "== compares; parentheses around it show that it is meant"),
        Warning::AssignsComparison =>
            ("if", "this assigns what the comparison gives, 1 or 0",
             "parentheses around the assignment: (c = f()) != 'a'"),
        Warning::AssignsCompared =>
            ("if", "this stores the 1 or 0 of a comparison", ">= <= != and == compare alone: x >= 18"),
        Warning::EmptyIf => ("em", "this ; is all that the if does", "take it out"),
        Warning::EmptyLoop => ("em", "this ; is all that the loop repeats", "take it out"),
        Warning::PastVector =>
            ("ix", "the vector @ has no word of this index",
             "auto v 5; has v[0] to v[5], as v[5]; outside; @ alone is the vector"),
        Warning::VectorForWord =>
            ("ix", "@ is a vector, and used as a word", "auto @; is a word: its value comes by @ = 5;"),
        Warning::WordForVector =>
            ("ix", "@ is a word with a value, and no vector", "@[10]; outside of functions has @[0] to @[10]"),
        Warning::VectorAddress =>
            ("ix", "@ is an address itself: & gives where that is kept", "@ is the address of @[0]"),
        Warning::ReturnsVector =>
            ("ix", "the words of @ are gone after the return", "@[10]; outside of functions, and extrn @; here"),
        Warning::ReturnsAddress =>
            ("ix", "@ is gone after the return", "@; outside of functions, and extrn @; here"),
        Warning::NegativeNumber =>
            ("sg", "this number is below 0 where it is compared", "words go from -32768 to 32767"),
        Warning::StringEnd => ("en", "a string ends with '*e', 4, and not with 0", "char(s, i) != '*e'"),
        Warning::InputEnd =>
            ("en", "the input ends with '*e', 4, and not with -1", "(c = getchar()) != '*e'"),
        Warning::InputZero =>
            ("en", "the input ends with '*e', 4, and not with 0", "(c = getchar()) != '*e'"),
        Warning::StringForNumber =>
            ("st", "a string is an address, and printn writes numbers",
             "putstr(s); of lib/print.b writes it: b go FILE --with print"),
        Warning::StringForCharacter =>
            ("st", "a string is an address, and no character", "write single quotes: 'a'"),
        Warning::StringPut =>
            ("st", "a string is an address, and putchar writes characters",
             "a loop writes it: while((c = char(s, i++)) != '*e') putchar(c);"),
        Warning::StringCompared =>
            ("st", "this compares addresses, and no characters",
             "a loop compares char(s, i) and char(t, i), as in examples/copy.b"),
        Warning::NameAlone => ("no", "this statement does nothing", "a call has parentheses: f();"),
        Warning::ComparesAlone => ("no", "nothing is done with this comparison", "= assigns: x = 4;"),
        Warning::NoEffect => ("no", "this statement does nothing", "assign its value, x = a + b; or take it out"),
        Warning::Backslash =>
            ("bs", "a backslash in quotes is a character like others", "* begins an escape: '*n' is a newline"),
        Warning::BitsCompared =>
            ("pr", "the comparison binds tighter than this operator", "parentheses: (x & 1) == 1"),
        Warning::ComparesTwice => ("pr", "this compares the 1 or 0 of the first comparison", "1 < x & x < 3"),
        Warning::NotCompared => ("pr", "the ! binds tighter than the comparison", "x != 3, or !(x == 3)"),
        Warning::ManyArguments =>
            ("ar", "this call has more arguments than @ has parameters",
             "the last ones are lost: take them out, or name them in @"),
        Warning::FewArguments =>
            ("ar", "this call has fewer arguments than @ has parameters",
             "the last parameters are 0: write the arguments, 0 if it is meant"),
        Warning::LibraryArguments =>
            ("ar", "@ takes another number of arguments",
             "char(s, i) lchar(s, i, c) getchar() putchar(c) printn(n, b) exit(n)"),
        Warning::SwappedArguments =>
            ("ar", "the arguments have another order", "printn(n, 10) char(s, i) lchar(s, i, c)"),
        Warning::WrongBase => ("ar", "printn writes to a base from 2 to 10", "printn(n, 10)"),
        Warning::NoReturn =>
            ("rt", "the value of @ is used, and @ returns none",
             "return(x); in @ gives the value x; without it the value is 0"),
        Warning::NeverUsed =>
            ("us", "@ is declared and never used", "take it out, or look for another spelling of it"),
        Warning::Unset =>
            ("in", "@ is used here, and nothing has set it before",
             "set it first: @ = 0; or getnum(&@); or auto @ 40; for a text"),
        Warning::UnsetVector =>
            ("in", "@ is used as a vector here, and has no words", "auto @ 10; has @[0] to @[10]"),
        Warning::HidesExternal =>
            ("hi", "this @ hides the external of line %", "extrn @; is the external; or take another name"),
        Warning::HidesLibrary =>
            ("hi", "this @ hides the function of the library",
             "take it out: a call declares a function; or take another name"),
        Warning::NearMain =>
            ("ma", "there is no function main: did you mean this one?", "a run begins with main() .."),
        Warning::DefaultLabel =>
            ("ed", "in edition 1 this is a label, to which nothing leads",
             "--edition 2 makes it the default of the switch"),
        Warning::WordOutside =>
            ("ed", "this defines an external of the name @",
             "look before it for a } too many; --edition 2 has @ as a keyword"),
        Warning::VectorCalled => ("ix", "@ is a vector, and no function", "@[i] is its word of index i"),
        Warning::WordOfString =>
            ("st", "this is a word of the string: two characters", "char(s, i) == 'x'"),
        Warning::CallsItself =>
            ("lp", "each way through @ calls it again",
             "a way without the call comes first: if(n < 1) return(1);"),
        Warning::ChangesNothing =>
            ("no", "@ changes its own words, and nothing else",
             "return(x); in it gives a value; *p = x; stores at an address"),
        Warning::LoopUnchanged =>
            ("lp", "nothing in this loop changes its condition",
             "change one of its names in the loop, as i++; does"),
        Warning::Indented =>
            ("la", "this stands like the body of line %, but isn't in it",
             "put { } around the statements of the body"),
        Warning::Overwritten =>
            ("us", "this value of @ is overwritten at once",
             "take one of the two out, or use @ between them"),
        Warning::MainParameters =>
            ("ma", "main gets no arguments: its parameters are 0",
             "main() .., and getstr(s); of lib/input.b reads a line"),
        Warning::StringsAdded =>
            ("st", "this adds two addresses, and joins no strings",
             "write one after the other: putstr(s); putstr(t); of lib/print.b"),
        Warning::OrConstant =>
            ("pr", "this constant is compared with nothing", "name both comparisons: c == 'a' | c == 'e'"),
        Warning::AssignsItself => ("op", "this stores the old value again", "i++; by itself counts"),
        Warning::PassesOldValue =>
            ("ar", "the call gets @ before it is counted", "hand the next value on: f(n - 1)"),
        Warning::ValueDropped =>
            ("no", "nothing is done with the value of this operator", "return(f() + g()); or x = f() + g();"),
        Warning::EndlessLoop =>
            ("lp", "nothing leaves this loop", "a return, a goto, or a condition that gets 0 leaves it"),
        Warning::NoMain =>
            ("ma", "there is no function main to begin a run with",
             "main() .. calls the others, or is one of them"),
        Warning::DanglingElse =>
            ("la", "this else belongs to the if of line %",
             "put { before that if and } before this else, if the outer one is meant"),
        Warning::IfsInRow =>
            ("la", "this if is no part of the one before it",
             "else if(..) makes one chain of both: only the first that holds is done"),
        Warning::ElseOverwrites =>
            ("la", "this if and its else are no part of the one before",
             "ask first for what holds least often, then else if(..), and else last"),
        Warning::OctalNumber =>
            ("nu", "a number that begins with 0 is to the base 8", "take the 0 away: 010 is 8, and 10 is 10"),
        Warning::LargeNumber =>
            ("nu", "this number is below 0, as 32768 and more are",
             "take a smaller one: thousands, or two words for both halves"),
        Warning::DividesFirst =>
            ("di", "the division comes first, and drops its fraction", "multiply first: part * 100 / all"),
        Warning::ZeroQuotient => ("di", "this is 0: a division drops its fraction", "multiply first: x * 5 / 9"),
        Warning::AlwaysTrue =>
            ("tr", "one of these two always holds", "& wants both: c >= 'a' & c <= 'z', or c != 'y' & c != 'n'"),
        Warning::NeverTrue => ("tr", "these two never hold at once", "| wants one of them: c == 'a' | c == 'e'"),
        Warning::LoopPastVector =>
            ("ix", "the loop of line % goes past the last word of @",
             "five words have the indices 0 to 4: i = 0; while(i < 5)"),
        Warning::CountPastVector =>
            ("ix", "the loop of line % goes past the end of @ with this",
             "five words have the indices 0 to 4: while(i < n), where n is 5"),
        Warning::CountsAway =>
            ("lp", "@ goes away from what ends the loop of line %", "i++ goes with i < 10, and i-- with i > 0"),
        Warning::InnerOnce => ("lp", "@ isn't set again in the loop of line %", "@ = 0; right before this loop"),
        Warning::BeginsAnew => ("lp", "@ begins anew in each turn of the loop of line %", "set it before the loop"),
        Warning::InputEndless => ("en", "the loop never ends if the input ends before this", "c != '*n' & c != '*e'"),
        Warning::SameArguments =>
            ("lp", "@ calls itself for ever: its arguments are the same",
             "hand on what is nearer to the end: @(n - 1)"),
        Warning::ResultDropped => ("no", "@ only gives a value, which is thrown away", "x = @(..); keeps it"),
        Warning::StringAdded =>
            ("st", "this adds two addresses, and joins no strings",
             "write one after the other: putstr(s); putstr(t); of lib/print.b"),
        Warning::StoredBack => ("us", "this stores back what was just stored", "t = a; a = b; b = t; swaps a and b"),
        Warning::NotReached =>
            ("no", "nothing comes here: the statement before leaves", "put it before that one, or take it out"),
        Warning::DigitForCharacter =>
            ("en", "this is compared with a character, and is no digit",
             "'5' is the character, and c - '0' the number"),
        Warning::FallsIntoCase =>
            ("sw", "the case before this one goes on into it",
             "goto done; and done: ; after the switch, or break; in edition 2"),
        Warning::FormValues =>
            ("ar", "the form asks for another number of values",
             "d, u, o and x are numbers, c a character, s a string: a value for each"),
        Warning::TwoIndices =>
            ("ix", "nothing sets the words of @ to addresses",
             "one index: @[4 * i + k] is the word k of row i, in rows of 4"),
        Warning::AssignsNot => ("tr", "this assigns what ! gives, 1 or 0", "!= compares: x != 3"),
        Warning::ProductTooLarge =>
            ("nu", "no word holds this product", "words go from -32768 to 32767: count in thousands"),
        Warning::NumberPut =>
            ("st", "putchar writes a character, and this is a number",
             "printn(n, 10) writes a number, and putchar('0' + n) a digit"),
        Warning::AddressesCompared =>
            ("st", "this compares two addresses, and no characters",
             "a loop compares char(s, i) and char(t, i), as in examples/copy.b"),
        Warning::ValueForAddress =>
            ("ar", "@ is handed over as a value, and not as an address", "&@ is the address of @"),
        Warning::CharacterCounted =>
            ("en", "this is a character, and no number: '5' is 53", "c - '0' is the number of a digit"),
        Warning::SlashEscape => ("es", "this is a slash and then a letter", "* begins an escape: '*n' is a newline"),
        Warning::WordCalled =>
            ("hi", "@ is a word of this function, and no function",
             "take another name for the word, or take the ( ) out"),
        Warning::SomeReturn =>
            ("rt", "@ gives 0 where this doesn't hold", "return(x); after it, or in an else, gives a value there, too"),
        Warning::QuotientCut => ("di", "this division drops its fraction", "multiply first: 9 * c / 5"),
        Warning::FirstTurnOnly =>
            ("no", "nothing comes here: the loop of line % turns once",
             "take the else out: its return comes after the loop"),
        Warning::StringMoved =>
            ("st", "this moves an address, and joins nothing",
             "one after the other: putstr(s); printn(n, 10); of lib/print.b"),
        Warning::TestedBefore =>
            ("no", "nothing comes here: the if of line % takes it", "ask for this before that one"),
        Warning::OnlyInIf =>
            ("lp", "once this is false, the loop of line % never ends",
             "what ends it, as i++; does, comes after the } of the if"),
        Warning::IndexKept =>
            ("ix", "@ gets the index, and is compared with the word",
             "@ = v[i]; keeps the word; or compare v[@], if the index is meant"),
        Warning::OwnResultDropped =>
            ("no", "@ only gives a value, and here it is thrown away", "return(@(..)); hands it on"),
        Warning::Slip(slip) => advice_of_slip(slip),
    }
}

#[rattlefmt::skip]
fn advice_of_slip(slip: Slip) -> (&'static str, &'static str, &'static str)
    ensures on_lines { IsTrue (list_all is_on_line (result.0.now ∷ result.1.now ∷ result.2.now ∷ [])) }
    ensures code { result.0.now ≡ slip_code slip }
{
    match slip {
        Slip::VectorAssigned =>
            ("ix", "this loses the address of the vector @", "@[0] = x; stores in its first word, and a loop in all"),
        Slip::VectorCopied =>
            ("ix", "this copies an address, and no words", "a loop copies them: @[i] = v[i];"),
        Slip::SameNow =>
            ("us", "both are the same here: line % made them so",
             "reckon first, and copy then: t = a - b; a = b; b = t;"),
        Slip::CopiedLate =>
            ("us", "@ has its new value here, since line %", "copy the old one first: a = b; b = c;"),
        Slip::OtherExtreme =>
            ("tr", "this puts the other extreme into @", "> finds the largest one, and < the smallest one"),
        Slip::LeastFromZero =>
            ("us", "@ begins with 0, and nothing is smaller", "@ = v[0]; begins with the first one"),
        Slip::LargestFromZero =>
            ("us", "@ begins with 0, and numbers below 0 are smaller", "@ = v[0]; begins with the first one"),
        Slip::NotKept =>
            ("us", "@ never changes: the assignment is turned round", "@ = x; keeps the new one in @"),
        Slip::SameTwice =>
            ("ix", "this index has the word of one loop twice", "v[4 * i + k] is the word k of row i, in rows of 4"),
        Slip::NotSetBack =>
            ("lp", "@ isn't set back in the loop of line %", "@ = 0; at the beginning of each turn"),
        Slip::AfterLast =>
            ("ix", "this begins with the '*e' after the last character",
             "n characters have the indices 0 to n - 1: char(s, n - 1 - i)"),
        Slip::NotEnded =>
            ("st", "nothing stores the '*e' at the end of @", "lchar(@, i, '*e'); after the loop ends the string"),
        Slip::ComparedAlone =>
            ("st", "compare gives 0 for strings that are the same", "compare(s, t) == 0 asks for that, != 0 for others"),
        Slip::NewlineNext =>
            ("en", "the newline after this character is read next", "a second getchar(); right after it reads that away"),
        Slip::PopsAbove =>
            ("ix", "this word of @ is above the last stored one", "@[--n] goes with @[n++] = x;"),
        Slip::WordForAddress =>
            ("ar", "this hands over a word of @, and no address", "&@[i] is the address of @[i]"),
        Slip::CharacterLost =>
            ("en", "a second getchar() reads another character", "c = getchar(); once, and then c == 'a'"),
        Slip::CharacterForString =>
            ("st", "putstr writes strings, and this is a character", "putchar(c); or double quotes: \"a\""),
        Slip::NumberForString =>
            ("st", "putstr writes strings, and this is a number", "printn(n, 10); writes a number"),
        Slip::FormKind =>
            ("ar", "the form has an item of another kind for this",
             "d is for a number, c for a character, s for a string"),
        Slip::CallsAway =>
            ("lp", "this call goes away from what ends the calls", "hand on what is nearer to the end: @ - 1"),
        Slip::StepsPast =>
            ("lp", "@ never has this value: its steps go past it", "< and > end the loop there, too: while(i < 10)"),
        Slip::NeverAgain =>
            ("lp", "this loop never turns once that of line % has ended", "i = 0; before it, where i counts"),
        Slip::LastTurnOnly =>
            ("lp", "the last turn of the loop of line % alone decides @",
             "set it once before the loop, and take this else out"),
        Slip::DividesByZero =>
            ("di", "@ is 0 in the first turn: this divides by 0", "begin with 1, or ask before: if(@ != 0)"),
        Slip::CountsFirst =>
            ("lp", "@ is counted here before its turn uses it", "put this last into the loop, to begin with 1"),
        Slip::ValueKept =>
            ("ar", "this copies the value of @, and no address", "&@ is the address of @"),
        Slip::VectorReckoned =>
            ("ix", "@ is a vector, and here its address is reckoned with", "@[i] is its word of index i"),
        Slip::CountsEnd =>
            ("en", "@ has counted the '*e', too, in the loop of line %", "return(@ - 1); or count it in the loop's body"),
        Slip::SameAsked =>
            ("lp", "@ calls itself for ever: what is asked for is the same",
             "hand on another value of that in its place"),
        Slip::WordStored =>
            ("st", "this stores a whole word: two characters", "lchar(s, i, 'x'); stores one"),
        Slip::RemainderBelow =>
            ("di", "this remainder is below 0 where the difference is", "add the divisor first: i - n + 26"),
        Slip::RoomTooSmall =>
            ("ix", "@ has fewer characters than this", "auto @ 40; has room for 81 characters and their '*e'"),
        Slip::NotFirst =>
            ("tr", "the ! belongs to the one operand right after it", "parentheses: !(flags & 4)"),
        Slip::ProductOfZero =>
            ("us", "@ begins with 0: the product of line % stays 0", "@ = 1; begins a product"),
        Slip::BaseOfZero => ("us", "each product of @ with this is 0", "return(1); ends a product"),
        Slip::ZeroDivisor =>
            ("di", "@ is 0 here: nothing changes it after line %", "count it, as @++; does, or divide by another word"),
        Slip::RemainderKept =>
            ("lp", "the loop of line % never ends where this isn't 0", "n = n / 10; takes the last digit away"),
        Slip::DividedByOne =>
            ("di", "@ begins with 1, by which each number is divided", "@ = 2; is the first divisor that tells"),
        Slip::SetLater =>
            ("in", "@ is used here before line % sets it", "this comes after line %, which sets @"),
        Slip::ZeroEnd => ("en", "a string ends with '*e', 4, and not with 0", "lchar(s, n, '*e'); ends it"),
        Slip::CallsPast =>
            ("lp", "this goes past the number at which the calls end", "if(@ < 2) ends them for all below 2"),
        Slip::CharacterIndex =>
            ("ix", "@ is a character here, past the last word", "@ - 'a' is 0 for 'a', 1 for 'b', and so on"),
        Slip::HalfStays =>
            ("lp", "the loop of line % may never end: @ stays",
             "the middle was looked at: @ goes one past it, + 1"),
        Slip::NextPast =>
            ("ix", "the loop of line % goes one past the end of @",
             "v[i + 1] is the last word where i is n - 2: while(i < n - 1)"),
        Slip::EndTaken =>
            ("en", "the '*e' at the end of the input comes here, too",
             "while((@ = getchar()) != '*e') reads and asks at once"),
        Slip::LeavesCountOut =>
            ("lp", "this goto leaves out line %, which counts @", "put the label before it, to count in each turn"),
        Slip::BeginsAgain =>
            ("lp", "@ begins anew here after each goto, as in line %", "put the label after this"),
        Slip::BothEvaluated =>
            ("di", "& evaluates this even where @ is 0", "one if in another, or @ == 0 ? 0 : .."),
        Slip::ZeroAfter =>
            ("lp", "@ is 0 here: line % counts it down to that", "keep it before that loop: old = @;"),
        Slip::SharedCounter =>
            ("lp", "all calls share the @ that line % counts", "auto @; gives each call its own"),
        Slip::MovesAddress =>
            ("no", "the ++ or -- moves @, and no word there", "(*@)++; counts the word at @"),
        Slip::ShiftOfSum =>
            ("pr", "+ and - bind tighter than << and >>: the sum comes first",
             "parentheses show what is meant: (x << 8) + y, or x << (n + 1)"),
    }
}
