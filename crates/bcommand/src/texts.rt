//! The texts of help, and the messages for a command line that can't be read.

ghost use Rattle.std.specs.Prelude.{◌≡◌};
ghost use Rattle.bcommand.specs.CommandLine.{clash_line};

use crate::job::Clash;

/// The version of this program, and the logic of the kits that prove it.
pub(crate) const VERSION: &str = "1.0.0, proved with the Rattle logic dac8208d650f15bf";

/// The message for a command line with a word that isn't UTF-8.
pub const UNREAD: &str = "\
error: a word of the command line is not UTF-8

For more information, try '--help'.
";

const LIMITS: &str = "\
error: the argument '--steps <N>' cannot be used with '--no-limit'

For more information, try '--help'.
";

const ROWS: &str = "\
error: the argument '--from <N>' cannot be used with '--last <N>'

For more information, try '--help'.
";

const ORIGINS: &str = "\
error: the argument '--code' cannot be used with '--made <CODE>' or '--lines <LINES>'

For more information, try '--help'.
";

const LIBS: &str = "\
error: the argument '--code' cannot be used with '--with <LIB>'

For more information, try '--help'.
";

const MADE: &str = "\
error: the argument '--made <CODE>' cannot be used without '--lines <LINES>'

For more information, try '--help'.
";

const LINES: &str = "\
error: the argument '--lines <LINES>' cannot be used without '--made <CODE>'

For more information, try '--help'.
";

const NAMES: &str = "\
error: the argument '--names <NAMES>' cannot be used without '--made <CODE>'

For more information, try '--help'.
";

const PLAIN: &str = "\
error: the argument '--code' or '--made <CODE>' of 'go' cannot be used without '--where' or '--careful'

For more information, try '--help'.
";

const UNNAMED: &str = "\
error: the argument '--careful' of a code text cannot be used without '--names <NAMES>'

For more information, try '--help'.
";

const CARE: &str = "\
error: the argument '--careful' is '--careful=stay', '--careful=warn' or '--careful=wraps'

For more information, try '--help'.
";

const SHOWN_CARE: &str = "\
error: the argument '--careful' of 'show' is '--careful=stay' or '--careful=wraps'

For more information, try '--help'.
";

const RULES: &str = "\
error: the argument '--fix' cannot be used with '--rules <RULES>'

For more information, try '--help'.
";

const FIX: &str = "\
error: the argument '--fix' cannot be used with '--json'

For more information, try '--help'.
";

/// The message for options that contradict each other.
pub fn clash_text(clash: Clash) -> &'static str
    ensures { result.now ≡ clash_line clash }
{
    match clash {
        Clash::Limits => LIMITS,
        Clash::Rows => ROWS,
        Clash::Origins => ORIGINS,
        Clash::Libs => LIBS,
        Clash::Made => MADE,
        Clash::Lines => LINES,
        Clash::Names => NAMES,
        Clash::Plain => PLAIN,
        Clash::Unnamed => UNNAMED,
        Clash::Care => CARE,
        Clash::Fix => FIX,
        Clash::ShownCare => SHOWN_CARE,
        Clash::Rules => RULES,
    }
}

pub(crate) const ABOUT: &str =
    "The compiler for the language B of 1972, and the machine that runs its code.";

pub(crate) const HELP: &str = "\
Examples:
  b try hello.b                       checks a source and runs it carefully
  b go hello.b                        compiles a source and runs it
  b go --edition 2 menu.b             the same with a source of edition 2
  b go --where hello.b                tells where a trap came
  b go --careful hello.b              stays at a word never set or off a vector
  b go --with print sum.b             puts a second source after the first one
  b compile < hello.b > hello.code    writes its code text into a file
  b run hello.code                    runs the code text
  b run --where hello.code            tells where it went wrong
  b migrate < hello.code > new.code   writes it as a code text of edition 2
  b verify hello.code                 tells where operands can lack in it
  b list hello.b                      lists its code beside the source
  b map hello.b                       shows where its names lie in memory
  b map --svg hello.b > hello.svg     draws it as a picture
  b trace hello.b                     shows each step of its run
  b show hello.b > run.html           writes a page that shows its run
  b count hello.b                     counts the steps of each line
  b check hello.b                     tells what is wrong, where, how to fix it
  b find 'while($c) $$s' hello.b      finds where a pattern of B fits
  b names --json hello.b              tells an editor what each name is
  b format hello.b > new.b            lays it out in one style
  b port old.b > new.b                writes an old program in this language
  b go --help                         tells more about a command

There are two editions of the language. In edition 2, break leaves the nearest
while or switch, and a switch without a case for its value goes to its default.
In edition 1 these two words are names like others. A source is of edition 1
unless --edition 2 comes after the name of the command. Use 1 for old sources
and 2 for new ones. b run, b migrate and b verify have no --edition: a code
text begins with the line B 2 if it is of edition 2.

--with LIB puts the source in LIB after FILE, as often as wanted, and a newline
before each. LIB is host, input, numbers, print, raise, strings, test or
vectors, which the library has; or it is a path, with a slash or a point in it.
The source is then all of these bytes, and its lines are counted from the first
one of FILE on. check, try, names, trace, count, show, and go with --where or
--careful tell a line of LIB by its own number and the name of its file.

The status is 0 if a source compiles. After a run it is the exit status of the
program. These are the other statuses, with their line on standard error:
  1    a fault of the source. The line is two letters, perhaps a name or one of
       the words case, default and break, and the number of a source line
         sx  a token that can't be there; sx case, sx default: it is outside
             a switch; sx break: it is outside a while or switch
         ch  a byte that begins no token
         */  a comment without an end
         nm  a name of more than eight characters
         ct  a wrong number, character constant or string
         rd  a name that is defined or declared already; rd case, rd default:
             the switch has this case, or a default, already
         lv  an operand that must be an lvalue and isn't
         un  a name that is neither declared nor a label
         >s  the 129th name of a function
         >c  the 257th case of a function
         >e  a definition past a limit of size
  130  a finding of b go --careful, of which its help tells; or a trap: the run
       can't go on, and the line is trap and two letters
         dz  a division by 0
         fn  a call of something that is no function
         gt  a goto to something that is no label of the function
         st  a call whose frame has no room in memory
         dp  more than 4096 active calls
         bs  a base of printn that isn't 2 to 10
         sk  too few operands, or no instruction at this place
  131  the limit of steps. The line is limit; --steps N or --no-limit gives more
  132  a text that is no code text. The line is code and the number of its first
       wrong line; or the code doesn't load, and the line is load and a number
         1   a name is defined twice
         2   there are too many data or labels
         3   a name isn't defined
         4   there is no function main
  133  a read or a write failed, or a file can't be read. There is no line where
       run or go, without --where or --careful, can't read FILE; else the line
       names the file
  134  out of memory. There is no line
  135  a wrong command line. The lines tell what is wrong with it";

pub(crate) const COMPILE_HELP: &str = "\
The code of a definition is written when the compiler has read all of it. If
the source has a fault, the code of the definitions before it is written, and
the last line, E, is missing. --with LIB compiles the source in LIB after that
on standard input; all LIBs are read first.

Examples:
  b compile < hello.b > hello.code
  b compile --edition 2 < menu.b > menu.code
  b compile --with print < sum.b > sum.code

Statuses: 0 compiled, 1 a fault of the source, 133 a failed read or write,
134 out of memory, 135 a wrong command line. b --help explains the letters.";

pub(crate) const MIGRATE_HELP: &str = "\
The code text of edition 2 has one line more, the first one, B 2. It does the
same. A definition is written when all of it was read. If the input is no code
text of edition 1, the line is code and the number of its first wrong line. Then
the definitions before that line are written, and the last line, E, is missing.

Example:
  b migrate < hello.code > new.code

Statuses: 0 written, 132 no code text of edition 1, 133 a failed read or write,
134 out of memory, 135 a wrong command line. b --help explains the letters.";

pub(crate) const VERIFY_HELP: &str = "\
Each line tells a place of a function, the line of FILE, and what is wrong: an
instruction that takes more operands than there are, a way to a place to which
another way comes with another number of operands, or a way past the last
instruction. Where none of these is told, no run of the code gives the trap sk,
on any input. A place that no way comes to, and operands that a return drops,
are told, too, and do no harm.

Example:
  b verify hello.code

Statuses: 0 no run gives sk, 1 some may, 132 no code text or one that doesn't
load, 133 a failed read or write, 134 out of memory, 135 a wrong command line.
b --help explains the letters.";

pub(crate) const LIST_HELP: &str = "\
The first column has the place of an instruction in its function, or @ and an
address of memory. The next ones have the number of the source line, the line of
the code text, the source line, and the name of an automatic or a label. NAME is
the name of a definition in the source. With --with LIB the lines are counted
from the first one of FILE on.

With --code, FILE is a code text of any compiler, and its own lines are shown.
With --made CODE and --lines LINES, another compiler made CODE of FILE. LINES
has a line for each place of CODE: the line of FILE that it comes from, alone or
with its column. NAMES has the names of the words and labels of its functions.
With --code there is no LIB, and no edition is needed.

Examples:
  b list hello.b
  b list --edition 2 menu.b main
  b list --with print sum.b printf
  b list --code hello.code

Statuses: 0 listed, 1 a fault of the source, 132 no code text or one that
doesn't load, 133 a failed read or write, 134 out of memory, 135 a wrong command
line, no definition NAME, or LINES or NAMES that don't fit. b --help explains
the letters.";

pub(crate) const MAP_HELP: &str = "\
A row has the address of a name, how many words it has, and the first six of
them as they are before the run. The frame of main begins at the data end.

--svg draws the same as a picture, with at most 48 names and nine words of each.
--steps N draws the memory after N steps of the program, with the frames of the
active calls. The program then reads standard input, and its output is dropped.

With --code, FILE is a code text of any compiler, and its own lines are shown.
With --made CODE and --lines LINES, another compiler made CODE of FILE. LINES
has a line for each place of CODE: the line of FILE that it comes from, alone or
with its column. NAMES has the names of the words and labels of its functions.
With --code there is no LIB, and no edition is needed.
A picture has the frames of a code text with NAMES alone.

Examples:
  b map hello.b
  b map --svg --edition 2 menu.b > menu.svg
  b map --svg --steps 40 hello.b > hello.svg
  b map --with print sum.b
  b map --code hello.code

Statuses: 0 shown, 1 a fault of the source, 132 no code text or one that
doesn't load, 133 a failed read or write, 134 out of memory, 135 a wrong command
line, or LINES or NAMES that don't fit. b --help explains the letters.";

pub(crate) const TRACE_HELP: &str = "\
A row has the number of a step, the function, the place in it, the number of the
source line, the instruction, and the topmost operands before it, at most five.
After the row come the words that the step stored, each with its address, and
what it wrote. Words are shown as signed numbers. After a trap, or at the limit
of steps, the trace shows the place and the calls that led there, each with at
most six parameters.

--last N shows the last N steps of a run, however long it is, or the last N of a
function. With it, --steps is 10000000 if not given. A line of a LIB is shown by
its own number and the name of LIB.

With --code, FILE is a code text of any compiler, and its own lines are shown.
With --made CODE and --lines LINES, another compiler made CODE of FILE. LINES
has a line for each place of CODE: the line of FILE that it comes from, alone or
with its column. NAMES has the names of the words and labels of its functions.
With --code there is no LIB, and no edition is needed.

The program reads standard input. Its output is in the trace alone. The trace is
kept in memory, and written when the run is over.

Examples:
  b trace --edition 2 menu.b
  b trace --from 100 --steps 200 --function main hello.b
  b trace --last 20 hello.b
  b trace --with print sum.b
  b trace --made hello.code --lines hello.lines hello.bas

Statuses: 0 to 127 the program's own, 1 also a fault of the source, 130 a trap,
131 the limit of steps, 132 no code text or one that doesn't load, 133 a failed
read or write, 134 out of memory, 135 a wrong command line, no function NAME, or
LINES or NAMES that don't fit. b --help explains the letters.";

pub(crate) const CHECK_HELP: &str = "\
For a fault, the first line is that of b compile, or load 2 or load 3 as b run
writes it. Then come the place and a sentence, the source line with a mark, and
the fix. A warning tells of code that compiles and is probably a mistake. It
looks the same, without that first line. --json writes each fault or warning as
one object on one line, and nothing else. A source without a function main has
no fault here. A place in a LIB is told by the name of LIB and its own line; the
first line has the line in the whole, as b go has it.

--fix writes FILE to standard output with each mend that needs no choice, and
tells each beside it, then the first line of what is left, as check has it. No
byte of a comment or of a string is lost. The script b, which runs this program,
knows --write and --diff, too: b check --fix --write FILE puts the text in the
place of FILE, and --diff shows what would change and writes nothing. A link is
refused, and what is no plain file. FILE is never half written.

--rules RULES tells after that, as warnings, where the rules in the file RULES
fit in FILE: patterns of B with holes and conditions, as docs/RULES.md has them.
The sentence is that of the rule's line says, or has its name. RULES that aren't
rules get one line with its line, its column and why, and status 1.

Examples:
  b check hello.b
  b check --fix hello.b > new.b
  b check --fix --write hello.b
  b check --json --edition 2 menu.b
  b check --with print sum.b
  b check --rules class/loop/rules hello.b

Statuses: 0 no fault, 1 a fault of the source or of RULES, 132 code that doesn't
load, 133 a failed read or write, 134 out of memory, 135 a wrong command line.
b --help explains the letters.";

pub(crate) const FIND_HELP: &str = "\
PATTERN is one expression, or one statement of B with its ; or }. $x in it is
any expression, $$s any statement, $x:name any name, and ... any arguments or
statements in a row. The same hole again is the same once more. A part in
parentheses is as one without, and a < b fits b > a. docs/RULES.md has the rest.

Each place where it fits is told as b check tells a place: the FILE, the line
and the column, and the line of the source with a mark. --json writes each as
one object on one line. Each FILE is a source of its own. One with a fault isn't
looked at; a line beside the output tells where the fault is.

Examples:
  b find 'while($c) $$s' hello.b
  b find '$x = $x' *.b
  b find --json 'goto $x;' hello.b

Statuses: 0 it fits somewhere, 1 it fits nowhere, or isn't a pattern, 133 a
failed read or write, 134 out of memory, 135 a wrong command line.";

pub(crate) const NAMES_HELP: &str = "\
Each line is an object of JSON. First comes one for each comment. Then come, in
the order of the source, one where each construct begins, one where it ends, and
one for each token. A name is told with its role in this place: function,
external, parameter, automatic, extrn, label, mention or value. Its kind is the
role in which it is declared, and the place of that is told, too. A name that
this source doesn't declare is undefined.

A place has the file, the line in it, and the column in bytes. Of a token, the
column after its last byte comes next, after its line if that is another one.
Columns in units of UTF-16 are told where they are others. A source at fault has
its names, too. What is wrong is no token.

Examples:
  b names --json hello.b
  b names --json --edition 2 --with print menu.b

Statuses: 0 written, 133 a failed read or write, 134 out of memory, 135 a wrong
command line.";

pub(crate) const RUN_HELP: &str = "\
FILE is a code text, as b compile writes it; b go takes a source. A code text
begins with the line B 2 if it is of edition 2, so there is no --edition.

The program reads standard input and writes standard output. A step is one
instruction. If the line is limit, give more steps by --steps N or --no-limit.
With --where, a second line tells where a trap or the limit came: the function,
the place in it, the number of the line in FILE, and how many steps were made.
Then come this line of FILE, and what the trap means. After code n come line n
and what could come there; after load n comes what it means, with the name.

Examples:
  b run --steps 1000 hello.code
  b run --where hello.code

Statuses: 0 to 127 the program's own, 130 a trap, 131 the limit of steps,
132 no code text or one that doesn't load, 133 a failed read or write,
134 out of memory, 135 a wrong command line. b --help explains the letters.";

pub(crate) const GO_HELP: &str =
    "      --careful[=HOW]  Stops at a word never set or off a vector; =warn, =wraps

The program reads standard input and writes standard output. A step is one
instruction. If the line is limit, give more steps by --steps N or --no-limit.
With --where, a second line tells where a trap or the limit came: the function,
the place in it as b list shows it, the number of the source line, and how many
steps were made. Then come this line of the source, and what the trap means.
b trace --last N shows the steps before it. Where a fault is in a LIB, the
second line tells the line there and the name of LIB.

With --careful, which is short for --careful=stay, the run stays at the first
step with a finding. The line is
  careful set     the step reads a word that nothing has set
  careful index   its address has left the vector, the name, the parameters or
                  the string that it was made of
  careful low     no word of the program has its address
Then come the place, as with --where, and the names of the words. With
--careful=warn the run goes on, and each place is told once, at the end. With
--careful=wraps it stays at careful wraps, too: a sum, a difference or a product
that is below -32768 or above 32767.

With --where or --careful the program may be a code text of any compiler. With
--code, FILE is that text. With --made CODE and --lines LINES, another compiler
made CODE of FILE, and LINES has a line for each place of CODE: the line of FILE
that it comes from, alone or with its column, which is then told and marked.
NAMES has the names of the words and labels of its functions, by which --careful
knows them: a careful run needs it. With --code there is no LIB, and no edition
is needed.

Examples:
  b go --steps 1000 hello.b
  b go --edition 2 menu.b
  b go --where hello.b
  b go --careful hello.b
  b go --with print --with input sum.b
  b go --where --made hello.code --lines hello.lines hello.bas

Statuses: 0 to 127 the program's own, 1 also a fault of the source, 130 a trap
or a finding, 131 the limit of steps, 132 no code text or one that doesn't load,
133 a failed read or write, 134 out of memory, 135 a wrong command line, or
LINES or NAMES that don't fit. b --help explains the letters.";

pub(crate) const TRY_HELP: &str = "\
The first command for a program of your own. It tells what b check tells. If
that has no fault, it runs the program as b go --careful does, with the same
line and place. The last line tells what to do next; it begins with next. The
program reads standard input and writes standard output, where the warnings of
b check come before it. The line and what comes next go to standard error.

Examples:
  b try hello.b
  b try --edition 2 menu.b
  b try --with print --with input sum.b < numbers

Statuses: 0 to 127 the program's own, 1 also a fault of the source, 130 a trap
or a finding, 131 the limit of steps, 132 code that doesn't load, 133 a failed
read or write, 134 out of memory, 135 a wrong command line. b --help explains
the letters.";

pub(crate) const COUNT_HELP: &str = "\
Beside each line of the source stand how often its first instruction was made
and how many steps its code took. The three lines that took most are marked. The
numbers of steps add up to the steps of the run. --json writes one object on
each line.

With --code, FILE is a code text of any compiler, and its own lines are shown.
With --made CODE and --lines LINES, another compiler made CODE of FILE. LINES
has a line for each place of CODE: the line of FILE that it comes from, alone or
with its column. NAMES has the names of the words and labels of its functions.
With --code there is no LIB, and no edition is needed.

The program reads standard input, and its output is dropped. After a trap or at
the limit of steps the counts are those of the steps before it.

Examples:
  b count hello.b
  b count --no-limit --edition 2 menu.b < numbers
  b count --json --with print sum.b
  b count --code hello.code

Statuses: 0 to 127 the program's own, 1 also a fault of the source, 130 a trap,
131 the limit of steps, 132 no code text or one that doesn't load, 133 a failed
read or write, 134 out of memory, 135 a wrong command line, or LINES or NAMES
that don't fit. b --help explains the letters.";

pub(crate) const SHOW_HELP: &str =
    "      --careful[=HOW]  Up to a word never set or off a vector; =wraps

The page is one file that needs no network. It shows the source with the running
line marked, the operands, the active calls, the words of memory that the
program uses, and its output, at each step. Keys and a slider go from step to
step. If the run is longer than what is shown, the page says so.

The program reads standard input, or TEXT with --input TEXT. Its output is on
the page. The status is 0 where the page was written, whatever came of the run.

With --careful, short for --careful=stay, the page ends at the first step with a
finding of b go --careful, and tells it as its last sentence. It shows the last
2000 steps before that, unless --from or --last says which. --careful=wraps
looks for sums, differences and products that are no word, too. A run without a
finding is shown as without --careful, up to its end or the limit.

With --code, FILE is a code text of any compiler, and its own lines are shown.
With --made CODE and --lines LINES, another compiler made CODE of FILE. LINES
has a line for each place of CODE: the line of FILE that it comes from, alone or
with its column. NAMES has the names of the words and labels of its functions.
With --code there is no LIB, and no edition is needed.
--careful knows the words of a code text by NAMES, and needs it.

Examples:
  b show hello.b > run.html
  b show --careful hello.b > run.html
  b show --input 'a text' --edition 2 menu.b > run.html
  b show --last 500 hello.b > run.html
  b show --made hello.code --lines hello.lines hello.bas > run.html

Statuses: 0 written, 1 a fault of the source, 132 no code text or one that
doesn't load, 133 a failed read or write, 134 out of memory, 135 a wrong command
line, or LINES or NAMES that don't fit. b --help explains the letters.";

pub(crate) const PORT_HELP: &str = "\
FILE is of an old or a later form of B, or early C. It is written to standard
output in this language. One that loads alone, in edition 1, stays as it is.
Each change is told on standard error, with its line in FILE and a sentence;
after left: comes what stays as it is, or may mean something else. If it doesn't
compile then, it is mended as by b check --fix: that comes after mended:. The
last is the line that b go would write, if what was written doesn't compile or
load: b check tells more of that. Comments and strings keep their texts.

Changed are: assignment operators with = last, && and ||, ^ and ~, for, do,
repeat, continue and next, brackets in auto, $( and $), comments after // or #,
types, #define and other named constants, escapes by \\, hexadecimal numbers,
names of more than eight characters, cases of a range, extern, functions that
name no externals, printn without a base, and 0 or -1 for the end of a string
or of the input. break and default stay, and are in edition 2 alone.
--with LIB is for calls of the library: b --help tells more.

The script b, which runs this program, knows --write and --diff, too: b port
--write FILE puts the text in the place of FILE, and --diff shows what would
change and writes nothing. A link is refused, and what is no plain file. FILE is
never half written.

Examples:
  b port old.b > new.b
  b port --edition 2 --with print old.b > new.b
  b port --diff old.b

Statuses: 0 what was written compiles and loads, 1 a fault of it, 132 code that
doesn't load, 133 a failed read or write, 134 out of memory, 135 a wrong command
line. b --help explains the letters.";

pub(crate) const FORMAT_HELP: &str = "\
The tokens and the comments stay as they are, and in their order. Blanks and
line ends are set by one style: 4 blanks a level, at most 160, one statement a
line, and at most one empty line. The code of the source stays the same to the
byte. To lay out a source that is laid out changes nothing.

--check writes nothing, and ends with 2 where something would change. A source
with a wrong token is told, and nothing is written.

The script b, which runs this program, knows --write, too: b format --write FILE
puts the layout in the place of FILE. A link is refused, and what is no plain
file. FILE is never half written.

Examples:
  b format hello.b > new.b
  b format --write hello.b
  b format --check --edition 2 menu.b

Statuses: 0 written, or nothing would change, 1 a wrong token, 2 something would
change, 133 a failed read or write, 134 out of memory, 135 a wrong command line.
b --help explains the letters.";
