//! The commands of the program with their options and arguments, as `clap` reads them.
ghost use Rattle.std.specs.Prelude.{◌≡◌, IfOk, false};
ghost use Rattle.clap.specs.Words.{app_of, new_app, rule_of};
ghost use Rattle.bcommand.specs.CommandLine.{bare_line, command_line};
ghost use Rattle.bcommand.specs.Rows.{command_in, line_in, rule_in};

use crate::texts::{
    ABOUT, CHECK_HELP, COMPILE_HELP, COUNT_HELP, FIND_HELP, FORMAT_HELP, GO_HELP, HELP, LIST_HELP,
    MAP_HELP, MIGRATE_HELP, NAMES_HELP, PORT_HELP, RUN_HELP, SHOW_HELP, TRACE_HELP, TRY_HELP,
    VERIFY_HELP, VERSION,
};
use clap::{Arg, ArgAction, Command, value_parser};
use std::alloc::{AllocError, Global};

/// A command, with its texts of help.
#[derive(Clone, Copy)]
pub(crate) struct CommandRow {
    name: &'static str,
    about: &'static str,
    usage: Option<&'static str>,
    help: &'static str,
    arguments: &'static [ArgumentRow],
}

/// An option, a flag or an argument of a command, with its text of help.
#[derive(Clone, Copy)]
pub(crate) struct ArgumentRow {
    id: &'static str,
    kind: GivenAs,
    help: &'static str,
}

/// How an option, a flag or an argument is given.
#[derive(Clone, Copy)]
pub(crate) enum GivenAs {
    /// A flag, and whether it has to be there.
    Flag(bool),
    /// An option with a number from 1 to this one.
    Number(u32),
    /// An option with a text, and how its help calls the text.
    Text(&'static str),
    /// The same, which may be given often.
    Repeated(&'static str),
    /// An option with a text that comes after `=`, or is left out. The text of its command tells it: `clap` would show
    /// its value as one that has to be there.
    Attached(&'static str),
    /// An argument, and whether it has to be there.
    Positional(bool),
    /// One argument or more, the last ones.
    Positionals,
}

/// The most steps that a command may ask for.
const MOST_STEPS: u32 = 4_000_000_000;

const EDITION: ArgumentRow = ArgumentRow {
    id: "edition",
    kind: GivenAs::Number(2),
    help: "The edition of the source, 1 or 2; 1 if not given",
};

const STEPS: ArgumentRow = ArgumentRow {
    id: "steps",
    kind: GivenAs::Number(MOST_STEPS),
    help: "At most N steps, 1 to 4000000000; 10000000 if not given",
};

const TRACE_STEPS: ArgumentRow = ArgumentRow {
    id: "steps",
    kind: GivenAs::Number(MOST_STEPS),
    help: "At most N steps, 1 to 4000000000; 1000 if not given",
};

const MOMENT: ArgumentRow = ArgumentRow {
    id: "steps",
    kind: GivenAs::Number(MOST_STEPS),
    help: "Draws memory after N steps, 1 to 4000000000",
};

const FROM: ArgumentRow = ArgumentRow {
    id: "from",
    kind: GivenAs::Number(MOST_STEPS),
    help: "Shows steps from N on, 1 to 4000000000; 1 if not given",
};

const LAST: ArgumentRow = ArgumentRow {
    id: "last",
    kind: GivenAs::Number(MOST_STEPS),
    help: "Shows the last N of the steps, 1 to 4000000000",
};

const SHOWN_STEPS: ArgumentRow = ArgumentRow {
    id: "steps",
    kind: GivenAs::Number(MOST_STEPS),
    help: "At most N steps, 1 to 4000000000; 2000 shown if not given",
};

const INPUT: ArgumentRow = ArgumentRow {
    id: "input",
    kind: GivenAs::Text("TEXT"),
    help: "The input of the program, in place of standard input",
};

const CHECK: ArgumentRow = ArgumentRow {
    id: "check",
    kind: GivenAs::Flag(false),
    help: "Writes nothing, and ends with 2 where it would change",
};

const FUNCTION: ArgumentRow = ArgumentRow {
    id: "function",
    kind: GivenAs::Text("NAME"),
    help: "Shows the steps of this function; of all if not given",
};

const NO_LIMIT: ArgumentRow = ArgumentRow {
    id: "no-limit",
    kind: GivenAs::Flag(false),
    help: "Makes as many steps as the run takes",
};

const WHERE: ArgumentRow = ArgumentRow {
    id: "where",
    kind: GivenAs::Flag(false),
    help: "Tells where a trap or the limit came, and what it means",
};

const CAREFUL: ArgumentRow = ArgumentRow {
    id: "careful",
    kind: GivenAs::Attached("HOW"),
    help: "Stops at a word never set or off a vector; =warn, =wraps",
};

const SHOWN_CAREFUL: ArgumentRow = ArgumentRow {
    id: "careful",
    kind: GivenAs::Attached("HOW"),
    help: "Up to a word never set or off a vector; =wraps",
};

const CODE_WHERE: ArgumentRow = ArgumentRow {
    id: "where",
    kind: GivenAs::Flag(false),
    help: "Tells where the text or its run went wrong, and why",
};

const JSON: ArgumentRow = ArgumentRow {
    id: "json",
    kind: GivenAs::Flag(false),
    help: "Writes one object on each line, for an editor",
};

const FIX: ArgumentRow = ArgumentRow {
    id: "fix",
    kind: GivenAs::Flag(false),
    help: "Writes the source with the mends that need no choice",
};

const RULES: ArgumentRow = ArgumentRow {
    id: "rules",
    kind: GivenAs::Text("RULES"),
    help: "Tells where the rules in the file RULES fit, too",
};

const NEEDED_JSON: ArgumentRow = ArgumentRow {
    id: "json",
    kind: GivenAs::Flag(true),
    help: "Writes an object on each line, for an editor; always needed",
};

const SVG: ArgumentRow = ArgumentRow {
    id: "svg",
    kind: GivenAs::Flag(false),
    help: "Draws a picture, an SVG file",
};

const WITH: ArgumentRow = ArgumentRow {
    id: "with",
    kind: GivenAs::Repeated("LIB"),
    help: "Puts the source in LIB after FILE; as often as wanted",
};

const CODE: ArgumentRow = ArgumentRow {
    id: "code",
    kind: GivenAs::Flag(false),
    help: "FILE is a code text, not a source",
};

const MADE: ArgumentRow = ArgumentRow {
    id: "made",
    kind: GivenAs::Text("CODE"),
    help: "The code text that another compiler made of FILE",
};

const LINES: ArgumentRow = ArgumentRow {
    id: "lines",
    kind: GivenAs::Text("LINES"),
    help: "A number for each place of CODE: its line of FILE",
};

const NAMES: ArgumentRow = ArgumentRow {
    id: "names",
    kind: GivenAs::Text("NAMES"),
    help: "The names of the words and labels in CODE",
};

const FILE: ArgumentRow = ArgumentRow {
    id: "FILE",
    kind: GivenAs::Positional(true),
    help: "The file; /dev/stdin is standard input",
};

const FILE_OR_INPUT: ArgumentRow = ArgumentRow {
    id: "FILE",
    kind: GivenAs::Positional(true),
    help: "The file; - is standard input",
};

const PATTERN: ArgumentRow = ArgumentRow {
    id: "PATTERN",
    kind: GivenAs::Positional(true),
    help: "An expression or a statement of B with holes, as $x",
};

const FILES: ArgumentRow = ArgumentRow {
    id: "FILE",
    kind: GivenAs::Positionals,
    help: "The files, each a source of its own",
};

const NAME: ArgumentRow = ArgumentRow {
    id: "NAME",
    kind: GivenAs::Positional(false),
    help: "The definition to list; all if not given",
};

const COMMANDS: [CommandRow; 16] = [
    CommandRow {
        name: "compile",
        about: "Compiles the source on standard input to code text on standard output",
        usage: Some("b compile [OPTIONS] < FILE"),
        help: COMPILE_HELP,
        arguments: &[EDITION, WITH],
    },
    CommandRow {
        name: "run",
        about: "Runs the code text in FILE",
        usage: None,
        help: RUN_HELP,
        arguments: &[STEPS, NO_LIMIT, FILE, CODE_WHERE],
    },
    CommandRow {
        name: "go",
        about: "Compiles the source in FILE and runs it",
        usage: None,
        help: GO_HELP,
        arguments: &[
            EDITION, STEPS, NO_LIMIT, FILE, WHERE, CAREFUL, WITH, CODE, MADE, LINES, NAMES,
        ],
    },
    CommandRow {
        name: "try",
        about: "Checks the source in FILE, and runs it carefully",
        usage: None,
        help: TRY_HELP,
        arguments: &[EDITION, STEPS, NO_LIMIT, FILE, WITH],
    },
    CommandRow {
        name: "migrate",
        about: "Writes the code text of edition 1 on standard input in edition 2",
        usage: Some("b migrate < FILE"),
        help: MIGRATE_HELP,
        arguments: &[],
    },
    CommandRow {
        name: "verify",
        about: "Tells where operands can lack in the code text in FILE",
        usage: None,
        help: VERIFY_HELP,
        arguments: &[FILE],
    },
    CommandRow {
        name: "list",
        about: "Lists the code of the source in FILE, with the lines it comes from",
        usage: None,
        help: LIST_HELP,
        arguments: &[EDITION, FILE_OR_INPUT, WITH, CODE, MADE, LINES, NAMES, NAME],
    },
    CommandRow {
        name: "map",
        about: "Shows where each name of the source in FILE lies in memory",
        usage: None,
        help: MAP_HELP,
        arguments: &[
            EDITION,
            FILE_OR_INPUT,
            WITH,
            CODE,
            MADE,
            LINES,
            NAMES,
            SVG,
            MOMENT,
        ],
    },
    CommandRow {
        name: "check",
        about: "Tells what is wrong in the source in FILE, where, and how to fix it",
        usage: None,
        help: CHECK_HELP,
        arguments: &[EDITION, FILE_OR_INPUT, WITH, JSON, FIX, RULES],
    },
    CommandRow {
        name: "find",
        about: "Finds where a pattern of B fits in the sources in the FILEs",
        usage: None,
        help: FIND_HELP,
        arguments: &[EDITION, JSON, PATTERN, FILES],
    },
    CommandRow {
        name: "names",
        about: "Tells an editor what each name of the source in FILE is, and where",
        usage: None,
        help: NAMES_HELP,
        arguments: &[EDITION, FILE_OR_INPUT, WITH, NEEDED_JSON],
    },
    CommandRow {
        name: "trace",
        about: "Runs the source in FILE and shows each step",
        usage: None,
        help: TRACE_HELP,
        arguments: &[
            EDITION,
            FILE,
            WITH,
            CODE,
            MADE,
            LINES,
            NAMES,
            TRACE_STEPS,
            FROM,
            LAST,
            FUNCTION,
        ],
    },
    CommandRow {
        name: "count",
        about: "Runs the source in FILE and counts the steps of each line",
        usage: None,
        help: COUNT_HELP,
        arguments: &[
            EDITION, FILE, WITH, CODE, MADE, LINES, NAMES, STEPS, NO_LIMIT, JSON,
        ],
    },
    CommandRow {
        name: "show",
        about: "Runs the source in FILE and writes a page that shows the run",
        usage: Some("b show [OPTIONS] <FILE> > run.html"),
        help: SHOW_HELP,
        arguments: &[
            EDITION,
            FILE,
            WITH,
            CODE,
            MADE,
            LINES,
            NAMES,
            SHOWN_STEPS,
            FROM,
            LAST,
            INPUT,
            SHOWN_CAREFUL,
        ],
    },
    CommandRow {
        name: "format",
        about: "Lays out the source in FILE in one style",
        usage: None,
        help: FORMAT_HELP,
        arguments: &[EDITION, FILE_OR_INPUT, CHECK],
    },
    CommandRow {
        name: "port",
        about: "Writes the source in FILE, of an old or later form of B, in this one",
        usage: None,
        help: PORT_HELP,
        arguments: &[EDITION, FILE_OR_INPUT, WITH],
    },
];

/// The command line of the program.
pub(crate) fn command<'a>(alloc: Global) -> Result<Command<'a>, AllocError>
    ensures { IfOk result (λ c. app_of c ≡ command_line) }
{
    line_of(alloc, &COMMANDS)
}

// The command line with the commands of these rows.
fn line_of<'a>(alloc: Global, rows: &[CommandRow]) -> Result<Command<'a>, AllocError>
    ensures { IfOk result (λ c. app_of c ≡ line_in rows.now) }
{
    let mut all = bare_command(alloc)?;
    for row in rows {
        all = all.subcommand(command_of(alloc, *row)?)?;
    }
    Ok(all)
}

// The command line without its commands.
fn bare_command<'a>(alloc: Global) -> Result<Command<'a>, AllocError>
    ensures { IfOk result (λ c. app_of c ≡ bare_line) }
{
    let all = Command::new(alloc, "b")
        .bin_name("b")?
        .about(ABOUT)
        .version(VERSION)
        .after_help(HELP)
        .subcommand_required(true);
    Ok(all)
}

// The command of a row.
fn command_of<'a>(alloc: Global, row: CommandRow) -> Result<Command<'a>, AllocError>
    ensures { IfOk result (λ c. app_of c ≡ command_in row) }
{
    let mut command = named_command(alloc, row);
    for argument in row.arguments {
        command = command.arg(argument_of(alloc, *argument))?;
    }
    Ok(command)
}

// The same without its arguments.
fn named_command<'a>(alloc: Global, row: CommandRow) -> Command<'a>
    ensures { app_of result ≡ new_app row.name.now }
{
    let command = Command::new(alloc, row.name)
        .about(row.about)
        .after_help(row.help);
    match row.usage {
        Some(usage) => command.override_usage(usage),
        None => command,
    }
}

// The option, flag or argument of a row.
fn argument_of<'a>(alloc: Global, row: ArgumentRow) -> Arg<'a>
    ensures rule { rule_of result ≡ rule_in row }
    ensures local { result.global ≡ false }
{
    let arg = Arg::new(alloc, row.id).help(row.help);
    match row.kind {
        GivenAs::Flag(is_required) => arg
            .long(row.id)
            .required(is_required)
            .action(ArgAction::SetTrue),
        GivenAs::Number(most) => arg
            .long(row.id)
            .value_name("N")
            .action(ArgAction::Set)
            .value_parser(value_parser!(u64).range(1..=i64::from(most))),
        GivenAs::Text(name) => arg.long(row.id).value_name(name).action(ArgAction::Set),
        GivenAs::Repeated(name) => arg.long(row.id).value_name(name).action(ArgAction::Append),
        GivenAs::Attached(name) => arg
            .long(row.id)
            .value_name(name)
            .hide(true)
            .action(ArgAction::Set),
        GivenAs::Positional(is_required) => arg.required(is_required).action(ArgAction::Set),
        GivenAs::Positionals => arg.required(true).action(ArgAction::Append),
    }
}
