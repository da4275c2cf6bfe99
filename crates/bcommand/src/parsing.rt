//! The words of a command line, read.
ghost use Rattle.std.specs.Prelude.{◌≡◌, [], IfOk, IfErr, map, option_map};
ghost use Rattle.clap.specs.Words.{HasKind, fault_of, first_of, found_of, rows_of, subcommand_of, subcommand_rows_of};
ghost use Rattle.bcommand.specs.CommandLine.{asked, asked_of, command_line, edition_in, file_in, is_set_in, libs_in, option_number, question_of, source_in, source_shown, steps_in};
ghost use Rattle.bcommand.specs.CommandLine.{care_asked, care_known, check_in, count_in, go_in, going, list_in, map_in};
ghost use Rattle.bcommand.specs.CommandLine.{mapping, origin_asked, origin_in, origin_or_clash, origin_shown};
ghost use Rattle.bcommand.specs.CommandLine.{files_in, find_in, page_rows, pattern_in, rows_asked, run_in};
ghost use Rattle.bcommand.specs.CommandLine.{show_in, shown_care, shown_steps, trace_in, trace_steps, try_in};

use crate::commands::command;
use crate::job::{
    Care, Clash, Display, Job, MadeNames, OriginNames, Question, Rows, Search, SourceNames, Walk,
};
use bword::Edition;
use clap::{ArgMatches, Error};
use std::alloc::Global;

/// The steps of a run if the command doesn't say how many.
const DEFAULT_STEPS: u64 = 10_000_000;

/// The steps of a trace if the command doesn't say how many.
const DEFAULT_TRACE_STEPS: u64 = 1_000;

/// The steps on a page if the command doesn't say how many.
const DEFAULT_SHOWN_STEPS: u64 = 2_000;

/// What is found in the words of a command line, as `full_words` gives them; the first one is the program's own name.
///
/// A request for help is an error, too.
pub fn parse<'a>(alloc: Global, words: &'a [&'a str]) -> Result<ArgMatches<'a>, Error>
    ensures ok { IfOk result (λ m. (fault_of command_line (map (λ w. w.now) words.entry.now) ≡ [])
        × (subcommand_rows_of m ≡ subcommand_of command_line (map (λ w. w.now) words.entry.now))) }
    ensures err { IfErr result (HasKind (fault_of command_line (map (λ w. w.now) words.entry.now))) }
{
    command(alloc)?.try_get_matches_from(words)
}

/// What is asked for by what was found.
pub fn job_of<'m, 'a: 'm>(matches: &'m ArgMatches<'a>) -> Job<'m>
    ensures { asked_of result ≡ asked (subcommand_rows_of matches.now) }
{
    let Some((name, given)) = matches.subcommand() else {
        return Job::Compile(Edition::One, &[]);
    };
    match name {
        "run" => run_of(given),
        "go" => go_of(given),
        "try" => try_of(given),
        "migrate" => Job::Migrate,
        "verify" => Job::Verify(file_of(given)),
        "list" => list_of(given),
        "map" => map_of(given),
        "check" => check_of(given),
        "find" => find_of(given),
        "names" => Job::Ask(source_of(given), Question::Names),
        "trace" => trace_of(given),
        "count" => count_of(given),
        "show" => show_of(given),
        "format" => Job::Ask(source_of(given), Question::Format(is_set(given, "check"))),
        "port" => Job::Ask(source_of(given), Question::Port),
        _ => Job::Compile(edition_of(given), libs_of(given)),
    }
}

fn run_of<'m, 'a: 'm>(given: &'m ArgMatches<'a>) -> Job<'m>
    ensures { asked_of result ≡ run_in (rows_of (found_of given.now)) }
{
    let file = file_of(given);
    match (steps_of(given), is_set(given, "where")) {
        (Some(steps), true) => Job::LocateCode(file, steps),
        (Some(steps), false) => Job::Run(file, steps),
        (None, _) => Job::Contradiction(Clash::Limits),
    }
}

fn go_of<'m, 'a: 'm>(given: &'m ArgMatches<'a>) -> Job<'m>
    ensures { asked_of result ≡ go_in (rows_of (found_of given.now)) }
{
    let origin = match origin_of(given) {
        Ok(origin) => origin,
        Err(clash) => return Job::Contradiction(clash),
    };
    let care = match care_known(origin, care_of(text_of(given, "careful"))) {
        Ok(care) => care,
        Err(clash) => return Job::Contradiction(clash),
    };
    match steps_of(given) {
        Some(steps) => going(
            source_of(given),
            origin,
            is_set(given, "where"),
            care,
            steps,
        ),
        None => Job::Contradiction(Clash::Limits),
    }
}

// A code text that is only run is for `run`.
fn going<'a>(
    source: SourceNames<'a>,
    origin: OriginNames<'a>,
    is_located: bool,
    care: Option<Care>,
    steps: u64,
) -> Job<'a>
    ensures { asked_of result ≡ going (source_shown source.entry) (origin_shown origin.entry) is_located care steps }
{
    match (origin, care) {
        (_, Some(care)) => Job::Ask(source, Question::GoCareful(origin, care, steps)),
        (_, None) if is_located => Job::Ask(source, Question::Locate(origin, steps)),
        (OriginNames::Source, None) => Job::Go(source, steps),
        (OriginNames::Code | OriginNames::Made(_), None) => Job::Contradiction(Clash::Plain),
    }
}

// A careful run knows the words of frames by their names.
fn care_known(
    origin: OriginNames<'_>,
    care: Result<Option<Care>, Clash>,
) -> Result<Option<Care>, Clash>
    ensures { result ≡ care_known (origin_shown origin.entry) care }
{
    match (origin, care) {
        (OriginNames::Code, Ok(Some(_))) => Err(Clash::Unnamed),
        (OriginNames::Made(MadeNames { names: None, .. }), Ok(Some(_))) => Err(Clash::Unnamed),
        (_, care) => care,
    }
}

// How a run is looked at, by what comes after `--careful=`.
fn care_of(how: Option<&str>) -> Result<Option<Care>, Clash>
    ensures { result ≡ care_asked (option_map (λ t. t.now) how.entry) }
{
    match how {
        None => Ok(None),
        Some("stay") => Ok(Some(Care::Stays)),
        Some("warn") => Ok(Some(Care::Warns)),
        Some("wraps") => Ok(Some(Care::Wraps)),
        Some(_) => Err(Clash::Care),
    }
}

fn try_of<'m, 'a: 'm>(given: &'m ArgMatches<'a>) -> Job<'m>
    ensures { asked_of result ≡ try_in (rows_of (found_of given.now)) }
{
    match steps_of(given) {
        Some(steps) => Job::Ask(source_of(given), Question::Try(steps)),
        None => Job::Contradiction(Clash::Limits),
    }
}

fn source_of<'m, 'a: 'm>(given: &'m ArgMatches<'a>) -> SourceNames<'m>
    ensures { source_shown result ≡ source_in (rows_of (found_of given.now)) }
{
    SourceNames {
        file: file_of(given),
        libs: libs_of(given),
        edition: edition_of(given),
    }
}

fn edition_of(given: &ArgMatches<'_>) -> Edition
    ensures { result ≡ edition_in (rows_of (found_of given.now)) }
{
    match number_of(given, "edition") {
        Some(2) => Edition::Two,
        _ => Edition::One,
    }
}

fn list_of<'m, 'a: 'm>(given: &'m ArgMatches<'a>) -> Job<'m>
    ensures { asked_of result ≡ list_in (rows_of (found_of given.now)) }
{
    match origin_of(given) {
        Ok(origin) => Job::Ask(
            source_of(given),
            Question::List(origin, text_of(given, "NAME")),
        ),
        Err(clash) => Job::Contradiction(clash),
    }
}

fn origin_of<'m, 'a: 'm>(given: &'m ArgMatches<'a>) -> Result<OriginNames<'m>, Clash>
    ensures { origin_or_clash result ≡ origin_in (rows_of (found_of given.now)) }
{
    let made = text_of(given, "made");
    let lines = text_of(given, "lines");
    let names = text_of(given, "names");
    origin_named(is_set(given, "code"), made, lines, names, libs_of(given))
}

// A code text stands alone, and one that was made of a source has lines in that, and may have names.
fn origin_named<'a>(
    is_code: bool,
    made: Option<&'a str>,
    lines: Option<&'a str>,
    names: Option<&'a str>,
    libs: &[&str],
) -> Result<OriginNames<'a>, Clash>
    ensures { origin_or_clash result ≡ origin_asked is_code (option_map (λ t. t.now) made.entry)
        (option_map (λ t. t.now) lines.entry) (option_map (λ t. t.now) names.entry) (map (λ t. t.now) libs.now) }
{
    match (is_code, made, lines, names) {
        (false, None, None, None) => Ok(OriginNames::Source),
        (false, Some(code), Some(lines), names) => {
            Ok(OriginNames::Made(MadeNames { code, lines, names }))
        }
        (false, Some(_), None, _) => Err(Clash::Made),
        (false, None, Some(_), _) => Err(Clash::Lines),
        (_, None, None, Some(_)) => Err(Clash::Names),
        (true, None, None, None) if libs.is_empty() => Ok(OriginNames::Code),
        (true, None, None, None) => Err(Clash::Libs),
        (true, _, _, _) => Err(Clash::Origins),
    }
}

fn check_of<'m, 'a: 'm>(given: &'m ArgMatches<'a>) -> Job<'m>
    ensures { asked_of result ≡ check_in (rows_of (found_of given.now)) }
{
    let (is_fixed, for_editor) = (is_set(given, "fix"), is_set(given, "json"));
    match (is_fixed, for_editor, text_of(given, "rules")) {
        (true, true, _) => Job::Contradiction(Clash::Fix),
        (true, false, Some(_)) => Job::Contradiction(Clash::Rules),
        (true, false, None) => Job::Ask(source_of(given), Question::Fix),
        (false, for_editor, None) => Job::Ask(source_of(given), Question::Check(for_editor)),
        (false, for_editor, Some(rules)) => Job::CheckBy(source_of(given), rules, for_editor),
    }
}

fn find_of<'m, 'a: 'm>(given: &'m ArgMatches<'a>) -> Job<'m>
    ensures { asked_of result ≡ find_in (rows_of (found_of given.now)) }
{
    Job::Find(Search {
        pattern: pattern_of(given),
        files: files_of(given),
        edition: edition_of(given),
        for_editor: is_set(given, "json"),
    })
}

fn map_of<'m, 'a: 'm>(given: &'m ArgMatches<'a>) -> Job<'m>
    ensures { asked_of result ≡ map_in (rows_of (found_of given.now)) }
{
    match origin_of(given) {
        Ok(origin) => Job::Ask(
            source_of(given),
            mapping(origin, is_set(given, "svg"), number_of(given, "steps")),
        ),
        Err(clash) => Job::Contradiction(clash),
    }
}

// A number of steps asks for a picture, too.
fn mapping(origin: OriginNames<'_>, is_drawn: bool, steps: Option<u64>) -> Question<'_>
    ensures { question_of result ≡ mapping (origin_shown origin.entry) is_drawn steps }
{
    match (is_drawn, steps) {
        (false, None) => Question::Map(origin),
        (_, steps) => Question::Draw(origin, steps),
    }
}

fn trace_of<'m, 'a: 'm>(given: &'m ArgMatches<'a>) -> Job<'m>
    ensures { asked_of result ≡ trace_in (rows_of (found_of given.now)) }
{
    let origin = match origin_of(given) {
        Ok(origin) => origin,
        Err(clash) => return Job::Contradiction(clash),
    };
    let Some(rows) = shown_rows(number_of(given, "from"), number_of(given, "last")) else {
        return Job::Contradiction(Clash::Rows);
    };
    let walk = Walk {
        origin,
        steps: number_of(given, "steps").unwrap_or(trace_steps(rows)),
        rows,
        function: text_of(given, "function"),
    };
    Job::Ask(source_of(given), Question::Trace(walk))
}

fn show_of<'m, 'a: 'm>(given: &'m ArgMatches<'a>) -> Job<'m>
    ensures { asked_of result ≡ show_in (rows_of (found_of given.now)) }
{
    let origin = match origin_of(given) {
        Ok(origin) => origin,
        Err(clash) => return Job::Contradiction(clash),
    };
    let care = match care_known(origin, shown_care(text_of(given, "careful"))) {
        Ok(care) => care,
        Err(clash) => return Job::Contradiction(clash),
    };
    let Some(rows) = page_rows(care, number_of(given, "from"), number_of(given, "last")) else {
        return Job::Contradiction(Clash::Rows);
    };
    let display = Display {
        origin,
        care,
        steps: number_of(given, "steps").unwrap_or(shown_steps(rows)),
        rows,
        input: text_of(given, "input"),
    };
    Job::Ask(source_of(given), Question::Show(display))
}

// How a run is looked at of which a page is shown. It has to stay at its first finding.
fn shown_care(how: Option<&str>) -> Result<Option<Care>, Clash>
    ensures { result ≡ shown_care (care_asked (option_map (λ t. t.now) how.entry)) }
{
    match care_of(how) {
        Ok(Some(Care::Warns)) => Err(Clash::ShownCare),
        care => care,
    }
}

// The same where a careful run has its last steps shown, if nothing is said.
fn page_rows(care: Option<Care>, from: Option<u64>, last: Option<u64>) -> Option<Rows>
    ensures { result ≡ page_rows care from last }
{
    match (care, from, last) {
        (Some(_), None, None) => Some(Rows::Last(DEFAULT_SHOWN_STEPS)),
        _ => shown_rows(from, last),
    }
}

fn count_of<'m, 'a: 'm>(given: &'m ArgMatches<'a>) -> Job<'m>
    ensures { asked_of result ≡ count_in (rows_of (found_of given.now)) }
{
    let origin = match origin_of(given) {
        Ok(origin) => origin,
        Err(clash) => return Job::Contradiction(clash),
    };
    match steps_of(given) {
        Some(steps) => Job::Ask(
            source_of(given),
            Question::Count(origin, steps, is_set(given, "json")),
        ),
        None => Job::Contradiction(Clash::Limits),
    }
}

// None where there are steps from a number on and last ones.
fn shown_rows(from: Option<u64>, last: Option<u64>) -> Option<Rows>
    ensures { result ≡ rows_asked from last }
{
    match (from, last) {
        (Some(_), Some(_)) => None,
        (None, Some(last)) => Some(Rows::Last(last)),
        (Some(from), None) => Some(Rows::From(from)),
        (None, None) => Some(Rows::From(1)),
    }
}

// The steps of a trace with these rows if the command doesn't say how many.
fn trace_steps(rows: Rows) -> u64
    ensures { result ≡ trace_steps rows }
{
    match rows {
        Rows::From(_) => DEFAULT_TRACE_STEPS,
        Rows::Last(_) => DEFAULT_STEPS,
    }
}

// The same for a page.
fn shown_steps(rows: Rows) -> u64
    ensures { result ≡ shown_steps rows }
{
    match rows {
        Rows::From(from) => (DEFAULT_SHOWN_STEPS - 1).saturating_add(from),
        Rows::Last(_) => DEFAULT_STEPS,
    }
}

// The steps of a run; none where there is a limit and none.
fn steps_of(given: &ArgMatches<'_>) -> Option<u64>
    ensures { result ≡ steps_in (rows_of (found_of given.now)) }
{
    match (number_of(given, "steps"), is_set(given, "no-limit")) {
        (Some(_), true) => None,
        (Some(steps), false) => Some(steps),
        (None, true) => Some(u64::MAX),
        (None, false) => Some(DEFAULT_STEPS),
    }
}

fn file_of<'a>(given: &ArgMatches<'a>) -> &'a str
    ensures { result.now ≡ file_in (rows_of (found_of given.now)) }
{
    text_of(given, "FILE").unwrap_or("")
}

fn pattern_of<'a>(given: &ArgMatches<'a>) -> &'a str
    ensures { result.now ≡ pattern_in (rows_of (found_of given.now)) }
{
    text_of(given, "PATTERN").unwrap_or("")
}

fn libs_of<'m, 'a: 'm>(given: &'m ArgMatches<'a>) -> &'m [&'m str]
    ensures { map (λ t. t.now) result.now ≡ libs_in (rows_of (found_of given.now)) }
{
    given.get_strs("with").unwrap_or(&[])
}

fn files_of<'m, 'a: 'm>(given: &'m ArgMatches<'a>) -> &'m [&'m str]
    ensures { map (λ t. t.now) result.now ≡ files_in (rows_of (found_of given.now)) }
{
    given.get_strs("FILE").unwrap_or(&[])
}

fn text_of<'a>(given: &ArgMatches<'a>, id: &str) -> Option<&'a str>
    ensures { option_map (λ t. t.now) result ≡ first_of id.now (rows_of (found_of given.now)) }
{
    given.get_str(id)
}

fn number_of(given: &ArgMatches<'_>, id: &str) -> Option<u64>
    ensures { result ≡ option_number id.now (rows_of (found_of given.now)) }
{
    given.get_one::<u64>(id)
}

fn is_set(given: &ArgMatches<'_>, id: &str) -> bool
    ensures { result ≡ is_set_in id.now (rows_of (found_of given.now)) }
{
    given.get_one::<bool>(id).unwrap_or(false)
}
