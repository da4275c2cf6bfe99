//! Telling where rules fit.
ghost use Rattle.std.specs.List.{All};
ghost use Rattle.std.specs.Prelude.{◌≡◌, ◌==◌, ◌≤◌, ◌++◌, IfOk, OnOk, length, position};
ghost use Rattle.bcheck.specs.Findings.{IsMilestone};
ghost use Rattle.bfind.specs.Finds.{IsShown, is_told, left_length, line_len, line_part, notice_text, own_text, place_lines};
ghost use Rattle.bfind.specs.Finds.{place_object, place_text, places_text, severity_word, telling_of};

use crate::looking::Found;
use crate::own::RuleWords;
use bcheck::{FindingForm, Fragment, Milestone, Request, parts, position, push_all};
use bmatch::{Notice, TokenPlace};
use btools::Text;
use std::alloc::{AllocError, Global};

/// The most bytes of a line of the source that are shown.
const SHOWN_BYTES: usize = 76;

/// How many bytes stand before a mark in a line that isn't shown from its beginning.
const BEFORE_MARK: usize = 38;

/// How it is told that a rule fits.
#[derive(Clone, Copy)]
pub(crate) enum Severity {
    Warning,
    /// It was looked for, and isn't wrong.
    Note,
}

/// What is the same for all places of a source.
#[derive(Clone, Copy)]
pub(crate) struct Setting<'a> {
    pub source: &'a [u8],
    pub asked: Request<'a>,
    pub severity: Severity,
    pub words: &'a [RuleWords],
    pub milestones: &'a [Milestone],
}

/// A place that is told.
#[derive(Clone, Copy)]
pub(crate) struct Told<'a> {
    pub file: &'a str,
    pub severity: Severity,
    pub shown: Shown<'a>,
    pub words: &'a RuleWords,
}

/// Where a token stands, and what is shown of its line.
#[derive(Clone, Copy)]
pub(crate) struct Shown<'a> {
    pub line: u64,
    pub column: usize,
    /// The bytes of its line before it and from it on.
    pub left: &'a [u8],
    pub right: &'a [u8],
    pub marks: usize,
    /// The column, and the one after the marks, in units of UTF-16.
    pub unit: usize,
    pub unit_end: usize,
}

/// The text that tells each place in the first file where a rule fits, once for a rule.
pub(crate) fn places_text(
    alloc: Global,
    setting: &Setting<'_>,
    found: &Found,
) -> Result<Text, AllocError>
    requires { All (IsMilestone setting.now.source.now) setting.now.milestones.now }
    ensures { IfOk result (λ text. text ≡ places_text (telling_of setting.now) found.now) }
{
    let mut text = Text::new(alloc);
    for index in 0..found.notices.len() {
        push_notice(&mut text, setting, found, index)?;
    }
    Ok(text)
}

fn push_notice(
    text: &mut Text,
    setting: &Setting<'_>,
    found: &Found,
    index: usize,
) -> Result<(), AllocError>
    requires { All (IsMilestone setting.now.source.now) setting.now.milestones.now }
    ensures { OnOk result (text.new ≡ text.old ++ notice_text (telling_of setting.now) found.now index) }
{
    if is_told(found.notices.as_slice(), index) {
        return Ok(());
    }
    let Some(notice) = found.notices.get(index) else {
        return Ok(());
    };
    match (
        found.places.get(notice.token),
        setting.words.get(notice.rule),
    ) {
        (Some(place), Some(words)) => push_own(text, setting, place, words),
        _ => Ok(()),
    }
}

// Whether the notice before tells the same.
fn is_told(notices: &[Notice], index: usize) -> bool
    ensures { result ≡ is_told notices.now index }
{
    if index == 0 {
        return false;
    }
    match (notices.get(index - 1), notices.get(index)) {
        (Some(one), Some(other)) => one.token == other.token && one.rule == other.rule,
        _ => false,
    }
}

fn push_own<'a>(
    text: &mut Text,
    setting: &Setting<'a>,
    place: &TokenPlace,
    words: &'a RuleWords,
) -> Result<(), AllocError>
    requires { All (IsMilestone setting.now.source.now) setting.now.milestones.now }
    ensures { OnOk result (text.new ≡ text.old ++ own_text (telling_of setting.now) place.now words.now) }
{
    match setting.asked.files.beyond_first(place.line) {
        Some(_) => Ok(()),
        None => push_place(text, setting, place, words),
    }
}

fn push_place<'a>(
    text: &mut Text,
    setting: &Setting<'a>,
    place: &TokenPlace,
    words: &'a RuleWords,
) -> Result<(), AllocError>
    requires { All (IsMilestone setting.now.source.now) setting.now.milestones.now }
    ensures { OnOk result (text.new ≡ text.old
        ++ place_text setting.now.asked.form (telling_of setting.now) place.now words.now) }
{
    let told = Told {
        file: setting.asked.files.first.name,
        severity: setting.severity,
        shown: shown_at(setting, place),
        words,
    };
    match setting.asked.form {
        FindingForm::Text => push_lines(text, &told),
        FindingForm::Json => push_object(text, &told),
    }
}

fn shown_at<'a>(setting: &Setting<'a>, place: &TokenPlace) -> Shown<'a>
    requires { All (IsMilestone setting.now.source.now) setting.now.milestones.now }
    ensures { IsShown setting.now.source.now place.now result }
{
    let (before, rest) = parts(setting.source, place.start);
    let (_, column, units) = position(setting.source, setting.milestones, place.start);
    let left_len = left_length(column, place.len);
    let right = line_part(rest, SHOWN_BYTES.saturating_sub(left_len));
    let marks = place.len.min(right.len()).max(1);
    Shown {
        line: place.line,
        column,
        left: &before[before.len().saturating_sub(left_len)..],
        right,
        marks,
        unit: units.column,
        unit_end: units.along(rest, marks.min(right.len())).column,
    }
}

// How many bytes before a token of so many bytes are shown.
fn left_length(column: usize, len: usize) -> usize
    ensures { result ≡ left_length column len }
{
    let before = column.saturating_sub(1);
    if len <= SHOWN_BYTES && before <= SHOWN_BYTES - len {
        before
    } else {
        before.min(BEFORE_MARK)
    }
}

// What stands before the end of the line, up to so many bytes.
fn line_part(rest: &[u8], most: usize) -> &[u8]
    ensures part { result.now ≡ line_part rest.now most }
    ensures within { length result.now ≤ length rest.now }
{
    let near = &rest[..rest.len().min(most)];
    &near[..line_len(near)]
}

// How many bytes stand before the end of the line.
fn line_len(bytes: &[u8]) -> usize
    ensures value { result ≡ line_len bytes.now }
    ensures bound { result ≤ length bytes.now }
{
    newline_place(bytes).unwrap_or(bytes.len())
}

fn newline_place(bytes: &[u8]) -> Option<usize>
    ensures { result ≡ position (λ b. b == 10) bytes.now }
{
    bytes.iter().position(|byte| *byte == b'\n')
}

fn severity_word(severity: Severity) -> &'static [u8]
    ensures { result.now ≡ severity_word severity }
{
    match severity {
        Severity::Warning => b"warning",
        Severity::Note => b"note",
    }
}

// For people.
fn push_lines(text: &mut Text, told: &Told<'_>) -> Result<(), AllocError>
    ensures { OnOk result (text.new ≡ text.old ++ place_lines told.now) }
{
    let shown = &told.shown;
    push_all(
        text,
        &[
            Fragment::File(told.file.as_bytes()),
            Fragment::Words(b":"),
            Fragment::Number(shown.line),
            Fragment::Words(b":"),
            Fragment::Number(shown.column as u64),
            Fragment::Words(b": "),
            Fragment::Words(severity_word(told.severity)),
            Fragment::Words(b": "),
            Fragment::File(told.words.message.as_slice()),
            Fragment::Words(b"\n    "),
            Fragment::Shown(shown.left),
            Fragment::Shown(shown.right),
            Fragment::Words(b"\n    "),
            Fragment::Blanks(shown.left.len()),
            Fragment::Marks(shown.marks),
            Fragment::Words(b"\n"),
        ],
    )
}

// For an editor.
fn push_object(text: &mut Text, told: &Told<'_>) -> Result<(), AllocError>
    ensures { OnOk result (text.new ≡ text.old ++ place_object told.now) }
{
    let shown = &told.shown;
    push_all(
        text,
        &[
            Fragment::Words(b"{\"file\":"),
            Fragment::Quoted(told.file.as_bytes()),
            Fragment::Words(b",\"line\":"),
            Fragment::Number(shown.line),
            Fragment::Words(b",\"column\":"),
            Fragment::Number(shown.column as u64),
            Fragment::Words(b",\"severity\":\""),
            Fragment::Words(severity_word(told.severity)),
            Fragment::Words(b"\",\"code\":"),
            Fragment::Quoted(told.words.code.as_slice()),
            Fragment::Words(b",\"message\":"),
            Fragment::Quoted(told.words.message.as_slice()),
            Fragment::Words(b",\"fix\":\"\",\"end\":"),
            Fragment::Number((shown.column as u64).saturating_add(shown.marks as u64)),
            Fragment::Words(b",\"utf16_column\":"),
            Fragment::Number(shown.unit as u64),
            Fragment::Words(b",\"utf16_end\":"),
            Fragment::Number(shown.unit_end as u64),
            Fragment::Words(b"}\n"),
        ],
    )
}
