//! What is said of a finding, with the name in its places.
ghost use Rattle.std.specs.Prelude.{◌≡◌, ◌++◌, ◌∷◌, [], IfOk, IsTrue, OnOk, unwrap_or};
ghost use Rattle.std.specs.List.{flat_map, list_all};
ghost use Rattle.bcheck.specs.Checks.{is_on_line};
ghost use Rattle.bcheck.specs.Findings.{IsOn, matter_code};
ghost use Rattle.bcheck.specs.Pieces.{filled_byte};
ghost use Rattle.bcheck.specs.UndefinedNames.{Tells};
ghost use Rattle.bcheck.specs.declared.mention.Subject.{Subject};

use crate::finding::{Finding, SecondPlace};
use crate::own_parts::own_fix;
use crate::pieces::{Fragment, push_all};
use bsources::FileLine;
use btools::Text;
use bword::Name;
use std::alloc::{AllocError, Global};

/// A code, a sentence, and how to fix it.
#[derive(Drop)]
pub(crate) struct Words {
    pub code: &'static str,
    pub sentence: Text,
    pub fix: Text,
}

impl Words {
    /// What is said of a finding in a file, where its second place is there or in another one.
    pub(crate) fn new(
        alloc: Global,
        source: &[u8],
        finding: &Finding,
        file: &str,
        second: &Option<SecondPlace<'_>>,
    ) -> Result<Self, AllocError>
        ensures code { IfOk result (λ words. words.code.now ≡ matter_code finding.now.matter) }
        ensures on_lines { IfOk result (λ words.
            IsTrue (list_all is_on_line (words.code.now ∷ words.sentence ∷ words.fix ∷ []))) }
        ensures subject { IfOk result (λ words. (subject : Subject) → IsOn subject finding.now
            → Tells subject words.sentence) }
    {
        let (code, sentence, fix) = finding.matter.advice();
        let line = line_words(alloc, file, second)?;
        let given = Given {
            name: name_or(&finding.name, b"@"),
            other: name_or(&finding.other, b"#"),
            line: line.as_slice(),
        };
        let sentence = filled(alloc, sentence, &given)?;
        let general = filled(alloc, fix, &given)?;
        let own = own_fix(alloc, source, finding, file, second)?;
        let fix = own_or(alloc, own, general)?;
        Ok(Words {
            code,
            sentence,
            fix,
        })
    }
}

// What is put together of a source, on one line, or the general text where nothing is.
fn own_or(alloc: Global, own: Option<Text>, general: Text) -> Result<Text, AllocError>
    ensures { IfOk result (λ text. IsTrue (is_on_line general) → IsTrue (is_on_line text)) }
{
    match own {
        Some(own) => shown(alloc, own.as_slice()),
        None => Ok(general),
    }
}

fn shown(alloc: Global, words: &[u8]) -> Result<Text, AllocError>
    ensures { IfOk result (λ text. IsTrue (is_on_line text)) }
{
    let mut text = Text::new(alloc);
    push_shown(&mut text, words)?;
    Ok(text)
}

fn push_shown(text: &mut Text, words: &[u8]) -> Result<(), AllocError>
    ensures { IsTrue (is_on_line text.old) → OnOk result (IsTrue (is_on_line text.new)) }
{
    push_all(text, &[Fragment::Shown(words)])
}

/// What stands in the places of `@`, `#` and `%`: two names, and the line of a second place, or their signs.
#[derive(Clone, Copy)]
struct Given<'a> {
    name: &'a [u8],
    other: &'a [u8],
    line: &'a [u8],
}

// A name, or a sign where there is none.
fn name_or<'a>(name: &'a Option<Name>, sign: &'a [u8]) -> &'a [u8]
    requires { IsTrue (is_on_line sign.now) }
    ensures value { result.now ≡ unwrap_or name.now sign.now }
    ensures on_line { IsTrue (is_on_line result.now) }
{
    match name {
        Some(name) => name.as_bytes(),
        None => sign,
    }
}

// A sentence with what is given in its places.
fn filled(alloc: Global, sentence: &str, given: &Given<'_>) -> Result<Text, AllocError>
    ensures { IfOk result (λ text. text ≡ flat_map (filled_byte given.now) sentence.now) }
{
    let mut text = Text::new(alloc);
    let bytes = sentence.as_bytes();
    for byte in bytes {
        push_filled(&mut text, *byte, given)?;
    }
    Ok(text)
}

fn push_filled(text: &mut Text, byte: u8, given: &Given<'_>) -> Result<(), AllocError>
    ensures { OnOk result (text.new ≡ text.old ++ filled_byte given.now byte) }
{
    match byte {
        b'@' => text.push(given.name),
        b'#' => text.push(given.other),
        b'%' => text.push(given.line),
        _ => text.push(&[byte]),
    }
}

// The line of a second place as a finding of this file tells it, or its sign where there is none.
fn line_words(
    alloc: Global,
    file: &str,
    second: &Option<SecondPlace<'_>>,
) -> Result<Text, AllocError>
    ensures { IfOk result (λ text. IsTrue (is_on_line text)) }
{
    let mut text = Text::new(alloc);
    match second {
        Some(second) => push_line_at(&mut text, file, second.at)?,
        None => text.push(b"%")?,
    }
    Ok(text)
}

// Adds a line, of this file or of another one.
fn push_line_at(text: &mut Text, file: &str, at: FileLine<'_>) -> Result<(), AllocError>
    ensures { IsTrue (is_on_line text.old) → OnOk result (IsTrue (is_on_line text.new)) }
{
    if at.file == file {
        push_own_line(text, at.line)
    } else {
        push_line_of(text, at)
    }
}

fn push_own_line(text: &mut Text, line: u64) -> Result<(), AllocError>
    ensures { IsTrue (is_on_line text.old) → OnOk result (IsTrue (is_on_line text.new)) }
{
    text.push_number(line)
}

// Adds a line of another file.
fn push_line_of(text: &mut Text, at: FileLine<'_>) -> Result<(), AllocError>
    ensures { IsTrue (is_on_line text.old) → OnOk result (IsTrue (is_on_line text.new)) }
{
    push_all(
        text,
        &[
            Fragment::Number(at.line),
            Fragment::Words(b" of "),
            Fragment::Shown(at.file.as_bytes()),
        ],
    )
}
