//! The names that nothing defines, by the definitions that mention them first.
ghost use Rattle.std.specs.Prelude.{◌≡◌, ◌++◌, ℕ, IfOk, List, [], OnOk, flat_map, is_some, map, not, take, vec_items};
ghost use Rattle.blang.specs.declared.code.Definition.{Definition};
ghost use Rattle.blang.specs.Layout.{address_in, library_addresses, name_in_instr, name_in_value, names_in};
ghost use Rattle.bcheck.specs.Mentions.{IsOneMore, Knows, Meets, is_in, subjects};
ghost use Rattle.bcheck.specs.UndefinedNames.{heading_by, heading_of, subject_of, told_of, told_subjects};

use crate::compiled::Extent;
use crate::faults::token_named;
use crate::finding::MOST_FINDINGS;
use crate::foreign::heading_word;
use crate::kinds::is_type_name;
use crate::spans::{Spans, lexeme_at, place_of};
use blang::{Definition, Instr, Ival, Keyword, View};
use blex::Lexeme;
use bmach::name_of;
use bnames::NameTable;
use bword::Name;
use std::alloc::{AllocError, Global};

/// How a definition begins.
#[derive(Clone, Copy)]
pub(crate) enum Heading {
    Name,
    /// With a word of another language, as `let`.
    Word,
    /// With a word that another language has for a type or before one.
    Typed,
}

/// What is told of a name that nothing defines.
#[derive(Clone, Copy)]
pub(crate) enum Subject {
    /// This name.
    Name(Name),
    /// The word with which the definition begins that mentions it.
    Word(Name),
    /// That there are no types, and that this name is meant to be defined.
    Typed(Name),
}

/// What is told of a name that nothing defines, and the place among the definitions of the first one that mentions it.
#[derive(Clone, Copy)]
pub(crate) struct Mention {
    pub subject: Subject,
    pub definition: usize,
}

/// What is told of the names that nothing defines, in the order of their first mentions.
pub(crate) fn undefined_mentions(
    alloc: Global,
    definitions: &[Definition],
) -> Result<Vec<Mention>, AllocError>
    ensures { IfOk result (λ found. subjects (vec_items found) ≡ told_subjects definitions.now) }
{
    let mut known = defined_names(alloc, definitions)?;
    let mut found = Vec::new(alloc);
    for index in 0..definitions.len() {
        let definition = &definitions[index];
        let names = new_names(alloc, &mut known, definition)?;
        let heading = heading_of(definition);
        let told = told_of(heading, names.as_slice());
        push_mentions(&mut found, heading, name_of(definition), told, index)?;
    }
    found.truncate(MOST_FINDINGS);
    Ok(found)
}

fn defined_names(alloc: Global, definitions: &[Definition]) -> Result<NameTable, AllocError>
    ensures { IfOk result (λ known. Knows definitions.now [] known) }
{
    let mut known = NameTable::new(alloc);
    for definition in definitions {
        put(&mut known, name_of(definition))?;
    }
    Ok(known)
}

// Puts a name in, and answers whether it is new.
fn put(names: &mut NameTable, name: Name) -> Result<bool, AllocError>
    ensures new { IfOk result (λ is_new. is_new ≡ not (is_in names.old name)) }
    ensures more { OnOk result (IsOneMore names.old name names.new) }
{
    match names.insert(name, 0) {
        Ok(is_new) => Ok(is_new),
        Err(_) => Err(AllocError),
    }
}

// The names that a definition is the first to mention of those that nothing defines. From now on they are known.
fn new_names(
    alloc: Global,
    known: &mut NameTable,
    definition: &Definition,
) -> Result<Vec<Name>, AllocError>
    ensures { (ds : List Definition) (before : List (List ℕ)) → Knows ds before known.old
        → IfOk result (λ names. Meets ds before (names_in definition.now) (vec_items names) known.new) }
{
    let mentioned = mentioned_names(alloc, definition)?;
    meet(alloc, known, mentioned.as_slice())
}

fn meet(alloc: Global, known: &mut NameTable, mentioned: &[Name]) -> Result<Vec<Name>, AllocError>
    ensures { (ds : List Definition) (before : List (List ℕ)) → Knows ds before known.old
        → IfOk result (λ names. Meets ds before mentioned.now (vec_items names) known.new) }
{
    let mut names = Vec::new(alloc);
    for name in mentioned {
        if !is_library(name) && put(known, *name)? {
            names.push(*name)?;
        }
    }
    Ok(names)
}

// Whether a function of the library has this name.
fn is_library(name: &Name) -> bool
    ensures { result ≡ is_some (address_in library_addresses name.now) }
{
    matches!(
        name.as_str(),
        "char" | "lchar" | "getchar" | "putchar" | "printn" | "exit"
    )
}

// The names in the instructions or the initial values of a definition.
fn mentioned_names(alloc: Global, definition: &Definition) -> Result<Vec<Name>, AllocError>
    ensures { IfOk result (λ names. vec_items names ≡ names_in definition.now) }
{
    match definition.view() {
        View::Function { code, .. } => names_of_code(alloc, code),
        View::Simple { values, .. } | View::Vector { values, .. } => names_of_values(alloc, values),
    }
}

fn names_of_code(alloc: Global, code: &[Instr]) -> Result<Vec<Name>, AllocError>
    ensures { IfOk result (λ names. vec_items names ≡ flat_map name_in_instr code.now) }
{
    let mut names = Vec::new(alloc);
    for instr in code {
        if let Instr::External(name) = instr {
            names.push(*name)?;
        }
    }
    Ok(names)
}

fn names_of_values(alloc: Global, values: &[Ival]) -> Result<Vec<Name>, AllocError>
    ensures { IfOk result (λ names. vec_items names ≡ flat_map name_in_value values.now) }
{
    let mut names = Vec::new(alloc);
    for value in values {
        if let Ival::Name(name) = value {
            names.push(*name)?;
        }
    }
    Ok(names)
}

fn heading_of(definition: &Definition) -> Heading
    ensures { result ≡ heading_of definition.now }
{
    match definition {
        Definition::Function(_) => Heading::Name,
        Definition::Simple(_) | Definition::Vector(_) => heading_by(&name_of(definition)),
    }
}

fn heading_by(word: &Name) -> Heading
    ensures { result ≡ heading_by word.now }
{
    if heading_word(word).is_some() {
        Heading::Word
    } else if is_type_name(word) {
        Heading::Typed
    } else {
        Heading::Name
    }
}

// Those of the names that are told.
fn told_of(heading: Heading, names: &[Name]) -> &[Name]
    ensures { result.now ≡ told_of heading names.now }
{
    match heading {
        Heading::Name => names,
        Heading::Word | Heading::Typed => first_of(names),
    }
}

// The first name alone, if there is one.
fn first_of(names: &[Name]) -> &[Name]
    ensures { result.now ≡ take 1 names.now }
{
    if 1 < names.len() {
        names.split_at(1).0
    } else {
        names
    }
}

fn push_mentions(
    found: &mut Vec<Mention>,
    heading: Heading,
    own: Name,
    names: &[Name],
    definition: usize,
) -> Result<(), AllocError>
    ensures { OnOk result (subjects (vec_items found.new)
        ≡ subjects (vec_items found.old) ++ map (subject_of heading own) names.now) }
{
    for name in names {
        let subject = subject_of(heading, own, *name);
        found.push(Mention {
            subject,
            definition,
        })?;
    }
    Ok(())
}

fn subject_of(heading: Heading, own: Name, name: Name) -> Subject
    ensures { result ≡ subject_of heading own name }
{
    match heading {
        Heading::Name => Subject::Name(name),
        Heading::Word => Subject::Word(own),
        Heading::Typed => Subject::Typed(name),
    }
}

/// The token of this name in a definition that mentions it: the first one of the line that uses it first.
pub(crate) fn token_of_mention(spans: &Spans, extent: Extent, name: Name) -> usize {
    let mut is_declared = false;
    for token in extent.first.saturating_add(1)..extent.end {
        let lexeme = lexeme_at(spans, token);
        if lexeme == Lexeme::Keyword(Keyword::Extrn) {
            is_declared = true;
        } else if lexeme == Lexeme::Semicolon {
            is_declared = false;
        } else if !is_declared && lexeme == Lexeme::Name(name) {
            return token_named(spans, extent, name, place_of(spans, token).line);
        }
    }
    extent.first
}
