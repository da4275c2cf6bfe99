//! What is said of the names that nothing defines.
ghost use Rattle.std.specs.List.{AllZip, list_all};
ghost use Rattle.std.specs.Prelude.{◌≡◌, ◌∷◌, [], IfOk, IsTrue, vec_items};
ghost use Rattle.bcheck.specs.Checks.{is_on_line};
ghost use Rattle.bcheck.specs.Findings.{IsOn, TellsOf, definitions_in, is_with_name};
ghost use Rattle.bcheck.specs.Mentions.{subjects};
ghost use Rattle.bcheck.specs.UndefinedNames.{name_in, told_subjects};
ghost use Rattle.bcheck.specs.declared.mention.Subject.TheVariants as subject;

use crate::advice::Matter;
use crate::compiled::{Compiled, Extent};
use crate::finding::Finding;
use crate::foreign::{Foreign, foreign_word, heading_word};
use crate::mention::{Mention, Subject, token_of_mention, undefined_mentions};
use crate::named::place_named;
use crate::near::{near_keyword, near_library};
use crate::spans::{SourceText, SpanReader, Spans, place_of};
use blang::Definition;
use blint::is_near;
use bmach::name_of;
use bword::Name;
use std::alloc::{AllocError, Global};

/// A name that nothing defines. Of one that a file of the folder `lib` defines, in these letters or under another name
/// than C's, it is which file.
#[derive(Clone, Copy)]
pub(crate) enum UndefinedName {
    Foreign(Foreign),
    Near,
    OtherEdition,
    InHost,
    InInput,
    InNumbers,
    InPrint,
    InRaise,
    InStrings,
    InTest,
    InVectors,
    LikeInput,
    LikeNumbers,
    LikePrint,
    LikeStrings,
    LikeVectors,
    LikeMemory,
    Other,
}

/// What the files of the folder `lib` define.
#[rattlefmt::skip]
const IN_LIBRARY: [(&str, UndefinedName); 52] = [
    ("abs", UndefinedName::InNumbers), ("assert", UndefinedName::InPrint), ("compare", UndefinedName::InStrings),
    ("concat", UndefinedName::InStrings), ("copy", UndefinedName::InStrings), ("dump", UndefinedName::InPrint),
    ("fill", UndefinedName::InVectors), ("flush", UndefinedName::InPrint), ("getline", UndefinedName::InInput),
    ("getnum", UndefinedName::InInput), ("getstr", UndefinedName::InInput), ("getvec", UndefinedName::InVectors),
    ("givevec", UndefinedName::InVectors), ("host", UndefinedName::InHost), ("hostq", UndefinedName::InHost),
    ("hostwait", UndefinedName::InHost), ("index", UndefinedName::InStrings), ("isalpha", UndefinedName::InStrings),
    ("isdigit", UndefinedName::InStrings), ("length", UndefinedName::InStrings), ("lower", UndefinedName::InStrings),
    ("max", UndefinedName::InNumbers), ("min", UndefinedName::InNumbers), ("number", UndefinedName::InNumbers),
    ("printf", UndefinedName::InPrint), ("prsize", UndefinedName::InPrint), ("prvalue", UndefinedName::InPrint),
    ("putnumb", UndefinedName::InPrint), ("putoct", UndefinedName::InPrint), ("putstr", UndefinedName::InPrint),
    ("putuns", UndefinedName::InPrint), ("raise", UndefinedName::InRaise), ("rand", UndefinedName::InNumbers),
    ("random", UndefinedName::InNumbers), ("randseed", UndefinedName::InNumbers), ("rlsevec", UndefinedName::InVectors),
    ("serve", UndefinedName::InHost), ("sort", UndefinedName::InVectors), ("sortby", UndefinedName::InVectors),
    ("test", UndefinedName::InTest), ("testbad", UndefinedName::InTest), ("testnums", UndefinedName::InTest),
    ("testok", UndefinedName::InTest), ("testput", UndefinedName::InTest), ("testquot", UndefinedName::InTest),
    ("tests", UndefinedName::InTest), ("testsay", UndefinedName::InTest), ("teststr", UndefinedName::InTest),
    ("testvec", UndefinedName::InTest), ("upper", UndefinedName::InStrings), ("vecleft", UndefinedName::InVectors),
    ("vecnext", UndefinedName::InVectors),
];

/// What other languages name otherwise than the files of the folder `lib`.
#[rattlefmt::skip]
const IN_C: [(&str, &str, UndefinedName); 18] = [
    ("atoi", "number", UndefinedName::LikeNumbers), ("calloc", "getvec", UndefinedName::LikeVectors),
    ("fgets", "getline", UndefinedName::LikeInput), ("gets", "getstr", UndefinedName::LikeInput),
    ("len", "length", UndefinedName::LikeStrings), ("malloc", "getvec", UndefinedName::LikeVectors),
    ("memset", "fill", UndefinedName::LikeVectors), ("parseInt", "number", UndefinedName::LikeNumbers),
    ("puts", "putstr", UndefinedName::LikePrint), ("qsort", "sortby", UndefinedName::LikeVectors),
    ("scanf", "getnum", UndefinedName::LikeInput), ("strcat", "concat", UndefinedName::LikeStrings),
    ("strcmp", "compare", UndefinedName::LikeStrings), ("strcpy", "copy", UndefinedName::LikeStrings),
    ("strlen", "length", UndefinedName::LikeStrings), ("strstr", "index", UndefinedName::LikeStrings),
    ("tolower", "lower", UndefinedName::LikeStrings), ("toupper", "upper", UndefinedName::LikeStrings),
];

impl UndefinedName {
    /// One sentence on it, and how to fix it.
    #[rattlefmt::skip]
    pub(crate) fn advice(self) -> (&'static str, &'static str)
        ensures on_lines { IsTrue (list_all is_on_line (result.0.now ∷ result.1.now ∷ [])) }
        ensures name { IsTrue (is_with_name result.0.now) }
    {
        match self {
            UndefinedName::Foreign(word) => word.advice(),
            UndefinedName::Near => ("nothing defines @: did you mean #?", "write #, or define @"),
            UndefinedName::OtherEdition =>
                ("nothing defines @: in edition 1 it is a name", "--edition 2 makes it a keyword"),
            UndefinedName::InHost => ("nothing defines @", "lib/host.b has it: b go FILE --with host"),
            UndefinedName::InRaise => ("nothing defines @", "lib/raise.b has it: b go FILE --with raise"),
            UndefinedName::InInput => ("nothing defines @", "lib/input.b has it: b go FILE --with input"),
            UndefinedName::InNumbers => ("nothing defines @", "lib/numbers.b has it: b go FILE --with numbers"),
            UndefinedName::InPrint => ("nothing defines @", "lib/print.b has it: b go FILE --with print"),
            UndefinedName::InStrings => ("nothing defines @", "lib/strings.b has it: b go FILE --with strings"),
            UndefinedName::InTest => ("nothing defines @", "lib/test.b has it: b go FILE --with test"),
            UndefinedName::InVectors => ("nothing defines @", "lib/vectors.b has it: b go FILE --with vectors"),
            UndefinedName::LikeInput =>
                ("nothing defines @: here it is #", "lib/input.b has #: b go FILE --with input"),
            UndefinedName::LikeNumbers =>
                ("nothing defines @: here it is #", "lib/numbers.b has #: b go FILE --with numbers"),
            UndefinedName::LikePrint =>
                ("nothing defines @: here it is #", "putstr(s); putchar('*n'); with b go FILE --with print"),
            UndefinedName::LikeStrings =>
                ("nothing defines @: here it is #", "lib/strings.b has #: b go FILE --with strings"),
            UndefinedName::LikeVectors =>
                ("nothing defines @: here it is #", "lib/vectors.b has #: b go FILE --with vectors"),
            UndefinedName::LikeMemory =>
                ("nothing defines @: here it is #",
                 "givevec(v, 999); once, then #(n): b go FILE --with vectors"),
            UndefinedName::Other => ("nothing defines @", "define it, or take one of the six library calls"),
        }
    }
}

/// The tokens of one definition of a source after another.
#[derive(Drop)]
struct DefinitionReader<'a> {
    reader: SpanReader<'a>,
    spans: Spans,
    extent: Extent,
}

impl<'a> DefinitionReader<'a> {
    fn new(alloc: Global, source: SourceText<'a>) -> Self {
        DefinitionReader {
            reader: SpanReader::new(source),
            spans: Spans::new(alloc),
            extent: Extent { first: 0, end: 0 },
        }
    }

    // Goes on to this definition, or stays in it. Earlier ones are gone.
    fn go_to(&mut self, extent: Extent) -> Result<(), AllocError> {
        if extent.first < self.extent.end {
            return Ok(());
        }
        self.reader
            .pass(extent.first.saturating_sub(self.extent.end));
        self.spans.refill(&mut self.reader, extent)?;
        self.extent = extent;
        Ok(())
    }
}

/// What is said of the names that nothing defines, each where it is mentioned first.
pub(crate) fn undefined_names(
    alloc: Global,
    source: SourceText<'_>,
    compiled: &Compiled,
) -> Result<Vec<Finding>, AllocError>
    ensures { IfOk result (λ found.
        AllZip (TellsOf source.entry.text.now) (told_subjects (definitions_in compiled.now)) (vec_items found)) }
{
    let mentions = undefined_mentions(alloc, compiled.definitions())?;
    findings_on(alloc, source, compiled, mentions.as_slice())
}

fn findings_on(
    alloc: Global,
    source: SourceText<'_>,
    compiled: &Compiled,
    mentions: &[Mention],
) -> Result<Vec<Finding>, AllocError>
    ensures { IfOk result (λ found.
        AllZip (TellsOf source.entry.text.now) (subjects mentions.now) (vec_items found)) }
{
    let mut reader = DefinitionReader::new(alloc, source);
    let mut found = Vec::new(alloc);
    for mention in mentions {
        reader.go_to(compiled.extent(mention.definition))?;
        let finding = finding_on(&reader, compiled.definitions(), mention.subject);
        found.push(placed(source.text, &finding, mention.subject))?;
    }
    Ok(found)
}

fn finding_on(
    reader: &DefinitionReader<'_>,
    definitions: &[Definition],
    subject: Subject,
) -> Finding
    ensures { IsOn subject result }
{
    let (spans, extent) = (&reader.spans, reader.extent);
    match subject {
        Subject::Name(name) => on_name(spans, extent, definitions, name),
        Subject::Word(word) => {
            let meaning = heading_word(&word).unwrap_or(Foreign::Declares);
            let what = UndefinedName::Foreign(meaning);
            not_defined(spans, extent.first, what, word, None)
        }
        Subject::Typed(name) => on_types(spans, token_of_mention(spans, extent, name), name),
    }
}

// The same at the place of what it is on.
fn placed(source: &[u8], finding: &Finding, subject: Subject) -> Finding
    requires { IsOn subject finding.now }
    ensures { TellsOf source.now subject result }
{
    let name = name_in(subject);
    Finding {
        place: place_named(source, finding.place, &name),
        ..*finding
    }
}

fn name_in(subject: Subject) -> Name
    ensures { result ≡ name_in subject }
{
    match subject {
        Subject::Name(name) | Subject::Word(name) | Subject::Typed(name) => name,
    }
}

// What is said of a name that a definition is the first to mention.
fn on_name(spans: &Spans, extent: Extent, definitions: &[Definition], name: Name) -> Finding
    ensures { IsOn (subject.Name name) result }
{
    let token = token_of_mention(spans, extent, name);
    let defined = near_definition(definitions, &name);
    let alike = near_library(&name).or(defined).or(near_keyword(&name));
    let (what, other) = match (name.as_str(), in_library(&name), foreign_word(&name)) {
        ("break" | "default", _, _) => (UndefinedName::OtherEdition, None),
        (_, Some((_, Some(here))), _) if here.as_str() == "getvec" => {
            (UndefinedName::LikeMemory, Some(here))
        }
        (_, Some(found), _) => found,
        (_, None, Some(word)) if defined.is_none() => (UndefinedName::Foreign(word), None),
        _ if alike.is_some() => (UndefinedName::Near, alike),
        _ => (UndefinedName::Other, None),
    };
    not_defined(spans, token, what, name, other)
}

// The last definition of a name like this one.
fn near_definition(definitions: &[Definition], name: &Name) -> Option<Name> {
    let names = definitions.iter().map(|definition| name_of(definition));
    names.filter(|other| is_near(name, other)).last()
}

fn not_defined(
    spans: &Spans,
    token: usize,
    what: UndefinedName,
    name: Name,
    other: Option<Name>,
) -> Finding
    ensures { IsOn (subject.Name name) result }
{
    Finding {
        matter: Matter::NotDefined(what),
        name: Some(name),
        other,
        place: place_of(spans, token),
        related: None,
    }
}

fn on_types(spans: &Spans, token: usize, name: Name) -> Finding
    ensures { IsOn (subject.Typed name) result }
{
    Finding {
        name: Some(name),
        ..Finding::new(Matter::NoTypes, place_of(spans, token))
    }
}

// Of a name that a file of the folder `lib` defines, which file; of one that C has, the name that it has there, too.
fn in_library(name: &Name) -> Option<(UndefinedName, Option<Name>)> {
    if let Some((_, file)) = IN_LIBRARY.iter().find(|row| name.as_str() == row.0) {
        return Some((*file, None));
    }
    let (_, here, file) = IN_C.iter().find(|row| name.as_str() == row.0)?;
    Some((*file, Name::new(here)))
}
