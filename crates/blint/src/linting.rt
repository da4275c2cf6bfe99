//! Looking at a program, one definition after another.
ghost use Rattle.std.specs.Prelude.{IfOk};
ghost use Rattle.bsources.specs.Files.{files_shown};
ghost use Rattle.blint.specs.Warns.{Warns};

use crate::cautions::{Caution, Program};
use crate::chains::dangling;
use crate::check_rules::{CLAIMS, RULES, STEPS};
use crate::cutting::cut;
use crate::defined::Defined;
use crate::flow::unset_in;
use crate::forms::form_in;
use crate::functions::{near_main, without_main};
use crate::locals::{Local, Locals};
use crate::matched::said_by;
use crate::numbers::octal_in;
use crate::octals::padded_in;
use crate::remarks::{Remark, Remarks};
use crate::telling::{MOST_CAUTIONS, told};
use crate::tokens::Tokens;
use crate::tree::Tree;
use crate::warnings::Warning;
use blex::Lexeme;
use bmatch::{Kind, TokenPlace, grown};
use btree::{Construct, Node};
use std::alloc::{AllocError, Global};

/// What in a program is probably a mistake, in the order of its tokens. Of a program in several files only the first
/// one is looked at.
///
/// # Errors
///
/// If memory was refused.
pub fn lint(alloc: Global, program: &Program<'_>) -> Result<Vec<Caution>, AllocError>
    ensures { IfOk result (λ cautions.
        Warns program.now.edition (files_shown program.now.files) program.now.text.now cautions.items) }
{
    let cut = cut(alloc, program)?;
    let tokens = Tokens {
        text: program.text,
        lexemes: cut.lexemes.as_slice(),
        places: cut.places.as_slice(),
    };
    let rows = grown(alloc, tokens.lexemes)?;
    let notices = said_by(alloc, &tokens, rows.as_slice(), &STEPS, &CLAIMS, &RULES)?;
    let tree = Tree::new(alloc, &tokens, rows.as_slice())?;
    let others = found_in(alloc, program, &tree, cut.across)?;
    told(
        alloc,
        &program.files,
        &tokens,
        notices.as_slice(),
        others.as_slice(),
    )
}

// What is found of the definitions of the first file beside what the rules say, and of the comment that goes on into
// another file, but no more than a person reads.
fn found_in(
    alloc: Global,
    program: &Program<'_>,
    tree: &Tree<'_>,
    across: Option<TokenPlace>,
) -> Result<Vec<Caution>, AllocError> {
    let defined = Defined::new(alloc, tree)?;
    let without_main = without_main(&program.files, tree, &defined);
    let mut cautions = Vec::new(alloc);
    for index in &defined.all {
        let first = tree.tokens.place(tree.at(*index).first);
        if program.files.beyond_first(first.line).is_none() {
            let mut remarks = remarks_of(alloc, tree, &defined, *index)?;
            remarks.say(without_main);
            for remark in &remarks.all {
                push(
                    &mut cautions,
                    remark.map(|remark| caution_of(tree, &remark)),
                )?;
            }
        }
    }
    push(&mut cautions, across.map(going_on))?;
    Ok(cautions)
}

// What is said of a definition.
fn remarks_of(
    alloc: Global,
    tree: &Tree<'_>,
    defined: &Defined,
    index: usize,
) -> Result<Remarks, AllocError> {
    let definition = tree.at(index);
    let mut remarks = Remarks::new(alloc, &definition)?;
    remarks.say(near_main(tree.tokens, &definition, defined));
    octal_in(tree.tokens, &definition, &mut remarks);
    padded_in(tree.tokens, &definition, &mut remarks);
    if tree.tokens.after(definition.first) != Lexeme::OpenParen {
        return Ok(remarks);
    }
    let mut locals = Locals::new(alloc, tree, &definition, index)?;
    unset_in(tree, &definition, &mut locals, defined, &mut remarks);
    for local in &locals.all {
        remarks.say(hidden_by(local, defined));
    }
    for inner in definition.begin..index {
        match tree.at(inner).kind {
            Kind::Node(Node::Called) => form_in(alloc, tree, &locals, inner, &mut remarks)?,
            Kind::Construct(Construct::If) => remarks.say(dangling(tree, inner)),
            _ => {}
        }
    }
    Ok(remarks)
}

// What is found of a word that has the name of an external. Where it is used before it is set, that is meant.
fn hidden_by(local: &Local, defined: &Defined) -> Option<Remark> {
    let external = defined.first_token(&local.name)?;
    if local.is_unset {
        Remark::beside(local.token, Warning::HidesExternal, external)
    } else {
        None
    }
}

fn caution_of(tree: &Tree<'_>, remark: &Remark) -> Caution {
    Caution {
        warning: remark.warning,
        name: tree.tokens.name(remark.token),
        place: tree.tokens.place(remark.token),
        related: remark.other.map(|token| tree.tokens.place(token)),
    }
}

// A comment that goes on into another file.
fn going_on(place: TokenPlace) -> Caution {
    Caution {
        warning: Warning::CommentGoesOn,
        name: None,
        place,
        related: None,
    }
}

// Adds what is so, but no more than a person reads.
fn push(cautions: &mut Vec<Caution>, caution: Option<Caution>) -> Result<(), AllocError> {
    let Some(caution) = caution else {
        return Ok(());
    };
    if cautions.len() < MOST_CAUTIONS {
        cautions.push(Caution {
            warning: caution.warning,
            name: caution.name,
            place: caution.place,
            related: caution.related,
        })?;
    }
    Ok(())
}
