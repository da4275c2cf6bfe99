//! Calls of `printf` with other values than their form asks for.
use crate::locals::{Local, Locals};
use crate::remarks::{Remark, Remarks};
use crate::tree::Tree;
use crate::warnings::{Slip, Warning};
use blex::Lexeme;
use bmatch::Kind;
use btree::Node;
use bword::BinOp;
use std::alloc::{AllocError, Global};

/// What a value is for.
#[derive(Clone, Copy, PartialEq, Eq)]
enum Use {
    Number,
    Character,
    String,
    /// This isn't known.
    Any,
}

/// Says of a call of `printf` whether it has more values than its form asks for, or fewer, and which one is of another
/// kind. A 0 too many fills a place, as where a `printf` of the program itself has parameters for all.
pub(crate) fn form_in(
    alloc: Global,
    tree: &Tree<'_>,
    locals: &Locals,
    call: usize,
    remarks: &mut Remarks,
) -> Result<(), AllocError> {
    if !tree.is_call_of(call, "printf") {
        return Ok(());
    }
    let arguments = tree.arguments(alloc, call)?;
    let Some((form, values)) = arguments.split_first() else {
        return Ok(());
    };
    let form = tree.at(*form);
    if let Kind::Node(Node::Text) = form.kind {
        let items = items_of(alloc, tree.tokens.bytes(form.token))?;
        if is_miscounted(tree, items.len(), values) {
            remarks.say(Remark::new(form.token, Warning::FormValues));
        }
        remarks.say(of_another_kind(tree, locals, items.as_slice(), values));
    }
    Ok(())
}

fn is_miscounted(tree: &Tree<'_>, items: usize, values: &[usize]) -> bool {
    match values.get(items..) {
        Some(more) => more.iter().any(|value| tree.tokens.at(tree.at(*value).token)
            != Lexeme::Number(0)),
        None => true,
    }
}

// The letters of the items of a form that take a value: a `%`, a width or none, and a letter.
fn items_of(alloc: Global, form: &[u8]) -> Result<Vec<u8>, AllocError> {
    let mut letters = Vec::new(alloc);
    let mut is_item = false;
    for byte in form {
        match *byte {
            b'%' => is_item = !is_item,
            b'-' | b'0'..=b'9' if is_item => {}
            b'c' | b'd' | b'o' | b's' | b'u' | b'x' if is_item => {
                letters.push(*byte)?;
                is_item = false;
            }
            _ => is_item = false,
        }
    }
    Ok(letters)
}

// What is found of the first value of another kind than its item of the form.
fn of_another_kind(
    tree: &Tree<'_>,
    locals: &Locals,
    items: &[u8],
    values: &[usize],
) -> Option<Remark> {
    for place in 0..values.len() {
        let value = *values.get(place)?;
        let is_wrong = match (*items.get(place)?, use_of(tree, locals, value)) {
            (b's', Use::Number | Use::Character) => true,
            (letter, Use::String) => letter != b's',
            _ => false,
        };
        if is_wrong {
            return Remark::new(tree.at(value).token, Warning::Slip(Slip::FormKind));
        }
    }
    None
}

fn use_of(tree: &Tree<'_>, locals: &Locals, value: usize) -> Use {
    let branch = tree.at(value);
    match (branch.kind, tree.tokens.at(branch.token)) {
        (Kind::Node(Node::Constant), Lexeme::Character(_)) => Use::Character,
        (Kind::Node(Node::Constant), Lexeme::Number(1..=255)) => Use::Number,
        (Kind::Node(Node::Text), _) => Use::String,
        (Kind::Node(Node::Binary(BinOp::Mul | BinOp::Div | BinOp::Rem)), _) => Use::Number,
        (Kind::Node(Node::Called), _)
            if tree.is_call_of(value, "char") || tree.is_call_of(value, "getchar") => {
            Use::Character
        }
        _ => match locals.of(tree, value) {
            Some(local) => use_of_name(&local),
            None => Use::Any,
        },
    }
}

fn use_of_name(local: &Local) -> Use {
    if local.has_address {
        Use::Any
    } else if local.is_string() {
        Use::String
    } else if local.is_character() {
        Use::Character
    } else if local.is_small() {
        Use::Number
    } else {
        Use::Any
    }
}
