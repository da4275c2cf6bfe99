//! Definitions that are probably mistakes as a whole.
use crate::defined::Defined;
use crate::remarks::Remark;
use crate::spelling::is_near;
use crate::tokens::Tokens;
use crate::tree::Tree;
use crate::warnings::Warning;
use blang::Keyword;
use blex::Lexeme;
use bmatch::Branch;
use bsources::SourceFiles;
use bword::Name;

/// What is found of a function whose name is like `main`. One with parameters that gives a value isn't meant for that.
pub(crate) fn near_main(
    tokens: &Tokens<'_>,
    definition: &Branch,
    defined: &Defined,
) -> Option<Remark> {
    let first = definition.first;
    let mut gives = (first..=definition.last).map(|token| gives_at(tokens, token));
    let is_meant = is_function(tokens, first)
        && is_for_main(tokens, first, defined)
        && !(has_parameters(tokens, first) && gives.any(|gives| gives));
    if is_meant {
        Remark::new(first, Warning::NearMain)
    } else {
        None
    }
}

// Whether a return with a value begins with a token.
fn gives_at(tokens: &Tokens<'_>, token: usize) -> bool {
    tokens.at(token) == Lexeme::Keyword(Keyword::Return) && tokens.after(token) == Lexeme::OpenParen
}

fn is_function(tokens: &Tokens<'_>, first: usize) -> bool {
    tokens.after(first) == Lexeme::OpenParen
}

fn has_parameters(tokens: &Tokens<'_>, first: usize) -> bool {
    tokens.at(first.saturating_add(2)) != Lexeme::CloseParen
}

// Whether the name of a definition is like `main`, which no definition has.
fn is_for_main(tokens: &Tokens<'_>, first: usize, defined: &Defined) -> bool {
    let (Some(name), Some(main)) = (tokens.name(first), Name::new("main")) else {
        return false;
    };
    is_near(&name, &main) && defined.first_token(&main).is_none()
}

/// What is found of the first function of the first file, if a run has no function `main` to begin with: none is named
/// so, and each one of the first file has another name than almost this one, and no parameters, as one has that another
/// file calls.
pub(crate) fn without_main(
    files: &SourceFiles<'_>,
    tree: &Tree<'_>,
    defined: &Defined,
) -> Option<Remark> {
    let mut found = None;
    for index in &defined.all {
        let first = tree.at(*index).first;
        let is_own = files.beyond_first(tree.tokens.place(first).line).is_none();
        if is_own && is_function(tree.tokens, first) {
            if has_parameters(tree.tokens, first) || is_for_main(tree.tokens, first, defined) {
                return None;
            }
            found = found.or(Remark::new(first, Warning::NoMain));
        }
    }
    match defined.first_token(&Name::new("main")?) {
        Some(_) => None,
        None => found,
    }
}
