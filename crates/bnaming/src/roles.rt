//! What a name is where it stands.
ghost use Rattle.std.specs.Prelude.{◌≡◌};
ghost use Rattle.bnaming.specs.Roles.{defined_as, defines, is_local, looks_around, mode_after, mode_in, mode_of_definition, mode_of_heading, mode_of_parameters, role_in};

use blang::Keyword;
use blex::Lexeme;
use btree::Construct;

/// What a name is where it stands.
#[derive(Clone, Copy)]
pub(crate) enum Role {
    /// The name of a function, where that is defined.
    Function,
    /// The name of any other external, where that is defined.
    External,
    Parameter,
    Automatic,
    /// A name in `extrn`.
    Import,
    /// A label, before its `:`.
    Label,
    /// A name in a statement.
    Mention,
    /// An initial value.
    Value,
}

/// What a name would be at a place.
#[derive(Clone, Copy)]
pub(crate) enum Mode {
    /// A definition begins.
    Definition,
    Parameters,
    Values,
    /// A heading begins.
    Heading,
    Automatics,
    Imports,
    Statement,
}

impl Mode {
    /// The mode where a construct begins.
    pub(crate) fn of(construct: Construct) -> Self
        ensures { result ≡ mode_in construct }
    {
        match construct {
            Construct::Definition => Mode::Definition,
            Construct::Heading => Mode::Heading,
            _ => Mode::Statement,
        }
    }

    /// What a name is, which may have a `(` after it.
    pub(crate) fn role(self, is_before_paren: bool) -> Role
        ensures { result ≡ role_in self is_before_paren }
    {
        match self {
            Mode::Definition => defined_as(is_before_paren),
            Mode::Parameters => Role::Parameter,
            Mode::Values => Role::Value,
            Mode::Heading => Role::Label,
            Mode::Automatics => Role::Automatic,
            Mode::Imports => Role::Import,
            Mode::Statement => Role::Mention,
        }
    }

    /// The mode after a token, which may have a `(` after it.
    pub(crate) fn after(self, lexeme: Lexeme, is_before_paren: bool) -> Self
        ensures { result ≡ mode_after self lexeme is_before_paren }
    {
        match self {
            Mode::Definition => definition_mode(is_before_paren),
            Mode::Parameters => parameters_mode(lexeme),
            Mode::Heading => heading_mode(lexeme),
            _ => self,
        }
    }
}

fn defined_as(is_before_paren: bool) -> Role
    ensures { result ≡ defined_as is_before_paren }
{
    if is_before_paren {
        Role::Function
    } else {
        Role::External
    }
}

// The mode after the name of a definition.
fn definition_mode(is_before_paren: bool) -> Mode
    ensures { result ≡ mode_of_definition is_before_paren }
{
    if is_before_paren {
        Mode::Parameters
    } else {
        Mode::Values
    }
}

// The mode after a token of parameters.
fn parameters_mode(lexeme: Lexeme) -> Mode
    ensures { result ≡ mode_of_parameters lexeme }
{
    match lexeme {
        Lexeme::CloseParen => Mode::Statement,
        _ => Mode::Parameters,
    }
}

// The mode after the first token of a heading.
fn heading_mode(lexeme: Lexeme) -> Mode
    ensures { result ≡ mode_of_heading lexeme }
{
    match lexeme {
        Lexeme::Keyword(Keyword::Auto) => Mode::Automatics,
        Lexeme::Keyword(Keyword::Extrn) => Mode::Imports,
        _ => Mode::Statement,
    }
}

impl Role {
    /// Whether the name is defined here for the whole source.
    pub(crate) fn defines(self) -> bool
        ensures { result ≡ defines self }
    {
        matches!(self, Role::Function | Role::External)
    }

    /// Whether the name is declared here for its definition alone.
    pub(crate) fn is_local(self) -> bool
        ensures { result ≡ is_local self }
    {
        matches!(self, Role::Parameter | Role::Automatic | Role::Label)
    }

    /// Whether the name may be one that is declared in its definition alone.
    pub(crate) fn looks_around(self) -> bool
        ensures { result ≡ looks_around self }
    {
        matches!(
            self,
            Role::Parameter | Role::Automatic | Role::Label | Role::Mention
        )
    }
}
