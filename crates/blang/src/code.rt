//! Instructions, initial values, and the definitions that hold them.
ghost use Rattle.std.specs.Prelude.{◌≡◌};
ghost use Rattle.blang.specs.CodeParts.{IsFunctionWithinRanges, IsSimpleWithinRanges, IsVectorWithinRanges, function_of, simple_of, vector_of};
ghost use Rattle.blang.specs.Text.{IsWithinRanges, definition_of};

use bword::{BinOp, Name};
use std::marker::Model;

/// Which word an increment or decrement leaves: a prefix one the new word, a postfix one the old word.
#[derive(Clone, Copy, PartialEq, Eq)]
pub enum Increment {
    PreIncrement,
    PreDecrement,
    PostIncrement,
    PostDecrement,
}

/// An instruction of the stack machine. Places count from 0 in each function.
#[derive(Clone, Copy, Default, PartialEq, Eq)]
pub enum Instr {
    /// `c`: puts the word.
    Constant(u16),
    /// `x`: puts the address of the external.
    External(Name),
    /// `a`: puts the address of this word of the frame.
    Automatic(u16),
    /// `s`: puts the address of this string word.
    Text(u16),
    /// `l`: puts the value of this label of the function.
    Label(u16),
    /// `v`: takes an address and puts its word.
    Load,
    /// `w`: takes a word and an address below it, stores the word and puts it.
    Store,
    /// `b`: takes the right operand, then the left one, and puts what the operator gives.
    Binary(BinOp),
    /// `m`: takes the right operand and an address, stores what the operator gives and puts it.
    Modify(BinOp),
    /// `n`: takes a word and puts its negative.
    Negate,
    /// `h`: takes a word and puts 1 if it is 0, else 0.
    Not,
    /// `i`: takes an address and counts its word up or down.
    Increment(Increment),
    /// `j`: goes to the place.
    Jump(u16),
    /// `z`: takes a word, and goes to the place if it is 0.
    JumpIfZero(u16),
    /// `g`: takes a word and goes to the label of that value.
    Goto,
    /// `e`: takes the topmost word and goes to the target if it is the value, else leaves it.
    JumpIfCase { value: u16, target: u16 },
    /// `k`: takes this many arguments and the callee below them, and calls it.
    Call(u16),
    /// `r`: takes a word and returns it.
    Return,
    /// `p`: takes a word.
    #[default]
    Pop,
}

/// An initial value of an external.
#[derive(Clone, Copy, PartialEq, Eq)]
pub enum Ival {
    Number(u16),
    /// The address of the external of this name.
    Name(Name),
    /// The address of the string word with this offset among those of the definition.
    Text(u16),
}

impl Default for Ival {
    fn default() -> Self {
        Ival::Number(0)
    }
}

/// How many frame words, labels, string words and instructions a function has.
#[derive(Clone, Copy)]
pub struct Sizes {
    pub frame: u16,
    pub labels: u16,
    pub strings: u16,
    pub code: u16,
}

/// What a function is made of.
#[derive(Drop)]
pub struct FunctionParts {
    pub name: Name,
    pub parameters: u16,
    /// How many words the frame has, the parameters among them.
    pub frame: u16,
    /// For each label the place of the instruction that a goto to it goes to.
    pub targets: Vec<u16>,
    /// The words of its strings, in source order.
    pub strings: Vec<u16>,
    pub code: Vec<Instr>,
}

/// A function within the ranges of a code text.
#[derive(Drop)]
pub struct Function {
    parts: FunctionParts,
}

impl Model for Function {
    ghost use Rattle.blang.specs.CodeParts as definitions;

    ghost Value = { definitions.Function };

    ghost use Rattle.blang.specs.CodeParts.{function_of};

    ghost view = { λ d. function_of d.parts };

    ghost invariant = { λ d. definitions.IsFunctionWithinRanges (function_of d.parts) };
}

impl Function {
    /// The definition that has these parts.
    pub fn from_parts(parts: FunctionParts) -> Self
        requires { IsFunctionWithinRanges (function_of parts) }
        ensures same { result ≡ function_of parts }
        ensures within { IsFunctionWithinRanges result }
    {
        Function { parts }
    }

    /// Its parts, to look at.
    pub fn parts(&self) -> &FunctionParts
        ensures same { function_of result.now ≡ self.now }
        ensures within { IsFunctionWithinRanges self.now }
    {
        &self.parts
    }
}

/// What a simple external is made of.
#[derive(Drop)]
pub struct SimpleParts {
    pub name: Name,
    /// The words in order; where there is none, the external has one word 0.
    pub values: Vec<Ival>,
    /// The words of its strings, in source order.
    pub strings: Vec<u16>,
}

/// A simple external within the ranges of a code text.
#[derive(Drop)]
pub struct Simple {
    parts: SimpleParts,
}

impl Model for Simple {
    ghost use Rattle.blang.specs.CodeParts as definitions;

    ghost Value = { definitions.Simple };

    ghost use Rattle.blang.specs.CodeParts.{simple_of};

    ghost view = { λ d. simple_of d.parts };

    ghost invariant = { λ d. definitions.IsSimpleWithinRanges (simple_of d.parts) };
}

impl Simple {
    /// The definition that has these parts.
    pub fn from_parts(parts: SimpleParts) -> Self
        requires { IsSimpleWithinRanges (simple_of parts) }
        ensures same { result ≡ simple_of parts }
        ensures within { IsSimpleWithinRanges result }
    {
        Simple { parts }
    }

    /// Its parts, to look at.
    pub fn parts(&self) -> &SimpleParts
        ensures same { simple_of result.now ≡ self.now }
        ensures within { IsSimpleWithinRanges self.now }
    {
        &self.parts
    }
}

/// What an external vector is made of.
#[derive(Drop)]
pub struct VectorParts {
    pub name: Name,
    /// How many words it has, its own word not counted.
    pub words: u16,
    /// The first words in order; the others are 0.
    pub values: Vec<Ival>,
    /// The words of its strings, in source order.
    pub strings: Vec<u16>,
}

/// An external vector within the ranges of a code text.
#[derive(Drop)]
pub struct Vector {
    parts: VectorParts,
}

impl Model for Vector {
    ghost use Rattle.blang.specs.CodeParts as definitions;

    ghost Value = { definitions.Vector };

    ghost use Rattle.blang.specs.CodeParts.{vector_of};

    ghost view = { λ d. vector_of d.parts };

    ghost invariant = { λ d. definitions.IsVectorWithinRanges (vector_of d.parts) };
}

impl Vector {
    /// The definition that has these parts.
    pub fn from_parts(parts: VectorParts) -> Self
        requires { IsVectorWithinRanges (vector_of parts) }
        ensures same { result ≡ vector_of parts }
        ensures within { IsVectorWithinRanges result }
    {
        Vector { parts }
    }

    /// Its parts, to look at.
    pub fn parts(&self) -> &VectorParts
        ensures same { vector_of result.now ≡ self.now }
        ensures within { IsVectorWithinRanges self.now }
    {
        &self.parts
    }
}

/// A definition within the ranges of a code text.
pub enum Definition {
    Function(Function),
    Simple(Simple),
    Vector(Vector),
}

// Not derived: a derived drop is compiled and proved once more, with those of all parts, in each crate that drops a
// definition.
impl Drop for Definition {
    fn drop(self) {
        match self {
            Definition::Function(_) | Definition::Simple(_) | Definition::Vector(_) => {}
        }
    }
}

/// A definition as names, numbers and slices that lie elsewhere. It need not be within the ranges.
#[derive(Clone, Copy)]
pub enum View<'a> {
    Function {
        name: Name,
        parameters: u16,
        frame: u16,
        targets: &'a [u16],
        strings: &'a [u16],
        code: &'a [Instr],
    },
    Simple {
        name: Name,
        values: &'a [Ival],
        strings: &'a [u16],
    },
    Vector {
        name: Name,
        words: u16,
        values: &'a [Ival],
        strings: &'a [u16],
    },
}

impl Definition {
    /// The same definition, to look at.
    pub fn view(&self) -> View<'_>
        ensures same { definition_of result ≡ self.now }
        ensures within { IsWithinRanges self.now }
    {
        match self {
            Definition::Function(function) => {
                let parts = function.parts();
                View::Function {
                    name: parts.name,
                    parameters: parts.parameters,
                    frame: parts.frame,
                    targets: &parts.targets,
                    strings: &parts.strings,
                    code: &parts.code,
                }
            }
            Definition::Simple(simple) => {
                let parts = simple.parts();
                View::Simple {
                    name: parts.name,
                    values: &parts.values,
                    strings: &parts.strings,
                }
            }
            Definition::Vector(vector) => {
                let parts = vector.parts();
                View::Vector {
                    name: parts.name,
                    words: parts.words,
                    values: &parts.values,
                    strings: &parts.strings,
                }
            }
        }
    }
}
