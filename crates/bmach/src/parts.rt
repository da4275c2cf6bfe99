//! What the loader asks of one definition.
ghost use Rattle.std.specs.Prelude.{◌≡◌, ◌≤◌};
ghost use Rattle.blang.specs.Layout.{functions_in, is_main, labels_in, shape_of, size_of};

use blang::Definition;
use bword::Name;

/// The name that a definition defines.
pub fn name_of(definition: &Definition) -> Name
    ensures { result ≡ (shape_of definition.now).name }
{
    match definition {
        Definition::Function(function) => function.parts().name,
        Definition::Simple(simple) => simple.parts().name,
        Definition::Vector(vector) => vector.parts().name,
    }
}

/// How many words of memory a definition takes, its string words among them.
pub fn size_of(definition: &Definition) -> u16
    ensures value { result ≡ size_of (shape_of definition.now) }
    ensures small { result ≤ 33792 }
{
    match definition {
        Definition::Function(function) => 1 + function.parts().strings.len() as u16,
        Definition::Simple(simple) => {
            let parts = simple.parts();
            (parts.values.len().max(1) + parts.strings.len()) as u16
        }
        Definition::Vector(vector) => {
            let parts = vector.parts();
            let words = (parts.words as usize).max(parts.values.len());
            (1 + words + parts.strings.len()) as u16
        }
    }
}

/// How many labels it has.
pub fn labels_in(definition: &Definition) -> u16
    ensures value { result ≡ labels_in (shape_of definition.now).kind }
    ensures small { result ≤ 128 }
{
    match definition {
        Definition::Function(function) => function.parts().targets.len() as u16,
        Definition::Simple(_) | Definition::Vector(_) => 0,
    }
}

/// How many functions it is.
pub fn functions_in(definition: &Definition) -> usize
    ensures value { result ≡ functions_in (shape_of definition.now).kind }
    ensures small { result ≤ 1 }
{
    match definition {
        Definition::Function(_) => 1,
        Definition::Simple(_) | Definition::Vector(_) => 0,
    }
}

/// Whether it is the main function.
pub fn is_main(definition: &Definition) -> bool
    ensures { result ≡ is_main definition.now }
{
    match definition {
        Definition::Function(function) => function.parts().name.as_str() == "main",
        Definition::Simple(_) | Definition::Vector(_) => false,
    }
}
