//! Where the things of a program lie.
ghost use Rattle.std.specs.Prelude.{◌≡◌, ◌++◌, IfOk, OnOk, option_map, slice_index_or};
ghost use Rattle.blang.specs.Layout.{shape_of};
ghost use Rattle.bcareful.specs.Things.{atlas_of, definition_extents, external_thing, extents_of, located, own_words};
ghost use Rattle.bcareful.specs.Things.{site_of};

use crate::thing::Thing;
use blang::{Definition, FunctionParts};
use bmach::{FIRST_ADDRESS, size_of};
use btools::{FrameWord, Program, Tables};
use bword::Name;
use std::alloc::{AllocError, Global};

/// A program with its functions.
#[derive(Clone, Copy)]
pub struct Atlas<'a> {
    pub program: &'a Program,
    pub tables: &'a Tables<'a>,
    /// How many words the name of the definition stands for that begins at each address, and 1 where none begins.
    pub extents: &'a [usize],
    /// Whether it is found, too, where a result is no word.
    pub wraps: bool,
}

/// A function, and the words of its frame that have names.
#[derive(Clone, Copy)]
pub struct Site<'a> {
    pub parts: &'a FunctionParts,
    pub words: &'a [FrameWord],
}

impl<'a> Atlas<'a> {
    /// The function that has its string words there.
    pub fn located(&self, strings: u32) -> Option<Site<'a>>
        ensures { option_map site_of result ≡ located (atlas_of self.now).functions (atlas_of self.now).frames strings }
    {
        let number = self.tables.position(strings)?;
        let frame = self.program.names.frames.get(number)?;
        Some(Site {
            parts: self.tables.entries()[number].parts,
            words: frame.words.as_slice(),
        })
    }

    /// The thing that the external of this name is.
    pub fn external(&self, name: &Name) -> Thing
        ensures { result ≡ external_thing (atlas_of self.now) name.now }
    {
        let start = self.program.image.address(name).unwrap_or(0);
        Thing {
            start,
            words: self.extent(start),
            is_cut: false,
            depth: 0,
            number: 0,
        }
    }

    // How many words the name of what begins there stands for.
    fn extent(&self, address: u16) -> usize
        ensures { result ≡ slice_index_or self.now.extents.now address 1 }
    {
        match self.extents.get(usize::from(address)) {
            Some(words) => *words,
            None => 1,
        }
    }
}

/// How many words the name of the definition stands for that begins at each address, and 1 where none begins.
pub fn extents_of(alloc: Global, definitions: &[Definition]) -> Result<Vec<usize>, AllocError>
    ensures { IfOk result (λ extents. extents.items ≡ extents_of definitions.now) }
{
    let mut extents = Vec::new(alloc);
    extents.resize(FIRST_ADDRESS as usize, 1)?;
    for definition in definitions {
        push_extents(&mut extents, definition)?;
    }
    Ok(extents)
}

fn push_extents(extents: &mut Vec<usize>, definition: &Definition) -> Result<(), AllocError>
    ensures { OnOk result (extents.new.items ≡ extents.old.items ++ definition_extents definition.now) }
{
    extents.push(own_words(definition))?;
    for _ in 0..size_of(definition).saturating_sub(1) {
        extents.push(1)?;
    }
    Ok(())
}

// How many words the name of an external stands for.
fn own_words(definition: &Definition) -> usize
    ensures { result ≡ own_words (shape_of definition.now).kind (shape_of definition.now).values }
{
    match definition {
        Definition::Simple(simple) => simple.parts().values.len().max(1),
        Definition::Function(_) | Definition::Vector(_) => 1,
    }
}
