//! What was loaded so far.
ghost use Rattle.std.specs.Prelude.{◌+◌, ◌≤◌, length};
ghost use Rattle.blang.specs.declared.code.Definition.TheVariants as definition;
ghost use Rattle.blang.specs.Layout.{labels_in, shape_of, size_of};
ghost use Rattle.bmach.specs.Loading.{known_in};
ghost use Rattle.bmach.specs.Parts.{AddsDefinition};

use crate::LoadFault;
use crate::address_table::Addresses;
use crate::addresses::FIRST_FUNCTION;
use crate::image::LoadedFunction;
use crate::resolve::{push_values, resolved_code};
use blang::{Definition, Function, Simple, Vector};
use std::alloc::Global;

/// The words and functions of the definitions so far.
#[derive(Drop)]
pub struct Part {
    pub words: Vec<u16>,
    pub functions: Vec<LoadedFunction>,
    /// The value of the next function's first label.
    pub first_label: u32,
}

impl Part {
    /// Adds the words of a definition and, if it is one, the function.
    pub fn add(
        &mut self,
        alloc: Global,
        addresses: &Addresses,
        definition: &Definition,
    ) -> Result<(), LoadFault>
        requires words { length self.old.words.items + size_of (shape_of definition.now) ≤ 65536 }
        requires functions { 7 + length self.old.functions.items ≤ length self.old.words.items }
        requires labels { self.old.first_label + labels_in (shape_of definition.now).kind ≤ 65536 }
        ensures { AddsDefinition (known_in addresses.now) self.old definition.now result self.new }
    {
        match definition {
            Definition::Function(function) => self.add_function(alloc, addresses, function),
            Definition::Simple(simple) => self.add_simple(addresses, simple),
            Definition::Vector(vector) => self.add_vector(addresses, vector),
        }
    }

    // A function has a word with its value, and its string words.
    fn add_function(
        &mut self,
        alloc: Global,
        addresses: &Addresses,
        function: &Function,
    ) -> Result<(), LoadFault>
        requires words { length self.old.words.items + size_of (shape_of (definition.Function function.now)) ≤ 65536 }
        requires functions { 7 + length self.old.functions.items ≤ length self.old.words.items }
        requires labels { self.old.first_label + length function.now.targets ≤ 65536 }
        ensures { AddsDefinition (known_in addresses.now) self.old (definition.Function function.now) result self.new }
    {
        let parts = function.parts();
        let value = FIRST_FUNCTION + self.functions.len() as u16;
        self.words.push(value)?;
        let strings = self.words.len() as u32;
        self.words.extend_from_slice(&parts.strings)?;
        let code = resolved_code(alloc, addresses, strings, self.first_label, &parts.code)?;
        let targets = Vec::from_slice(alloc, &parts.targets)?;
        self.functions.push(LoadedFunction {
            strings,
            parameters: parts.parameters,
            frame: parts.frame,
            targets,
            code,
            first_label: self.first_label,
        })?;
        self.first_label += parts.targets.len() as u32;
        Ok(())
    }

    // A simple external has its values, or one word 0, and its string words.
    fn add_simple(&mut self, addresses: &Addresses, simple: &Simple) -> Result<(), LoadFault>
        requires { length self.old.words.items + size_of (shape_of (definition.Simple simple.now)) ≤ 65536 }
        ensures { AddsDefinition (known_in addresses.now) self.old (definition.Simple simple.now) result self.new }
    {
        let parts = simple.parts();
        let strings = self.words.len() + parts.values.len().max(1);
        push_values(&mut self.words, addresses, strings as u32, &parts.values)?;
        self.words.resize(strings, 0)?;
        self.words.extend_from_slice(&parts.strings)?;
        Ok(())
    }

    // A vector has its own word, its words and its string words.
    fn add_vector(&mut self, addresses: &Addresses, vector: &Vector) -> Result<(), LoadFault>
        requires { length self.old.words.items + size_of (shape_of (definition.Vector vector.now)) ≤ 65536 }
        ensures { AddsDefinition (known_in addresses.now) self.old (definition.Vector vector.now) result self.new }
    {
        let parts = vector.parts();
        let first = self.words.len() + 1;
        let strings = first + (parts.words as usize).max(parts.values.len());
        self.words.push(first as u16)?;
        push_values(&mut self.words, addresses, strings as u32, &parts.values)?;
        self.words.resize(strings, 0)?;
        self.words.extend_from_slice(&parts.strings)?;
        Ok(())
    }
}
