//! The marks of words and operands.
ghost use Rattle.std.specs.Prelude.{◌≡◌, ◌+◌, ◌++◌, [], IfOk, OnOk, drop, map, slice_index_or, slice_set};
ghost use Rattle.blang.specs.Layout.{shape_of};
ghost use Rattle.bcareful.specs.Effects.{changed_in};
ghost use Rattle.bcareful.specs.Things.{atlas_of};
ghost use Rattle.bcareful.specs.Marks.{above, begun, below, data_marks, grown, is_over, marks_of, operand_mark};
ghost use Rattle.bcareful.specs.Marks.{running, shape_marks};
ghost use Rattle.bcareful.specs.Marks.{unbegun, value_mark};

use crate::atlas::Atlas;
use crate::effect::Effect;
use crate::thing::{Mark, Owner, Thing, string_at};
use blang::{Definition, Ival};
use bmach::{Active, FIRST_ADDRESS, size_of};
use std::alloc::{AllocError, Global};

/// The marks of a run between two of its steps.
#[derive(Drop)]
pub struct Marks {
    /// Those of the operands of all calls, the topmost last.
    pub operands: Vec<Mark>,
    /// Those of the words of memory, up to the end of the highest frame so far.
    pub words: Vec<Mark>,
    /// The numbers of the active calls, the running one last.
    pub calls: Vec<u32>,
    /// The number of the next call.
    pub next: u32,
}

impl Marks {
    /// Those before a run.
    pub fn new(alloc: Global, atlas: &Atlas<'_>) -> Result<Self, AllocError>
        ensures { IfOk result (λ m. marks_of m ≡ unbegun (atlas_of atlas.now)) }
    {
        let mut words = Vec::new(alloc);
        words.resize(FIRST_ADDRESS as usize, Mark::Plain)?;
        push_definitions(alloc, &mut words, atlas)?;
        Ok(Marks {
            operands: Vec::new(alloc),
            words,
            calls: Vec::new(alloc),
            next: 0,
        })
    }

    /// The running call.
    pub fn owner(&self) -> Owner
        ensures { result ≡ running (marks_of self.now).calls }
    {
        let calls = self.calls.as_slice();
        let number = match calls.get(calls.len().saturating_sub(1)) {
            Some(number) => *number,
            None => 0,
        };
        Owner {
            depth: calls.len(),
            number,
        }
    }

    /// Whether the call of a thing is over.
    pub fn is_over(&self, thing: Thing) -> bool
        ensures { result ≡ is_over (marks_of self.now).calls thing }
    {
        if thing.depth == 0 {
            return false;
        }
        match self.calls.get(thing.depth - 1) {
            Some(number) => *number != thing.number,
            None => true,
        }
    }

    /// The mark of the operand that has so many above it.
    pub fn operand(&self, above: usize) -> Mark
        ensures { result ≡ operand_mark above self.now.operands.items }
    {
        let operands = self.operands.as_slice();
        match operands.get(operands.len().saturating_sub(above.saturating_add(1))) {
            Some(mark) => *mark,
            None => Mark::Plain,
        }
    }

    /// The mark of a word.
    pub fn word(&self, address: u16) -> Mark
        ensures { result ≡ slice_index_or self.now.words.items address Mark.Unset }
    {
        match self.words.get(usize::from(address)) {
            Some(mark) => *mark,
            None => Mark::Unset,
        }
    }

    // Makes room for the marks of a frame of so many words that begins there.
    fn grow(&mut self, start: u32, frame: u16) -> Result<(), AllocError>
        ensures { OnOk result (marks_of self.new ≡ record {
          operands = self.old.operands.items;
          words = grown (start + frame) self.old.words.items;
          calls = self.old.calls.items;
          next = self.old.next;
        }) }
    {
        let end = start as usize + usize::from(frame);
        if self.words.len() < end {
            self.words.resize(end, Mark::Unset)?;
        }
        Ok(())
    }

    /// Takes so many operands away.
    pub fn take(&mut self, count: usize)
        ensures { marks_of self.new ≡ record {
          operands = below count self.old.operands.items;
          words = self.old.words.items;
          calls = self.old.calls.items;
          next = self.old.next;
        } }
    {
        let left = self.operands.len().saturating_sub(count);
        self.operands.truncate(left);
    }

    /// Marks a word.
    pub fn set(&mut self, address: usize, mark: Mark)
        ensures { marks_of self.new ≡ record {
          operands = self.old.operands.items;
          words = slice_set self.old.words.items address mark;
          calls = self.old.calls.items;
          next = self.old.next;
        } }
    {
        if let Some(word) = self.words.get_mut(address) {
            *word = mark;
        }
    }

    /// Marks the words of the frame of a call that begins with the topmost operands as its arguments.
    pub fn begin(&mut self, call: Active, frame: u16, arguments: usize)
        ensures { marks_of self.new ≡ record {
          operands = self.old.operands.items;
          words = begun call.parameters (above arguments self.old.operands.items) call.start frame self.old.words.items;
          calls = self.old.calls.items;
          next = self.old.next;
        } }
    {
        let first = self.operands.len().saturating_sub(arguments);
        for offset in 0..frame {
            let mark = if offset < call.parameters {
                self.argument(first, usize::from(offset))
            } else {
                Mark::Unset
            };
            self.set(call.start as usize + usize::from(offset), mark);
        }
    }

    /// What a step with this effect does, after which this call runs.
    pub fn change(
        &mut self,
        atlas: &Atlas<'_>,
        effect: Effect,
        call: Active,
    ) -> Result<(), AllocError>
        ensures { OnOk result (marks_of self.new ≡ changed_in (atlas_of atlas.now) effect call (marks_of self.old)) }
    {
        let Some(site) = atlas.located(call.strings) else {
            return Ok(());
        };
        match effect {
            Effect::Takes(count) => self.take(count),
            Effect::Puts(count, mark) => {
                self.take(count);
                self.operands.push(mark)?;
            }
            Effect::Stores(count, address, mark) => {
                self.take(count);
                self.operands.push(mark)?;
                self.set(usize::from(address), mark);
            }
            Effect::Sets(count, address, mark) => {
                self.take(count);
                self.operands.push(Mark::Plain)?;
                self.set(usize::from(address), mark);
            }
            Effect::Begins(count) => {
                let arguments = usize::from(count);
                self.grow(call.start, site.parts.frame)?;
                self.begin(call, site.parts.frame, arguments);
                self.take(arguments + 1);
                self.calls.push(self.next)?;
                self.next = self.next.wrapping_add(1);
            }
            Effect::Ends(count, mark) => {
                self.take(count);
                self.operands.push(mark)?;
                self.calls.truncate(self.calls.len().saturating_sub(1));
            }
        }
        Ok(())
    }

    // The mark of an operand after so many.
    fn argument(&self, first: usize, number: usize) -> Mark
        ensures { result ≡ slice_index_or (drop first self.now.operands.items) number Mark.Plain }
    {
        let arguments = &self.operands[first.min(self.operands.len())..];
        match arguments.get(number) {
            Some(mark) => *mark,
            None => Mark::Plain,
        }
    }
}

// Adds the marks of the words of all definitions.
fn push_definitions(
    alloc: Global,
    words: &mut Vec<Mark>,
    atlas: &Atlas<'_>,
) -> Result<(), AllocError>
    ensures { OnOk result (words.new.items ≡ words.old.items
        ++ data_marks (atlas_of atlas.now) 7 (atlas_of atlas.now).definitions) }
{
    let mut address = FIRST_ADDRESS;
    for definition in &atlas.program.definitions {
        let marks = definition_marks(alloc, atlas, address, definition)?;
        words.extend_from_slice(&marks)?;
        address = address.wrapping_add(size_of(definition));
    }
    Ok(())
}

// The marks of the words of a definition that lies there.
fn definition_marks(
    alloc: Global,
    atlas: &Atlas<'_>,
    address: u16,
    definition: &Definition,
) -> Result<Vec<Mark>, AllocError>
    ensures { IfOk result (λ v. v.items ≡ shape_marks (atlas_of atlas.now) address (shape_of definition.now)) }
{
    let mut marks = Vec::new(alloc);
    match definition {
        Definition::Function(_) => {}
        Definition::Simple(simple) => {
            let parts = simple.parts();
            let own = parts.values.len().max(1);
            let strings = u32::from(address) + own as u32;
            push_values(&mut marks, atlas, strings, &parts.strings, &parts.values)?;
        }
        Definition::Vector(vector) => {
            let parts = vector.parts();
            let count = (parts.words as usize).max(parts.values.len());
            marks.push(Mark::Of(Thing {
                start: address.wrapping_add(1),
                words: count,
                is_cut: false,
                depth: 0,
                number: 0,
            }))?;
            let strings = u32::from(address) + (1 + count) as u32;
            push_values(&mut marks, atlas, strings, &parts.strings, &parts.values)?;
        }
    }
    marks.resize(usize::from(size_of(definition)), Mark::Plain)?;
    Ok(marks)
}

// Adds the marks of initial values, in a definition with these string words from an address on.
fn push_values(
    marks: &mut Vec<Mark>,
    atlas: &Atlas<'_>,
    strings: u32,
    words: &[u16],
    values: &[Ival],
) -> Result<(), AllocError>
    ensures { OnOk result (marks.new.items ≡ marks.old.items
        ++ map (value_mark (atlas_of atlas.now) strings words.now) values.now) }
{
    for value in values {
        marks.push(value_mark(atlas, strings, words, value))?;
    }
    Ok(())
}

fn value_mark(atlas: &Atlas<'_>, strings: u32, words: &[u16], value: &Ival) -> Mark
    ensures { result ≡ value_mark (atlas_of atlas.now) strings words.now value.now }
{
    match value {
        Ival::Number(_) => Mark::Plain,
        Ival::Name(name) => Mark::Of(atlas.external(name)),
        Ival::Text(offset) => Mark::Of(string_at(strings, words, *offset)),
    }
}
