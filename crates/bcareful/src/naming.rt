//! The names of words of memory.
ghost use Rattle.std.specs.Prelude.{◌≡◌, ◌++◌, ◌∷◌, None, OnOk, codes, map, option_map};
ghost use Rattle.btools.specs.Characters.{signed_text};
ghost use Rattle.btools.specs.FrameNames.{word_seen};
ghost use Rattle.blang.specs.Layout.{shape_of, words_before_strings};
ghost use Rattle.bmach.specs.Stops.{active_of};
ghost use Rattle.bcareful.specs.Things.{atlas_of, site_of};
ghost use Rattle.bcareful.specs.Tellings.{address_name, data_index, frame_word_name, function_text, held_name, holder};
ghost use Rattle.bcareful.specs.Tellings.{holds};
ghost use Rattle.bcareful.specs.Tellings.{index_after, index_text, is_string, name_text, name_with, named_at, no_name};
ghost use Rattle.bcareful.specs.Tellings.{numbered_text};
ghost use Rattle.bcareful.specs.Tellings.{own_index_text, shape_name, start_text, string_mark, word_name, word_name_of};

use crate::atlas::{Atlas, Site};
use blang::Definition;
use bmach::{Active, FIRST_ADDRESS, Stepper, name_of, size_of};
use btools::{FrameWord, Text, push_signed};
use bword::{Name, Store};
use std::alloc::AllocError;

/// How a word of memory is told.
#[derive(Clone, Copy)]
pub struct WordName {
    /// Whether it is one of a string of the definition that has the name.
    is_string: bool,
    /// Its name, if it is a word of the program.
    name: Option<Name>,
    /// Its index, if it is one of the words of a vector.
    index: Option<u32>,
    /// The function in whose frame it is, if it is in one.
    function: Option<Name>,
}

impl WordName {
    fn none() -> Self
        ensures { word_name_of result ≡ no_name }
    {
        WordName {
            is_string: false,
            name: None,
            index: None,
            function: None,
        }
    }

    /// Adds this name.
    pub fn push_to(&self, text: &mut Text) -> Result<(), AllocError>
        ensures { OnOk result (text.new ≡ text.old ++ name_text (word_name_of self.now)) }
    {
        self.push_start(text)?;
        self.push_index(text)?;
        self.push_function(text)
    }

    /// Adds the name of the word that comes so many words after this one, the first of a thing.
    pub fn push_numbered(&self, text: &mut Text, number: u16) -> Result<(), AllocError>
        ensures { OnOk result (text.new ≡ text.old ++ numbered_text (word_name_of self.now) (signed_text number)) }
    {
        match self.index {
            Some(_) => self.push_indexed(text, number),
            None => self.push_counted(text, number),
        }
    }

    // Adds this name with another index.
    fn push_indexed(&self, text: &mut Text, index: u16) -> Result<(), AllocError>
        ensures { OnOk result (text.new ≡ text.old
            ++ name_with (word_name_of self.now) (index_text (signed_text index))) }
    {
        self.push_start(text)?;
        text.push(b"[")?;
        push_signed(text, index)?;
        text.push(b"]")?;
        self.push_function(text)
    }

    // Adds the number of a word, and this name.
    fn push_counted(&self, text: &mut Text, number: u16) -> Result<(), AllocError>
        ensures { OnOk result (text.new ≡ text.old ++ (codes "word " ++ signed_text number ++ codes " of "
            ++ name_text (word_name_of self.now))) }
    {
        text.push(b"word ")?;
        push_signed(text, number)?;
        text.push(b" of ")?;
        self.push_to(text)
    }

    // Adds what comes before the index.
    fn push_start(&self, text: &mut Text) -> Result<(), AllocError>
        ensures { OnOk result (text.new ≡ text.old ++ start_text (word_name_of self.now)) }
    {
        text.push(string_mark(self.is_string))?;
        match &self.name {
            Some(name) => text.push(name.as_bytes()),
            None => text.push(b"no word of the program"),
        }
    }

    fn push_index(&self, text: &mut Text) -> Result<(), AllocError>
        ensures { OnOk result (text.new ≡ text.old ++ own_index_text (word_name_of self.now).index) }
    {
        match self.index {
            Some(index) => {
                text.push(b"[")?;
                text.push_number(u64::from(index))?;
                text.push(b"]")
            }
            None => Ok(()),
        }
    }

    // Adds what comes after the index.
    fn push_function(&self, text: &mut Text) -> Result<(), AllocError>
        ensures { OnOk result (text.new ≡ text.old ++ function_text (word_name_of self.now).function) }
    {
        match &self.function {
            Some(name) => {
                text.push(b" of ")?;
                text.push(name.as_bytes())
            }
            None => Ok(()),
        }
    }
}

/// The name of a word of memory, where this call runs.
pub fn word_name<S: Store + Drop>(
    atlas: &Atlas<'_>,
    stepper: &Stepper<'_, S>,
    address: u16,
) -> WordName
    ensures { word_name_of result
        ≡ word_name (atlas_of atlas.now) (active_of stepper.now.call ∷ map active_of stepper.now.below) address }
{
    match holder(atlas, stepper, address) {
        Some(call) => held_name(atlas, address, call),
        None => address_name(&atlas.program.definitions, address),
    }
}

// The call whose frame has a word.
fn holder<S: Store + Drop>(
    atlas: &Atlas<'_>,
    stepper: &Stepper<'_, S>,
    address: u16,
) -> Option<Active>
    ensures { result
        ≡ holder (atlas_of atlas.now) (active_of stepper.now.call ∷ map active_of stepper.now.below) address }
{
    let top = stepper.top();
    if holds(atlas, address, top) {
        return Some(top);
    }
    for number in 0..stepper.callers() {
        if let Some(call) = stepper.caller(number) {
            if holds(atlas, address, call) {
                return Some(call);
            }
        }
    }
    None
}

// Whether the frame of a call has a word.
fn holds(atlas: &Atlas<'_>, address: u16, call: Active) -> bool
    ensures { result ≡ holds (atlas_of atlas.now) address call }
{
    match atlas.located(call.strings) {
        Some(site) => {
            let offset = u32::from(address).saturating_sub(call.start);
            u32::from(address) >= call.start && offset < u32::from(site.parts.frame)
        }
        None => false,
    }
}

// The name of a word of the frame of a call.
fn held_name(atlas: &Atlas<'_>, address: u16, call: Active) -> WordName
    ensures { word_name_of result ≡ held_name (atlas_of atlas.now) address call }
{
    match atlas.located(call.strings) {
        Some(site) => {
            let offset = u32::from(address).saturating_sub(call.start);
            frame_word_name(site, offset)
        }
        None => WordName::none(),
    }
}

fn frame_word_name(site: Site<'_>, offset: u32) -> WordName
    ensures { word_name_of result ≡ frame_word_name (site_of site.entry) offset }
{
    match named_at(site.words, offset) {
        Some(word) => WordName {
            is_string: false,
            name: Some(word.name),
            index: index_after(word, offset),
            function: Some(site.parts.name),
        },
        None => WordName::none(),
    }
}

// The last word of a frame that has a name, up to this one.
fn named_at(words: &[FrameWord], offset: u32) -> Option<FrameWord>
    ensures { option_map word_seen result ≡ named_at (map word_seen words.now) offset None }
{
    let mut last = None;
    for word in words {
        if word.offset > offset {
            return last;
        }
        last = Some(*word);
    }
    last
}

// The index of a word after this one, if this is the own word of a vector.
fn index_after(word: FrameWord, offset: u32) -> Option<u32>
    ensures { result ≡ index_after (word_seen word) offset }
{
    if word.is_vector && word.offset < offset {
        Some(offset - word.offset - 1)
    } else {
        None
    }
}

// The name of a word of the data, or that of none.
fn address_name(definitions: &[Definition], address: u16) -> WordName
    ensures { word_name_of result ≡ address_name definitions.now address }
{
    if address < FIRST_ADDRESS {
        return WordName::none();
    }
    let mut offset = address - FIRST_ADDRESS;
    for definition in definitions {
        let size = size_of(definition);
        if offset < size {
            return shape_name(definition, offset);
        }
        offset -= size;
    }
    WordName::none()
}

fn shape_name(definition: &Definition, offset: u16) -> WordName
    ensures { word_name_of result ≡ shape_name (shape_of definition.now) offset }
{
    WordName {
        is_string: is_string(definition, offset),
        name: Some(name_of(definition)),
        index: data_index(definition, offset),
        function: None,
    }
}

// The index of a word of a definition, if it is one of a vector.
fn data_index(definition: &Definition, offset: u16) -> Option<u32>
    ensures { result ≡ data_index (shape_of definition.now).kind (shape_of definition.now).values offset }
{
    match definition {
        Definition::Vector(_) => {
            if offset > 0 && usize::from(offset) < words_before_strings(definition) {
                Some(u32::from(offset - 1))
            } else {
                None
            }
        }
        Definition::Function(_) | Definition::Simple(_) => None,
    }
}

// What stands before the name for a word of a string.
fn string_mark(is_string: bool) -> &'static [u8]
    ensures { result.now ≡ string_mark is_string }
{
    if is_string { b"a string of " } else { b"" }
}

// Whether a word of a definition is one of its strings.
fn is_string(definition: &Definition, offset: u16) -> bool
    ensures { result ≡ is_string (shape_of definition.now) offset }
{
    words_before_strings(definition) <= usize::from(offset)
}

// How many words of a definition come before its strings.
fn words_before_strings(definition: &Definition) -> usize
    ensures { result ≡ words_before_strings (shape_of definition.now).kind (shape_of definition.now).values }
{
    match definition {
        Definition::Function(_) => 1,
        Definition::Simple(simple) => simple.parts().values.len().max(1),
        Definition::Vector(vector) => {
            let parts = vector.parts();
            1 + (parts.words as usize).max(parts.values.len())
        }
    }
}
