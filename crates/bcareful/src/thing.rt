//! What the words of memory belong to.
ghost use Rattle.std.specs.Prelude.{◌≡◌, ◌<◌, ◌^◌, ◌+◌, ◌%◌, ◌≤◌, drop, length, map};
ghost use Rattle.bcareful.specs.Things.{ends_string, frame_thing, is_cut, is_outside, is_past_end, next_offset};
ghost use Rattle.bcareful.specs.Things.{string_at, string_words};
ghost use Rattle.bcareful.specs.Marks.{part_at, with_part};
ghost use Rattle.bcareful.specs.Things.{owned, thing_among};
ghost use Rattle.btools.specs.FrameNames.{word_seen};

use bmach::Active;
use btools::FrameWord;

/// Words of memory that belong together: those of a vector, the initial ones of an external, one automatic, the
/// parameters of a call, or those of a string with its end.
#[derive(Clone, Copy)]
pub struct Thing {
    /// The address of the first one.
    pub start: u16,
    /// How many there are.
    pub words: usize,
    /// Whether they are a string that ends with the first byte of the last one.
    pub is_cut: bool,
    /// How many calls were active where the one began in whose frame they are; 0 for words of the data.
    pub depth: usize,
    /// The number of this call.
    pub number: u32,
}

/// A call to which words belong.
#[derive(Clone, Copy)]
pub struct Owner {
    /// How many calls are active where it runs.
    pub depth: usize,
    pub number: u32,
}

impl Owner {
    // So many words of its frame from this address on.
    fn thing(self, start: u16, words: usize) -> Thing
        ensures { result ≡ owned self start words }
    {
        Thing {
            start,
            words,
            is_cut: false,
            depth: self.depth,
            number: self.number,
        }
    }
}

/// A word, or one of its two characters.
#[derive(Clone, Copy)]
pub enum Part {
    Whole,
    First,
    Second,
}

impl Part {
    /// The character with this index.
    pub fn at(index: u16) -> Part
        ensures { result ≡ part_at index }
    {
        if index % 2 == 0 {
            Part::First
        } else {
            Part::Second
        }
    }
}

/// What is known of a word beside its value.
#[derive(Clone, Copy)]
pub enum Mark {
    /// Nothing has set it.
    Unset,
    /// Its first character alone was set.
    First,
    /// Its second character alone was set.
    Second,
    /// It is no address, or one of which nobody knows what it was made of.
    Plain,
    /// It is an address that was made of this thing.
    Of(Thing),
}

impl Mark {
    /// That of the word after a part of it was set.
    pub fn with_part(self, part: Part) -> Mark
        ensures { result ≡ with_part part self }
    {
        match (part, self) {
            (Part::First, Mark::Unset | Mark::First) => Mark::First,
            (Part::Second, Mark::Unset | Mark::Second) => Mark::Second,
            _ => Mark::Plain,
        }
    }
}

impl Thing {
    /// Whether an address is none of its words.
    pub fn is_outside(self, address: u16) -> bool
        ensures { result ≡ is_outside self address }
    {
        address < self.start || usize::from(address.saturating_sub(self.start)) >= self.words
    }

    /// Whether a part of the word there comes after a string's end.
    pub fn is_past_end(self, part: Part, address: u16) -> bool
        ensures { result ≡ is_past_end self part address }
    {
        match part {
            Part::Second => {
                self.is_cut && usize::from(address.saturating_sub(self.start)) + 1 == self.words
            }
            Part::Whole | Part::First => false,
        }
    }
}

// Whether a string ends with this word.
fn ends_string(word: u16) -> bool
    ensures { result ≡ ends_string word }
{
    word % 256 == 4 || word / 256 == 4
}

// How many words the string has that begins these.
fn string_words(words: &[u16]) -> usize
    ensures value { result ≡ string_words words.now }
    ensures within { result ≤ length words.now }
{
    let mut count = 0;
    for word in words {
        count += 1;
        if ends_string(*word) {
            return count;
        }
    }
    count
}

// Whether the string that begins these words ends with the first byte of one.
fn is_cut(words: &[u16]) -> bool
    ensures { result ≡ is_cut words.now }
{
    for word in words {
        if ends_string(*word) {
            return *word % 256 == 4;
        }
    }
    false
}

/// The string that begins at an offset among these words, the first of which has this address.
pub fn string_at(first: u32, words: &[u16], offset: u16) -> Thing
    ensures { result ≡ string_at first words.now offset }
{
    let skipped = usize::from(offset).min(words.len());
    Thing {
        start: address_in(first, u32::from(offset)),
        words: string_words(&words[skipped..]),
        is_cut: is_cut(&words[skipped..]),
        depth: 0,
        number: 0,
    }
}

// The offset of the next word of a frame that has a name, or the frame's end.
fn next_offset(words: &[FrameWord], frame: u32) -> u32
    ensures { result ≡ next_offset (map word_seen words.now) frame }
{
    match words.first() {
        Some(word) => word.offset,
        None => frame,
    }
}

/// The thing to which a word of the frame of a call belongs, by the names of the frame.
pub fn frame_thing(
    call: Active,
    owner: Owner,
    words: &[FrameWord],
    frame: u16,
    offset: u16,
) -> Thing
    ensures { result ≡ frame_thing call owner (map word_seen words.now) frame offset }
{
    if offset < call.parameters {
        return owner.thing((call.start % 65536) as u16, usize::from(call.parameters));
    }
    thing_among(
        call.start,
        owner,
        words,
        u32::from(frame),
        u32::from(offset),
    )
}

// The address of a word of a frame.
fn address_in(start: u32, offset: u32) -> u16
    ensures { result ≡ (start + offset) % 65536 }
{
    ((u64::from(start) + u64::from(offset)) % 65536) as u16
}

fn thing_among(start: u32, owner: Owner, words: &[FrameWord], frame: u32, offset: u32) -> Thing
    ensures { result ≡ thing_among start owner (map word_seen words.now) frame offset }
{
    for index in 0..words.len() {
        let word = words[index];
        let end = next_offset(&words[index + 1..], frame);
        if word.offset < offset && offset < end {
            return owner.thing(
                address_in(start, word.offset + 1),
                (end - (word.offset + 1)) as usize,
            );
        }
    }
    owner.thing(address_in(start, offset), 1)
}
