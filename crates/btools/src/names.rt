//! The names and lines beside the code of a program, as the compiler tells them.
ghost use Rattle.std.specs.Prelude.{◌≡◌, ◌≤◌, length, map, IfOk, IfSome, IfNone, OnOk, Some, None};
ghost use Rattle.blang.specs.declared.limits.TheConstants.{MAX_NAMES};
ghost use Rattle.bparse.specs.Compilers.{notes_by};
ghost use Rattle.bparse.specs.Locals.{no_notes, table_words, with_notes};
ghost use Rattle.btools.specs.FrameNames.{is_shown_at, name_shown, word_seen, frame_seen};
ghost use Rattle.btools.specs.KeptNames.{notes_in, notes_kept};

use bparse::{CodeOut, Compiler, EntryKind, NameEntry, Step, Watcher};
use bword::{ByteIn, Name};
use std::alloc::{AllocError, Global};

/// A word of a frame that has a name.
#[derive(Clone, Copy)]
pub struct FrameWord {
    pub name: Name,
    /// Which word of the frame it is.
    pub offset: u32,
    /// Whether it is the own word of a vector, whose words follow.
    pub is_vector: bool,
}

/// The names of a function.
#[derive(Drop)]
pub struct Frame {
    /// Its parameters and automatics, in order.
    pub words: Vec<FrameWord>,
    /// Its labels, in order.
    pub labels: Vec<Name>,
}

impl FrameWord {
    // Whether this word of the frame is shown by its name: the word itself, or the first one of its vector.
    fn is_shown_at(&self, offset: u32) -> bool
        ensures { result ≡ is_shown_at offset (word_seen self.now) }
    {
        self.offset == offset || self.is_vector && self.offset.saturating_add(1) == offset
    }
}

impl Frame {
    /// The name of a word, and whether it is the first word of a vector of this name.
    pub fn word(&self, offset: u32) -> Option<(Name, bool)>
        ensures { result ≡ name_shown (frame_seen self.now) offset }
    {
        for word in self.words.as_slice() {
            if word.is_shown_at(offset) {
                return Some((word.name, word.offset < offset));
            }
        }
        None
    }
}

/// The names and lines beside the code of a program.
#[derive(Drop)]
pub struct Names {
    /// The names of each function, in order.
    pub frames: Vec<Frame>,
    /// The line of the source of each instruction and each initial value, in the order of the definitions.
    pub lines: Vec<u64>,
}

impl Names {
    // Adds what the compiler tells of the definition that it wrote last.
    fn add<I: ByteIn, O: CodeOut>(
        &mut self,
        alloc: Global,
        compiler: &Compiler<I, O>,
    ) -> Result<(), AllocError>
        ensures { IfSome (notes_by compiler.now) (λ notes. OnOk result (notes_in self.new ≡ with_notes (notes_in self.old) notes)) }
    {
        self.lines.extend_from_slice(compiler.lines())?;
        if !compiler.is_function() {
            return Ok(());
        }
        let names = compiler.local_names();
        self.frames.push(Frame {
            words: words_of(alloc, names, u32::from(compiler.frame_words()))?,
            labels: labels_of(alloc, names)?,
        })?;
        Ok(())
    }
}

/// A watcher that keeps the names and lines of all definitions.
#[derive(Drop)]
pub(crate) struct NameKeeper {
    alloc: Global,
    names: Names,
    is_refused: bool,
}

impl NameKeeper {
    pub(crate) fn new(alloc: Global) -> Self
        ensures { notes_kept result ≡ Some no_notes }
    {
        NameKeeper {
            alloc,
            names: Names {
                frames: Vec::new(alloc),
                lines: Vec::new(alloc),
            },
            is_refused: false,
        }
    }

    /// What was kept, unless memory ran out.
    pub(crate) fn into_names(self) -> Option<Names>
        ensures some { IfSome result (λ names. notes_kept self ≡ Some (notes_in names)) }
        ensures none { IfNone result (notes_kept self ≡ None) }
    {
        if self.is_refused {
            None
        } else {
            Some(self.names)
        }
    }
}

impl Watcher for NameKeeper {
    ghost kept = { λ k. notes_kept k };

    fn watch<I: ByteIn, O: CodeOut>(&mut self, compiler: &Compiler<I, O>, step: &Step) {
        if let Step::Written = step {
            self.is_refused = self.is_refused || self.names.add(self.alloc, compiler).is_err();
        }
    }
}

// The words of a frame of this size that have a name. The word after a vector's own is the vector's, and has none.
fn words_of(alloc: Global, names: &[NameEntry], size: u32) -> Result<Vec<FrameWord>, AllocError>
    requires { length names.now ≤ MAX_NAMES }
    ensures { IfOk result (λ words. map word_seen words.items ≡ table_words names.now size) }
{
    let mut words = Vec::new(alloc);
    let mut end = size;
    let mut rest = names;
    while let [before @ .., entry] = rest {
        if let EntryKind::Automatic(offset) = entry.kind() {
            words.push(FrameWord {
                name: entry.name(),
                offset,
                is_vector: end.saturating_sub(offset) > 1,
            })?;
            end = offset;
        }
        rest = before;
    }
    words.reverse();
    Ok(words)
}

// The labels, by their numbers.
fn labels_of(alloc: Global, names: &[NameEntry]) -> Result<Vec<Name>, AllocError> {
    let mut labels = Vec::new(alloc);
    for entry in names {
        if let EntryKind::Label(number) = entry.kind() {
            let place = usize::from(number);
            if labels.len() <= place {
                labels.resize(place + 1, entry.name())?;
            }
            if let Some(label) = labels.get_mut(place) {
                *label = entry.name();
            }
        }
    }
    Ok(labels)
}
