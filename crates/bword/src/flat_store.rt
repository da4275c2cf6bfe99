//! A store in one piece.
ghost use Rattle.std.specs.Prelude.{◌≡◌, IfOk, replicate};
ghost use Rattle.bword.specs.Words.{IsStore};

use crate::store::STORE_LEN;
use crate::{NoMemory, Store};
use std::alloc::{AllocError, Global};

/// All words in one piece of memory, which is taken when the store is made.
#[derive(Drop)]
pub struct FlatStore {
    words: Vec<u16>,
    ghost whole: { IsStore words.items },
}

impl FlatStore {
    ghost use Rattle.std.specs.Prelude.{◌≡◌, IfOk};
    ghost use Rattle.bword.specs.Words.{zeros};
    ghost use Rattle.bword.specs.FlatStores.{flat_words};

    /// A store whose words are all 0.
    ///
    /// # Errors
    ///
    /// `NoMemory` if there is no memory for the words.
    pub fn new(alloc: Global) -> Result<FlatStore, NoMemory>
        ensures { IfOk result (λ store. flat_words store ≡ zeros) }
    {
        match zero_words(alloc, STORE_LEN) {
            Ok(words) => Ok(FlatStore { words }),
            Err(_) => Err(NoMemory),
        }
    }
}

impl Store for FlatStore {
    ghost use Rattle.std.specs.Prelude.{◌≡◌, false, IsOk, OnOk, slice_set};
    ghost use Rattle.bword.specs.FlatStores.{flat_words};

    ghost words = { flat_words };

    ghost may_refuse = { false };

    #[inline]
    fn get(&self, a: u16) -> u16 {
        self.words[usize::from(a)]
    }

    /// Puts a word at an address, which always succeeds.
    #[inline]
    fn set(&mut self, a: u16, w: u16) -> Result<(), NoMemory>
        ensures stored { OnOk result (flat_words self.new ≡ slice_set (flat_words self.old) a w) }
        ensures succeeds { IsOk result }
    {
        self.words[usize::from(a)] = w;
        Ok(())
    }

    ghost whole = { λ store. store.whole };
}

fn zero_words(alloc: Global, count: usize) -> Result<Vec<u16>, AllocError>
    ensures { IfOk result (λ words. words.items ≡ replicate count 0) }
{
    vec![in alloc; 0; count]
}
