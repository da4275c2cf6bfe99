//! Stores of words, and the bytes of their strings.
ghost use Rattle.std.specs.Prelude.{◌≡◌, ℕ, Bool, List, IsFalse, IsOk, OnOk, OnErr, slice_index, slice_set};
ghost use Rattle.bword.specs.Words.{IsStore, byte_address, byte_of, char_of, with_byte, with_char};

/// How many words a store has.
pub const STORE_LEN: usize = 65536;

/// There is no memory for a store.
#[derive(Clone, Copy, Debug)]
pub struct NoMemory;

/// The 65536 words of a machine, by their addresses.
pub trait Store {
    // Its words, by their addresses.
    ghost words: { Self → List ℕ };

    // Whether a `set` can be refused memory.
    ghost may_refuse: { Bool };

    /// The word at an address.
    fn get(&self, a: u16) -> u16
        ensures { result ≡ slice_index (words self.now) a };

    /// Puts a word at an address.
    ///
    /// # Errors
    ///
    /// `NoMemory` if the store has no memory for it. No word has changed then.
    fn set(&mut self, a: u16, w: u16) -> Result<(), NoMemory>
        ensures stored { OnOk result (words self.new ≡ slice_set (words self.old) a w) }
        ensures unchanged { OnErr result (words self.new ≡ words self.old) }
        ensures refused { IsFalse may_refuse → IsOk result };

    // It has 65536 of them, each below 65536.
    ghost whole: { (store : Self) → IsStore (words store) };
}

impl<S: Store> Store for &mut S {
    ghost words = { λ r. S.words r.now };

    ghost may_refuse = { S.may_refuse };

    #[inline]
    fn get(&self, a: u16) -> u16 {
        Store::get(&**self, a)
    }

    #[inline]
    fn set(&mut self, a: u16, w: u16) -> Result<(), NoMemory> {
        Store::set(&mut **self, a, w)
    }

    ghost whole = { λ r. S.whole r.now };
}

/// The byte with index `i` of the string at `s`, as the library's `char` gives it.
///
/// A string has two bytes to a word, that with the even index in the low half, and goes on at address 0 after
/// the last word.
#[inline]
pub fn char_at<S: Store>(store: &S, s: u16, i: u16) -> u16
    ensures { result ≡ char_of (S.words store.now) s i }
{
    let word = store.get(byte_address(s, i));
    if i % 2 == 0 { word % 256 } else { word / 256 }
}

/// Stores the low byte of `c` as the byte with index `i` of the string at `s`, as the library's `lchar` does.
///
/// # Errors
///
/// `NoMemory` if the store has no memory for it. No word has changed then.
#[inline]
pub fn set_char<S: Store>(store: &mut S, s: u16, i: u16, c: u16) -> Result<(), NoMemory>
    ensures stored { OnOk result (S.words store.new ≡ with_char (S.words store.old) s i c) }
    ensures unchanged { OnErr result (S.words store.new ≡ S.words store.old) }
    ensures refused { IsFalse S.may_refuse → IsOk result }
{
    let address = byte_address(s, i);
    let word = with_byte(i, store.get(address), c);
    store.set(address, word)
}

#[inline]
fn byte_address(s: u16, i: u16) -> u16
    ensures { result ≡ byte_address s i }
{
    s.wrapping_add(i / 2)
}

#[inline]
fn with_byte(i: u16, word: u16, c: u16) -> u16
    ensures { result ≡ with_byte i word c }
{
    if i % 2 == 0 {
        word / 256 * 256 + c % 256
    } else {
        c % 256 * 256 + word % 256
    }
}
