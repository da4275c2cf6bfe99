//! A store in pages.
ghost use Rattle.std.specs.Prelude.{◌≡◌, ◌+◌, ◌/◌, ◌^◌, ◌<◌, ◌++◌, length, replicate, OnOk, OnErr, IfOk};
ghost use Rattle.bpages.specs.Pages.{IsPaged};

use bword::{NoMemory, Store};
use std::alloc::{AllocError, Global};

/// How many words a page has.
const PAGE_LEN: usize = 256;

/// How many pages a store has.
const PAGES: usize = 256;

/// All words in pages of 256, each of which is made when a word is first put into it.
pub struct PagedStore {
    // Where each page starts in the list, or 0 where it isn't made.
    starts: [u32; PAGES],
    // A page of zeros that is never written, and after it the pages made.
    list: Vec<u16>,
    ghost paged: { IsPaged starts list.items },
}

// Not derived: a derived drop is compiled and proved once more in each crate that drops such a store.
impl Drop for PagedStore {
    fn drop(self) {
        let PagedStore { starts: _, list: _ } = self;
    }
}

impl PagedStore {
    ghost use Rattle.std.specs.Prelude.{◌≡◌, ℕ, ◌<◌, true, false, IfOk, OnOk, OnErr};
    ghost use Rattle.std.specs.FinSet as set;
    ghost use Rattle.bword.specs.Words.{zeros};
    ghost use Rattle.bpages.specs.Pages.{word_place};
    ghost use Rattle.bpages.specs.PagedStores.{paged_words, pages_of};

    /// A store whose words are all 0, with no page made.
    ///
    /// # Errors
    ///
    /// `NoMemory` if there is no memory for its page of zeros.
    pub fn new(alloc: Global) -> Result<PagedStore, NoMemory>
        ensures words { IfOk result (λ store. paged_words store ≡ zeros) }
        ensures pages { IfOk result (λ store. pages_of store ≡ set.empty) }
    {
        match zero_words(alloc, PAGE_LEN) {
            Ok(list) => Ok(PagedStore {
                starts: [0; PAGES],
                list,
            }),
            Err(_) => Err(NoMemory),
        }
    }

    /// Another store with the same words, in pages of its own.
    ///
    /// # Errors
    ///
    /// `NoMemory` if there is no memory for its pages.
    pub fn copied(&self, alloc: Global) -> Result<PagedStore, NoMemory>
        ensures words { IfOk result (λ store. paged_words store ≡ paged_words self.now) }
        ensures pages { IfOk result (λ store. pages_of store ≡ pages_of self.now) }
    {
        match Vec::from_slice(alloc, &self.list) {
            Ok(list) => Ok(PagedStore {
                starts: self.starts,
                list,
            }),
            Err(_) => Err(NoMemory),
        }
    }

    /// How many pages are made.
    pub fn made(&self) -> u16
        ensures count { result ≡ set.len (pages_of self.now) }
        ensures below { (page : ℕ) → set.contains (pages_of self.now) page ≡ true → page < 256 }
    {
        (self.list.len() / PAGE_LEN - 1) as u16
    }

    /// Whether a page is made.
    #[inline]
    pub fn has_page(&self, page: u8) -> bool
        ensures { result ≡ set.contains (pages_of self.now) page }
    {
        self.starts[usize::from(page)] != 0
    }

    // Where the word of an address stands in the list.
    #[inline]
    fn place(&self, a: u16) -> usize
        ensures { result ≡ word_place self.now.starts a }
    {
        self.starts[usize::from(page_of(a))] as usize + usize::from(a) % PAGE_LEN
    }

    // Makes a page where it isn't made.
    #[inline]
    fn make(&mut self, page: u8) -> Result<(), NoMemory>
        ensures words { paged_words self.new ≡ paged_words self.old }
        ensures made { OnOk result (pages_of self.new ≡ set.insert (pages_of self.old) page) }
        ensures unmade { OnErr result (pages_of self.new ≡ pages_of self.old) }
        ensures refused { OnErr result (set.contains (pages_of self.old) page ≡ false) }
    {
        if self.has_page(page) {
            Ok(())
        } else {
            self.add_page(page)
        }
    }

    // Makes a page that isn't made.
    #[cold]
    fn add_page(&mut self, page: u8) -> Result<(), NoMemory>
        requires { set.contains (pages_of self.old) page ≡ false }
        ensures words { paged_words self.new ≡ paged_words self.old }
        ensures made { OnOk result (pages_of self.new ≡ set.insert (pages_of self.old) page) }
        ensures unmade { OnErr result (pages_of self.new ≡ pages_of self.old) }
    {
        let start = self.list.len();
        push_zeros(&mut self.list, PAGE_LEN)?;
        self.starts[usize::from(page)] = start as u32;
        Ok(())
    }
}

impl Store for PagedStore {
    ghost use Rattle.std.specs.Prelude.{◌≡◌, ◌/◌, true, false, OnOk, OnErr, slice_index, slice_set};
    ghost use Rattle.std.specs.FinSet as set;
    ghost use Rattle.bpages.specs.PagedStores.{paged_words, pages_of, words_of-IsStore};

    ghost words = { paged_words };

    ghost may_refuse = { true };

    /// The word at an address, which is 0 where its page isn't made.
    #[inline]
    fn get(&self, a: u16) -> u16
        ensures value { result ≡ slice_index (paged_words self.now) a }
        ensures blank { set.contains (pages_of self.now) (a / 256) ≡ false → result ≡ 0 }
    {
        self.list[self.place(a)]
    }

    /// Puts a word at an address, and makes its page where that isn't made.
    ///
    /// # Errors
    ///
    /// `NoMemory` if there is no memory for the page. Nothing has changed then.
    #[inline]
    fn set(&mut self, a: u16, w: u16) -> Result<(), NoMemory>
        ensures stored { OnOk result (paged_words self.new ≡ slice_set (paged_words self.old) a w) }
        ensures made { OnOk result (pages_of self.new ≡ set.insert (pages_of self.old) (a / 256)) }
        ensures unchanged { OnErr result (paged_words self.new ≡ paged_words self.old) }
        ensures unmade { OnErr result (pages_of self.new ≡ pages_of self.old) }
        ensures refused { OnErr result (set.contains (pages_of self.old) (a / 256) ≡ false) }
    {
        self.make(page_of(a))?;
        let place = self.place(a);
        self.list[place] = w;
        Ok(())
    }

    ghost whole = { words_of-IsStore };
}

// The page of an address.
#[inline]
fn page_of(a: u16) -> u8
    ensures { result ≡ a / 256 }
{
    (usize::from(a) / PAGE_LEN) as u8
}

fn zero_words(alloc: Global, count: usize) -> Result<Vec<u16>, AllocError>
    ensures { IfOk result (λ words. words.items ≡ replicate count 0) }
{
    vec![in alloc; 0; count]
}

// Puts so many zeros after a list.
fn push_zeros(list: &mut Vec<u16>, count: usize) -> Result<(), NoMemory>
    requires { length list.old.items + count < 2 ^ 64 }
    ensures pushed { OnOk result (list.new.items ≡ list.old.items ++ replicate count 0) }
    ensures unchanged { OnErr result (list.new.items ≡ list.old.items) }
{
    match list.resize(list.len() + count, 0) {
        Ok(()) => Ok(()),
        Err(_) => Err(NoMemory),
    }
}
