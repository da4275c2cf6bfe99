//! How many pages of a store have a word.
ghost use Rattle.std.specs.Prelude.{◌≡◌, ◌*◌};
ghost use Rattle.bpages.specs.PagedStores.{paged_words};
ghost use Rattle.bsession.specs.Sessions.{has_word, pages_held};

use bpages::PagedStore;
use bword::Store;

/// How many pages have another word than 0.
pub(crate) fn pages_held(store: &PagedStore) -> u16
    ensures { result ≡ pages_held (paged_words store.now) }
{
    let mut held = 0;
    for page in 0..256u16 {
        if has_word(store, page as u8) {
            held += 1;
        }
    }
    held
}

// Whether a page has another word than 0.
fn has_word(store: &PagedStore, page: u8) -> bool
    ensures { result ≡ has_word (paged_words store.now) (256 * page) 256 }
{
    if !store.has_page(page) {
        return false;
    }
    let first = u16::from(page) * 256;
    for index in 0..256u16 {
        if store.get(first + index) != 0 {
            return true;
        }
    }
    false
}
