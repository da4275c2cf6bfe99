use bpages::PagedStore;
use bword::Store;
use std::test::Fail;

#[test]
fn pages_of_a_store(rt: HostRuntime) -> Result<(), Fail> {
    let mut store = PagedStore::new(rt.alloc())?;
    assert_eq!(rt; store.made(), 0);
    for (a, w, made) in [(0, 1, 1), (255, 2, 1), (256, 3, 2), (65535, 0, 3)] {
        store.set(a, w)?;
        assert_eq!(rt; store.made(), made, "after a word at {a}");
    }
    for (a, w) in [
        (300, 0),
        (65535, 0),
        (0, 1),
        (1, 0),
        (255, 2),
        (256, 3),
        (512, 0),
    ] {
        assert_eq!(rt; store.get(a), w, "the word at {a}");
    }
    assert_eq!(rt; store.made(), 3);
    for (page, made) in [(0, true), (1, true), (2, false), (254, false), (255, true)] {
        assert_eq!(rt; store.has_page(page), made, "page {page}");
    }
    Ok(())
}

#[test]
fn all_words_of_a_store(rt: HostRuntime) -> Result<(), Fail> {
    let mut store = PagedStore::new(rt.alloc())?;
    for a in 0..=65535_u16 {
        store.set(65535 - a, a)?;
    }
    assert_eq!(rt; store.made(), 256);
    for a in 0..=65535_u16 {
        assert_eq!(rt; store.get(a), 65535 - a);
    }
    Ok(())
}

// A page that is refused changes nothing, and is made by the next call.
#[test]
fn a_page_refused(rt: HostRuntime) {
    let Ok(mut store) = PagedStore::new(rt.alloc()) else {
        return;
    };
    for page in 0..=255_u8 {
        let a = u16::from(page) * 256;
        let made = store.made();
        if store.set(a, 7).is_err() {
            assert_eq!(rt; store.made(), made);
            assert_eq!(rt; store.get(a), 0);
            assert!(rt; store.set(a, 7).is_ok());
        }
        assert_eq!(rt; store.made(), u16::from(page) + 1);
        assert_eq!(rt; store.get(a), 7);
    }
}
