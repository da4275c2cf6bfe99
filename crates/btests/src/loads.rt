//! Code texts, loaded.
use bcode::read_code;
use blang::LoadFault;
use bmach::{Image, load};
use bword::Name;
use std::alloc::Global;
use std::process::Abort;
use std::test::Fail;

fn image(alloc: Global, code: &str) -> Result<Image, Fail> {
    Ok(load(alloc, read_code(alloc, code.as_bytes())?)?)
}

// Compares the words of an image, of which there are no more before its data end.
fn holds(rt: &impl Abort, image: &Image, words: &str) {
    let mut end: u16 = 0;
    for word in words.split(' ') {
        let held = Some(image.word(end));
        assert_eq!(rt; held, word.parse().ok(), "at {end} of {words}");
        end = end.saturating_add(1);
    }
    assert_eq!(rt; image.data_end(), u32::from(end), "the data end of {words}");
    assert_eq!(rt;
        [image.word(end), image.word(65535)],
        [0, 0],
        "after {words}"
    );
}

// `s "ab", t, 'x'; t; main() ;`
const STRINGS: &str =
    "X s 3 2\ns 0\nx t\nc 120\nw 25185\nw 4\nX t 0 0\nF main 0 0 0 0 2\nc 0\nr\nE\n";

// `n 5; v[1]; main() ;`
const NUMBERS: &str = "X n 1 0\nc 5\nV v 2 0 0\nF main 0 0 0 0 2\nc 0\nr\nE\n";

#[test]
fn words_of_images(rt: HostRuntime) -> Result<(), Fail> {
    for (code, words) in [
        (NUMBERS, "0 1 2 3 4 5 6 5 9 0 0 7"),
        (STRINGS, "0 1 2 3 4 5 6 10 12 120 25185 4 0 7"),
    ] {
        holds(&rt, &image(rt.alloc(), code)?, words);
    }
    Ok(())
}

#[test]
fn addresses_of_names(rt: HostRuntime) -> Result<(), Fail> {
    let image = image(rt.alloc(), "X exit 1 0\nc 5\nF main 0 0 0 0 2\nc 0\nr\nE\n")?;
    for (text, address) in [("exit", Some(7)), ("char", Some(1)), ("none", None)] {
        let name = Name::new(text).ok_or("a name")?;
        assert_eq!(rt; image.address(&name), address, "{text}");
    }
    Ok(())
}

#[test]
fn texts_of_faults(rt: HostRuntime) -> Result<(), Fail> {
    let name = Name::new("n").ok_or("a name")?;
    let text = format!(in rt.alloc();
        "{}, {}, {}, {}, {}",
        LoadFault::Duplicate(name),
        LoadFault::TooLarge,
        LoadFault::Undefined(name),
        LoadFault::NoMain,
        LoadFault::Memory
    )?;
    assert_eq!(rt; text.as_str(), "load 1, load 2, load 3, load 4, memory");
    Ok(())
}
