//! Runs over a store that refuses a word.
ghost use Rattle.std.specs.Prelude.{true};
ghost use Rattle.bword.specs.FlatStores.{flat_words};

use bcode::read_code;
use blang::Outcome;
use bmach::{load, run};
use bword::{FlatStore, MemIn, MemOut, NoMemory, Store};
use std::test::Fail;

// `main(){auto c; while((c=getchar())!='*e') putchar(c);}`
const COPY: &str =
    "F main 0 1 0 0 17\na 0\nx getchar\nv\nk 0\nw\nc 4\nb !=\nz 15\nx putchar\nv\na 0\nv\nk 1\np\nj 0\nc 0\nr\nE\n";

// A store that refuses one `set`, counted from 0.
#[derive(Drop)]
struct RefusingStore {
    store: FlatStore,
    sets: u64,
    refused: u64,
}

impl Store for RefusingStore {
    ghost words = { λ r. flat_words r.store };

    ghost may_refuse = { true };

    fn get(&self, a: u16) -> u16 {
        self.store.get(a)
    }

    fn set(&mut self, a: u16, w: u16) -> Result<(), NoMemory> {
        let set = self.sets;
        self.sets = self.sets.saturating_add(1);
        if set == self.refused {
            return Err(NoMemory);
        }
        self.store.set(a, w)
    }

    ghost whole = { λ r. r.store.whole };
}

// Up to the first `set` that there isn't: a beginning of the output was written, or the run asked once more and answers
// what it answers where nothing is refused.
#[test]
fn each_set_is_refused(rt: HostRuntime) -> Result<(), Fail> {
    let image = load(rt.alloc(), read_code(rt.alloc(), COPY.as_bytes())?)?;
    for refused in 0..100 {
        let mut store = RefusingStore {
            store: FlatStore::new(rt.alloc())?,
            sets: 0,
            refused,
        };
        let mut out = MemOut::new(rt.alloc());
        let mut end = MemIn::new(b"hi");
        let answer = run(rt.alloc(), &image, &mut store, &mut end, &mut out, 1000);
        if answer == Outcome::Memory && store.sets > refused {
            assert!(rt; b"hi".starts_with(out.bytes()), "set {refused}");
            continue;
        }
        assert!(rt; answer == Outcome::Exit(0), "set {refused}");
        assert_eq!(rt; out.bytes(), b"hi".as_slice(), "set {refused}");
        if store.sets <= refused {
            return Ok(());
        }
    }
    Err("each set is refused".into())
}
