//! What the holes of a rule stand for.
ghost use Rattle.std.specs.Prelude.{◌≡◌};
ghost use Rattle.bmatch.specs.Binds.{given_to, hole_of, nothing_bound, with_hole, with_told};

use crate::pattern::{MOST_HOLES, ROOT};

/// The branches for which holes stand, by the numbers of both, and the token that is told.
#[derive(Clone, Copy)]
pub struct Binds {
    pub holes: [Option<usize>; 16],
    pub told: Option<usize>,
}

impl Binds {
    pub(crate) fn nothing() -> Self
        ensures { result ≡ nothing_bound }
    {
        Binds {
            holes: [None; 16],
            told: None,
        }
    }

    /// The branch for which a hole stands.
    pub fn of(&self, hole: u8) -> Option<usize>
        ensures { result ≡ hole_of self.now hole }
    {
        self.holes.get(hole as usize).copied().unwrap_or(None)
    }

    /// What the holes of a condition stand for that is given these four.
    pub(crate) fn given(&self, first: u8, second: u8, third: u8, fourth: u8) -> Self
        ensures { result ≡ given_to self.now first second third fourth }
    {
        Binds {
            holes: [
                self.of(first),
                self.of(second),
                self.of(third),
                self.of(fourth),
                None,
                None,
                None,
                None,
                None,
                None,
                None,
                None,
                None,
                None,
                None,
                self.of(ROOT),
            ],
            told: self.told,
        }
    }

    /// The same, where a hole stands for this branch.
    pub(crate) fn with(self, hole: u8, index: usize) -> Self
        ensures { result ≡ with_hole self hole index }
    {
        let mut holes = self.holes;
        if hole < MOST_HOLES {
            holes[hole as usize] = Some(index);
        }
        Binds {
            holes,
            told: self.told,
        }
    }

    /// The same, where this token is told if it is marked.
    pub(crate) fn telling(self, is_told: bool, token: usize) -> Self
        ensures { result ≡ with_told self is_told token }
    {
        Binds {
            holes: self.holes,
            told: if is_told { Some(token) } else { self.told },
        }
    }
}
