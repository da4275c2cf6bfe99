//! Bases of numbers.
ghost use Rattle.std.specs.Prelude.{◌≤◌};

/// A base that `printn` can write a number to.
#[derive(Clone, Copy)]
pub struct Base {
    pub value: u16,
    ghost in_range: { (2 ≤ value) × (value ≤ 10) },
}
