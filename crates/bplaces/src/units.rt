//! Columns in units of UTF-16, as editors count.
ghost use Rattle.std.specs.Int.{is_in_range};
ghost use Rattle.std.specs.List.{list_all};
ghost use Rattle.std.specs.Prelude.{◌≡◌, ◌≤◌, drop, length, take};
ghost use Rattle.bplaces.specs.Units.{after_first, can_follow, first_unit, followers, greatest_second, least_second};
ghost use Rattle.bplaces.specs.Units.{next_unit, tail_length, units_after, units_of};

/// A column in units of UTF-16, and how many bytes follow of a character that has begun before it.
#[derive(Clone, Copy)]
pub struct UnitPlace {
    pub column: usize,
    pub tail: usize,
}

impl UnitPlace {
    /// Where a line begins.
    pub fn first() -> Self
        ensures { result ≡ first_unit }
    {
        UnitPlace { column: 1, tail: 0 }
    }

    /// The place after a byte, before this text.
    pub fn after(self, byte: u8, rest: &[u8]) -> Self
        ensures { result ≡ next_unit self byte rest.now }
    {
        if byte == b'\n' {
            return UnitPlace::first();
        }
        if self.tail > 0 {
            return UnitPlace {
                column: self.column,
                tail: self.tail - 1,
            };
        }
        self.after_first(tail_length(byte, rest))
    }

    // The place after the first byte of a character, of which so many bytes follow.
    fn after_first(self, tail: usize) -> Self
        ensures { result ≡ after_first self tail }
    {
        UnitPlace {
            column: self.column.saturating_add(units_of(tail)),
            tail,
        }
    }

    /// The place after so many bytes of a text.
    pub fn along(self, text: &[u8], count: usize) -> Self
        requires { count ≤ length text.now }
        ensures { result ≡ units_after self (take count text.now) (drop count text.now) }
    {
        let mut units = self;
        for index in 0..count {
            units = units.after(text[index], &text[index + 1..]);
        }
        units
    }
}

// How many bytes after a byte belong to its character.
fn tail_length(first: u8, rest: &[u8]) -> usize
    ensures { result ≡ tail_length first rest.now }
{
    let count = followers(first);
    if count <= rest.len() && can_follow(first, &rest[..count]) {
        count
    } else {
        0
    }
}

// How many bytes follow the first one of a character.
fn followers(first: u8) -> usize
    ensures { result ≡ followers first }
{
    match first {
        0xC2..=0xDF => 1,
        0xE0..=0xEF => 2,
        0xF0..=0xF4 => 3,
        _ => 0,
    }
}

// Whether these bytes can follow a first one.
fn can_follow(first: u8, tail: &[u8]) -> bool
    ensures { result ≡ can_follow first tail.now }
{
    match tail {
        [] => true,
        [second, others @ ..] => can_be_second(first, *second) && can_all_follow(others),
    }
}

fn can_be_second(first: u8, second: u8) -> bool
    ensures { result ≡ is_in_range (least_second first) (greatest_second first) second }
{
    least_second(first) <= second && second <= greatest_second(first)
}

fn least_second(first: u8) -> u8
    ensures { result ≡ least_second first }
{
    match first {
        0xE0 => 0xA0,
        0xF0 => 0x90,
        _ => 0x80,
    }
}

fn greatest_second(first: u8) -> u8
    ensures { result ≡ greatest_second first }
{
    match first {
        0xED => 0x9F,
        0xF4 => 0x8F,
        _ => 0xBF,
    }
}

fn can_all_follow(bytes: &[u8]) -> bool
    ensures { result ≡ list_all (is_in_range 128 191) bytes.now }
{
    bytes.iter().all(|byte| matches!(*byte, 0x80..=0xBF))
}

// How many units a character has, of which so many bytes follow the first one.
fn units_of(tail: usize) -> usize
    ensures { result ≡ units_of tail }
{
    if tail == 3 { 2 } else { 1 }
}
