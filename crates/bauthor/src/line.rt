//! The lines of a file of names.
ghost use Rattle.std.specs.Prelude.{◌≡◌};
ghost use Rattle.bauthor.specs.NameLines.{line_read, name_after};

use bword::Name;

/// A line of a file of names.
#[derive(Clone, Copy)]
pub enum NameLine {
    /// The names of this function follow.
    Function(Name),
    /// The next word of its frame has this name.
    Word(Name),
    /// The next word of its frame is one of the vector whose own word is named above.
    More,
    /// The next of its labels has this name.
    Label(Name),
}

/// What a line says, if it is one of such a file.
pub(crate) fn read_line(line: &[u8]) -> Option<NameLine>
    ensures { result ≡ line_read line.now }
{
    let (letter, rest) = line.split_first()?;
    match *letter {
        b'F' => match name_after(rest) {
            Some(name) => Some(NameLine::Function(name)),
            None => None,
        },
        b'a' => match name_after(rest) {
            Some(name) => Some(NameLine::Word(name)),
            None => None,
        },
        b'l' => match name_after(rest) {
            Some(name) => Some(NameLine::Label(name)),
            None => None,
        },
        b'-' if rest.is_empty() => Some(NameLine::More),
        _ => None,
    }
}

// The name after a blank.
fn name_after(rest: &[u8]) -> Option<Name>
    ensures { result ≡ name_after rest.now }
{
    match rest.split_first() {
        Some((b' ', name)) => Name::from_bytes(name),
        _ => None,
    }
}
