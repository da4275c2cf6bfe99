//! What is said of a byte that begins no token, and of a wrong constant.
ghost use Rattle.std.specs.List.{list_all};
ghost use Rattle.std.specs.Prelude.{◌∷◌, [], IsTrue};
ghost use Rattle.bcheck.specs.Checks.{is_on_line};

use crate::finding::Place;
use crate::spans::utf8_length;
use blex::escape;

/// A byte that begins no token.
#[derive(Clone, Copy)]
pub(crate) enum Byte {
    CarriageReturn,
    ByteOrderMark,
    NoBreakSpace,
    CurlyQuote,
    Dash,
    FormFeed,
    Letter,
    Caret,
    Tilde,
    Hash,
    HashRemark,
    Backslash,
    Dot,
    Fraction,
    Method,
    Other,
}

impl Byte {
    /// One sentence on it, and how to fix it.
    #[rattlefmt::skip]
    pub(crate) fn advice(self) -> (&'static str, &'static str)
        ensures { IsTrue (list_all is_on_line (result.0.now ∷ result.1.now ∷ [])) }
    {
        match self {
            Byte::CarriageReturn =>
                ("this is a carriage return: lines end in CR LF, as on Windows",
                 "take all of them out: tr -d '\\r' < old.b > new.b"),
            Byte::ByteOrderMark =>
                ("this is a byte order mark, as some editors write", "save without it, or tail -c +4 old.b > new.b"),
            Byte::NoBreakSpace => ("this is a no-break space, as in copied pages", "write a plain space in its place"),
            Byte::CurlyQuote =>
                ("this is a curly quote, as in copied pages", "write the plain quote ' or \" in its place"),
            Byte::Dash => ("this is a dash, as in copied pages", "write a plain - in its place"),
            Byte::FormFeed =>
                ("this is a form feed, as between old pages",
                 "write a space in its place: tr '\\f' ' ' < old.b > new.b"),
            Byte::Letter => ("this is a letter beyond ASCII", "take other letters, or put it in a comment"),
            Byte::Caret =>
                ("there is no operator ^", "p =* x; in a loop is a power, and (a | b) - (a & b) the exclusive or"),
            Byte::Tilde => ("there is no operator ~", "-x - 1 has the bits of x the other way round"),
            Byte::Hash =>
                ("nothing begins with #: there is no #define", "take it out; an external has a value: size 10;"),
            Byte::HashRemark => ("nothing begins with #: a remark is between /* and */", "/* remark */"),
            Byte::Backslash => ("no token begins with \\", "take it out; in quotes * begins an escape"),
            Byte::Dot => ("there are no structures and no fractions", "a vector has its parts by numbers: p[0], p[1]"),
            Byte::Fraction =>
                ("there are no fractions: a word is a whole number", "count in smaller parts: 35 tenths for 3.5"),
            Byte::Method =>
                ("there are no methods: a call begins with its function",
                 "length(s), and putstr(s); with b go FILE --with print"),
            Byte::Other => ("no token begins with this byte", "take it out"),
        }
    }
}

/// What begins with these bytes.
pub(crate) fn byte_of(text: &[u8]) -> Byte {
    match (text.get(0), text.get(1), text.get(2)) {
        (Some(b'\r'), _, _) => Byte::CarriageReturn,
        (Some(0xEF), Some(0xBB), Some(0xBF)) => Byte::ByteOrderMark,
        (Some(0xC2), Some(0xA0), _) => Byte::NoBreakSpace,
        (Some(0xE2), Some(0x80), Some(0x98..=0x9F)) => Byte::CurlyQuote,
        (Some(0xE2), Some(0x80), Some(0x90..=0x95)) => Byte::Dash,
        (Some(0x0C), _, _) => Byte::FormFeed,
        (Some(0x80..), _, _) => Byte::Letter,
        (Some(b'^'), _, _) => Byte::Caret,
        (Some(b'~'), _, _) => Byte::Tilde,
        (Some(b'#'), Some(b'd' | b'e' | b'i' | b'p' | b'u'), _) => Byte::Hash,
        (Some(b'#'), _, _) => Byte::HashRemark,
        (Some(b'\\'), _, _) => Byte::Backslash,
        (Some(b'.'), Some(b'0'..=b'9'), _) => Byte::Fraction,
        (Some(b'.'), _, _) if is_method(text) => Byte::Method,
        (Some(b'.'), _, _) => Byte::Dot,
        _ => Byte::Other,
    }
}

// Whether names with points between them lead to a parenthesis.
fn is_method(text: &[u8]) -> bool {
    for byte in text {
        match *byte {
            b'.' | b'_' | b'a'..=b'z' | b'A'..=b'Z' | b'0'..=b'9' => {}
            byte => return byte == b'(',
        }
    }
    false
}

/// What is wrong with a constant.
#[derive(Clone, Copy)]
pub(crate) enum Constant {
    Number,
    Octal,
    Characters,
    Characterless,
    Long,
    Escape,
    Letter,
    Control,
    Star,
    Unclosed,
}

impl Constant {
    /// One sentence on it, and how to fix it.
    #[rattlefmt::skip]
    pub(crate) fn advice(self) -> (&'static str, &'static str)
        ensures { IsTrue (list_all is_on_line (result.0.now ∷ result.1.now ∷ [])) }
    {
        match self {
            Constant::Number => ("no word holds this number", "at most 65535"),
            Constant::Octal =>
                ("a number that begins with 0 is to the base 8", "take the 0 before it away, or the digits 8 and 9"),
            Constant::Characters =>
                ("single quotes have one or two characters", "\"abc\" is a string; 'ab' and 'c' are two constants"),
            Constant::Characterless =>
                ("single quotes have one or two characters", "' ' is a blank, and '*0' the character 0"),
            Constant::Long => ("a string has at most 254 characters", "make two strings of it"),
            Constant::Escape =>
                ("* begins an escape, and no escape has this letter", "*n *t *0 *e ** *' *\" *( *) are all"),
            Constant::Letter =>
                ("this is a letter beyond ASCII, and quotes have none", "take other letters in its place"),
            Constant::Control => ("this byte can't be in quotes", "*t is a tab, *n a newline and *0 the byte 0"),
            Constant::Star => ("*' in quotes is the character ' and ends nothing", "'**' is the character *"),
            Constant::Unclosed =>
                ("no quote ends this on its line", "write the quote at its end; *n is a newline in quotes"),
        }
    }
}

/// What is wrong with a constant at this place of the source, and where in it.
pub(crate) fn constant_at(source: &[u8], place: &Place) -> (Constant, Place) {
    let text = source.get(place.start..).unwrap_or(&[]);
    match text.get(0) {
        Some(b'\'') if text.starts_with(b"'*'") => (Constant::Star, *place),
        Some(b'\'' | b'"') => quoted_at(text, place),
        _ => (number_of(text), *place),
    }
}

// What is wrong with a number.
fn number_of(text: &[u8]) -> Constant {
    let is_octal = text.get(0) == Some(&b'0');
    for byte in text {
        if !byte.is_ascii_digit() {
            break;
        }
        if is_octal && *byte >= b'8' {
            return Constant::Octal;
        }
    }
    Constant::Number
}

// What is wrong with a constant or a string in quotes.
fn quoted_at(text: &[u8], place: &Place) -> (Constant, Place) {
    let quote = text.get(0).copied().unwrap_or(b'"');
    let mut is_escaped = false;
    for index in 1..text.len() {
        let byte = text[index];
        if !is_escaped && byte == quote {
            return (closed_at(quote, index), *place);
        }
        if let Some(wrong) = wrong_in(byte, is_escaped) {
            return (wrong, within(place, text, index, wrong));
        }
        is_escaped = !is_escaped && byte == b'*';
    }
    (Constant::Unclosed, *place)
}

// What is wrong with a byte in quotes.
fn wrong_in(byte: u8, is_escaped: bool) -> Option<Constant> {
    match byte {
        b'\n' => Some(Constant::Unclosed),
        0x80.. => Some(Constant::Letter),
        b'\t' if !is_escaped => None,
        0..=31 | 127 => Some(Constant::Control),
        _ if is_escaped && escape(byte).is_none() => Some(Constant::Escape),
        _ => None,
    }
}

// Where it is: an unclosed quote is marked at its beginning, and an escape at its `*`.
fn within(place: &Place, text: &[u8], index: usize, wrong: Constant) -> Place {
    let (from, len) = match wrong {
        Constant::Unclosed => (0, 1),
        Constant::Escape => (index.saturating_sub(1), 2),
        _ => (index, utf8_length(text.get(index..).unwrap_or(&[]))),
    };
    Place {
        line: place.line,
        start: place.start.saturating_add(from),
        len,
    }
}

// What is wrong with characters that a quote ends at this place after the first quote.
fn closed_at(quote: u8, index: usize) -> Constant {
    match (quote, index) {
        (b'\'', 1) => Constant::Characterless,
        (b'\'', _) => Constant::Characters,
        _ => Constant::Long,
    }
}
