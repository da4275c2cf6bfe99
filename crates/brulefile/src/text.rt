//! Words of a line.
ghost use Rattle.std.specs.Prelude.{◌≡◌, ◌≤◌, length, not, position};
ghost use Rattle.brulefile.specs.Texts.{after_blanks, after_word, blanks, first_word, is_blank, word_len};

/// Whether it is a blank.
pub(crate) fn is_blank(byte: u8) -> bool
    ensures { result ≡ is_blank byte }
{
    matches!(byte, b' ' | b'\t' | b'\r')
}

// The place of the first blank.
fn blank_place(text: &[u8]) -> Option<usize>
    ensures { result ≡ position is_blank text.now }
{
    text.iter().position(|byte| is_blank(*byte))
}

fn word_len(text: &[u8]) -> usize
    ensures value { result ≡ word_len text.now }
    ensures bound { result ≤ length text.now }
{
    blank_place(text).unwrap_or(text.len())
}

/// What stands before the first blank.
pub(crate) fn first_word(text: &[u8]) -> &[u8]
    ensures { result.now ≡ first_word text.now }
{
    &text[..word_len(text)]
}

/// What stands after the first word and the blanks after it.
pub(crate) fn after_word(text: &[u8]) -> &[u8]
    ensures { result.now ≡ after_word text.now }
{
    after_blanks(&text[word_len(text)..])
}

fn other_place(text: &[u8]) -> Option<usize>
    ensures { result ≡ position (λ b. not (is_blank b)) text.now }
{
    text.iter().position(|byte| !is_blank(*byte))
}

fn blanks(text: &[u8]) -> usize
    ensures value { result ≡ blanks text.now }
    ensures bound { result ≤ length text.now }
{
    other_place(text).unwrap_or(text.len())
}

/// What stands after the blanks.
pub(crate) fn after_blanks(text: &[u8]) -> &[u8]
    ensures { result.now ≡ after_blanks text.now }
{
    &text[blanks(text)..]
}

/// The place of the first of these words in a text.
pub(crate) fn place_of(text: &[u8], words: &[u8]) -> Option<usize> {
    (0..text.len()).find(|at| text[*at..].starts_with(words))
}

/// How many words a text has, up to a limit.
pub(crate) fn count_words(text: &[u8], most: usize) -> usize {
    let mut rest = after_blanks(text);
    let mut count: usize = 0;
    for _ in 0..most {
        if !rest.is_empty() {
            count = count.saturating_add(1);
            rest = after_word(rest);
        }
    }
    count
}

/// The word of a text before which so many words stand.
pub(crate) fn word_at(text: &[u8], number: usize) -> &[u8] {
    let mut rest = after_blanks(text);
    for _ in 0..number {
        rest = after_word(rest);
    }
    first_word(rest)
}

/// How many letters and digits a text begins with.
pub(crate) fn letters(text: &[u8]) -> usize {
    other_letter(text).unwrap_or(text.len())
}

fn other_letter(text: &[u8]) -> Option<usize> {
    text.iter().position(|byte| !byte.is_ascii_alphanumeric())
}
