//! The lines of a source.
ghost use Rattle.std.specs.Prelude.{◌≡◌, map};
ghost use Rattle.blist.specs.ListingTexts.{line_text};

/// The line of this number, from 1 on, without the white space around it; empty where there is no such line.
pub fn line_text<'a>(lines: &[&'a [u8]], number: u64) -> &'a [u8]
    ensures { result.now ≡ line_text (map (λ line. line.now) lines.now) number }
{
    if number == 0 {
        return b"";
    }
    match lines.get((number - 1) as usize) {
        Some(line) => line.trim_ascii(),
        None => b"",
    }
}
