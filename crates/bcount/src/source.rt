//! The lines of a source.
ghost use Rattle.std.specs.Prelude.{◌≡◌, ◌<◌, ◌==◌, IfSome, ℕ, suc, [], get_or, length};
ghost use Rattle.std.specs.List.{position};
ghost use Rattle.btools.specs.SourceLines.{source_lines};

/// The bytes of the first line, and those after its newline.
pub fn split_line(source: &[u8]) -> (&[u8], &[u8])
    ensures line { result.0.now ≡ get_or (source_lines source.now) 0 [] }
    ensures after { (k : ℕ) → get_or (source_lines source.now) (suc k) [] ≡ get_or (source_lines result.1.now) k [] }
{
    match newline_in(source) {
        Some(end) => (&source[..end], &source[end + 1..]),
        None => (source, b""),
    }
}

fn newline_in(source: &[u8]) -> Option<usize>
    ensures value { result ≡ position (λ b. b == 10) source.now }
    ensures within { IfSome result (λ n. n < length source.now) }
{
    source.iter().position(|byte| *byte == b'\n')
}
