//! The lines of a file of an author.
ghost use Rattle.std.specs.Prelude.{◌≡◌, IfOk, map};
ghost use Rattle.bauthor.specs.AuthorFiles.{is_over, lines_of};

use std::alloc::{AllocError, Global};

pub(crate) fn split_lines(alloc: Global, file: &[u8]) -> Result<Vec<&[u8]>, AllocError>
    ensures { IfOk result (λ lines. map (λ line. line.now) lines.items ≡ lines_of file.now) }
{
    file.split(|byte| *byte == b'\n').collect(alloc)
}

/// Whether nothing comes after the last newline.
pub(crate) fn is_over(lines: &[&[u8]]) -> bool
    ensures { result ≡ is_over (map (λ l. l.now) lines.now) }
{
    match lines {
        [last] => last.is_empty(),
        _ => false,
    }
}
