//! The line and the column after a byte.
ghost use Rattle.std.specs.Prelude.{◌≡◌};
ghost use Rattle.blang.specs.Cut.{next_line};
ghost use Rattle.bplaces.specs.Columns.{next_column};

/// The line after a byte.
pub fn next_line(line: u64, byte: u8) -> u64
    ensures { result ≡ next_line line byte }
{
    if byte == b'\n' {
        line.saturating_add(1)
    } else {
        line
    }
}

/// The column after a byte.
pub fn next_column(column: usize, byte: u8) -> usize
    ensures { result ≡ next_column column byte }
{
    if byte == b'\n' {
        1
    } else {
        column.saturating_add(1)
    }
}
