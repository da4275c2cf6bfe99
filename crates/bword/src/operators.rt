//! Operations on words of 16 bits.
ghost use Rattle.std.specs.Prelude.{◌≡◌, ◌*◌, ◌/◌, ◌%◌, ◌^◌, MatchResult, Some, None};
ghost use Rattle.bword.specs.Words.{binary_of, negate_of, not_of, quotient_of, remainder_of, signed_of};

/// A binary operator, named as Rust's traits name it.
#[derive(Clone, Copy, PartialEq, Eq)]
pub enum BinOp {
    /// `|`
    Or,
    /// `&`
    And,
    /// `==`
    Eq,
    /// `!=`
    Ne,
    /// `<`, signed
    Lt,
    /// `<=`, signed
    Le,
    /// `>`, signed
    Gt,
    /// `>=`, signed
    Ge,
    /// `<<`; a count of 16 or more gives 0
    Shl,
    /// `>>`, which brings zeros in
    Shr,
    /// `-`
    Sub,
    /// `+`
    Add,
    /// `%`, with the sign of the dividend
    Rem,
    /// `*`
    Mul,
    /// `/`, signed, which rounds toward zero
    Div,
}

/// A division or a remainder by zero.
#[derive(Clone, Copy, PartialEq, Eq)]
pub struct DivZero;

/// What an operator makes of two words.
///
/// A relation gives 1 or 0. Arithmetic wraps, so -32768 divided by -1 is -32768, with remainder 0.
///
/// # Errors
///
/// `DivZero` where `Rem` or `Div` has a zero divisor.
#[inline]
pub fn binary(op: BinOp, a: u16, b: u16) -> Result<u16, DivZero>
    ensures { MatchResult result (λ word. binary_of op a b ≡ Some word) (λ _. binary_of op a b ≡ None) }
{
    let word = match op {
        BinOp::Or => a | b,
        BinOp::And => a & b,
        BinOp::Eq => u16::from(a == b),
        BinOp::Ne => u16::from(a != b),
        BinOp::Lt => u16::from(signed(a) < signed(b)),
        BinOp::Le => u16::from(signed(a) <= signed(b)),
        BinOp::Gt => u16::from(signed(a) > signed(b)),
        BinOp::Ge => u16::from(signed(a) >= signed(b)),
        BinOp::Shl => shifted_left(a, b),
        BinOp::Shr => shifted_right(a, b),
        BinOp::Sub => a.wrapping_sub(b),
        BinOp::Add => a.wrapping_add(b),
        BinOp::Rem => remainder(a, b)?,
        BinOp::Mul => a.wrapping_mul(b),
        BinOp::Div => quotient(a, b)?,
    };
    Ok(word)
}

/// The word of the negative number; that of the least word is itself.
#[inline]
pub fn negate(a: u16) -> u16
    ensures { result ≡ negate_of a }
{
    a.wrapping_neg()
}

/// 1 for 0, else 0.
#[inline]
pub fn not(a: u16) -> u16
    ensures { result ≡ not_of a }
{
    u16::from(a == 0)
}

#[inline]
fn signed(word: u16) -> i16
    ensures { result ≡ signed_of word }
{
    word.cast_signed()
}

#[inline]
fn shifted_left(a: u16, count: u16) -> u16
    ensures { result ≡ a * 2 ^ count % 65536 }
{
    if count < 16 { a << count } else { 0 }
}

#[inline]
fn shifted_right(a: u16, count: u16) -> u16
    ensures { result ≡ a / 2 ^ count }
{
    if count < 16 { a >> count } else { 0 }
}

#[inline]
fn quotient(a: u16, b: u16) -> Result<u16, DivZero>
    ensures { MatchResult result (λ word. quotient_of a b ≡ Some word) (λ _. quotient_of a b ≡ None) }
{
    if b == 0 {
        return Err(DivZero);
    }
    Ok(signed(a).wrapping_div(signed(b)).cast_unsigned())
}

#[inline]
fn remainder(a: u16, b: u16) -> Result<u16, DivZero>
    ensures { MatchResult result (λ word. remainder_of a b ≡ Some word) (λ _. remainder_of a b ≡ None) }
{
    if b == 0 {
        return Err(DivZero);
    }
    Ok(signed(a).wrapping_rem(signed(b)).cast_unsigned())
}
