//! Lines put together in a page.
ghost use Rattle.std.specs.Prelude.{◌≡◌, ◌+◌, ◌<◌, ◌≤◌, [], ◌∷◌, ◌++◌, length, map, decimal, codes, IsTrue, OnOk};
ghost use Rattle.bword.specs.ByteEnds.{PutGives};
ghost use Rattle.bword.specs.Words.{is_name};
ghost use Rattle.bcode.specs.Pages.{PageGives};
ghost use Rattle.blang.specs.Text.{line, instr_line, ival_line, increment_text};
ghost use Rattle.bword.specs.Words.{operator_text};

use crate::{Increment, Instr, Ival};
use blang::LINE_LEN;
use bword::{BinOp, ByteOut, EndFault, Name};
use itoa::{Buffer, write_digits};
use std::marker::Model;

/// The most bytes that go to a stream at once.
pub const PAGE_LEN: usize = 1024;

/// Lines that are to be put.
#[derive(Drop)]
pub struct Page {
    bytes: [u8; PAGE_LEN],
    len: usize,
}

impl Model for Page {
    ghost use Rattle.std.specs.Prelude.{◌≡◌, ◌≤◌, ℕ, List, take, length};
    ghost use Rattle.bcode.specs.declared.page.TheConstants.{PAGE_LEN};

    ghost Value = { List ℕ };

    ghost view = { λ p. take p.len p.bytes };

    ghost invariant = { λ p. (p.len ≤ PAGE_LEN) × (length p.bytes ≡ PAGE_LEN) };
}

impl Page {
    /// A page without lines.
    pub fn new() -> Self
        ensures { result ≡ [] }
    {
        Page {
            bytes: [0; PAGE_LEN],
            len: 0,
        }
    }

    /// The bytes of its lines.
    pub fn as_slice(&self) -> &[u8]
        ensures { result.now ≡ self.now }
    {
        &self.bytes[..self.len]
    }

    // Takes the lines out of it, and leaves their bytes where they are.
    fn clear(&mut self)
        ensures { self.new ≡ [] }
    {
        self.len = 0;
    }

    fn push(&mut self, byte: u8)
        requires { length self.old < PAGE_LEN }
        ensures { self.new ≡ self.old ++ byte ∷ [] }
    {
        self.bytes[self.len] = byte;
        self.len += 1;
    }

    fn push_bytes(&mut self, bytes: &[u8])
        requires { length self.old + length bytes.now ≤ PAGE_LEN }
        ensures { self.new ≡ self.old ++ bytes.now }
    {
        let end = self.len + bytes.len();
        self.bytes[self.len..end].copy_from_slice(bytes);
        self.len = end;
    }

    // The digits of a number, which are written where they are to stand, and a byte after them.
    fn push_digits(&mut self, n: u16, following: u8)
        requires { length self.old + 6 ≤ PAGE_LEN }
        ensures digits { self.new ≡ self.old ++ decimal n ++ following ∷ [] }
        ensures len { length self.new ≤ length self.old + 6 }
    {
        let end = self.len + digits(n);
        write_digits(u64::from(n), &mut self.bytes, end);
        self.bytes[end] = following;
        self.len = end + 1;
    }
}

// How many digits a number has.
fn digits(n: u16) -> usize
    ensures digits { result ≡ length (decimal n) }
    ensures few { result ≤ 5 }
{
    match n {
        0..=9 => 1,
        10..=99 => 2,
        100..=999 => 3,
        1000..=9999 => 4,
        _ => 5,
    }
}

/// Makes room for a line, by putting the page if it has too little.
pub fn make_room<O: ByteOut>(page: &mut Page, out: &mut O) -> Result<(), EndFault>
    ensures gives { PageGives (O.outgoing out.old) page.old [] result (O.outgoing out.new) page.new }
    ensures room { OnOk result (length page.new + LINE_LEN ≤ PAGE_LEN) }
    ensures same { O.lender out.new ≡ O.lender out.old }
{
    if page.len > PAGE_LEN - LINE_LEN {
        out.put(page.as_slice())?;
        page.clear();
    }
    Ok(())
}

// Another part of a line, after a space.
fn push_part(page: &mut Page, part: &[u8])
    requires { length page.old + length part.now + 1 ≤ PAGE_LEN }
    ensures { page.new ≡ page.old ++ codes " " ++ part.now }
{
    page.push(b' ');
    page.push_bytes(part);
}

fn push_name(page: &mut Page, name: Name)
    requires { length page.old + 9 ≤ PAGE_LEN }
    ensures items { page.new ≡ page.old ++ codes " " ++ name }
    ensures len { length page.new ≤ length page.old + 9 }
{
    push_part(page, name.as_bytes());
}

fn push_size(page: &mut Page, n: usize)
    requires { length page.old + 21 ≤ PAGE_LEN }
    ensures items { page.new ≡ page.old ++ codes " " ++ decimal n }
    ensures len { length page.new ≤ length page.old + 21 }
{
    push_part(page, Buffer::new().format(n).as_bytes());
}

// A line of a letter alone.
fn push_letter_line(page: &mut Page, letter: u8)
    requires { length page.old + LINE_LEN ≤ PAGE_LEN }
    ensures { page.new ≡ page.old ++ line ((letter ∷ []) ∷ []) }
{
    page.push_bytes(&[letter, b'\n']);
}

/// A line of a letter and a number.
pub fn push_number_line(page: &mut Page, letter: u8, n: u16)
    requires { length page.old + LINE_LEN ≤ PAGE_LEN }
    ensures { page.new ≡ page.old ++ line ((letter ∷ []) ∷ decimal n ∷ []) }
{
    page.push_bytes(&[letter, b' ']);
    page.push_digits(n, b'\n');
}

fn push_name_line(page: &mut Page, letter: u8, name: Name)
    requires { length page.old + LINE_LEN ≤ PAGE_LEN }
    ensures { page.new ≡ page.old ++ line ((letter ∷ []) ∷ name ∷ []) }
{
    page.push(letter);
    push_name(page, name);
    page.push(b'\n');
}

fn push_operator_line(page: &mut Page, letter: u8, operator: BinOp)
    requires { length page.old + LINE_LEN ≤ PAGE_LEN }
    ensures { page.new ≡ page.old ++ line ((letter ∷ []) ∷ operator_text operator ∷ []) }
{
    match operator_text(operator) {
        [byte] => page.push_bytes(&[letter, b' ', *byte, b'\n']),
        text => {
            page.push(letter);
            push_part(page, text);
            page.push(b'\n');
        }
    }
}

fn operator_text(operator: BinOp) -> &'static [u8]
    ensures text { result.now ≡ operator_text operator }
    ensures short { length result.now ≤ 2 }
{
    match operator {
        BinOp::Or => b"|",
        BinOp::And => b"&",
        BinOp::Eq => b"==",
        BinOp::Ne => b"!=",
        BinOp::Lt => b"<",
        BinOp::Le => b"<=",
        BinOp::Gt => b">",
        BinOp::Ge => b">=",
        BinOp::Shl => b"<<",
        BinOp::Shr => b">>",
        BinOp::Sub => b"-",
        BinOp::Add => b"+",
        BinOp::Rem => b"%",
        BinOp::Mul => b"*",
        BinOp::Div => b"/",
    }
}

fn push_increment_line(page: &mut Page, which: Increment)
    requires { length page.old + LINE_LEN ≤ PAGE_LEN }
    ensures { page.new ≡ page.old ++ line (codes "i" ∷ increment_text which ∷ []) }
{
    page.push(b'i');
    push_part(page, increment_text(which));
    page.push(b'\n');
}

fn increment_text(which: Increment) -> &'static [u8]
    ensures text { result.now ≡ increment_text which }
    ensures short { length result.now ≤ 2 }
{
    match which {
        Increment::PreIncrement => b"0",
        Increment::PreDecrement => b"1",
        Increment::PostIncrement => b"2",
        Increment::PostDecrement => b"3",
    }
}

fn push_case_line(page: &mut Page, value: u16, target: u16)
    requires { length page.old + LINE_LEN ≤ PAGE_LEN }
    ensures { page.new ≡ page.old ++ line (codes "e" ∷ decimal value ∷ decimal target ∷ []) }
{
    page.push_bytes(b"e ");
    page.push_digits(value, b' ');
    page.push_digits(target, b'\n');
}

/// The line of an instruction.
#[inline(always)]
pub fn push_instr_line(page: &mut Page, instr: &Instr)
    requires { length page.old + LINE_LEN ≤ PAGE_LEN }
    ensures { page.new ≡ page.old ++ instr_line instr.now }
{
    match *instr {
        Instr::Constant(n) => push_number_line(page, b'c', n),
        Instr::External(name) => push_name_line(page, b'x', name),
        Instr::Automatic(word) => push_number_line(page, b'a', word),
        Instr::Text(offset) => push_number_line(page, b's', offset),
        Instr::Label(label) => push_number_line(page, b'l', label),
        Instr::Load => push_letter_line(page, b'v'),
        Instr::Store => push_letter_line(page, b'w'),
        Instr::Binary(operator) => push_operator_line(page, b'b', operator),
        Instr::Modify(operator) => push_operator_line(page, b'm', operator),
        Instr::Negate => push_letter_line(page, b'n'),
        Instr::Not => push_letter_line(page, b'h'),
        Instr::Increment(which) => push_increment_line(page, which),
        Instr::Jump(place) => push_number_line(page, b'j', place),
        Instr::JumpIfZero(place) => push_number_line(page, b'z', place),
        Instr::Goto => push_letter_line(page, b'g'),
        Instr::JumpIfCase { value, target } => push_case_line(page, value, target),
        Instr::Call(arguments) => push_number_line(page, b'k', arguments),
        Instr::Return => push_letter_line(page, b'r'),
        Instr::Pop => push_letter_line(page, b'p'),
    }
}

/// The line of an initial value.
pub fn push_ival_line(page: &mut Page, value: Ival)
    requires { length page.old + LINE_LEN ≤ PAGE_LEN }
    ensures { page.new ≡ page.old ++ ival_line value }
{
    match value {
        Ival::Number(n) => push_number_line(page, b'c', n),
        Ival::Name(name) => push_name_line(page, b'x', name),
        Ival::Text(offset) => push_number_line(page, b's', offset),
    }
}

/// The first line of a definition.
pub fn push_header_line(page: &mut Page, letter: u8, name: Name, numbers: &[usize])
    requires room { length page.old + LINE_LEN ≤ PAGE_LEN }
    requires few { length numbers.now ≤ 5 }
    ensures { page.new ≡ page.old ++ line ((letter ∷ []) ∷ name ∷ map decimal numbers.now) }
{
    page.push(letter);
    push_name(page, name);
    for number in numbers {
        push_size(page, *number);
    }
    page.push(b'\n');
}
