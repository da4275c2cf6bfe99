//! The line of a diagnostic.
ghost use Rattle.std.specs.Prelude.{◌≡◌, ◌≤◌, length};
ghost use Rattle.bword.specs.ByteEnds.{PutGives};
ghost use Rattle.blang.specs.Compiles.{letters_text, line_of};

use arrayvec::ArrayString;
use blang::{About, Diagnostic, Letters};
use bword::{ByteOut, EndFault};
use itoa::Buffer;

/// Room for the longest line.
const DIAGNOSTIC_LEN: usize = 64;

/// Writes the line of a diagnostic.
pub fn write_diagnostic<D: ByteOut>(fault: &Diagnostic, diag: &mut D) -> Result<(), EndFault>
    ensures gives { PutGives (D.outgoing diag.old) (line_of fault.now) result (D.outgoing diag.new) }
    ensures same { D.lender diag.new ≡ D.lender diag.old }
{
    diag.put(line(fault).as_str().as_bytes())
}

fn line(fault: &Diagnostic) -> ArrayString<DIAGNOSTIC_LEN>
    ensures { result.bytes ≡ line_of fault.now }
{
    let mut line = ArrayString::new();
    line.push_str(letters(fault.letters));
    match fault.about {
        About::Nothing => {}
        About::Case => line.push_str(" case"),
        About::Break => line.push_str(" break"),
        About::Default => line.push_str(" default"),
        About::Name(name) => {
            line.push_str(" ");
            line.push_str(name.as_str());
        }
    }
    line.push_str(" ");
    line.push_str(Buffer::new().format(fault.line));
    line.push_str("\n");
    line
}

fn letters(letters: Letters) -> &'static str
    ensures text { result.now ≡ letters_text letters }
    ensures two { length result.now ≡ 2 }
{
    match letters {
        Letters::OpenComment => "*/",
        Letters::Character => "ch",
        Letters::LongName => "nm",
        Letters::Constant => "ct",
        Letters::Syntax => "sx",
        Letters::Redeclared => "rd",
        Letters::NotLvalue => "lv",
        Letters::TooManyNames => ">s",
        Letters::TooManyCases => ">c",
        Letters::Undefined => "un",
        Letters::TooLarge => ">e",
    }
}
