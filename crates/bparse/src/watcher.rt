//! Looking on while a whole source is compiled.
ghost use Rattle.std.specs.Prelude.{Option, None};
ghost use Rattle.bparse.specs.Compilers.{notes_by};
ghost use Rattle.bparse.specs.Locals.{Notes};
ghost use Rattle.bparse.specs.Watches.{WatchGives};

use crate::code_out::CodeOut;
use crate::compiler::Compiler;
use crate::step::Step;
use bword::ByteIn;

/// What looks on while a whole source is compiled, and can't change what comes of it.
pub trait Watcher {
    // The notes that it has kept of the definitions that were written; none where it keeps nothing.
    ghost kept: { Self → Option Notes };

    /// Looks at the compiler after a call that gave this answer; the last one too.
    fn watch<I: ByteIn, O: CodeOut>(&mut self, compiler: &Compiler<I, O>, step: &Step)
        ensures { WatchGives (kept self.old) step.now (notes_by compiler.now) (kept self.new) };
}

/// A watcher that looks at nothing.
#[derive(Clone, Copy)]
pub struct Unwatched;

impl Watcher for Unwatched {
    ghost kept = { λ w. None };

    #[inline]
    fn watch<I: ByteIn, O: CodeOut>(&mut self, _compiler: &Compiler<I, O>, _step: &Step) {}
}
