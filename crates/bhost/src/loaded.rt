//! A program in memory.
ghost use Rattle.std.specs.Prelude.{◌≤◌, IsSome, map};
ghost use Rattle.blang.specs.Layout.{data_end, shape_of};

use btools::Program;

/// A program in memory, which fits and has a main function.
pub struct LoadedProgram {
    pub program: Program,
    ghost fits: { data_end (map shape_of program.definitions.items) ≤ 65536 },
    ghost begins: { IsSome program.image.main },
}

// Not derived: a derived drop is compiled and proved once more in each crate that drops such a program.
impl Drop for LoadedProgram {
    fn drop(self) {
        let LoadedProgram { program: _ } = self;
    }
}
