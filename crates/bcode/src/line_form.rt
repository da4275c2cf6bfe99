//! The forms of lines.
ghost use Rattle.bcode.specs.LineReading.{LineReader};
ghost use Rattle.bcode.specs.Reading.{Gives};

/// A form of lines, each of which holds a value.
pub trait LineForm: Copy {
    ghost use Rattle.std.specs.Prelude.{ℕ, List};

    /// What a line of this form holds.
    type Value: Copy;

    // The line that holds a value, and the values that have one.
    ghost spell: { Self → Self.Value → List ℕ };

    ghost within: { Self → Self.Value → Type 0 };

    // How such a line is read from the front of a text.
    ghost reader: { Self → LineReader Self.Value };

    /// The value in the line that a text begins with, and the text after it.
    fn read_from(self, text: &[u8]) -> Option<(Self::Value, &[u8])>
        ensures { Gives (λ r. (r.0, r.1.now)) result (reader self text.now) };
}
