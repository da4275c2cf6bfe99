//! Why the parser halts.
ghost use Rattle.std.specs.Prelude.{◌≡◌};
ghost use Rattle.bread.specs.declared.halt.Halt.TheVariants.{Device};

use bword::Device;

/// Why reading doesn't go on.
#[derive(Clone, Copy)]
pub enum Halt {
    /// No program goes on with the current token here.
    Fault,
    /// A read failed.
    Device,
}

impl From<Device> for Halt {
    ghost from_gives = { λ _ halt. halt ≡ Device };

    fn from(_: Device) -> Self {
        Halt::Device
    }
}
