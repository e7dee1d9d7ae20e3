ghost use Rattle.std.specs.Prelude.{◌≡◌};
ghost use Rattle.ata_script.specs.OfText.{IsOfText};

use crate::head::Head;
use crate::steps::Steps;

/// A script: its version, 1 or 2, its ports, and the steps of its actors. It is what some text says.
#[derive(Drop)]
pub struct Script {
    pub version: u8,
    pub head: Head,
    pub steps: Steps,
    pub ghost text: { ∥ IsOfText version head steps ∥₁ },
}
