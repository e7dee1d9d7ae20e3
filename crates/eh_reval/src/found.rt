ghost use Rattle.std.specs.Prelude.{◌≡◌, ◌↔◌, IsNone, IsSomeAnd};
ghost use Rattle.ata_ident.specs.Drive.{IsSameDrive};

use ata_base::Identity;
use ata_ident::same;

/// What a drive that told its identity is beside the one that is known at its place.
#[derive(Clone, Copy, Debug, PartialEq, Eq)]
pub enum Found {
    /// The known drive: model, serial and sectors are equal.
    Same,
    /// Another drive than the known one.
    Different,
    /// A drive where none is known.
    New,
}

/// Compares the identity that was found with the known one, by model, serial and sectors; the firmware, the queue, the
/// speed and the modes don't count. `New` exactly where none is known.
pub fn compare(known: Option<&Identity>, found: &Identity) -> Found
    ensures new { (result ≡ Found.New) ↔ IsNone known.entry }
    ensures same { (result ≡ Found.Same) ↔ IsSomeAnd known.entry (λ before. IsSameDrive before.now found.now) }
    ensures different { (result ≡ Found.Different) ↔ IsSomeAnd known.entry (λ before. ¬ IsSameDrive before.now found.now) }
{
    match known {
        None => Found::New,
        Some(before) => {
            if same(before, found) {
                Found::Same
            } else {
                Found::Different
            }
        }
    }
}
