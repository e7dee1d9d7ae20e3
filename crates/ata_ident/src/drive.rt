ghost use Rattle.std.specs.Prelude.{◌↔◌, IsTrue};
ghost use Rattle.ata_ident.specs.Drive.{IsSameDrive};

use ata_base::Identity;

/// Whether two identities are those of one drive: model, serial and sectors are equal.
pub fn same(a: &Identity, b: &Identity) -> bool
    ensures { IsTrue result ↔ IsSameDrive a.now b.now }
{
    a.model == b.model && a.serial == b.serial && a.sectors == b.sectors
}
