ghost use Rattle.std.specs.Prelude.{◌≡◌, take};
ghost use Rattle.ata_lanes.specs.Sum.{byte_sum, sealed};

use std::simd::prelude::*;

// How many bytes are added at once.
const LANES: usize = 64;

/// The sum of all bytes of a page modulo 256. It is 0 for a whole IDENTIFY DEVICE page (ACS-3, word 255) and a
/// whole NCQ Command Error log page (ACS-3, byte 511).
pub fn sum512(page: &[u8; 512]) -> u8
    ensures { result ≡ byte_sum page.now }
{
    let mut lanes = u8x64::splat(0);
    for chunk in 0..8 {
        lanes += u8x64::from_slice(&page[LANES * chunk..]);
    }
    lanes.reduce_sum()
}

/// Seals a page: its last byte becomes the one that makes the sum of all its bytes 0 modulo 256, the others stay.
pub fn seal(page: &mut [u8; 512])
    ensures page { page.new ≡ sealed (take 511 page.old) }
    ensures sum { byte_sum page.new ≡ 0 }
{
    page[511] = page[511].wrapping_sub(sum512(page));
}
