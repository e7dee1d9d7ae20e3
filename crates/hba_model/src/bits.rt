ghost use Rattle.std.specs.Prelude.{◌≡◌, ℕ, ◌<◌, ◌≤◌, ◌^◌, true, false, slice_set};
ghost use Rattle.hba_model.specs.Bits.{bits_of, bits_less};

/// The mask with this bit set, 0 to 31.
pub fn with_bit(mask: u32, at: u8) -> u32
    requires { at < 32 }
    ensures bits { (count : ℕ) → at < count → count ≤ 32 → bits_of count result ≡ slice_set (bits_of count mask) at true }
    ensures room { (count : ℕ) → at < count → mask < 2 ^ count → result < 2 ^ count }
{
    mask | 1 << at
}

/// The mask without this bit, 0 to 31.
pub fn without_bit(mask: u32, at: u8) -> u32
    requires { at < 32 }
    ensures bits { (count : ℕ) → at < count → count ≤ 32 → bits_of count result ≡ slice_set (bits_of count mask) at false }
    ensures room { result ≤ mask }
{
    mask & !(1 << at)
}

/// The mask without the bits of another.
pub fn without_bits(mask: u32, others: u32) -> u32
    ensures { bits_of 32 result ≡ bits_less (bits_of 32 mask) (bits_of 32 others) }
{
    mask & !others
}
