ghost use Rattle.std.specs.Prelude.{◌≡◌, ◌≤◌, min, length, take};

/// Moves the first bytes of `from` into the front of `buf`, as many as fit and at most `most`, and
/// answers how many.
pub(crate) fn give(from: &[u8], buf: &mut [u8], most: usize) -> usize
    ensures count { result ≡ min most (min (length from.now) (length buf.old)) }
    ensures bytes { take result buf.new ≡ take result from.now }
    ensures room { length buf.new ≡ length buf.old }
{
    let count = most.min(from.len()).min(buf.len());
    buf[..count].copy_from_slice(&from[..count]);
    count
}
