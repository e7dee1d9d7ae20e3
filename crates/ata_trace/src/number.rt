ghost use Rattle.std.specs.Prelude.{◌≡◌, ◌<◌, ◌≤◌, ◌^◌, ◌++◌, IfSome, decimal, drop, length};

/// The largest number that any digit may follow.
const MOST_FOLLOWED: u64 = 1_844_674_407_370_955_160;

/// The number that a text begins with, and how many digits it has. It looks for digits up to the
/// first other byte. `None` where there is none, where one follows a leading zero, and also for some
/// numbers of 20 digits.
pub(crate) fn leading_number(text: &[u8]) -> Option<(u64, usize)>
    ensures value { IfSome result (λ found. decimal found.0 ++ drop found.1 text.now ≡ text.now) }
    ensures within { IfSome result (λ found. (found.0 < 2 ^ 64) × (found.1 ≤ length text.now) × (length text.now < 2 ^ 64)) }
{
    let mut n = match text.first() {
        Some(first) if *first >= b'0' && *first <= b'9' => u64::from(*first - b'0'),
        _ => return None,
    };
    let mut at = 1;
    while at < text.len() && text[at] >= b'0' && text[at] <= b'9' {
        if n == 0 || n > MOST_FOLLOWED {
            return None;
        }
        n = 10 * n + u64::from(text[at] - b'0');
        at += 1;
    }
    Some((n, at))
}
