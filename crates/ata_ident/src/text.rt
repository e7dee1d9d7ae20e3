ghost use Rattle.std.specs.Prelude.{◌≡◌, ◌+◌, ◌-◌, ◌*◌, ◌≤◌, ℕ, length, slice_range, take, map, ◌==◌};
ghost use Rattle.std.specs.List.{suffix_len};
ghost use Rattle.ata_ident.specs.Text.{pairs_swapped, text_in, readable};

use ata_base::Name;

/// The text in the `N` bytes of a page from byte `at` on (ACS-3, ATA string convention): the first character of
/// each pair is the high byte of its word, a byte outside 20h to 7Eh is read as `?`, and spaces at the end are lost.
pub fn name_at<const N: usize>(page: &[u8; 512], at: usize) -> Name<N>
    requires { at + N ≤ 512 }
    ensures { result ≡ text_in (slice_range page.now at (at + N)) }
{
    let mut text = [0; N];
    text.copy_from_slice(&page[at..at + N]);
    swap_pairs(&mut text);
    make_readable(&mut text);
    let len = len_without_padding(&text);
    match Name::new(&text[..len]) {
        Some(name) => name,
        None => unreachable!(),
    }
}

/// Turns the two bytes of each pair round.
pub fn swap_pairs(bytes: &mut [u8])
    ensures { bytes.new ≡ pairs_swapped bytes.old }
{
    for pair in 0..bytes.len() / 2 {
        bytes.swap(2 * pair, 2 * pair + 1);
    }
}

fn make_readable(bytes: &mut [u8])
    ensures { bytes.new ≡ map readable bytes.old }
{
    for byte in bytes.iter_mut() {
        *byte = readable_byte(*byte);
    }
}

fn readable_byte(byte: u8) -> u8
    ensures { result ≡ readable byte }
{
    if (32..=126).contains(&byte) {
        byte
    } else {
        b'?'
    }
}

fn len_without_padding(text: &[u8]) -> usize
    ensures value { result ≡ length text.now - suffix_len (λ byte. byte == 32) text.now }
    ensures within { result ≤ length text.now }
{
    let mut len = text.len();
    while len > 0 && text[len - 1] == b' ' {
        len -= 1;
    }
    len
}
