ghost use Rattle.std.specs.Prelude.{◌≡◌, ◌≤◌, ◌<◌, ◌-◌, ◌+◌, All, take, drop, length, zip, ◌==◌, if◌then◌else◌};
ghost use Rattle.std.specs.List.{prefix_len};
ghost use Rattle.std.specs.Int.{w64, trailing_zeros};
ghost use Rattle.std.specs.Simd.Lanes.{chunk};
ghost use Rattle.ata_lanes.specs.Counts.{six_counts, dubious_len, count_of, is_within};

use std::simd::prelude::*;

// An entry that is marked old has a category byte of at least this.
const OLD: u8 = 8;

// How many entries are compared at once.
const LANES: usize = 8;

/// The six counts of a window of an error ring: dubious bus, dubious timeout, dubious unknown, and then plain
/// bus, timeout and unknown.
///
/// The first `n` places of `cats` and `times` are the ring's entries, the newest at place 0. A category byte is 0
/// none, 1 bus, 2 timeout, 3 unknown, plus 4 if the entry is marked dubious, plus 8 if it is old. The window ends
/// before the first entry that is old or whose time is below `since`, both in milliseconds. An entry counts as
/// dubious while it and all newer ones are marked so, else plainly.
pub fn count_cats(cats: &[u8; 32], times: &[u64; 32], n: usize, since: u64) -> [u8; 6]
    requires places { n ≤ 32 }
    requires categories { All (λ cat. cat < 16) (take n cats.now) }
    ensures { result ≡ six_counts (take n cats.now) (take n times.now) since }
{
    let end = window_len(&cats[..n], &times[..n], since);
    let dubious = dubious_run(cats).min(end);
    [
        count_between(cats, 1, 0, dubious),
        count_between(cats, 2, 0, dubious),
        count_between(cats, 3, 0, dubious),
        count_between(cats, 1, dubious, end),
        count_between(cats, 2, dubious, end),
        count_between(cats, 3, dubious, end),
    ]
}

// How many entries are in the window: eight at a time, and one by one what is left.
fn window_len(cats: &[u8], times: &[u64], since: u64) -> usize
    requires { length cats.now ≡ length times.now }
    ensures value { result ≡ prefix_len (is_within since) (zip cats.now times.now) }
    ensures within { result ≤ length cats.now }
{
    let mut seen = 0;
    while cats.len() - seen >= LANES {
        let run = run_of_eight(cats, times, seen, since);
        seen += run;
        if run < LANES {
            return seen;
        }
    }
    seen + plain_run(&cats[seen..], &times[seen..], since)
}

// How many of eight entries are in the window, from the first of them on.
fn run_of_eight(cats: &[u8], times: &[u64], at: usize, since: u64) -> usize
    requires same { length cats.now ≡ length times.now }
    requires room { at + LANES ≤ length cats.now }
    ensures { result ≡ prefix_len (is_within since) (chunk at LANES (zip cats.now times.now)) }
{
    let old = u8x8::from_slice(&cats[at..])
        .simd_ge(u8x8::splat(OLD))
        .to_bitmask();
    let early = u64x8::from_slice(&times[at..])
        .simd_lt(u64x8::splat(since))
        .to_bitmask();
    first_set(old, LANES).min(first_set(early, LANES))
}

// The same one by one.
fn plain_run(cats: &[u8], times: &[u64], since: u64) -> usize
    ensures value { result ≡ prefix_len (is_within since) (zip cats.now times.now) }
    ensures within { result ≤ length cats.now }
{
    cats.iter()
        .zip(times)
        .take_while(|(cat, time)| **cat < OLD && since <= **time)
        .count()
}

// The lowest bit that is set of so many, or their number.
fn first_set(mask: u64, lanes: usize) -> usize
    ensures { result ≡ (if mask == 0 then lanes else trailing_zeros w64 mask) }
{
    if mask == 0 {
        lanes
    } else {
        mask.trailing_zeros() as usize
    }
}

// How many of all 32 places are marked dubious, up to the first that isn't.
fn dubious_run(cats: &[u8; 32]) -> usize
    ensures { result ≡ dubious_len cats.now }
{
    let clean = (u8x32::from_array(*cats) & u8x32::splat(4)).simd_eq(u8x32::splat(0));
    first_set(clean.to_bitmask(), 32)
}

// How many of the places from `from` up to `to` are of a kind: the mask of all 32, cut at both ends.
fn count_between(cats: &[u8; 32], kind: u8, from: usize, to: usize) -> u8
    requires { (from ≤ to) × (to ≤ 32) }
    ensures { result ≡ count_of kind (take (to - from) (drop from cats.now)) }
{
    let kinds = u8x32::from_array(*cats) & u8x32::splat(3);
    let mask = kinds.simd_eq(u8x32::splat(kind)).to_bitmask();
    let cut = (1 << (to - from)) - 1;
    ((mask >> from) & cut).count_ones() as u8
}
