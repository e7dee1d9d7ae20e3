ghost use Rattle.std.specs.Prelude.{◌≡◌, ℕ, ◌+◌, ◌-◌, ◌<◌, List};
ghost use Rattle.eh_ring.specs.Counts.{counts_in};
ghost use Rattle.eh_ring.specs.Marks.{with_entry};
ghost use Rattle.eh_ring.specs.declared.entry.RingEntry.{RingEntry};
ghost use Rattle.eh_verdict.specs.Table.{verdict_of};

use crate::error_verdict::Verdict;
use ata_base::Ms;
use eh_ring::{Counts, Ring, RingEntry};

// The two windows, in milliseconds.
const SHORT: u64 = 300_000;

const LONG: u64 = 600_000;

/// The verdict over a ring at the time `now`: each word that a row of the table of windows adds whose condition
/// holds. The windows are 5 and 10 minutes long, and begin at 0 where they would begin before it.
pub fn verdict(r: &Ring, now: Ms) -> Verdict
    ensures { result ≡ verdict_of r.now now.n }
{
    let short = r.counts(before(now, SHORT));
    let long = r.counts(before(now, LONG));
    judged(&short, &long)
}

/// The verdict over a ring once it has an entry more.
pub fn verdict_with(r: &Ring, e: &RingEntry, now: Ms) -> Verdict
    ensures { result ≡ verdict_of (with_entry e.now r.now) now.n }
{
    let short = r.counts_with(e, before(now, SHORT));
    let long = r.counts_with(e, before(now, LONG));
    judged(&short, &long)
}

/// The time so many milliseconds before another; 0 where it would be before that.
fn before(now: Ms, span: u64) -> Ms
    ensures { result.n ≡ now.n - span }
{
    Ms {
        n: now.n.saturating_sub(span),
    }
}

/// The verdict by the counts of the two windows.
fn judged(short: &Counts, long: &Counts) -> Verdict
    ensures { (ring : List RingEntry) (clock : ℕ) → short.now ≡ counts_in ring (clock - 300000) → long.now ≡ counts_in ring (clock - 600000)
        → result ≡ verdict_of ring clock }
{
    let dubious_wire = total(short.dbus, short.dtime) > 1;
    let dubious_queue = total(short.dtime, short.dunk) > 1;
    let many_errors = total(short.bus, short.time) + short.unk as u16 > 6;
    let queue_errors = total(long.time, long.unk) > 3;
    let slow_errors = total(long.bus, long.time) > 3 || long.unk > 6;
    Verdict {
        ncq_off: dubious_queue || queue_errors,
        speed_down: dubious_wire || slow_errors,
        pio: dubious_wire || many_errors,
        keep: dubious_wire || dubious_queue,
    }
}

fn total(a: u8, b: u8) -> u16
    ensures value { result ≡ a + b }
    ensures small { result < 512 }
{
    a as u16 + b as u16
}
