ghost use Rattle.std.specs.Prelude.{◌≡◌, ◌≤◌, ◌<◌, ◌+◌, length, IfSome, option_map};
ghost use Rattle.ata_trace.specs.Entries.{past_of};
ghost use Rattle.port_core.specs.Idle.{is_idle_last};
ghost use Rattle.port_past.specs.Clock.{clock};
ghost use Rattle.port_past.specs.Live.{live};
ghost use Rattle.port_past.specs.Settlings.{settle_count};
ghost use Rattle.port_rules.specs.Coming.{coming};
ghost use Rattle.port_rules.specs.Legal.{IsLegal};
ghost use Rattle.port_rules.specs.Settle.{is_settled};

use ata_base::{Ms, PortNo};
use port_core::Station;

// What settling asks of a station: the questions of its machine.

pub(crate) fn stays_legal<S: Station>(port: &S)
    ensures { IsLegal (S.seen port.now).head (S.seen port.now).entries }
{
    port.machine().stays_legal();
}

pub(crate) fn is_settled<S: Station>(port: &S) -> bool
    ensures { result ≡ is_settled (past_of (S.seen port.now).entries) }
{
    port.machine().is_settled()
}

pub(crate) fn is_idle_last<S: Station>(port: &S) -> bool
    ensures { result ≡ is_idle_last (S.seen port.now).entries }
{
    port.machine().is_idle_last()
}

pub(crate) fn settle_count<S: Station>(port: &S) -> u64
    ensures { result ≡ settle_count (past_of (S.seen port.now).entries) }
{
    port.machine().settle_count()
}

pub(crate) fn live<S: Station>(port: &S) -> u32
    ensures { result ≡ length (live (past_of (S.seen port.now).entries)) }
{
    port.machine().live()
}

pub(crate) fn places<S: Station>(port: &S) -> u8
    ensures { result ≡ (S.seen port.now).head.places }
{
    port.machine().places()
}

pub(crate) fn now<S: Station>(port: &S) -> Ms
    ensures { result.n ≡ clock (past_of (S.seen port.now).entries) }
{
    port.machine().now()
}

pub(crate) fn coming<S: Station>(port: &S) -> Option<Ms>
    ensures value { option_map (λ time. time.n) result ≡ coming (S.seen port.now).head (past_of (S.seen port.now).entries) }
    ensures later { IfSome result (λ time. clock (past_of (S.seen port.now).entries) < time.n) }
    ensures soon { IfSome result (λ time. time.n ≤ clock (past_of (S.seen port.now).entries) + 1000000) }
{
    port.machine().coming()
}

pub(crate) fn number<S: Station>(port: &S) -> PortNo
    ensures { result ≡ (S.seen port.now).number }
{
    port.machine().number()
}
