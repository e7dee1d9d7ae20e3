ghost use Rattle.std.specs.Prelude.{◌≡◌, ◌==◌, ◌≤◌, ◌<◌, false, length, map, IfSome};
ghost use Rattle.std.specs.List.{list_any};
ghost use Rattle.std.specs.Option.{option_map_or};
ghost use Rattle.ata_trace.specs.Event.Event.{Told};
ghost use Rattle.link_model.specs.LinkView.{IsGeneration, with_plugged};
ghost use Rattle.port_past.specs.Heads.{drive_at_boot, stands_at};
ghost use Rattle.port_past.specs.Links.{links_after, limited, link_at_boot, linked_at, plugged_at, worker, faulted, serror_read};
ghost use Rattle.port_past.specs.Places.{all_places, changed_at};
ghost use Rattle.port_ledger.specs.Sound.{IsLimited};

use ata_base::{DriveNo, Fault, MOST_PLACES, Place, SpeedAction};
use ata_script::DriveHead;
use ata_trace::{Act, Step};
use link_model::Link;

/// The links by place.
pub type Links = [Link; MOST_PLACES];

/// The links of a port when it boots: each drive that stands at a place is linked.
#[tactic(auto, using(crate::proofs::HeadLemmas::booted_more, crate::proofs::HeadLemmas::booted_all))]
pub fn booted(drives: &[DriveHead]) -> Links
    requires { length drives.now ≤ 32 }
    ensures { result ≡ map (link_at_boot drives.now) all_places }
{
    let mut links = [Link::new(); MOST_PLACES];
    for at in 0..MOST_PLACES as u8 {
        links[at as usize] = booted_link(drives, Place::at(at));
    }
    links
}

/// The link of a place when its port boots.
fn booted_link(drives: &[DriveHead], place: Place) -> Link
    requires { length drives.now ≤ 32 }
    ensures { result ≡ link_at_boot drives.now place }
{
    let mut link = Link::new();
    link.set_plugged(drive_at_boot(drives, place));
    let _ = link.take_serror();
    link.begin_reset();
    link
}

/// The number of the drive that stands at a place when its port boots.
pub fn drive_at_boot(drives: &[DriveHead], place: Place) -> Option<DriveNo>
    requires { length drives.now ≤ 32 }
    ensures { result ≡ drive_at_boot drives.now place }
{
    match first_at(drives, place) {
        Some(at) => Some(DriveNo::at(at as u8)),
        None => None,
    }
}

/// Where the first drive stands in a head's list that stands at a place when its port boots.
fn first_at(drives: &[DriveHead], place: Place) -> Option<usize>
    ensures value { result ≡ drive_at_boot drives.now place }
    ensures within { IfSome result (λ at. at < length drives.now) }
{
    drives.iter().position(|d| stands_at(place, d))
}

/// Whether a drive stands at a place when its port boots.
fn stands_at(place: Place, drive: &DriveHead) -> bool
    ensures { result ≡ stands_at place drive.now }
{
    match drive.place {
        Some(its) => its.get() == place.get(),
        None => false,
    }
}

/// The links after an act: a place is plugged, unplugged, reset, limited, and gets bits of SError; the autopsy clears them.
#[tactic(auto, using(crate::proofs::ListLemmas::changed_link))]
pub fn note_links(links: &mut Links, act: &Act, step: &Step)
    requires { IsLimited act.now }
    ensures { links.new ≡ links_after (Told act.now) step.now links.old }
{
    match act {
        Act::Plugged { place, drive } => plug(links, *place, Some(*drive)),
        Act::Unplugged { place } => plug(links, *place, None),
        Act::ResetBegun { place, .. } => {
            if let Some(place) = place {
                let mut link = links[place.get() as usize];
                link.begin_reset();
                links[place.get() as usize] = link;
            }
        }
        Act::Injected { place } => {
            let link = faulted(step, links[place.get() as usize]);
            links[place.get() as usize] = link;
        }
        Act::Hot { place, generation } => limit(links, *place, *generation),
        Act::Recorded { place, action, .. } => {
            if let SpeedAction::Speed { generation } = action {
                limit(links, *place, *generation);
            }
        }
        Act::Autopsied => clear_serror(links),
        _ => {}
    }
}

#[tactic(auto, using(crate::proofs::ListLemmas::changed_link))]
fn plug(links: &mut Links, place: Place, drive: Option<DriveNo>)
    ensures { links.new ≡ changed_at place (with_plugged drive) links.old }
{
    let mut link = links[place.get() as usize];
    link.set_plugged(drive);
    links[place.get() as usize] = link;
}

#[tactic(auto, using(crate::proofs::ListLemmas::changed_link))]
fn limit(links: &mut Links, place: Place, generation: u8)
    requires { IsGeneration generation }
    ensures { links.new ≡ changed_at place (limited generation) links.old }
{
    let mut link = links[place.get() as usize];
    link.set_limit(generation);
    links[place.get() as usize] = link;
}

fn faulted(step: &Step, link: Link) -> Link
    ensures { result ≡ faulted step.now link }
{
    let mut link = link;
    if let Step::Inject { fault, .. } = step {
        if let Fault::Serr { bit } = fault.get() {
            link.set_serror(bit.bit());
        }
    }
    link
}

fn read(link: Link) -> Link
    ensures { result ≡ serror_read link }
{
    let mut link = link;
    let _ = link.take_serror();
    link
}

fn clear_serror(links: &mut Links)
    ensures { links.new ≡ map serror_read links.old }
{
    for at in 0..MOST_PLACES {
        links[at] = read(links[at]);
    }
}

/// The number of the drive that is linked at a place.
pub fn linked_at(links: &Links, place: Place) -> Option<DriveNo>
    ensures { result ≡ linked_at links.now place }
{
    links[place.get() as usize].linked()
}

/// The number of the drive that is plugged at a place.
pub fn plugged_at(links: &Links, place: Place) -> Option<DriveNo>
    ensures { result ≡ plugged_at links.now place }
{
    links[place.get() as usize].plugged()
}

/// The number of the drive that a work step lets work.
pub fn worker(step: &Step, links: &Links) -> Option<DriveNo>
    ensures { result ≡ worker step.now links.now }
{
    match step {
        Step::Work { place, .. } => linked_at(links, *place),
        _ => None,
    }
}

/// Whether a drive is plugged somewhere.
pub fn is_plugged(links: &Links, drive: DriveNo) -> bool
    ensures { result ≡ list_any (λ link. option_map_or (λ d. d == drive) link.plugged false) links.now }
{
    links.iter().any(|link| holds(link, drive))
}

fn holds(link: &Link, drive: DriveNo) -> bool
    ensures { result ≡ option_map_or (λ d. d == drive) link.now.plugged false }
{
    match link.plugged() {
        Some(d) => d.get() == drive.get(),
        None => false,
    }
}
