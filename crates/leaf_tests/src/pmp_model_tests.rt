use ata_base::DriveNo;
use link_model::Link;
use pmp_model::*;

/// Three places: the first has a linked drive and no error, the second an exchanged one, the third none.
fn three_places() -> [Link; 3] {
    let mut links = [Link::new(), Link::new(), Link::new()];
    let _ = links[0].plug(DriveNo::at(0));
    links[0].begin_reset();
    let _ = links[0].take_serror();
    links[1].set_serror(26);
    links[2].set_limit(1);
    links
}

/// A general register's number, and what it is for three places.
#[test]
fn general_registers(rt: HostRuntime) {
    let links = three_places();
    let pmp = Pmp::new(3);
    let rows = [
        (0, Some(0x0001_0001)),
        (1, None),
        (2, Some(3)),
        (3, None),
        (32, Some(0b010)),
        (33, None),
    ];
    for (reg, want) in rows {
        assert_eq!(rt; pmp.gscr(reg, &links), want, "{reg}");
    }
}

/// A place, a port register's number, and what it is for a drive of the second generation.
#[test]
fn port_registers(rt: HostRuntime) {
    let links = three_places();
    let pmp = Pmp::new(15);
    let rows = [
        (0, 0, Some(0x123)),
        (0, 1, Some(0)),
        (0, 2, Some(0x30)),
        (1, 0, Some(0)),
        (1, 1, Some(0x0400_0000)),
        (2, 2, Some(0x10)),
        (2, 3, None),
    ];
    for (place, reg, want) in rows {
        let link = links.get(place).unwrap();
        assert_eq!(rt; pmp.pscr(reg, link, 2), want, "{place} {reg}");
    }
}
