use ata_lanes::*;

#[test]
fn a_page_of_ones_sums_to_zero(rt: HostRuntime) {
    assert_eq!(rt; sum512(&[255; 512]), 0);
}

// Dubious timeouts but for a clean bus error at place 7, all at 10.
#[test]
fn counts_of_a_window(rt: HostRuntime) {
    let mut cats = [6; 32];
    cats[7] = 1;
    let mut old_first = cats;
    old_first[0] = 14;
    let mut old_ninth = cats;
    old_ninth[8] = 14;
    let rows = [
        (cats, 0, 10, [0, 0, 0, 0, 0, 0]),
        (cats, 7, 10, [0, 7, 0, 0, 0, 0]),
        (cats, 8, 10, [0, 7, 0, 1, 0, 0]),
        (cats, 9, 10, [0, 7, 0, 1, 1, 0]),
        (cats, 32, 10, [0, 7, 0, 1, 24, 0]),
        (cats, 32, 11, [0, 0, 0, 0, 0, 0]),
        (old_first, 32, 10, [0, 0, 0, 0, 0, 0]),
        (old_ninth, 32, 10, [0, 7, 0, 1, 0, 0]),
    ];
    for (cats, n, since, want) in rows {
        assert!(rt; n <= 32 && cats.iter().all(|cat| *cat < 16));
        assert_eq!(rt;
            count_cats(&cats, &[10; 32], n, since),
            want,
            "{n} places since {since}"
        );
    }
}
