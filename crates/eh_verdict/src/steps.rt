ghost use Rattle.std.specs.Prelude.{◌≡◌, ◌≤◌};
ghost use Rattle.eh_verdict.specs.Steps.{down_speed, down_mode};

/// One generation less than `current`, which is 1 to 3; `None` exactly where that is 1.
pub fn down_speed(current: u8) -> Option<u8>
    requires low { 1 ≤ current }
    requires high { current ≤ 3 }
    ensures { result ≡ down_speed current }
{
    if current == 1 {
        None
    } else {
        Some(current - 1)
    }
}

/// The number of lowerings of the mode after one more; `None` exactly where there were 2 or more. The UDMA mode is 6
/// minus the lowerings.
pub fn down_mode(lowered: u8) -> Option<u8>
    ensures { result ≡ down_mode lowered }
{
    if lowered < 2 { Some(lowered + 1) } else { None }
}
