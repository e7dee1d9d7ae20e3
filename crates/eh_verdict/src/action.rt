ghost use Rattle.std.specs.Prelude.{◌≡◌};
ghost use Rattle.eh_verdict.specs.Action.{speed_action_of};

use crate::error_verdict::Verdict;
use crate::steps::down_mode;
use ata_base::SpeedAction;

/// The first action that fits the verdict: `NcqOff`, where it asks for that and NCQ is on; with speed-down `Speed`,
/// one generation below the present speed `current`, where that is above 1; with speed-down `Mode`, one mode below the
/// present one, where the mode was lowered fewer than 2 times; else `NoChange`.
pub fn decide(v: &Verdict, ncq_on: bool, current: u8, lowered: u8) -> SpeedAction
    ensures { result ≡ speed_action_of v.now ncq_on current lowered }
{
    if v.ncq_off && ncq_on {
        return SpeedAction::NcqOff;
    }
    if !v.speed_down {
        return SpeedAction::NoChange;
    }
    if current > 1 {
        return SpeedAction::Speed {
            generation: current - 1,
        };
    }
    match down_mode(lowered) {
        Some(lowered) => SpeedAction::Mode { udma: 6 - lowered },
        None => SpeedAction::NoChange,
    }
}
