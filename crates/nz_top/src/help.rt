//! What the program says of its commands.
ghost use Rattle.std.specs.Prelude.{◌≡◌};
ghost use Rattle.nz_top.specs.Help as help;

/// A line for each command.
#[tactic(auto, unfolding(crate::specs::Help::help_lines))]
pub fn help_lines() -> &'static str
    ensures { result.now ≡ help.help_lines }
{
    concat!(
        "nezha run [--workers N] < SCENARIO      plays it; prints what the clients saw, and the history\n",
        "nezha trace [--workers N] < SCENARIO    the same, after a line for each step\n",
        "nezha story [--workers N] < SCENARIO    the same, after what each step changed and sent\n",
        "nezha locks [--workers N] < SCENARIO    the same, after who held which lock\n",
        "nezha peek ACTOR KEY < SCENARIO         the same, after what a replica knew of the key\n",
        "nezha pace < SCENARIO                   plays it; prints how many ticks requests took\n",
        "nezha gen SEED COUNT                    plays a drawn scenario; prints counts\n",
        "nezha scenario SEED COUNT               prints the drawn scenario\n",
        "nezha check < TEXT                      judges what `run` printed\n",
        "nezha help                              prints this\n",
    )
}
