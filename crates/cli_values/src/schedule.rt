//! Parses schedules.

ghost use Rattle.std.specs.Prelude.{◌≡◌, ◌^◌};
ghost use Rattle.cli_args.specs.Numbers.{number_below};
ghost use Rattle.cli_values.specs.Schedules.{schedule_said, seed_plan_of};

use cli_args::{read_number, read_word};
use cmd_schedule::SeedPlan;
use sched_draw::{Draw, Schedule};

/// The schedule of texts: exactly one of a seed, a decimal number below 2^64, of turns, and of a
/// hart, one below 2^32. How it is drawn is given with a seed only. `None` exactly if it is
/// otherwise.
pub fn read_schedule(
    seed: Option<&str>,
    turns: bool,
    only: Option<&str>,
    drawn: bool,
    draw: Draw,
) -> Option<Schedule>
    ensures { result ≡ schedule_said seed.entry turns only.entry drawn draw }
{
    match (seed, turns, only, drawn) {
        (Some(seed), false, None, _) => {
            let Ok(seed) = read_number(seed, u64::MAX) else {
                return None;
            };
            Some(Schedule::Seeded { seed, draw })
        }
        (None, true, None, false) => Some(Schedule::Turns),
        (None, false, Some(hart), false) => {
            let hart = read_word(hart)?;
            Some(Schedule::Only(hart))
        }
        _ => None,
    }
}

/// The plan of a seed's choices: the number of steps, a decimal number below 2^32, and the seed,
/// one below 2^64. `None` exactly if one is invalid or too large.
pub fn read_seed_plan(draw: Draw, steps: &str, seed: &str) -> Option<SeedPlan>
    ensures { result ≡ seed_plan_of draw (number_below (2 ^ 32) steps.now) (number_below (2 ^ 64) seed.now) }
{
    let Ok(steps) = read_number(steps, u64::from(u32::MAX)) else {
        return None;
    };
    let Ok(seed) = read_number(seed, u64::MAX) else {
        return None;
    };
    Some(SeedPlan { draw, steps, seed })
}
