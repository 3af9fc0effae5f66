//! What is left of the total of a run.
ghost use Rattle.std.specs.Prelude.{◌≡◌, ◌+◌, ◌-◌, ◌<◌, ◌≤◌, ◌==◌, ◌||◌, nat_lt, IfSome, option_map, unwrap_or};

/// The greatest number of choices of an entry, where a hart has `left`.
pub(crate) fn room_for(room: Option<u32>, left: u32) -> u32
    ensures { result ≡ unwrap_or room left }
{
    room.unwrap_or(left)
}

/// What is left after so many choices more.
pub(crate) fn room_after(room: Option<u32>, choices: u32) -> Option<u32>
    requires { IfSome room (λ r. choices ≤ r) }
    ensures { result ≡ option_map (λ r. r - choices) room }
{
    match room {
        Some(room) => Some(room - choices),
        None => None,
    }
}

/// Whether an entry of so many choices ends where it may: before its limit, which a shared step
/// does, or with the last choice that is left to its hart or to all.
pub(crate) fn ends_well(choices: u32, limit: u32, left: u32, room: u32) -> bool
    ensures { result ≡ (nat_lt choices limit || choices == left || choices == room) }
{
    choices < limit || choices == left || choices == room
}
