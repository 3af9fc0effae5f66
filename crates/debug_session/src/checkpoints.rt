//! Copies of the machine at intervals.
ghost use Rattle.std.specs.Prelude.{◌≡◌, ◌<◌, ◌≤◌, ◌+◌, ◌*◌, ◌/◌, All, IfOk, length, vec_len};
ghost use Rattle.machine.specs.State.{reached};
ghost use Rattle.debug_session.specs.Paged.{paged_world};
ghost use Rattle.debug_session.specs.Kept.{AreKept};

use crate::paged_machine::PagedMachine;
use crate::telling::tell;
use crate::track::{BLOCK, Track};
use byte_io::Progress;
use machine::Choice;
use std::alloc::{AllocError, Allocator};

/// Does the choices once, and keeps a copy of the machine after 0, 256, 512, .. of them; reports
/// progress meanwhile. Fails when out of memory.
pub fn checkpoints_of<A: Allocator + Copy>(
    alloc: A,
    first: &PagedMachine<A>,
    choices: &[Choice],
    progress: &mut impl Progress,
) -> Result<Vec<PagedMachine<A>, A>, AllocError>
    requires { All (λ c. c.hart < length (paged_world first.now).harts) choices.now }
    ensures kept { IfOk result (λ machines.
        AreKept (paged_world first.now) choices.now machines.items) }
    ensures whole { IfOk result (λ machines.
        vec_len machines ≡ length choices.now / 256 + 1) }
{
    let mut machine = first.copy(alloc)?;
    let mut kept = Vec::new(alloc);
    kept.push(first.copy(alloc)?)?;
    'pieces: for i in 0..choices.len() / BLOCK {
        let (_, rest) = choices.split_at(i * BLOCK);
        let (part, _) = rest.split_at(BLOCK);
        let Ok(()) = machine.run(part) else {
            return Err(AllocError);
        };
        kept.push(machine.copy(alloc)?)?;
        tell(progress, (i + 1) * BLOCK, choices.len());
    }
    Ok(kept)
}

impl<A: Allocator + Copy> Track<A> {
    /// The machine after `block` times 256 choices.
    pub fn checkpoint(&self, block: usize) -> &PagedMachine<A>
        requires { block * 256 ≤ vec_len self.now.choices }
        ensures { paged_world result.now ≡ reached self.now.image self.now.inputs
            self.now.choices.items (block * 256) }
    {
        &self.checkpoints[block]
    }
}
