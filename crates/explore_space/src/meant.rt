//! The choices of a program's harts.
ghost use Rattle.std.specs.Prelude.{◌≡◌, ◌++◌, IfOk, OnOk};
ghost use Rattle.explore_space.specs.Every.{hart_choices, meant_choices};

use machine::Choice;
use std::alloc::{AllocError, Allocator};

/// Whether choices that refuse a store-conditional are meant too.
#[derive(Clone, Copy, PartialEq, Eq)]
pub enum ScRefusals {
    /// Each hart's step is also taken with its store-conditional refused.
    Also,
    /// A store-conditional fails only where its reservation is gone.
    Never,
}

impl ScRefusals {
    // Appends the choices of a hart.
    fn push_choices<A: Allocator>(
        self,
        choices: &mut Vec<Choice, A>,
        hart: u32,
    ) -> Result<(), AllocError>
        ensures { OnOk result (choices.new.items ≡ choices.old.items ++ hart_choices self hart) }
    {
        let plain = Choice {
            hart,
            refuse: false,
        };
        choices.push(plain)?;
        match self {
            ScRefusals::Also => choices.push(Choice { hart, refuse: true })?,
            ScRefusals::Never => {}
        }
        Ok(())
    }
}

/// The choices of so many harts.
pub fn meant_choices<A: Allocator>(
    alloc: A,
    refusals: ScRefusals,
    harts: u32,
) -> Result<Vec<Choice, A>, AllocError>
    ensures { IfOk result (λ choices. choices.items ≡ meant_choices refusals harts) }
{
    let mut choices = Vec::new(alloc);
    'harts: for hart in 0..harts {
        refusals.push_choices(&mut choices, hart)?;
    }
    Ok(choices)
}
