//! How the runs to keys' places end.
ghost use Rattle.std.specs.Prelude.{◌≡◌, ◌≤◌, ◌++◌, ◌∷◌, [], ℕ, List, IfOk, OnOk, length};
ghost use Rattle.std.specs.List.{All};
ghost use Rattle.explore_space.specs.Ends.{AreEndsAt, FitsHarts, ends_in};

use crate::failing::{chosen_by_key, harts_by_key};
use crate::run_end::{Ends, RunEnd, returned_by_harts};
use explore_table::Table;
use hart_step::Hart;
use object_library::Kind;
use outcome::{Exit, Expect, some_run};
use std::alloc::{AllocError, Allocator};

// Adds the end at a key, if no hart runs there.
fn add_end_at<A: Allocator + Copy>(
    alloc: A,
    harts: &[Hart],
    inputs: &[u32],
    rule: Option<Kind>,
    key: &[u32],
    ends: &mut Ends<A>,
) -> Result<(), AllocError>
    requires few { length inputs.now ≤ 32 }
    requires fits { FitsHarts (length inputs.now) (length harts.now) key.now }
    ensures { OnOk result ((keys : List (List ℕ)) → AreEndsAt rule inputs.now harts.now keys (ends_in ends.old)
        → AreEndsAt rule inputs.now harts.now (keys ++ key.now ∷ []) (ends_in ends.new)) }
{
    let by_key = harts_by_key(alloc, harts, inputs.len(), key)?;
    let stopped = by_key.as_slice();
    let runs = some_run(stopped);
    if runs {
        return Ok(());
    }
    let chosen = chosen_by_key(inputs.len(), key);
    let expect = Expect {
        rule,
        exit: Exit::May,
    };
    let outcome = expect.judge(alloc, inputs, &chosen, stopped)?;
    let returned = returned_by_harts(alloc, stopped)?;
    ends.add(RunEnd { outcome, returned })?;
    Ok(())
}

/// How the runs to keys' places end, of those places in which no hart runs, each once. The only
/// error is out of memory.
pub fn ends_at_keys<A: Allocator + Copy>(
    alloc: A,
    harts: &[Hart],
    inputs: &[u32],
    rule: Option<Kind>,
    keys: &Table<A>,
) -> Result<Ends<A>, AllocError>
    requires few { length inputs.now ≤ 32 }
    requires fit { All (FitsHarts (length inputs.now) (length harts.now)) keys.now }
    ensures { IfOk result (λ ends. AreEndsAt rule inputs.now harts.now keys.now (ends_in ends)) }
{
    let mut ends = Ends::new(alloc);
    'keys: for number in 0..keys.len() {
        add_end_at(alloc, harts, inputs, rule, keys.key(number), &mut ends)?;
    }
    Ok(ends)
}
