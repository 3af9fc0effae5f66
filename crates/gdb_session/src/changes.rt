//! Requests that change what GDB has set. Each answer is appended before its change is made, so
//! that nothing has changed when memory is refused.
ghost use Rattle.std.specs.Prelude.{◌≡◌, ◌++◌, OnOk, OnErr};
ghost use Rattle.gdb_moves.specs.Points.{marked_with, marked_without};
ghost use Rattle.gdb_replies.specs.Fixed.{fixed_text};
ghost use Rattle.gdb_replies.specs.Fronts.{BeginsWith};
ghost use Rattle.gdb_replies.specs.declared.fixed.FixedReply.TheVariants.{Done};
ghost use Rattle.gdb_session.specs.Answers.{done_if, moving_harts, reading_harts};
ghost use Rattle.gdb_session.specs.Harts.{selected_harts};
ghost use Rattle.gdb_session.specs.Talk.{hart_count, talk_of};

use crate::fixed::push_fixed;
use crate::talk::Talk;
use gdb_replies::FixedReply;
use gdb_requests::{Point, Threads};
use std::alloc::{AllocError, Allocator};

/// Chooses the hart that is read.
pub fn choose_read<A: Allocator + Copy>(
    talk: &mut Talk<A>,
    out: &mut Vec<u8, A>,
    threads: Threads,
) -> Result<(), AllocError>
    ensures text { OnOk result (out.new.items ≡ out.old.items
        ++ done_if (selected_harts (hart_count (talk_of talk.old)) threads)) }
    ensures after { OnOk result (talk_of talk.new ≡ reading_harts (talk_of talk.old)
        (selected_harts (hart_count (talk_of talk.old)) threads)) }
    ensures err { OnErr result (talk_of talk.new ≡ talk_of talk.old) }
    ensures kept { OnErr result (BeginsWith out.new.items out.old.items) }
{
    let Some(harts) = talk.select(threads) else {
        return push_fixed(out, FixedReply::BadOperand);
    };
    push_fixed(out, FixedReply::Done)?;
    talk.reads = harts;
    Ok(())
}

/// Chooses the harts that move.
pub fn choose_moves<A: Allocator + Copy>(
    talk: &mut Talk<A>,
    out: &mut Vec<u8, A>,
    threads: Threads,
) -> Result<(), AllocError>
    ensures text { OnOk result (out.new.items ≡ out.old.items
        ++ done_if (selected_harts (hart_count (talk_of talk.old)) threads)) }
    ensures after { OnOk result (talk_of talk.new ≡ moving_harts (talk_of talk.old)
        (selected_harts (hart_count (talk_of talk.old)) threads)) }
    ensures err { OnErr result (talk_of talk.new ≡ talk_of talk.old) }
    ensures kept { OnErr result (BeginsWith out.new.items out.old.items) }
{
    let Some(harts) = talk.select(threads) else {
        return push_fixed(out, FixedReply::BadOperand);
    };
    push_fixed(out, FixedReply::Done)?;
    talk.moves = harts;
    Ok(())
}

/// Puts a point in.
pub fn insert<A: Allocator + Copy>(
    talk: &mut Talk<A>,
    out: &mut Vec<u8, A>,
    point: Point,
) -> Result<(), AllocError>
    ensures text { OnOk result (out.new.items ≡ out.old.items ++ fixed_text Done) }
    ensures after { OnOk result (talk_of talk.new ≡ record (talk_of talk.old) {
      points = marked_with (talk_of talk.old).points point;
    }) }
    ensures err { OnErr result (talk_of talk.new ≡ talk_of talk.old) }
    ensures kept { OnErr result (BeginsWith out.new.items out.old.items) }
{
    push_fixed(out, FixedReply::Done)?;
    talk.points.insert(point)
}

/// Takes a point out.
pub fn remove<A: Allocator + Copy>(
    talk: &mut Talk<A>,
    out: &mut Vec<u8, A>,
    point: Point,
) -> Result<(), AllocError>
    ensures text { OnOk result (out.new.items ≡ out.old.items ++ fixed_text Done) }
    ensures after { OnOk result (talk_of talk.new ≡ record (talk_of talk.old) {
      points = marked_without (talk_of talk.old).points point;
    }) }
    ensures err { OnErr result (talk_of talk.new ≡ talk_of talk.old) }
    ensures kept { OnErr result (BeginsWith out.new.items out.old.items) }
{
    push_fixed(out, FixedReply::Done)?;
    talk.points.remove(point);
    Ok(())
}
