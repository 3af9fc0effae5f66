//! The result of a worker.
ghost use Rattle.std.specs.Prelude.{◌≡◌};

use crate::terms::Terms;
use std::sync::ledger::Share;

/// A worker's part of the ledger when its hart is done: the ticket is spent.
#[derive(Drop)]
pub struct Spent<T: Terms> {
    pub(crate) share: Share<T>,
    ghost one_part: { share.parts ≡ 1 },
    ghost none_left: { share.amount ≡ 0 },
}
