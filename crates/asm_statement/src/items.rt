//! Lists in a statement.
ghost use Rattle.std.specs.Prelude.{◌≡◌};

use std::alloc::Allocator;
use std::marker::Model;

/// The operands of a directive that takes any number of them. Contracts see the list.
#[derive(Drop)]
pub struct Items<T, A: Allocator> {
    items: Vec<T, A>,
}

impl<T, A: Allocator> Model for Items<T, A> {
    ghost use Rattle.std.specs.Prelude.{List};

    ghost Value = { List T };

    ghost view = { λ i. i.items.items };
}

impl<T, A: Allocator> Items<T, A> {
    /// The items of a vector.
    pub fn new(items: Vec<T, A>) -> Items<T, A>
        ensures { result ≡ items.items }
    {
        Items { items }
    }

    /// The items, in the order of the source.
    pub fn as_slice(&self) -> &[T]
        ensures { result.now ≡ self.now }
    {
        &self.items
    }
}
