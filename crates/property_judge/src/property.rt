//! What a property says.

/// An order of two numbers.
#[derive(Clone, Copy, PartialEq, Eq)]
pub enum Order {
    /// The first is less.
    Less,
    /// The first is less, or both are the same.
    AtMost,
    /// The first is greater.
    Greater,
    /// The first is greater, or both are the same.
    AtLeast,
}

/// How two words are compared.
#[derive(Clone, Copy, PartialEq, Eq)]
pub enum Comparison {
    /// Both are the same.
    Equal,
    /// They differ.
    Unequal,
    /// They are in this order as signed numbers, from -2^31 to 2^31 - 1.
    Signed(Order),
    /// They are in this order as unsigned numbers, from 0 to 2^32 - 1.
    Unsigned(Order),
}

/// A property of a world: it holds there, or it doesn't.
#[derive(Clone, Copy, PartialEq, Eq)]
pub enum Property {
    /// A word of memory, compared with a number, is as the comparison says.
    Always {
        /// The word's address, a multiple of 4. A word that no load reads counts as 0.
        word: u32,
        /// How the word is compared with the number.
        comparison: Comparison,
        /// The number, as a word: -1 is 0xffffffff.
        number: u32,
    },
    /// At most one hart that runs has its `pc` between two addresses.
    NeverBoth {
        /// The first address.
        from: u32,
        /// The address behind the last: a hart there is not between.
        to: u32,
    },
}
