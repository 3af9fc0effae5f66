//! Where harts rest.

/// A section of code. A hart that stands in one takes no step at once, so that each world in
/// which it stands there is seen.
#[derive(Clone, Copy)]
pub struct Section {
    /// The first address.
    pub from: u32,
    /// The address behind the last: a hart there is not in the section.
    pub to: u32,
}
