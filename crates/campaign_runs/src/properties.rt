//! Properties of one's own, which each run of a campaign is judged by.

ghost use Rattle.std.specs.Prelude.{◌≡◌, ◌++◌, true, IfOk, []};
ghost use Rattle.campaign_runs.specs.Properties.{before_run, unjudged};

use property_judge::{Judged, Property};
use std::alloc::{AllocError, Allocator};

/// At most two properties of one's own, in the order in which a report names them.
#[derive(Clone, Copy, Drop)]
pub struct Properties {
    /// The first, if there is one.
    pub first: Option<Property>,
    /// The second, if there is one.
    pub second: Option<Property>,
}

impl Properties {
    ghost use Rattle.campaign_runs.specs.Properties.{no_properties};

    /// No property.
    pub const NONE: Properties = Properties {
        first: None,
        second: None,
    };

    // Whether there is no property.
    pub(crate) fn is_empty(self) -> bool
        ensures { result ≡ true → unjudged self ≡ [] }
    {
        self.first.is_none() && self.second.is_none()
    }

    // The properties before a run. The only error is out of memory.
    pub(crate) fn unjudged<A: Allocator>(self, alloc: A) -> Result<Vec<Judged, A>, AllocError>
        ensures { IfOk result (λ judged. judged.items ≡ unjudged self) }
    {
        let mut judged = Vec::new(alloc);
        push_unjudged(&mut judged, self.first)?;
        push_unjudged(&mut judged, self.second)?;
        Ok(judged)
    }
}

// Appends a property before a run, if there is one.
fn push_unjudged<A: Allocator>(
    judged: &mut Vec<Judged, A>,
    property: Option<Property>,
) -> Result<(), AllocError>
    ensures { IfOk result (λ _. judged.new.items ≡ judged.old.items ++ before_run property) }
{
    if let Some(property) = property {
        judged.push(Judged {
            property,
            broken: None,
        })?;
    }
    Ok(())
}
