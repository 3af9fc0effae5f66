//! The rights of a page's bytes.
ghost use Rattle.std.specs.Prelude.{◌≡◌, ◌+◌, ◌<◌, ◌≤◌, ◌∷◌, OnOk, option_map};
ghost use Rattle.mem_store.specs.Memory.{grants, all_below};
ghost use Rattle.mem_paged.specs.Pages.{has_offset, has_all, right_at};

use image::Rights;
use std::alloc::{AllocError, Allocator};

/// Bytes of a page that are mapped with the same rights: those at offsets from `from` up to but not
/// including `to`.
#[derive(Clone, Copy)]
pub struct Span {
    pub from: usize,
    pub to: usize,
    pub rights: Rights,
}

/// The rights of a page's bytes, by spans: the first span that contains an offset decides. An
/// offset in no span is not mapped.
#[derive(Drop)]
pub struct PageRights<A: Allocator> {
    pub spans: Vec<Span, A>,
}

impl Span {
    // Whether the span contains an offset.
    #[inline]
    fn has_offset(&self, at: usize) -> bool
        ensures { result ≡ has_offset at self.now }
    {
        self.from <= at && at < self.to
    }

    // Whether `count` is not 0 and the span contains all `count` bytes from an offset on.
    #[inline]
    fn has_all(&self, at: usize, count: usize) -> bool
        requires { at + count ≤ 4096 }
        ensures { result ≡ has_all at count self.now }
    {
        count > 0 && self.from <= at && at + count <= self.to
    }
}

// The rights of the first span that contains an offset.
#[inline]
fn first_right(spans: &[Span], at: usize) -> Option<Rights>
    ensures { option_map (λ r. r.0) result ≡ right_at spans.now at }
{
    'spans: for span in spans {
        if span.has_offset(at) {
            return Some(span.rights);
        }
    }
    None
}

impl<A: Allocator> PageRights<A> {
    /// Adds a span before the others. Fails when out of memory.
    pub fn put(&mut self, span: Span) -> Result<(), AllocError>
        ensures { OnOk result (self.new.spans.items ≡ span ∷ self.old.spans.items) }
    {
        self.spans.insert(0, span)?;
        Ok(())
    }

    /// The rights of a byte, if it is mapped.
    #[inline]
    pub fn right(&self, at: usize) -> Option<Rights>
        ensures { option_map (λ r. r.0) result ≡ right_at self.now.spans.items at }
    {
        first_right(&self.spans, at)
    }

    /// Whether a byte has one of the wanted rights.
    #[inline]
    pub fn grants_one(&self, at: usize, wanted: Rights) -> bool
        ensures { result ≡ grants wanted.0 (right_at self.now.spans.items at) }
    {
        match self.right(at) {
            Some(rights) => rights.grants(wanted),
            None => false,
        }
    }

    /// Whether each of `count` bytes from an offset on has one of the wanted rights. If the first
    /// span contains them all, one test decides; so it is where one segment has the page.
    #[inline]
    pub fn grants(&self, at: usize, count: usize, wanted: Rights) -> bool
        requires { at + count ≤ 4096 }
        ensures { result ≡ all_below count (λ k.
            grants wanted.0 (right_at self.now.spans.items (at + k))) }
    {
        let Some(span) = self.spans.first() else {
            return self.each_grants(at, count, wanted);
        };
        if !span.has_all(at, count) {
            return self.each_grants(at, count, wanted);
        }
        span.rights.grants(wanted)
    }

    // `grants`, byte by byte.
    fn each_grants(&self, at: usize, count: usize, wanted: Rights) -> bool
        requires { at + count ≤ 4096 }
        ensures { result ≡ all_below count (λ k.
            grants wanted.0 (right_at self.now.spans.items (at + k))) }
    {
        'bytes: for k in 0..count {
            if !self.grants_one(at + k, wanted) {
                return false;
            }
        }
        true
    }
}
