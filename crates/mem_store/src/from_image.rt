//! Memories made of images.
ghost use Rattle.std.specs.Prelude.{◌≡◌, IfOk};
ghost use Rattle.mem_store.specs.Image.{image_memory};

use crate::store::Store;
use image::Image;
use std::alloc::{AllocError, Allocator};

/// A memory that can be made of an image and copied. Both fail only when out of memory.
pub trait FromImage<A: Allocator>: Store {
    /// The initial memory of a program.
    fn from_image<B: Allocator>(alloc: A, image: &Image<B>) -> Result<Self, AllocError>
        ensures { IfOk result (λ s. Self.memory s ≡ image_memory image.now) };

    /// A copy of this memory. A store into one is never visible in the other.
    fn copy(&self, alloc: A) -> Result<Self, AllocError>
        ensures { IfOk result (λ s. Self.memory s ≡ Self.memory self.now) };
}
