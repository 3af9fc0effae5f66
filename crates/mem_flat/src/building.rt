//! Making blocks.
ghost use Rattle.std.specs.Prelude.{◌≡◌, map, IfOk};
ghost use Rattle.image.specs.Image.{IsSound};
ghost use Rattle.mem_flat.specs.Blocks.{filled, IsInOrder};
ghost use Rattle.mem_store.specs.Image.{image_memory, segments_memory};

use crate::block::Block;
use image::Image;
use std::alloc::{AllocError, Allocator};

/// The blocks of an image, sorted by base. Fails when out of memory.
pub fn blocks_of<A: Allocator + Copy, B: Allocator>(
    alloc: A,
    image: &Image<B>,
) -> Result<Vec<Block<A>, A>, AllocError>
    ensures order { IfOk result (λ bs. IsInOrder bs.items) }
    ensures memory { IfOk result (λ bs. segments_memory bs.items ≡ image_memory image.now) }
{
    let mut blocks = filled_blocks(alloc, image)?;
    blocks.sort_by_key(|b| b.base())?;
    Ok(blocks)
}

// The blocks of an image's segments, in their order.
fn filled_blocks<A: Allocator + Copy, B: Allocator>(
    alloc: A,
    image: &Image<B>,
) -> Result<Vec<Block<A>, A>, AllocError>
    ensures made { IfOk result (λ bs. bs.items ≡ map filled image.now.segments) }
    ensures sound { IfOk result (λ _. IsSound image.now.entry image.now.segments) }
{
    let segments = image.segments();
    let mut blocks = Vec::with_capacity(alloc, segments.len())?;
    'each: for segment in segments {
        blocks.push(Block::of_segment(alloc, segment)?)?;
    }
    Ok(blocks)
}

/// Copies of blocks. Fails when out of memory.
pub fn copies_of<A: Allocator + Copy>(
    alloc: A,
    blocks: &[Block<A>],
) -> Result<Vec<Block<A>, A>, AllocError>
    ensures { IfOk result (λ bs. bs.items ≡ blocks.now) }
{
    let mut copies = Vec::with_capacity(alloc, blocks.len())?;
    'each: for block in blocks {
        copies.push(block.copy(alloc)?)?;
    }
    Ok(copies)
}
