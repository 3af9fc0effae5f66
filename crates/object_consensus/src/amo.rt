//! Consensus of two harts by one atomic instruction: the images, and what holds in all of their
//! runs.

ghost use Rattle.std.specs.Prelude.{◌≡◌, IfOk};
ghost use Rattle.image.specs.Image.{ImageValue};
ghost use Rattle.object_library.specs.Images.{image_of, IsSame};
ghost use Rattle.object_library.specs.Rules.{EveryRun, EndsAfter, KeepsConsensus};
ghost use Rattle.object_library.specs.declared.kind.Kind.TheVariants.{Swap, Add};

use image::Image;
use object_library::{Kind, make_image};
use std::alloc::{AllocError, Allocator};

/// Two harts that run an image that is Swap's agree, whatever their inputs are and however they are
/// scheduled; each has exited when it was chosen 15 times, so also when it was 18 times.
pub fn swap_in_every_run()
    ensures agreed { (m : ImageValue) → IsSame m (image_of Swap) → EveryRun (λ n. n ≡ 2) m KeepsConsensus }
    ensures ended { (m : ImageValue) → IsSame m (image_of Swap) → EveryRun (λ n. n ≡ 2) m (EndsAfter (λ n r. 15)) }
    ensures bounded { (m : ImageValue) → IsSame m (image_of Swap) → EveryRun (λ n. n ≡ 2) m (EndsAfter (λ n r. 18)) }
{}

/// Two harts that run an image that is Add's agree, whatever their inputs are and however they are
/// scheduled; each has exited when it was chosen 15 times, so also when it was 18 times.
pub fn add_in_every_run()
    ensures agreed { (m : ImageValue) → IsSame m (image_of Add) → EveryRun (λ n. n ≡ 2) m KeepsConsensus }
    ensures ended { (m : ImageValue) → IsSame m (image_of Add) → EveryRun (λ n. n ≡ 2) m (EndsAfter (λ n r. 15)) }
    ensures bounded { (m : ImageValue) → IsSame m (image_of Add) → EveryRun (λ n. n ≡ 2) m (EndsAfter (λ n r. 18)) }
{}

/// The image of Swap. In each of its runs two harts agree, and each has exited when it was chosen
/// 15 times, so also when it was 18 times.
pub fn swap_image<A: Allocator + Copy>(alloc: A) -> Result<Image<A>, AllocError>
    ensures image { IfOk result (λ m. m ≡ image_of Swap) }
    ensures agreed { IfOk result (λ m. EveryRun (λ n. n ≡ 2) m KeepsConsensus) }
    ensures ended { IfOk result (λ m. EveryRun (λ n. n ≡ 2) m (EndsAfter (λ n r. 15))) }
    ensures bounded { IfOk result (λ m. EveryRun (λ n. n ≡ 2) m (EndsAfter (λ n r. 18))) }
{
    let image = make_image(alloc, Kind::Swap)?;
    Ok(image)
}

/// The image of Add. In each of its runs two harts agree, and each has exited when it was chosen 15
/// times, so also when it was 18 times.
pub fn add_image<A: Allocator + Copy>(alloc: A) -> Result<Image<A>, AllocError>
    ensures image { IfOk result (λ m. m ≡ image_of Add) }
    ensures agreed { IfOk result (λ m. EveryRun (λ n. n ≡ 2) m KeepsConsensus) }
    ensures ended { IfOk result (λ m. EveryRun (λ n. n ≡ 2) m (EndsAfter (λ n r. 15))) }
    ensures bounded { IfOk result (λ m. EveryRun (λ n. n ≡ 2) m (EndsAfter (λ n r. 18))) }
{
    let image = make_image(alloc, Kind::Add)?;
    Ok(image)
}
