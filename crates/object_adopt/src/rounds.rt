//! Adopt-commit four times over: the image, and what holds in all of its runs.

ghost use Rattle.std.specs.Prelude.{◌≡◌, ◌+◌, ◌*◌, ◌≤◌, IfOk};
ghost use Rattle.image.specs.Image.{ImageValue};
ghost use Rattle.object_library.specs.Images.{image_of, IsSame};
ghost use Rattle.object_library.specs.Rules.{EveryRun, EndsAfter, KeepsAdoptCommit};
ghost use Rattle.object_library.specs.declared.kind.Kind.TheVariants.{Rounds};

use image::Image;
use object_library::{Kind, make_image};
use std::alloc::{AllocError, Allocator};

/// 1 to 32 harts that run an image that is that of Rounds keep the rule of adopt-commit, whatever
/// their inputs are and however they are scheduled; each of n has exited when it was chosen 82 +
/// 56n times, so also when it was 80n + 108 times.
pub fn rounds_in_every_run()
    ensures agreed { (m : ImageValue) → IsSame m (image_of Rounds)
        → EveryRun (λ n. n ≤ 32) m KeepsAdoptCommit }
    ensures ended { (m : ImageValue) → IsSame m (image_of Rounds)
        → EveryRun (λ n. n ≤ 32) m (EndsAfter (λ n r. 82 + 56 * n)) }
    ensures bounded { (m : ImageValue) → IsSame m (image_of Rounds)
        → EveryRun (λ n. n ≤ 32) m (EndsAfter (λ n r. 80 * n + 108)) }
{}

/// The image of Rounds, with four times the records of the harts that a machine can have, which are
/// 32. In each run of 1 to 32 harts they keep the rule of adopt-commit, and each of n has exited
/// when it was chosen 82 + 56n times, so also when it was 80n + 108 times.
pub fn rounds_image<A: Allocator + Copy>(alloc: A) -> Result<Image<A>, AllocError>
    ensures image { IfOk result (λ m. m ≡ image_of Rounds) }
    ensures agreed { IfOk result (λ m. EveryRun (λ n. n ≤ 32) m KeepsAdoptCommit) }
    ensures ended { IfOk result (λ m. EveryRun (λ n. n ≤ 32) m (EndsAfter (λ n r. 82 + 56 * n))) }
    ensures bounded { IfOk result (λ m. EveryRun (λ n. n ≤ 32) m (EndsAfter (λ n r. 80 * n + 108))) }
{
    let image = make_image(alloc, Kind::Rounds)?;
    Ok(image)
}
