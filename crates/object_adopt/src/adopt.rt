//! Adopt-commit by loads and stores: the image, and what holds in all of its runs.

ghost use Rattle.std.specs.Prelude.{◌≡◌, ◌+◌, ◌*◌, ◌≤◌, ℕ, IfOk};
ghost use Rattle.image.specs.Image.{ImageValue};
ghost use Rattle.object_library.specs.Images.{adopt_image as image_for, image_of, IsSame};
ghost use Rattle.object_library.specs.Rules.{EveryRun, EndsAfter, KeepsAdoptCommit};
ghost use Rattle.object_library.specs.declared.kind.Kind.TheVariants.{AdoptCommit};

use image::Image;
use object_library::{Kind, make_image};
use std::alloc::{AllocError, Allocator};

/// As many harts as an image of AdoptCommit has slots, up to 32, keep the rule of adopt-commit,
/// whatever their inputs are and however they are scheduled; each of n has exited when it was
/// chosen 19 + 14n times, so also when it was 20n + 27 times.
pub fn adopt_in_every_run()
    ensures agreed { (slots : ℕ) (m : ImageValue) → slots ≤ 32 → IsSame m (image_for slots)
        → EveryRun (λ n. n ≤ slots) m KeepsAdoptCommit }
    ensures ended { (slots : ℕ) (m : ImageValue) → slots ≤ 32 → IsSame m (image_for slots)
        → EveryRun (λ n. n ≤ slots) m (EndsAfter (λ n r. 19 + 14 * n)) }
    ensures bounded { (slots : ℕ) (m : ImageValue) → slots ≤ 32 → IsSame m (image_for slots)
        → EveryRun (λ n. n ≤ slots) m (EndsAfter (λ n r. 20 * n + 27)) }
{}

/// The image of AdoptCommit, with a record for each hart that a machine can have, which are 32. In
/// each run of 1 to 32 harts they keep the rule of adopt-commit, and each of n has exited when it
/// was chosen 19 + 14n times, so also when it was 20n + 27 times.
pub fn adopt_image<A: Allocator + Copy>(alloc: A) -> Result<Image<A>, AllocError>
    ensures image { IfOk result (λ m. m ≡ image_of AdoptCommit) }
    ensures agreed { IfOk result (λ m. EveryRun (λ n. n ≤ 32) m KeepsAdoptCommit) }
    ensures ended { IfOk result (λ m. EveryRun (λ n. n ≤ 32) m (EndsAfter (λ n r. 19 + 14 * n))) }
    ensures bounded { IfOk result (λ m. EveryRun (λ n. n ≤ 32) m (EndsAfter (λ n r. 20 * n + 27))) }
{
    let image = make_image(alloc, Kind::AdoptCommit)?;
    Ok(image)
}
