//! Consensus by load-reserved and store-conditional: the image, and what holds in all of its runs.

ghost use Rattle.std.specs.Prelude.{◌≡◌, ◌+◌, ◌*◌, ◌≤◌, ℕ, IfOk};
ghost use Rattle.image.specs.Image.{ImageValue};
ghost use Rattle.object_library.specs.Images.{lrsc_image as image_for, image_of, IsSame};
ghost use Rattle.object_library.specs.Rules.{EveryRun, EndsAfter, KeepsConsensus};
ghost use Rattle.object_library.specs.declared.kind.Kind.TheVariants.{LrSc};

use image::Image;
use object_library::{Kind, make_image};
use std::alloc::{AllocError, Allocator};

/// As many harts as an image of LrSc has slots, up to 32, agree, whatever their inputs are and
/// however they are scheduled, and whichever store-conditionals are refused; each has exited when
/// it was chosen 17 times, and four times more for each of its own choices that refuse; so also
/// when it was chosen 21 times and these.
pub fn lrsc_in_every_run()
    ensures agreed { (slots : ℕ) (m : ImageValue) → slots ≤ 32 → IsSame m (image_for slots)
        → EveryRun (λ n. n ≤ slots) m KeepsConsensus }
    ensures ended { (slots : ℕ) (m : ImageValue) → slots ≤ 32 → IsSame m (image_for slots)
        → EveryRun (λ n. n ≤ slots) m (EndsAfter (λ n r. 17 + 4 * r)) }
    ensures bounded { (slots : ℕ) (m : ImageValue) → slots ≤ 32 → IsSame m (image_for slots)
        → EveryRun (λ n. n ≤ slots) m (EndsAfter (λ n r. 21 + 4 * r)) }
{}

/// The image of LrSc, with a slot for each hart that a machine can have, which are 32. In each run
/// of 1 to 32 harts they agree, and each has exited when it was chosen 17 times, and four times
/// more for each of its own choices that refuse; so also when it was chosen 21 times and these.
pub fn lrsc_image<A: Allocator + Copy>(alloc: A) -> Result<Image<A>, AllocError>
    ensures image { IfOk result (λ m. m ≡ image_of LrSc) }
    ensures agreed { IfOk result (λ m. EveryRun (λ n. n ≤ 32) m KeepsConsensus) }
    ensures ended { IfOk result (λ m. EveryRun (λ n. n ≤ 32) m (EndsAfter (λ n r. 17 + 4 * r))) }
    ensures bounded { IfOk result (λ m. EveryRun (λ n. n ≤ 32) m (EndsAfter (λ n r. 21 + 4 * r))) }
{
    let image = make_image(alloc, Kind::LrSc)?;
    Ok(image)
}
