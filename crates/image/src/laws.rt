//! Law: the code's limit of an image equals that of the definitions.
ghost use Rattle.std.specs.Prelude.{◌≡◌};
ghost use Rattle.image.specs.Spans.{image_limit};
ghost use Rattle.image.specs.declared.space.TheConstants.{IMAGE_LIMIT};

/// An image has at most 2^24 bytes in all its segments: the code's limit equals the definitions'.
pub fn images_are_limited()
    ensures limit { IMAGE_LIMIT ≡ image_limit }
    ensures numeral { image_limit ≡ 0x0100_0000 }
{}
