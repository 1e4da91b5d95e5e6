//! Laws of the format.

ghost use Rattle.std.specs.Prelude.{◌≡◌, ℕ, List};
ghost use Rattle.risc_image.specs.Image.{Image};
ghost use Rattle.risc_image.specs.Format.{IsImage};
ghost use Rattle.risc_image.specs.Refusal.{IsRefused};
ghost use Rattle.risc_image.specs.declared.refusal.ImageRefusal.{ImageRefusal};

/// Bytes are at most one image, and an image has one spelling. So what `write` wrote is read as the same parts, and
/// nothing else is. No image is refused, and other bytes are refused in one way.
pub fn format_is_exact()
    ensures once { (bytes : List ℕ) (a b : Image) → IsImage bytes a → IsImage bytes b → a ≡ b }
    ensures one_spelling { (bytes other : List ℕ) (a : Image) → IsImage bytes a → IsImage other a → bytes ≡ other }
    ensures apart { (bytes : List ℕ) (a : Image) (refusal : ImageRefusal) → IsImage bytes a
        → ¬ IsRefused bytes refusal }
    ensures refused_once { (bytes : List ℕ) (a b : ImageRefusal) → IsRefused bytes a → IsRefused bytes b → a ≡ b }
{}
