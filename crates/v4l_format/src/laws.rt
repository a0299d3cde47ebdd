//! Laws of the definitions, each of which its contract states.

ghost use Rattle.std.specs.Prelude.{◌≡◌, ◌↔◌, ◌≤◌, ℕ, List, length, take};
ghost use Rattle.v4l_format.specs.declared.fmt.Fmt.{Fmt};
ghost use Rattle.v4l_format.specs.Fmt.{adjusted, IsAdjusted, picture_size};
ghost use Rattle.v4l_format.specs.Picture.{converted_picture};

/// A format is adjusted exactly where adjusting gives it back.
pub fn adjusting_gives_adjusted_formats_back()
    ensures { (f : Fmt) → IsAdjusted f ↔ (adjusted f.code f.width f.height ≡ f) }
{}

/// Converting a picture to its own format copies it.
pub fn converting_to_the_same_format_copies()
    ensures { (f : Fmt) → (bytes : List ℕ) → IsAdjusted f → picture_size f ≤ length bytes →
        converted_picture f bytes f ≡ take (picture_size f) bytes }
{}
