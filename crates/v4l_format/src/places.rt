ghost use Rattle.std.specs.Prelude.{◌≡◌, ◌<◌, ◌+◌, ◌*◌};
ghost use Rattle.v4l_format.specs.Fmt.{IsAdjusted, picture_size};
ghost use Rattle.v4l_format.specs.Picture.{carried_at};
ghost use Rattle.v4l_format.specs.SampleOrder.{pixel_number, pair_number, square_number};

use crate::carried::Carried;
use crate::component::Component;
use crate::fmt::Fmt;
use crate::formats::order_of;
use crate::sample_order::SampleOrder;

/// What byte `i` of a picture of this format carries.
#[tactic(auto, using(crate::proofs::FmtLemmas::area_most))]
pub fn carried_at(f: &Fmt, i: u32) -> Carried
    requires adjusted { IsAdjusted f.now }
    requires place { i < picture_size f.now }
    ensures { result ≡ carried_at f.now i }
{
    let width = f.width;
    let pixels = width * f.height;
    match order_of(f) {
        SampleOrder::Grey => Carried::of_pixel(width, i, Component::Y),
        SampleOrder::Yuyv => match i % 4 {
            0 => Carried::of_pair(width, i / 4, 0, Component::Y),
            1 => Carried::of_pair(width, i / 4, 0, Component::Cb),
            2 => Carried::of_pair(width, i / 4, 1, Component::Y),
            _ => Carried::of_pair(width, i / 4, 0, Component::Cr),
        },
        SampleOrder::Uyvy => match i % 4 {
            0 => Carried::of_pair(width, i / 4, 0, Component::Cb),
            1 => Carried::of_pair(width, i / 4, 0, Component::Y),
            2 => Carried::of_pair(width, i / 4, 0, Component::Cr),
            _ => Carried::of_pair(width, i / 4, 1, Component::Y),
        },
        SampleOrder::Nv12 | SampleOrder::Yu12 if i < pixels => Carried::of_pixel(
            width,
            i,
            Component::Y,
        ),
        SampleOrder::Nv12 => match (i - pixels) % 2 {
            0 => Carried::of_square(width, (i - pixels) / 2, Component::Cb),
            _ => Carried::of_square(width, (i - pixels) / 2, Component::Cr),
        },
        SampleOrder::Yu12 => match (i - pixels).checked_sub(pixels / 4) {
            None => Carried::of_square(width, i - pixels, Component::Cb),
            Some(n) => Carried::of_square(width, n, Component::Cr),
        },
        SampleOrder::Rgb3 => match i % 3 {
            0 => Carried::of_pixel(width, i / 3, Component::R),
            1 => Carried::of_pixel(width, i / 3, Component::G),
            _ => Carried::of_pixel(width, i / 3, Component::B),
        },
    }
}

/// The number of the pixel at (`x`, `y`), counted along the lines.
#[tactic(auto, using(crate::proofs::FmtLemmas::area_most, std::proofs::lemmas::Nat::rows))]
pub fn pixel_number(f: &Fmt, x: u32, y: u32) -> u32
    requires adjusted { IsAdjusted f.now }
    requires across { x < f.now.width }
    requires down { y < f.now.height }
    ensures value { result ≡ pixel_number f.now.width x y }
    ensures within { result < f.now.width * f.now.height }
{
    y * f.width + x
}

/// The number of the pair of pixels in which (`x`, `y`) lies.
#[tactic(auto, using(crate::proofs::FmtLemmas::area_most, std::proofs::lemmas::Nat::rows, crate::proofs::CarriedLemmas::pair_area))]
pub fn pair_number(f: &Fmt, x: u32, y: u32) -> u32
    requires adjusted { IsAdjusted f.now }
    requires across { x < f.now.width }
    requires down { y < f.now.height }
    ensures value { result ≡ pair_number f.now.width x y }
    ensures within { 2 * result + 1 < f.now.width * f.now.height }
{
    y * (f.width / 2) + x / 2
}

/// The number of the square of two by two pixels in which (`x`, `y`) lies.
#[tactic(auto, using(crate::proofs::FmtLemmas::area_most, std::proofs::lemmas::Nat::rows, crate::proofs::CarriedLemmas::square_area))]
pub fn square_number(f: &Fmt, x: u32, y: u32) -> u32
    requires adjusted { IsAdjusted f.now }
    requires across { x < f.now.width }
    requires down { y < f.now.height }
    ensures value { result ≡ square_number f.now.width x y }
    ensures within { 4 * result + 3 < f.now.width * f.now.height }
{
    y / 2 * (f.width / 2) + x / 2
}
