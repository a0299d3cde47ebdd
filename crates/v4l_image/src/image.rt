ghost use Rattle.std.specs.Prelude.{◌≡◌, ◌<◌, ◌≤◌, ℕ, length, slice_index};
ghost use Rattle.v4l_format.specs.Fmt.{IsFitting};
ghost use Rattle.v4l_format.specs.FormatRow.{single_planar};
ghost use Rattle.v4l_format.specs.SampleOrder.{picture_bytes, pixel_in};
ghost use Rattle.v4l_image.specs.Samples.{order_at, byte_put};

use crate::samples::{order_at, samples_of};
use v4l_format::Triple;
use vm_mem::Store;

/// What a grey pixel has as its colour differences.
const NEUTRAL: u8 = 128;

/// Pictures of the format in place `F` of the table of formats, counted from 0.
pub struct Image<const F: u32>;

impl<const F: u32> Image<F> {
    /// The pixel at (`x`, `y`) of the picture of `w` by `h` pixels in `s`.
    ///
    /// This is the plain slow form. Source: own.
    pub fn sample<S: Store>(s: &S, w: u32, h: u32, x: u32, y: u32) -> Triple
        requires format { F < length single_planar }
        requires width { IsFitting 640 w }
        requires height { IsFitting 480 h }
        requires across { x < w }
        requires down { y < h }
        requires whole { picture_bytes (order_at F) w h ≤ length (S.bytes_of s.now) }
        ensures { result ≡ pixel_in (order_at F) w h (S.bytes_of s.now) x y }
    {
        let samples = samples_of(order_at(F), w, h, x, y);
        let first = s.get(samples.first);
        match samples.others {
            None => Triple(first, NEUTRAL, NEUTRAL),
            Some((second, third)) => Triple(first, s.get(second), s.get(third)),
        }
    }

    /// Sets the samples that carry the pixel at (`x`, `y`) of the picture of `w` by `h` pixels in
    /// `d`, and no other byte. A Cb and a Cr that several pixels share are set with the top left
    /// one of them.
    ///
    /// This is the plain slow form. Source: own.
    pub fn put<D: Store>(d: &mut D, w: u32, h: u32, x: u32, y: u32, t: Triple)
        requires format { F < length single_planar }
        requires width { IsFitting 640 w }
        requires height { IsFitting 480 h }
        requires across { x < w }
        requires down { y < h }
        requires whole { picture_bytes (order_at F) w h ≤ length (D.bytes_of d.old) }
        ensures size { length (D.bytes_of d.new) ≡ length (D.bytes_of d.old) }
        ensures bytes { (i : ℕ) → slice_index (D.bytes_of d.new) i ≡
            byte_put (order_at F) w h (D.bytes_of d.old) x y t i }
        ensures rest { D.rest_of d.new ≡ D.rest_of d.old }
    {
        let samples = samples_of(order_at(F), w, h, x, y);
        d.set(samples.first, t.0);
        if samples.top_left {
            if let Some((second, third)) = samples.others {
                d.set(second, t.1);
                d.set(third, t.2);
            }
        }
    }
}
