ghost use Rattle.std.specs.Prelude.{◌≡◌, ◌<◌, ◌^◌, length, slice_index_or};
ghost use Rattle.v4l_format.specs.Pattern.{patterns, bars, pixel_of, pattern_at, grey_of};

use crate::pattern::Pattern;
use crate::triple::Triple;

/// The brightest grey that a pattern shows.
const WHITE: Triple = Triple(235, 128, 128);
/// The darkest grey that a pattern shows.
const BLACK: Triple = Triple(16, 128, 128);

/// The pattern of each input.
static PATTERNS: [Pattern; 4] = [
    Pattern::Bars,
    Pattern::Ramp,
    Pattern::Checker,
    Pattern::Count,
];

/// The bars from the left.
static BARS: [Triple; 8] = [
    WHITE,
    Triple(210, 16, 146),
    Triple(169, 166, 16),
    Triple(144, 54, 34),
    Triple(107, 202, 222),
    Triple(82, 90, 240),
    Triple(41, 240, 110),
    BLACK,
];

/// The pixel at (`x`, `y`) of an input's frame `seq`, in a picture of this width.
pub fn pattern_at(input: u32, seq: u32, width: u32, x: u32, y: u32) -> Triple
    requires input { input < length patterns }
    requires wide { width < 2 ^ 16 }
    requires across { x < width }
    requires down { y < 2 ^ 16 }
    ensures { result ≡ pattern_at input seq width x y }
{
    match PATTERNS[input as usize] {
        Pattern::Bars => bar(8 * x / width),
        Pattern::Ramp => grey((u64::from(x + y) + u64::from(seq)) % 256),
        Pattern::Checker => if (u64::from(x / 8 + y / 8) + u64::from(seq)) % 2 == 0 {
            WHITE
        } else {
            BLACK
        },
        Pattern::Count => grey(u64::from(seq) % 256),
    }
}

/// The bar in this place from the left.
#[tactic(auto, using(std::proofs::lemmas::List::get_or_default))]
fn bar(place: u32) -> Triple
    requires { place < length bars }
    ensures { result ≡ slice_index_or bars place (grey_of 16) }
{
    BARS[place as usize]
}

/// A pixel without colour.
fn grey(luma: u64) -> Triple
    requires { luma < 256 }
    ensures { result ≡ grey_of luma }
{
    Triple(luma as u8, 128, 128)
}
