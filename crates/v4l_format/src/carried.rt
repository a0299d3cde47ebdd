use crate::component::Component;

/// What one byte of a picture carries: a component of the pixel at (`x`, `y`).
#[derive(Clone, Copy, Debug, PartialEq, Eq)]
pub struct Carried {
    pub x: u32,
    pub y: u32,
    pub component: Component,
}

impl Carried {
    ghost use Rattle.std.specs.Prelude.{◌≡◌, ◌<◌, ◌≤◌, ◌/◌, ◌^◌, ◌*◌};
    ghost use Rattle.v4l_format.specs.SampleOrder.{of_pixel, of_pair, of_square};

    /// A component of the `n`-th pixel.
    pub fn of_pixel(width: u32, n: u32, component: Component) -> Carried
        requires { 0 < width }
        ensures { result ≡ of_pixel width n component }
    {
        Carried {
            x: n % width,
            y: n / width,
            component,
        }
    }

    /// A component of a pixel of the `n`-th pair: of its left, or at 1 of its right one.
    #[tactic(auto, using(std::proofs::lemmas::Nat::mod_below))]
    pub fn of_pair(width: u32, n: u32, right: u32, component: Component) -> Carried
        requires wide { 2 ≤ width }
        requires side { right ≤ 1 }
        ensures { result ≡ of_pair width n right component }
    {
        let pairs = width / 2;
        Carried {
            x: 2 * (n % pairs) + right,
            y: n / pairs,
            component,
        }
    }

    /// A component of the top left pixel of the `n`-th square of two by two pixels.
    #[tactic(auto, using(std::proofs::lemmas::Nat::mod_below, std::proofs::lemmas::Nat::shr_le))]
    pub fn of_square(width: u32, n: u32, component: Component) -> Carried
        requires wide { 2 ≤ width }
        requires few { n < 2 ^ 31 }
        ensures { result ≡ of_square width n component }
    {
        let squares = width / 2;
        Carried {
            x: 2 * (n % squares),
            y: 2 * (n / squares),
            component,
        }
    }
}
