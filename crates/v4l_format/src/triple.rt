use crate::colours::Colours;
use crate::component::Component;
use crate::levels::{blue, green, red};

/// A pixel: its Y, Cb and Cr, or its red, green and blue.
#[derive(Clone, Copy, Debug, PartialEq, Eq)]
pub struct Triple(pub u8, pub u8, pub u8);

impl Triple {
    ghost use Rattle.std.specs.Prelude.{◌≡◌};
    ghost use Rattle.v4l_format.specs.Triple.{component_of, ycbcr_of, rgb_of, turned};

    /// One of the pixel's components, which is given in these colours.
    pub fn component(self, component: Component) -> u8
        ensures { result ≡ component_of self component }
    {
        match component {
            Component::Y | Component::R => self.0,
            Component::Cb | Component::G => self.1,
            Component::Cr | Component::B => self.2,
        }
    }

    /// The pixel turned from the one colours into the other.
    pub fn turned(self, from: Colours, to: Colours) -> Triple
        ensures { result ≡ turned from to self }
    {
        match (from, to) {
            (Colours::Ycbcr, Colours::Rgb) => self.to_rgb(),
            (Colours::Rgb, Colours::Ycbcr) => self.to_ycbcr(),
            (Colours::Ycbcr, Colours::Ycbcr) | (Colours::Rgb, Colours::Rgb) => self,
        }
    }

    /// Y, Cb and Cr of a pixel given in red, green and blue. Own, after BT.601.
    fn to_ycbcr(self) -> Triple
        ensures { result ≡ ycbcr_of self }
    {
        let (r, g, b) = (u32::from(self.0), u32::from(self.1), u32::from(self.2));
        let luma = (66 * r + 129 * g + 25 * b + 128) / 256 + 16;
        let blue = (32896 + 112 * b - 38 * r - 74 * g) / 256;
        let red = (32896 + 112 * r - 94 * g - 18 * b) / 256;
        Triple(luma as u8, blue as u8, red as u8)
    }

    /// Red, green and blue of a pixel given in Y, Cb and Cr. Own, after BT.601.
    fn to_rgb(self) -> Triple
        ensures { result ≡ rgb_of self }
    {
        Triple(
            red(self.0, self.2),
            green(self.0, self.1, self.2),
            blue(self.0, self.1),
        )
    }
}
