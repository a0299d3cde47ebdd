ghost use Rattle.std.specs.Prelude.{◌≡◌, pos, ◌+ℤ◌, ◌-ℤ◌, ◌*ℤ◌};
ghost use Rattle.v4l_format.specs.Triple.{brought, red_of, green_of, blue_of};

/// The red of a Y and a Cr.
pub fn red(y: u8, cr: u8) -> u8
    ensures { result ≡ red_of y cr }
{
    let (c, e) = (i32::from(y) - 16, i32::from(cr) - 128);
    level(298 * c + 409 * e + 128)
}

/// The green of a Y, a Cb and a Cr.
pub fn green(y: u8, cb: u8, cr: u8) -> u8
    ensures { result ≡ green_of y cb cr }
{
    let c = i32::from(y) - 16;
    level(298 * c - taken_from_green(cb, cr) + 128)
}

/// What a Cb and a Cr take from the green.
fn taken_from_green(cb: u8, cr: u8) -> i32
    ensures { result ≡ (pos 100 *ℤ (pos cb -ℤ pos 128) +ℤ pos 208 *ℤ (pos cr -ℤ pos 128)) }
{
    let (d, e) = (i32::from(cb) - 128, i32::from(cr) - 128);
    100 * d + 208 * e
}

/// The blue of a Y and a Cb.
pub fn blue(y: u8, cb: u8) -> u8
    ensures { result ≡ blue_of y cb }
{
    let (c, d) = (i32::from(y) - 16, i32::from(cb) - 128);
    level(298 * c + 516 * d + 128)
}

/// A 256th of a sum of weighted components, rounded down and brought into 0 to 255.
fn level(sum: i32) -> u8
    ensures { result ≡ brought sum }
{
    (sum / 256).clamp(0, 255) as u8
}
