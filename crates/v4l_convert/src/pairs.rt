ghost use Rattle.std.specs.Prelude.{◌≡◌, ◌≤◌, ◌++◌, length, drop};
ghost use Rattle.v4l_format.specs.Fmt.{IsAdjusted, picture_size};
ghost use Rattle.v4l_format.specs.Picture.{converted_picture};

use crate::kernel::kernel;
use v4l_format::{Fmt, SampleOrder, order_of};
use vm_mem::Store;

// The kernel of a format in place `$from` and of the format to which a picture is converted.
macro_rules! to_each {
    ($from:literal, $to:expr, $($argument:expr),+) => {
        match $to {
            SampleOrder::Grey => kernel::<$from, 0, S, D>($($argument),+),
            SampleOrder::Yuyv => kernel::<$from, 1, S, D>($($argument),+),
            SampleOrder::Uyvy => kernel::<$from, 2, S, D>($($argument),+),
            SampleOrder::Nv12 => kernel::<$from, 3, S, D>($($argument),+),
            SampleOrder::Yu12 => kernel::<$from, 4, S, D>($($argument),+),
            SampleOrder::Rgb3 => kernel::<$from, 5, S, D>($($argument),+),
        }
    };
}

/// Sets the picture in `dst` to that in `src`, converted to another format of the same size. What
/// `dst` has behind the picture stays. Source: own.
pub fn convert<S: Store, D: Store>(src_fmt: &Fmt, src: &S, dst_fmt: &Fmt, dst: &mut D)
    requires source_adjusted { IsAdjusted src_fmt.now }
    requires adjusted { IsAdjusted dst_fmt.now }
    requires same_width { src_fmt.now.width ≡ dst_fmt.now.width }
    requires same_height { src_fmt.now.height ≡ dst_fmt.now.height }
    requires whole { picture_size src_fmt.now ≤ length (S.bytes_of src.now) }
    requires room { picture_size dst_fmt.now ≤ length (D.bytes_of dst.old) }
    ensures bytes { D.bytes_of dst.new ≡ converted_picture src_fmt.now
        (S.bytes_of src.now) dst_fmt.now ++ drop (picture_size dst_fmt.now) (D.bytes_of dst.old) }
    ensures size { length (D.bytes_of dst.new) ≡ length (D.bytes_of dst.old) }
    ensures rest { D.rest_of dst.new ≡ D.rest_of dst.old }
{
    let to = order_of(dst_fmt);
    match order_of(src_fmt) {
        SampleOrder::Grey => to_each!(0, to, src_fmt, src, dst_fmt, dst),
        SampleOrder::Yuyv => to_each!(1, to, src_fmt, src, dst_fmt, dst),
        SampleOrder::Uyvy => to_each!(2, to, src_fmt, src, dst_fmt, dst),
        SampleOrder::Nv12 => to_each!(3, to, src_fmt, src, dst_fmt, dst),
        SampleOrder::Yu12 => to_each!(4, to, src_fmt, src, dst_fmt, dst),
        SampleOrder::Rgb3 => to_each!(5, to, src_fmt, src, dst_fmt, dst),
    }
}
