ghost use Rattle.std.specs.Prelude.{◌≡◌, ◌↔◌, ◌≤◌, length, map, option_map, slice_get, IsNone};
ghost use Rattle.v4l_format.specs.Fmt.{order_of};
ghost use Rattle.v4l_format.specs.FormatRow.{single_planar, row_in, row_of};

use crate::codes::{GREY, NV12, RGB3, UYVY, YU12, YUYV};
use crate::fmt::Fmt;
use crate::format_row::FormatRow;
use crate::sample_order::SampleOrder;
use v4l_const::FourCc;

/// The format that stands for an unknown code.
const FIRST: FormatRow = FormatRow {
    code: GREY,
    order: SampleOrder::Grey,
};

/// The formats whose pictures lie in one plane, in order.
static SINGLE_PLANAR: [FormatRow; 6] = [
    FIRST,
    FormatRow {
        code: YUYV,
        order: SampleOrder::Yuyv,
    },
    FormatRow {
        code: UYVY,
        order: SampleOrder::Uyvy,
    },
    FormatRow {
        code: NV12,
        order: SampleOrder::Nv12,
    },
    FormatRow {
        code: YU12,
        order: SampleOrder::Yu12,
    },
    FormatRow {
        code: RGB3,
        order: SampleOrder::Rgb3,
    },
];

/// The table of formats.
fn rows() -> &'static [FormatRow]
    ensures { result.now ≡ single_planar }
{
    &SINGLE_PLANAR
}

/// The row of a code, that of GREY where no row has it.
fn find_row(rows: &[FormatRow], code: FourCc) -> FormatRow
    ensures { result ≡ row_in rows.now code }
{
    for row in rows {
        if row.code.0 == code.0 {
            return *row;
        }
    }
    FIRST
}

/// The row of a code among the formats that a device with single planes has.
pub fn single_planar_row(code: FourCc) -> FormatRow
    ensures { result ≡ row_in single_planar code }
{
    find_row(rows(), code)
}

/// How the samples of a picture of this format lie.
#[tactic(auto, unfolding(crate::specs::FormatRow::row_of))]
pub fn order_of(f: &Fmt) -> SampleOrder
    ensures { result ≡ order_of f.now }
{
    find_row(rows(), f.code).order
}

/// The code of the `i`-th format; none exactly where there are not that many.
pub fn nth_format(i: u32) -> Option<FourCc>
    ensures value { result ≡ option_map (λ row. row.code) (slice_get single_planar i) }
    ensures none { IsNone result ↔ (length single_planar ≤ i) }
{
    rows().get(i as usize).map(|row| row.code)
}
