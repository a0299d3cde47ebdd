ghost use Rattle.std.specs.Prelude.{IfSome};
ghost use Rattle.v4l_format.specs.Fmt.{IsAdjusted};

use super::*;
use std::test::Fail;
use v4l_const::{BUF_TYPE_CAPTURE, BUF_TYPE_OUTPUT, FourCc, Model};
use v4l_format::{Fmt, adjust};

const RGB3: FourCc = FourCc(0x3342_4752);

// The size that a queue takes where it is asked for RGB3, 101 pixels wide and 50 high.
fn size_taken(source: Option<Fmt>, model: Model, t: u32) -> (u32, u32)
    requires { IfSome source IsAdjusted }
{
    let taken = adjust_from(source, model, t, RGB3, 101, 50);
    (taken.width, taken.height)
}

#[test]
fn a_converters_pictures_have_their_sources_size(rt: HostRuntime) -> Result<(), Fail> {
    let source = Some(adjust(RGB3, 320, 240));
    assert_eq!(rt;
        size_taken(None, Model::Capture, BUF_TYPE_CAPTURE),
        (100, 50)
    );
    assert_eq!(rt;
        size_taken(source, Model::Convert, BUF_TYPE_CAPTURE),
        (320, 240)
    );
    assert_eq!(rt;
        size_taken(source, Model::Convert, BUF_TYPE_OUTPUT),
        (100, 50)
    );
    Ok(())
}

#[test]
fn types_have_places(rt: HostRuntime) -> Result<(), Fail> {
    let rows = [
        (Model::Capture, BUF_TYPE_CAPTURE, 0, false),
        (Model::Capture, BUF_TYPE_OUTPUT, 1, false),
        (Model::Convert, BUF_TYPE_OUTPUT, 0, true),
        (Model::Convert, BUF_TYPE_CAPTURE, 1, false),
        (Model::Convert, 3, 2, false),
    ];
    for (model, t, place, reads) in rows {
        assert_eq!(rt; place_in(model.queues(), t), place);
        assert_eq!(rt; is_source(model, t), reads);
    }
    Ok(())
}
