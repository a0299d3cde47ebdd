//! The pictures of frames, byte by byte.
ghost use Rattle.std.specs.Prelude.{◌≡◌, ◌<◌, ◌≤◌, length, Some, IfOk};
ghost use Rattle.std.specs.Vec.{vec_len};
ghost use Rattle.v4l_const.specs.Model.{source_queue};
ghost use Rattle.v4l_format.specs.Fmt.{IsAdjusted, picture_size};
ghost use Rattle.v4l_format.specs.Pattern.{patterns};
ghost use Rattle.v4l_format.specs.Picture.{pattern_picture, converted_picture};
ghost use Rattle.vm_local.specs.Steps.{target, next_picture, picture_from};

use crate::bytes::Bytes;
use crate::frames::number_of;
use crate::local::Local;
use std::alloc::Global;
use v4l_format::{Fmt, converted_byte, pattern_byte, sizeimage};
use vm_mem::Memory;

impl Local {
    /// The picture of the next frame.
    pub(crate) fn next_picture(&self) -> Result<Vec<u8>, Memory>
        ensures bytes { IfOk result (λ v. v.items ≡ next_picture self.now) }
        ensures size { IfOk result (λ v. vec_len v ≡ picture_size (target self.now).format) }
        ensures most { IfOk result (λ v. vec_len v ≤ 925696) }
    {
        match self.record.model.source_queue() {
            Some(source) => self.picture_from(source),
            None => {
                let target = self.record.model.picture_queue();
                pattern_picture(
                    self.record.alloc,
                    self.record.input,
                    self.record.next_sequence(target),
                    &self.record.format_of(target),
                )
            }
        }
    }

    /// The picture of the next frame, made from that of a source.
    #[tactic(auto, using(crate::proofs::PaddedPictureLemmas::padded_picture))]
    fn picture_from(&self, source: u32) -> Result<Vec<u8>, Memory>
        requires { source_queue self.now.model ≡ Some source }
        ensures bytes { IfOk result (λ v. v.items ≡ picture_from (Some source) self.now) }
        ensures size { IfOk result (λ v. vec_len v ≡ picture_size (target self.now).format) }
        ensures most { IfOk result (λ v. vec_len v ≤ 925696) }
    {
        let (from, to) = self.record.formats_from(source);
        let bytes = self.bytes_of(number_of(&self.record.head_buffer(source)));
        let whole = Bytes::padded(self.record.alloc, bytes, sizeimage(&from))?;
        converted_picture(self.record.alloc, &from, &whole, &to)
    }
}

/// The picture that an input shows in frame `seq`.
#[tactic(auto, unfolding(v4l_format::specs::Picture::pattern_picture))]
pub fn pattern_picture(alloc: Global, input: u32, seq: u32, f: &Fmt) -> Result<Vec<u8>, Memory>
    requires input { input < length patterns }
    requires adjusted { IsAdjusted f.now }
    ensures bytes { IfOk result (λ v. v.items ≡ pattern_picture input seq f.now) }
    ensures size { IfOk result (λ v. vec_len v ≡ picture_size f.now) }
    ensures most { IfOk result (λ v. vec_len v ≤ 925696) }
{
    let mut picture = Vec::new(alloc);
    for i in 0..sizeimage(f) {
        picture.push(pattern_byte(input, seq, f, i))?;
    }
    Ok(picture)
}

/// The picture in these bytes, converted to another format of the same size.
#[tactic(auto, unfolding(v4l_format::specs::Picture::converted_picture))]
pub fn converted_picture(
    alloc: Global,
    from: &Fmt,
    bytes: &Bytes,
    to: &Fmt,
) -> Result<Vec<u8>, Memory>
    requires from_adjusted { IsAdjusted from.now }
    requires adjusted { IsAdjusted to.now }
    requires same_width { from.now.width ≡ to.now.width }
    requires same_height { from.now.height ≡ to.now.height }
    requires whole { picture_size from.now ≤ length bytes.now }
    ensures bytes { IfOk result (λ v. v.items ≡ converted_picture from.now bytes.now to.now) }
    ensures size { IfOk result (λ v. vec_len v ≡ picture_size to.now) }
    ensures most { IfOk result (λ v. vec_len v ≤ 925696) }
{
    let mut picture = Vec::new(alloc);
    for i in 0..sizeimage(to) {
        picture.push(converted_byte(from, bytes, to, i))?;
    }
    Ok(picture)
}
