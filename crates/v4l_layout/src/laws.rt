// Laws of the definitions.

ghost use Rattle.std.specs.Prelude.{◌≡◌, ◌++◌, ℕ, List, length};
ghost use Rattle.v4l_layout.specs.Layout.{HasOneReading, IsLaid, ReadsAs, layout_bytes};
ghost use Rattle.v4l_layout.specs.Records.{capability_fields, fmtdesc_fields, format_fields, request_fields, buffer_fields, plane_fields, event_fields, subscription_fields, input_fields};
ghost use Rattle.v4l_layout.specs.declared.field.Field.{Field};

/// A law of every record whose fields are laid: its bytes are as many as its size says, and they
/// read back.
pub fn laid_out_reads_back()
    ensures size { (size : ℕ) (fields : List Field) → IsLaid size 0 fields →
        length (layout_bytes size fields) ≡ size }
    ensures reads { (size : ℕ) (fields : List Field) (behind : List ℕ) → IsLaid size 0 fields →
        ReadsAs (layout_bytes size fields ++ behind) fields }
{}

/// A law: bytes read as at most one record of each kind. So a reader gives back just what a writer
/// wrote.
#[tactic(auto, unfolding(crate::specs::Records::capability_fields, crate::specs::Records::fmtdesc_fields, crate::specs::Records::format_fields, crate::specs::Records::request_fields, crate::specs::Records::buffer_fields, crate::specs::Records::plane_fields, crate::specs::Records::event_fields, crate::specs::Records::subscription_fields, crate::specs::Records::input_fields))]
pub fn at_most_one_reading()
    ensures capability { HasOneReading capability_fields }
    ensures fmtdesc { HasOneReading fmtdesc_fields }
    ensures format { HasOneReading format_fields }
    ensures request { HasOneReading request_fields }
    ensures buffer { HasOneReading buffer_fields }
    ensures plane { HasOneReading plane_fields }
    ensures event { HasOneReading event_fields }
    ensures subscription { HasOneReading subscription_fields }
    ensures input { HasOneReading input_fields }
{}
