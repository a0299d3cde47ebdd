// Laws of the definitions, each of which its contract states.

ghost use Rattle.std.specs.Prelude.{◌≡◌, ◌<◌, ◌^◌, Bool, ℕ, Ok, List, length};
ghost use Rattle.v4l_const.specs.declared.four_cc.FourCc.{FourCc};
ghost use Rattle.v4l_const.specs.declared.ioctl_code.IoctlCode.{IoctlCode};
ghost use Rattle.v4l_layout.specs.Records.{fmtdesc_bytes, format_bytes, input_bytes, request_bytes, buffer_bytes, subscription_bytes};
ghost use Rattle.vm_frame.specs.declared.mem.Held.{Held};
ghost use Rattle.vm_wire.specs.Buffers.{reqbufs_request, querybuf_request, qbuf_request, subscription_request, IsQueuedBuffer};
ghost use Rattle.vm_wire.specs.declared.buffers.QueuedBuffer.{QueuedBuffer};
ghost use Rattle.vm_wire.specs.Payload.{HasItsLength};
ghost use Rattle.vm_wire.specs.Records.{fmt_desc_request, format_request, format_type_request, input_request};
ghost use Rattle.vm_wire.specs.Wire.{le};
ghost use Rattle.vm_session.specs.State.{SessionState};
ghost use Rattle.vm_session.specs.Rows.{IoctlAnswer, ioctl_row, ioctl_outcome, enumfmt_row, gfmt_row, tryfmt_row, sfmt_row, enuminput_row, sinput_row, reqbufs_row, querybuf_row, qbuf_row, streamon_row, streamoff_row, subscribe_row, unsubscribe_row};

/// Each call does what its request asks for: what it reads from the bytes of the request are the
/// request's words. QUERYCAP and G_INPUT have no words.
pub fn requests_are_read()
    ensures enumfmt { (s : SessionState) (t i : ℕ) (held : List Held) → t < 2 ^ 32 → i < 2 ^ 32 →
        ioctl_row s IoctlCode.EnumFmt (fmtdesc_bytes (fmt_desc_request t i)) held ≡
        enumfmt_row s t i }
    ensures gfmt { (s : SessionState) (t : ℕ) (held : List Held) → t < 2 ^ 32 →
        ioctl_row s IoctlCode.GFmt (format_bytes (format_type_request t)) held ≡ gfmt_row s t }
    ensures tryfmt { (s : SessionState) (t : ℕ) (f : FourCc) (w h : ℕ) (held : List Held) →
        t < 2 ^ 32 → f.0 < 2 ^ 32 → w < 2 ^ 32 → h < 2 ^ 32 →
        ioctl_row s IoctlCode.TryFmt (format_bytes (format_request t f w h)) held ≡
        tryfmt_row s t f w h }
    ensures sfmt { (s : SessionState) (t : ℕ) (f : FourCc) (w h : ℕ) (held : List Held) →
        t < 2 ^ 32 → f.0 < 2 ^ 32 → w < 2 ^ 32 → h < 2 ^ 32 →
        ioctl_row s IoctlCode.SFmt (format_bytes (format_request t f w h)) held ≡
        sfmt_row s t f w h }
    ensures enuminput { (s : SessionState) (i : ℕ) (held : List Held) → i < 2 ^ 32 →
        ioctl_row s IoctlCode.EnumInput (input_bytes (input_request i)) held ≡ enuminput_row s i }
    ensures sinput { (s : SessionState) (i : ℕ) (held : List Held) → i < 2 ^ 32 →
        ioctl_row s IoctlCode.SInput (le i) held ≡ sinput_row s i }
    ensures reqbufs { (s : SessionState) (t m n : ℕ) (held : List Held) → t < 2 ^ 32 → m < 2 ^ 32 →
        n < 2 ^ 32 →
        ioctl_row s IoctlCode.ReqBufs (request_bytes (reqbufs_request t m n)) held ≡
        reqbufs_row s t m n }
    ensures querybuf { (s : SessionState) (t i : ℕ) (held : List Held) → t < 2 ^ 32 → i < 2 ^ 32 →
        ioctl_row s IoctlCode.QueryBuf (buffer_bytes (querybuf_request t i)) held ≡
        querybuf_row s t i }
    ensures qbuf { (s : SessionState) (b : QueuedBuffer) (held : List Held) → IsQueuedBuffer b →
        ioctl_row s IoctlCode.QBuf (buffer_bytes (qbuf_request s.model b)) held ≡
        qbuf_row s (qbuf_request s.model b) held }
    ensures streamon { (s : SessionState) (t : ℕ) (held : List Held) → t < 2 ^ 32 →
        ioctl_row s IoctlCode.StreamOn (le t) held ≡ streamon_row s t }
    ensures streamoff { (s : SessionState) (t : ℕ) (held : List Held) → t < 2 ^ 32 →
        ioctl_row s IoctlCode.StreamOff (le t) held ≡ streamoff_row s t }
    ensures subscribe { (s : SessionState) (e : ℕ) (held : List Held) → e < 2 ^ 32 →
        ioctl_row s IoctlCode.SubscribeEvent (subscription_bytes (subscription_request e)) held ≡
        subscribe_row s e }
    ensures unsubscribe { (s : SessionState) (e : ℕ) (held : List Held) → e < 2 ^ 32 →
        ioctl_row s IoctlCode.UnsubscribeEvent (subscription_bytes (subscription_request e)) held ≡
        unsubscribe_row s e }
{}

/// The answer to a call has as many bytes as its request.
pub fn answers_have_the_size_of_requests()
    ensures { (memory : Bool) (s : SessionState) (code : IoctlCode) (payload : List ℕ)
        (held : List Held) (a : IoctlAnswer) →
        HasItsLength code payload → ioctl_outcome memory s code payload held ≡ Ok a →
        length a.payload ≡ length payload }
{}
