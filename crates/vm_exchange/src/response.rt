//! What the device answers.

ghost use Rattle.std.specs.Prelude.{◌≡◌, ◌<◌};
ghost use Rattle.v4l_layout.specs.Records.{request_bytes, buffer_bytes};
ghost use Rattle.vm_local.specs.State.{queue_of};
ghost use Rattle.vm_wire.specs.Buffers.{reqbufs_answer, querybuf_answer, qbuf_request, qbuf_answer};
ghost use Rattle.vm_wire.specs.Wire.{le};
ghost use Rattle.vm_wire.specs.declared.response.Response.TheVariants.{Answered, Mapped as MappedAt};
ghost use Rattle.vm_exchange.specs.Exchange.{memory_number, buffer_queued, response_to};
ghost use Rattle.vm_exchange.specs.Range.{IsOffered};

use crate::qbuf::{buffer_queued, memory_number};
use vm_local::{Call, Name, Record, Reply};
use vm_wire::{
    Response, buffer_payload, capability_of, capability_payload, fmt_desc_answer, fmtdesc_payload,
    format_answer, format_payload, input_answer, input_payload, number_payload, qbuf_answer,
    qbuf_request, querybuf_answer, reqbufs_answer, reqbufs_payload, subscription_payload,
    subscription_request,
};

/// The device's reply to a call that crosses from a handle of which this is the record, and is
/// answered so. An open that is answered ok gets the session with this id.
///
/// Source: own.
pub fn response_to(session: u32, kept: &Record, call: &Call, reply: &Reply) -> Response
    requires { IsOffered call.now reply.now }
    ensures { result ≡ response_to session kept.now.local call.now reply.now }
{
    match (*call, *reply) {
        (_, Reply::Refused(errno)) => Response::Refused(errno.number()),
        (Call::OpenHandle { .. }, Reply::Done) => Response::Opened { session },
        (Call::QueryCap, Reply::Caps { .. }) => {
            Response::Answered(capability_payload(&capability_of(kept.model())))
        }
        (Call::EnumFmt { t, i }, Reply::Code(code)) => {
            Response::Answered(fmtdesc_payload(&fmt_desc_answer(t, i, code)))
        }
        (
            Call::GFmt { t } | Call::TryFmt { t, .. } | Call::SFmt { t, .. },
            Reply::Format { f, .. },
        ) => Response::Answered(format_payload(&format_answer(t, &f))),
        (Call::EnumInput { .. }, Reply::InputName(i)) => {
            Response::Answered(input_payload(&input_answer(i)))
        }
        (Call::GInput | Call::SInput { .. }, Reply::InputIs(i)) => number_response(i),
        (Call::ReqBufs { t, m, .. }, Reply::Count(count)) => reqbufs_response(kept, t, m, count),
        (Call::QueryBuf { t, i }, Reply::Buf { length, .. }) => querybuf_response(
            kept, t, i, length,
        ),
        (
            Call::QBuf {
                t,
                i,
                user,
                used,
                ts,
            },
            Reply::Done,
        ) => { qbuf_response(kept, t, i, &user, used, ts) }
        (Call::StreamOn { t } | Call::StreamOff { t }, Reply::Done) => number_response(t),
        (Call::Mmap { .. }, Reply::Mapped { addr, length }) => mapped(addr, length),
        (Call::Munmap { .. }, Reply::Done) => Response::Unmapped,
        (Call::Subscribe { e } | Call::Unsubscribe { e }, Reply::Done) => {
            Response::Answered(subscription_payload(&subscription_request(e)))
        }
        _ => Response::Closed,
    }
}

fn number_response(n: u32) -> Response
    ensures { result ≡ Answered (le n) }
{
    Response::Answered(number_payload(n))
}

fn reqbufs_response(kept: &Record, t: u32, memory: u32, count: u32) -> Response
    ensures { result ≡ Answered (request_bytes
        (reqbufs_answer kept.now.local.model t memory count)) }
{
    Response::Answered(reqbufs_payload(&reqbufs_answer(kept.model(), t, memory, count)))
}

fn querybuf_response(kept: &Record, t: u32, i: u32, size: u32) -> Response
    requires { i < 32 }
    ensures { result ≡ Answered (buffer_bytes (querybuf_answer kept.now.local.model t i
        (memory_number (queue_of kept.now.local t).memory) size)) }
{
    let memory = memory_number(kept.memory_kind_of(t));
    Response::Answered(buffer_payload(&querybuf_answer(kept.model(), t, i, memory, size)))
}

fn qbuf_response(kept: &Record, t: u32, i: u32, user: &Option<Name>, used: u32, ts: u32) -> Response
    requires { i < 32 }
    ensures { result ≡ Answered (buffer_bytes (qbuf_answer (qbuf_request kept.now.local.model
        (buffer_queued kept.now.local t i user.now used ts)))) }
{
    let request = qbuf_request(kept.model(), &buffer_queued(kept, t, i, user, used, ts));
    Response::Answered(buffer_payload(&qbuf_answer(&request)))
}

fn mapped(addr: u64, length: u32) -> Response
    ensures { result ≡ MappedAt addr length }
{
    Response::Mapped {
        addr,
        length: u64::from(length),
    }
}
