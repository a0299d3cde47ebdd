// Laws of the definitions.

ghost use Rattle.std.specs.Prelude.{ℕ, ◌≡◌, ◌≤◌, ◌<◌, ◌^◌, ◌++◌, List, length};
ghost use Rattle.v4l_const.specs.declared.model.Model.{Model};
ghost use Rattle.v4l_layout.specs.Layout.{IsLaid};
ghost use Rattle.v4l_layout.specs.Records.{request_size, request_fields, request_bytes, buffer_size, buffer_fields, buffer_bytes, subscription_size, subscription_fields, subscription_bytes};
ghost use Rattle.v4l_layout.specs.declared.buffer_rec.BufferRec.{BufferRec};
ghost use Rattle.v4l_layout.specs.declared.request_buffers.RequestBuffers.{RequestBuffers};
ghost use Rattle.v4l_layout.specs.declared.subscription.Subscription.{Subscription};
ghost use Rattle.vm_wire.specs.Buffers.{offsets_from, buffer_offset, reqbufs_request, querybuf_request, qbuf_request, IsQueuedBuffer, qbuf_answer, subscription_request, frame_event, frame_of, reqbufs_in, buffer_in, subscription_in};
ghost use Rattle.vm_wire.specs.declared.buffers.QueuedBuffer.{QueuedBuffer};
ghost use Rattle.vm_wire.specs.Event.{event_bytes, event_size, SpellsEvent, IsEvent};
ghost use Rattle.vm_wire.specs.Wire.{command_bytes, reply_size, Spells, IsDecided, response_bytes, IsCommand, MayFollow, Answers, ReadsBack};
ghost use Rattle.vm_wire.specs.declared.command.Command.{Command};
ghost use Rattle.vm_wire.specs.declared.command.TheConstants.{WIRE_ROOM};
ghost use Rattle.vm_wire.specs.declared.event.EventMsg.{EventMsg};
ghost use Rattle.vm_wire.specs.declared.response.Response.{Response};

/// All bytes are one command in a room for its reply, or have one fault there.
pub fn commands_are_decided()
    ensures { (bytes : List ℕ) (room : ℕ) → IsDecided bytes room }
{}

/// What is written goes into the room of its kind: that of a command and its reply, or the size of
/// a message. A command's answer goes into the room of its reply with status 0.
pub fn written_bytes_fit()
    ensures command { (c : Command) → IsCommand c → length (command_bytes c) ≤ WIRE_ROOM }
    ensures room { (c : Command) → IsCommand c → reply_size c ≤ WIRE_ROOM }
    ensures reply { (c : Command) (r : Response) → Answers c r →
        length (response_bytes r) ≤ reply_size c }
    ensures message { (e : EventMsg) → IsEvent e → length (event_bytes e) ≡ event_size e }
{}

/// What is written of a command spells it, in any room for its reply, also with what may stand
/// behind it.
pub fn commands_are_read_again()
    ensures alone { (c : Command) (room : ℕ) → IsCommand c → reply_size c ≤ room →
        Spells (command_bytes c) room c }
    ensures before { (c : Command) (behind : List ℕ) (room : ℕ) → IsCommand c → MayFollow c behind →
        reply_size c ≤ room → Spells (command_bytes c ++ behind) room c }
{}

/// What is written of a command's answer is read as that answer.
pub fn responses_are_read_again()
    ensures { (c : Command) (r : Response) → Answers c r → ReadsBack c r (response_bytes r) }
{}

/// What is written of a message spells it, whatever stands behind it.
pub fn events_are_read_again()
    ensures { (e : EventMsg) (behind : List ℕ) → IsEvent e →
        SpellsEvent (event_bytes e ++ behind) e }
{}

/// A request on buffers or events whose numbers fit into their fields is read as what it asks for.
pub fn buffer_requests_are_read()
    ensures reqbufs { (t memory count : ℕ) → t < 2 ^ 32 → memory < 2 ^ 32 → count < 2 ^ 32 →
        reqbufs_in (request_bytes (reqbufs_request t memory count)) ≡
        reqbufs_request t memory count }
    ensures querybuf { (t i : ℕ) → t < 2 ^ 32 → i < 2 ^ 32 →
        buffer_in (buffer_bytes (querybuf_request t i)) ≡ querybuf_request t i }
    ensures qbuf { (model : Model) (b : QueuedBuffer) → IsQueuedBuffer b →
        buffer_in (buffer_bytes (qbuf_request model b)) ≡ qbuf_request model b }
    ensures subscription { (event : ℕ) → event < 2 ^ 32 →
        subscription_in (subscription_bytes (subscription_request event)) ≡
        subscription_request event }
{}

/// Each record of buffers or events that is laid out is read again, so each answer too. The answer
/// to a QBUF is its request again, and an event's frame is read again.
pub fn buffer_records_are_read_again()
    ensures reqbufs { (r : RequestBuffers) → IsLaid request_size 0 (request_fields r) →
        reqbufs_in (request_bytes r) ≡ r }
    ensures buffer { (r : BufferRec) → IsLaid buffer_size 0 (buffer_fields r) →
        buffer_in (buffer_bytes r) ≡ r }
    ensures subscription { (r : Subscription) → IsLaid subscription_size 0 (subscription_fields r) →
        subscription_in (subscription_bytes r) ≡ r }
    ensures same { (model : Model) (b : QueuedBuffer) →
        qbuf_answer (qbuf_request model b) ≡ qbuf_request model b }
    ensures frame { (frame timestamp : ℕ) → frame < 2 ^ 32 →
        frame_of (frame_event frame timestamp) ≡ frame }
{}

/// Two buffers that are mapped from one offset are one.
pub fn offsets_are_apart()
    ensures { (t u i j : ℕ) → i < 32 → j < 32 → buffer_offset t i ≡ buffer_offset u j →
        (offsets_from t ≡ offsets_from u) × (i ≡ j) }
{}
