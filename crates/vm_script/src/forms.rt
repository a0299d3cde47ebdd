//! The call that each verb makes of the words behind the handle's name.

ghost use Rattle.std.specs.Prelude.{◌≡◌, [], ◌∷◌};
ghost use Rattle.vm_script.specs.declared.verb.Verb.TheVariants.{Open, EnumFmt, GFmt, TryFmt, SFmt, EnumInput, SInput, ReqBufs, QueryBuf, UAlloc, StreamOn, StreamOff, DqBuf, Mmap, Munmap, Read, Hash, Write, Fill, Subscribe, Unsubscribe};
ghost use Rattle.vm_script.specs.Statements.{call_in, queued_in};

use crate::ScriptKind;
use crate::extras::Extras;
use crate::values::{
    between_of, bytes_of, code_of, count_of, memory_kind_of, name_of, this, type_of,
};
use v4l_const::FourCc;
use vm_local::{Call, SMALL_LIMIT};

/// How many bytes one `read` gives at most.
const READ_LIMIT: u32 = SMALL_LIMIT as u32;

/// `open H nonblock`
pub fn open_nonblock(key: &[u8]) -> Result<Call, ScriptKind>
    ensures { result ≡ call_in Open (key.now ∷ []) }
{
    this(b"nonblock", key)?;
    Ok(Call::OpenHandle { nonblock: true })
}

/// `enumfmt H T I`
pub fn enum_fmt(t: &[u8], i: &[u8]) -> Result<Call, ScriptKind>
    ensures { result ≡ call_in EnumFmt (t.now ∷ i.now ∷ []) }
{
    Ok(Call::EnumFmt {
        t: type_of(t)?,
        i: count_of(i)?,
    })
}

/// `gfmt H T`
pub fn g_fmt(t: &[u8]) -> Result<Call, ScriptKind>
    ensures { result ≡ call_in GFmt (t.now ∷ []) }
{
    Ok(Call::GFmt { t: type_of(t)? })
}

/// `tryfmt H T F W N`
pub fn try_fmt(t: &[u8], f: &[u8], width: &[u8], height: &[u8]) -> Result<Call, ScriptKind>
    ensures { result ≡ call_in TryFmt (t.now ∷ f.now ∷ width.now ∷ height.now ∷ []) }
{
    Ok(Call::TryFmt {
        t: type_of(t)?,
        f: FourCc(code_of(f)?),
        w: count_of(width)?,
        h: count_of(height)?,
    })
}

/// `sfmt H T F W N`
pub fn s_fmt(t: &[u8], f: &[u8], width: &[u8], height: &[u8]) -> Result<Call, ScriptKind>
    ensures { result ≡ call_in SFmt (t.now ∷ f.now ∷ width.now ∷ height.now ∷ []) }
{
    Ok(Call::SFmt {
        t: type_of(t)?,
        f: FourCc(code_of(f)?),
        w: count_of(width)?,
        h: count_of(height)?,
    })
}

/// `enuminput H I`
pub fn enum_input(i: &[u8]) -> Result<Call, ScriptKind>
    ensures { result ≡ call_in EnumInput (i.now ∷ []) }
{
    Ok(Call::EnumInput { i: count_of(i)? })
}

/// `sinput H I`
pub fn s_input(i: &[u8]) -> Result<Call, ScriptKind>
    ensures { result ≡ call_in SInput (i.now ∷ []) }
{
    Ok(Call::SInput { i: count_of(i)? })
}

/// `reqbufs H T K C`
pub fn req_bufs(t: &[u8], kind: &[u8], count: &[u8]) -> Result<Call, ScriptKind>
    ensures { result ≡ call_in ReqBufs (t.now ∷ kind.now ∷ count.now ∷ []) }
{
    Ok(Call::ReqBufs {
        t: type_of(t)?,
        m: memory_kind_of(kind)?,
        n: count_of(count)?,
    })
}

/// `querybuf H T I`
pub fn query_buf(t: &[u8], i: &[u8]) -> Result<Call, ScriptKind>
    ensures { result ≡ call_in QueryBuf (t.now ∷ i.now ∷ []) }
{
    Ok(Call::QueryBuf {
        t: type_of(t)?,
        i: count_of(i)?,
    })
}

/// `ualloc H U LEN OFF`
pub fn u_alloc(u: &[u8], len: &[u8], off: &[u8]) -> Result<Call, ScriptKind>
    ensures { result ≡ call_in UAlloc (u.now ∷ len.now ∷ off.now ∷ []) }
{
    Ok(Call::UAlloc {
        u: name_of(u)?,
        len: count_of(len)?,
        off: count_of(off)?,
    })
}

/// `qbuf H T I`, and what stands behind the index
pub fn q_buf(t: &[u8], i: &[u8], extras: Result<Extras, ScriptKind>) -> Result<Call, ScriptKind>
    ensures { result ≡ queued_in t.now i.now extras }
{
    let t = type_of(t)?;
    let i = count_of(i)?;
    let Extras { user, used, ts } = extras?;
    Ok(Call::QBuf {
        t,
        i,
        user,
        used,
        ts,
    })
}

/// `streamon H T`
pub fn stream_on(t: &[u8]) -> Result<Call, ScriptKind>
    ensures { result ≡ call_in StreamOn (t.now ∷ []) }
{
    Ok(Call::StreamOn { t: type_of(t)? })
}

/// `streamoff H T`
pub fn stream_off(t: &[u8]) -> Result<Call, ScriptKind>
    ensures { result ≡ call_in StreamOff (t.now ∷ []) }
{
    Ok(Call::StreamOff { t: type_of(t)? })
}

/// `dqbuf H T`
pub fn dq_buf(t: &[u8]) -> Result<Call, ScriptKind>
    ensures { result ≡ call_in DqBuf (t.now ∷ []) }
{
    Ok(Call::DqBuf { t: type_of(t)? })
}

/// `mmap H M T I`
pub fn mmap(m: &[u8], t: &[u8], i: &[u8]) -> Result<Call, ScriptKind>
    ensures { result ≡ call_in Mmap (m.now ∷ t.now ∷ i.now ∷ []) }
{
    Ok(Call::Mmap {
        m: name_of(m)?,
        t: type_of(t)?,
        i: count_of(i)?,
        ro: false,
    })
}

/// `mmap H M T I ro`
pub fn mmap_ro(m: &[u8], t: &[u8], i: &[u8], key: &[u8]) -> Result<Call, ScriptKind>
    ensures { result ≡ call_in Mmap (m.now ∷ t.now ∷ i.now ∷ key.now ∷ []) }
{
    let m = name_of(m)?;
    let t = type_of(t)?;
    let i = count_of(i)?;
    this(b"ro", key)?;
    Ok(Call::Mmap { m, t, i, ro: true })
}

/// `munmap H M`
pub fn munmap(m: &[u8]) -> Result<Call, ScriptKind>
    ensures { result ≡ call_in Munmap (m.now ∷ []) }
{
    Ok(Call::Munmap { m: name_of(m)? })
}

/// `read H M OFF LEN`
pub fn read(m: &[u8], off: &[u8], len: &[u8]) -> Result<Call, ScriptKind>
    ensures { result ≡ call_in Read (m.now ∷ off.now ∷ len.now ∷ []) }
{
    Ok(Call::Peek {
        m: name_of(m)?,
        off: count_of(off)?,
        len: between_of(len, 1, READ_LIMIT)?,
    })
}

/// `hash H M`
pub fn hash(m: &[u8]) -> Result<Call, ScriptKind>
    ensures { result ≡ call_in Hash (m.now ∷ []) }
{
    Ok(Call::Hash { m: name_of(m)? })
}

/// `write H M OFF HEX`
pub fn write(m: &[u8], off: &[u8], bytes: &[u8]) -> Result<Call, ScriptKind>
    ensures { result ≡ call_in Write (m.now ∷ off.now ∷ bytes.now ∷ []) }
{
    Ok(Call::Poke {
        m: name_of(m)?,
        off: count_of(off)?,
        bytes: bytes_of(bytes)?,
    })
}

/// `fill H M SEED`
pub fn fill(m: &[u8], seed: &[u8]) -> Result<Call, ScriptKind>
    ensures { result ≡ call_in Fill (m.now ∷ seed.now ∷ []) }
{
    Ok(Call::Fill {
        m: name_of(m)?,
        seed: between_of(seed, 0, u32::from(u8::MAX))? as u8,
    })
}

/// `subscribe H E`
pub fn subscribe(e: &[u8]) -> Result<Call, ScriptKind>
    ensures { result ≡ call_in Subscribe (e.now ∷ []) }
{
    Ok(Call::Subscribe { e: count_of(e)? })
}

/// `unsubscribe H E`
pub fn unsubscribe(e: &[u8]) -> Result<Call, ScriptKind>
    ensures { result ≡ call_in Unsubscribe (e.now ∷ []) }
{
    Ok(Call::Unsubscribe { e: count_of(e)? })
}
