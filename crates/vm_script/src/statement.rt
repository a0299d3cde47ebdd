//! What a line's words ask.

ghost use Rattle.std.specs.Prelude.{◌≡◌, ◌≤◌, [], ◌∷◌, length, map};
ghost use Rattle.vm_script.specs.declared.verb.Verb.TheVariants.{QBuf};
ghost use Rattle.vm_script.specs.Statements.{on, statement_by, statement_in};

use crate::ScriptKind;
use crate::extras::{all_extras, no_extras, one_extra, two_extras};
use crate::forms::{
    dq_buf, enum_fmt, enum_input, fill, g_fmt, hash, mmap, mmap_ro, munmap, open_nonblock, q_buf,
    query_buf, read, req_bufs, s_fmt, s_input, stream_off, stream_on, subscribe, try_fmt, u_alloc,
    unsubscribe, write,
};
use crate::values::name_of;
use crate::verb::{Verb, verb_of};
use vm_local::{Call, Name};

/// A call on the handle of a name.
#[derive(Clone, Copy, Debug)]
pub struct Statement {
    pub handle: Name,
    pub call: Call,
}

/// A call on the handle of this name, which is judged first.
fn on(handle: &[u8], call: Result<Call, ScriptKind>) -> Result<Statement, ScriptKind>
    ensures { result ≡ on handle.now call }
{
    let handle = name_of(handle)?;
    Ok(Statement {
        handle,
        call: call?,
    })
}

/// The statements of a handle's name alone.
fn alone(verb: Verb, h: &[u8]) -> Result<Statement, ScriptKind>
    ensures { result ≡ statement_by verb (h.now ∷ []) }
{
    match verb {
        Verb::Open => on(h, Ok(Call::OpenHandle { nonblock: false })),
        Verb::Close => on(h, Ok(Call::CloseHandle)),
        Verb::QueryCap => on(h, Ok(Call::QueryCap)),
        Verb::GInput => on(h, Ok(Call::GInput)),
        Verb::DqEvent => on(h, Ok(Call::DqEvent)),
        _ => Err(ScriptKind::Word),
    }
}

/// The statements of a handle's name and one word behind it.
fn with_one(verb: Verb, h: &[u8], a: &[u8]) -> Result<Statement, ScriptKind>
    ensures { result ≡ statement_by verb (h.now ∷ a.now ∷ []) }
{
    match verb {
        Verb::Open => on(h, open_nonblock(a)),
        Verb::GFmt => on(h, g_fmt(a)),
        Verb::EnumInput => on(h, enum_input(a)),
        Verb::SInput => on(h, s_input(a)),
        Verb::StreamOn => on(h, stream_on(a)),
        Verb::StreamOff => on(h, stream_off(a)),
        Verb::DqBuf => on(h, dq_buf(a)),
        Verb::Munmap => on(h, munmap(a)),
        Verb::Hash => on(h, hash(a)),
        Verb::Subscribe => on(h, subscribe(a)),
        Verb::Unsubscribe => on(h, unsubscribe(a)),
        _ => Err(ScriptKind::Word),
    }
}

/// The statements of a handle's name and two words behind it.
#[tactic(auto, using(crate::proofs::FormLemmas::queue_none))]
fn with_two(verb: Verb, h: &[u8], a: &[u8], b: &[u8]) -> Result<Statement, ScriptKind>
    ensures { result ≡ statement_by verb (h.now ∷ a.now ∷ b.now ∷ []) }
{
    match verb {
        Verb::EnumFmt => on(h, enum_fmt(a, b)),
        Verb::QueryBuf => on(h, query_buf(a, b)),
        Verb::QBuf => on(h, q_buf(a, b, Ok(no_extras()))),
        Verb::Fill => on(h, fill(a, b)),
        _ => Err(ScriptKind::Word),
    }
}

/// The statements of a handle's name and three words behind it.
fn with_three(verb: Verb, h: &[u8], a: &[u8], b: &[u8], c: &[u8]) -> Result<Statement, ScriptKind>
    ensures { result ≡ statement_by verb (h.now ∷ a.now ∷ b.now ∷ c.now ∷ []) }
{
    match verb {
        Verb::ReqBufs => on(h, req_bufs(a, b, c)),
        Verb::UAlloc => on(h, u_alloc(a, b, c)),
        Verb::Mmap => on(h, mmap(a, b, c)),
        Verb::Read => on(h, read(a, b, c)),
        Verb::Write => on(h, write(a, b, c)),
        _ => Err(ScriptKind::Word),
    }
}

/// The statements of a handle's name and four words behind it.
#[tactic(auto, using(crate::proofs::FormLemmas::queue_one))]
fn with_four(
    verb: Verb,
    h: &[u8],
    a: &[u8],
    b: &[u8],
    c: &[u8],
    d: &[u8],
) -> Result<Statement, ScriptKind>
    ensures { result ≡ statement_by verb (h.now ∷ a.now ∷ b.now ∷ c.now ∷ d.now ∷ []) }
{
    match verb {
        Verb::TryFmt => on(h, try_fmt(a, b, c, d)),
        Verb::SFmt => on(h, s_fmt(a, b, c, d)),
        Verb::QBuf => on(h, q_buf(a, b, one_extra(c, d))),
        Verb::Mmap => on(h, mmap_ro(a, b, c, d)),
        _ => Err(ScriptKind::Word),
    }
}

/// `qbuf` with two or all of what may stand behind the index.
fn queue_more(words: &[&[u8]]) -> Result<Statement, ScriptKind>
    requires { 6 ≤ length words.now }
    ensures { result ≡ statement_by QBuf (map (λ word. word.now) words.now) }
{
    match words {
        [h, t, i, key, word, next_key, next] => {
            on(h, q_buf(t, i, two_extras(key, word, next_key, next)))
        }
        [h, t, i, user, u, used, b, ts, n] => {
            on(h, q_buf(t, i, all_extras(user, u, used, b, ts, n)))
        }
        _ => Err(ScriptKind::Word),
    }
}

/// The statements of a handle's name and more than four words behind it.
#[tactic(auto, using(crate::proofs::CountLemmas::few_words))]
fn with_more(verb: Verb, words: &[&[u8]]) -> Result<Statement, ScriptKind>
    requires { 6 ≤ length words.now }
    ensures { result ≡ statement_by verb (map (λ word. word.now) words.now) }
{
    match verb {
        Verb::QBuf => queue_more(words),
        _ => Err(ScriptKind::Word),
    }
}

/// What a verb asks with the words behind it.
///
/// # Errors
/// `Word` where no form of the verb has as many words, else what is wrong with the first word that
/// isn't of the forms that are left.
fn statement_by(verb: Verb, words: &[&[u8]]) -> Result<Statement, ScriptKind>
    ensures { result ≡ statement_by verb (map (λ word. word.now) words.now) }
{
    match words {
        [] => Err(ScriptKind::Word),
        [h] => alone(verb, h),
        [h, a] => with_one(verb, h, a),
        [h, a, b] => with_two(verb, h, a, b),
        [h, a, b, c] => with_three(verb, h, a, b, c),
        [h, a, b, c, d] => with_four(verb, h, a, b, c, d),
        _ => with_more(verb, words),
    }
}

/// What the words of a line ask.
///
/// # Errors
/// `Word` for an unknown verb or a wrong number of words, else `Name`, `Number` or `Word` for the
/// first word that isn't of the verb's forms.
pub fn statement_of(words: &[&[u8]]) -> Result<Statement, ScriptKind>
    ensures { result ≡ statement_in (map (λ word. word.now) words.now) }
{
    let (verb, words) = words.split_first().ok_or(ScriptKind::Word)?;
    let verb = verb_of(verb).ok_or(ScriptKind::Word)?;
    statement_by(verb, words)
}
