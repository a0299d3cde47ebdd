//! What may stand behind the index of a `qbuf`: `user U`, `used B` and `ts N`, in this order, each
//! optional.

ghost use Rattle.std.specs.Prelude.{◌≡◌, [], ◌∷◌, Ok};
ghost use Rattle.vm_script.specs.Statements.{extras, number_extras, extras_in};

use crate::ScriptKind;
use crate::values::{count_of, name_of, this};
use vm_local::Name;

const USER: &[u8] = b"user";

const USED: &[u8] = b"used";

const TS: &[u8] = b"ts";

/// User memory, the bytes in use and the timestamp in microseconds. Numbers that aren't given are
/// 0.
#[derive(Clone, Copy, Debug)]
pub struct Extras {
    pub user: Option<Name>,
    pub used: u32,
    pub ts: u32,
}

/// Nothing behind the index.
pub fn no_extras() -> Extras
    ensures { Ok result ≡ extras_in extras [] }
{
    Extras {
        user: None,
        used: 0,
        ts: 0,
    }
}

/// `used B` or `ts N`
fn number_extra(key: &[u8], word: &[u8]) -> Result<Extras, ScriptKind>
    ensures { result ≡ extras_in number_extras (key.now ∷ word.now ∷ []) }
{
    match key {
        USED => Ok(Extras {
            used: count_of(word)?,
            ..no_extras()
        }),
        TS => Ok(Extras {
            ts: count_of(word)?,
            ..no_extras()
        }),
        _ => Err(ScriptKind::Word),
    }
}

/// `used B ts N`
fn both_numbers(
    used_key: &[u8],
    used: &[u8],
    ts_key: &[u8],
    ts: &[u8],
) -> Result<Extras, ScriptKind>
    ensures { result ≡ extras_in number_extras
        (used_key.now ∷ used.now ∷ ts_key.now ∷ ts.now ∷ []) }
{
    this(USED, used_key)?;
    let used = count_of(used)?;
    this(TS, ts_key)?;
    Ok(Extras {
        user: None,
        used,
        ts: count_of(ts)?,
    })
}

/// One of the three.
pub fn one_extra(key: &[u8], word: &[u8]) -> Result<Extras, ScriptKind>
    ensures { result ≡ extras_in extras (key.now ∷ word.now ∷ []) }
{
    if key != USER {
        return number_extra(key, word);
    }
    Ok(Extras {
        user: Some(name_of(word)?),
        ..no_extras()
    })
}

/// Two of the three.
pub fn two_extras(
    key: &[u8],
    word: &[u8],
    next_key: &[u8],
    next: &[u8],
) -> Result<Extras, ScriptKind>
    ensures { result ≡ extras_in extras (key.now ∷ word.now ∷ next_key.now ∷ next.now ∷ []) }
{
    if key != USER {
        return both_numbers(key, word, next_key, next);
    }
    let user = Some(name_of(word)?);
    Ok(Extras {
        user,
        ..number_extra(next_key, next)?
    })
}

/// `user U used B ts N`
pub fn all_extras(
    user_key: &[u8],
    user: &[u8],
    used_key: &[u8],
    used: &[u8],
    ts_key: &[u8],
    ts: &[u8],
) -> Result<Extras, ScriptKind>
    ensures { result ≡ extras_in extras
        (user_key.now ∷ user.now ∷ used_key.now ∷ used.now ∷ ts_key.now ∷ ts.now ∷ []) }
{
    this(USER, user_key)?;
    let user = Some(name_of(user)?);
    Ok(Extras {
        user,
        ..both_numbers(used_key, used, ts_key, ts)?
    })
}
