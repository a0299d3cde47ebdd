ghost use Rattle.std.specs.Prelude.{◌≡◌};
ghost use Rattle.std.specs.Option.{option_map};
ghost use Rattle.vm_log.specs.LegalLog.{lease_in, is_lent_to};

use vm_lease::LeaseOut;

/// Which of a handle's memories is out with a call or a lease.
///
/// Source: own.
#[derive(Drop)]
pub enum Away {
    /// None is.
    Nothing,
    /// That with this number is on its way to the device, with a call that isn't answered.
    Sent(u64),
    /// That of a line is, while the line's work is done on it.
    Lent(LeaseOut),
}

/// The lease that is out.
pub(crate) fn lease_in(away: &Away) -> Option<&LeaseOut>
    ensures { option_map (λ entry. entry.now) result ≡ lease_in away.now }
{
    match away {
        Away::Lent(entry) => Some(entry),
        Away::Nothing | Away::Sent(_) => None,
    }
}

/// Whether the lease of this line is out.
pub(crate) fn is_lent_to(away: &Away, line: u32) -> bool
    ensures { result ≡ is_lent_to away.now line }
{
    match away {
        Away::Lent(entry) => entry.line == line,
        Away::Nothing | Away::Sent(_) => false,
    }
}
