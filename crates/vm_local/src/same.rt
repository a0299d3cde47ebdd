ghost use Rattle.std.specs.Prelude.{◌≡◌};
ghost use Rattle.vm_local.specs.declared.reply.Reply.TheVariants.{Bytes, Mapped};
ghost use Rattle.vm_local.specs.Same.{same_reply, address_in};
ghost use Rattle.vm_local.specs.Record.{is_refusal};

use crate::reply::Reply;

/// What a reply is.
impl Reply {
    /// Whether the two are the same.
    #[tactic(auto, using(crate::proofs::SameLemmas::derived_same))]
    pub fn is(&self, other: &Reply) -> bool
        ensures { result ≡ same_reply self.now other.now }
    {
        self == other
    }

    /// Whether it is these bytes, of which there may be more than a reply can have.
    pub fn is_bytes(&self, bytes: &[u8]) -> bool
        ensures { result ≡ same_reply (Bytes bytes.now) self.now }
    {
        match self {
            Reply::Bytes(other) => bytes == other.as_bytes(),
            _ => false,
        }
    }

    /// Whether the call was refused.
    pub fn is_refusal(&self) -> bool
        ensures { result ≡ is_refusal self.now }
    {
        matches!(self, Reply::Refused(_))
    }

    /// The address of a mapping, 0 where it is none.
    pub fn address(&self) -> u64
        ensures { result ≡ address_in self.now }
    {
        match self {
            Reply::Mapped { addr, .. } => *addr,
            _ => 0,
        }
    }
}
