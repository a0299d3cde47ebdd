/// The kinds of steps, in the order in which what may come next is listed.
#[derive(Clone, Copy, Debug, PartialEq, Eq)]
pub enum Kind {
    Issue,
    Execute,
    Resume,
    Begin,
    Finish,
    Announce,
    Collect,
    Pump,
    Lease,
    GiveBack,
}

/// All of them.
pub const KINDS: [Kind; 10] = [
    Kind::Issue,
    Kind::Execute,
    Kind::Resume,
    Kind::Begin,
    Kind::Finish,
    Kind::Announce,
    Kind::Collect,
    Kind::Pump,
    Kind::Lease,
    Kind::GiveBack,
];
