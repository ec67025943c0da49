// The commands that are timed.

/// By what answers them.
#[derive(Clone, Copy, Debug, PartialEq, Eq)]
pub enum Kind {
    /// A read of an address that has its block.
    Hit,
    /// A read of an address that isn't listed, of a block that is.
    Join,
    /// A read of an address that isn't listed, of a block that isn't.
    Miss,
    /// A write of a listed block to a listed address.
    Dup,
    /// A write of a block that isn't listed, to an address that isn't listed.
    New,
    /// A line that is no command.
    Bad,
}

pub const KINDS: [Kind; 6] = [
    Kind::Hit,
    Kind::Join,
    Kind::Miss,
    Kind::Dup,
    Kind::New,
    Kind::Bad,
];

impl Kind {
    /// The first word of the reply.
    pub fn name(self) -> &'static str {
        match self {
            Kind::Hit => "hit",
            Kind::Join => "join",
            Kind::Miss => "miss",
            Kind::Dup => "dup",
            Kind::New => "new",
            Kind::Bad => "bad",
        }
    }
}

/// The kind of that name.
pub fn kind_of(name: &str) -> Option<Kind> {
    for kind in KINDS {
        if kind.name() == name {
            return Some(kind);
        }
    }
    None
}
