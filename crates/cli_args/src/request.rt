//! What the words ask for.

/// The height of a tree of one-time keys, which has 2^5 or 2^10 of them.
#[derive(Clone, Copy, Debug)]
pub enum Height {
    Five,
    Ten,
}

impl Height {
    ghost use Rattle.std.specs.Prelude.{◌≡◌};
    ghost use Rattle.cli_args.specs.Shapes.{height_number};

    pub fn number(self) -> u32
        ensures { result ≡ height_number self }
    {
        match self {
            Height::Five => 5,
            Height::Ten => 10,
        }
    }
}

/// How many levels of trees a key has: one tree whose keys sign versions, or one whose keys sign
/// the keys of lower trees of the same height, which sign versions.
#[derive(Clone, Copy, Debug)]
pub enum Levels {
    One,
    Two,
}

impl Levels {
    ghost use Rattle.std.specs.Prelude.{◌≡◌};
    ghost use Rattle.cli_args.specs.Shapes.{levels_number};

    pub fn number(self) -> u32
        ensures { result ≡ levels_number self }
    {
        match self {
            Levels::One => 1,
            Levels::Two => 2,
        }
    }
}

/// What a seed doesn't say of its key, so that the words say it each time.
#[derive(Clone, Copy, Debug)]
pub struct KeyShape {
    pub height: Height,
    pub levels: Levels,
}

/// A command and its words. A file is given by its name, a peer by its address, and a query by its
/// text.
#[derive(Clone, Copy, Debug)]
pub enum Request<'a> {
    /// One that writes once, as it ends.
    Command(Command<'a>),
    /// Two that write as they work.
    Own(Commitment<'a>),
    Serve(Service<'a>),
}

/// The seed of an owner's key, whose journal stands on the disk, the address of a store, and the
/// script of the batches that are to be committed.
#[derive(Clone, Copy, Debug)]
pub struct Commitment<'a> {
    pub seed: &'a str,
    pub address: &'a str,
    pub script: &'a str,
    pub shape: KeyShape,
}

/// The journal that a store loads, and the address where it serves so many connections, one after
/// the other.
#[derive(Clone, Copy, Debug)]
pub struct Service<'a> {
    pub address: &'a str,
    pub key: &'a str,
    pub journal: &'a str,
    pub count: u32,
}

/// What an audit is of, and the seed of the key, by which its owner shows what a signature gives
/// away that it never made.
#[derive(Clone, Copy, Debug)]
pub struct OwnerAudit<'a> {
    pub key: &'a str,
    pub journal: &'a str,
    pub query: &'a str,
    pub reply: &'a str,
    pub seed: &'a str,
    pub shape: KeyShape,
}

/// A command that writes once.
#[derive(Clone, Copy, Debug)]
pub enum Command<'a> {
    Keygen {
        seed: &'a str,
        shape: KeyShape,
    },
    Seal {
        seed: &'a str,
        script: &'a str,
        shape: KeyShape,
    },
    /// The reply of the version `at`, or of the last one.
    Answer {
        key: &'a str,
        journal: &'a str,
        query: &'a str,
        at: Option<u64>,
    },
    /// The client accepts no version below `least`.
    Check {
        key: &'a str,
        query: &'a str,
        reply: &'a str,
        least: u64,
    },
    /// The same of the reply that a store sends, which is to be of the version `at` where one is
    /// given.
    Ask {
        address: &'a str,
        key: &'a str,
        query: &'a str,
        at: Option<u64>,
        least: u64,
    },
    Audit {
        key: &'a str,
        journal: &'a str,
        query: &'a str,
        reply: &'a str,
    },
    Explain(OwnerAudit<'a>),
    /// Two replies to one query, in the order of the words.
    Meet {
        key: &'a str,
        query: &'a str,
        first: &'a str,
        second: &'a str,
    },
    /// The workload of so many steps that a number gives.
    Generate {
        steps: u32,
        number: u64,
    },
}
