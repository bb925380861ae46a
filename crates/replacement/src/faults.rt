use environments::EnvError;
use go_values::QName;

/// Why what stands behind a type isn't told.
#[derive(Debug, Drop, PartialEq, Eq)]
pub enum SetFault {
    /// The environment gives no declaration.
    Env(EnvError),
    /// The alias was met again while it was expanded, or a term holds an alias that mentions itself through the right
    /// sides of aliases alone.
    AliasCycle { q: QName },
    /// The defined type was met while its own interface was opened.
    EmbedCycle { q: QName },
    /// The name has so many type parameters, and as many arguments as this where it is used. A number above 2^32 - 1 is
    /// given as that.
    Arity { q: QName, want: u32, have: u32 },
    /// The name's declaration is of another kind than its use asks for.
    Kind { q: QName },
    /// A term holds an interface that isn't empty.
    TermInterface,
    /// An interface that has methods or is `comparable` is one of several terms.
    UnionMethods,
    /// More distinct interfaces are opened than may be.
    TooMany,
    /// The arena has as many nodes as its limit.
    Nodes,
    OutOfMemory,
}
