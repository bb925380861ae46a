//! An opening that is under way.

use go_values::QName;
use indexmap::IndexSet;
use interface_nodes::Held;
use interface_opener::{Found, Task};
use type_terms::{NodeId, Term};

/// What is known, what is still to be done, of which the last is done first, and the defined types whose interfaces are
/// open.
#[derive(Debug, Drop)]
pub(crate) struct Run {
    pub(crate) found: Found,
    pub(crate) tasks: Vec<Task>,
    pub(crate) entered: IndexSet<QName>,
}

/// An interface that is to be opened: its type, the name of that where it is a defined one, and what it holds.
#[derive(Debug, Drop)]
pub(crate) struct Met {
    pub(crate) ty: NodeId,
    pub(crate) name: Option<QName>,
    pub(crate) held: Held,
}

/// A term that is looked at, which may be one of several of its holder.
#[derive(Clone, Copy, Debug)]
pub(crate) struct Part {
    pub(crate) holder: NodeId,
    pub(crate) several: bool,
    pub(crate) term: Term,
}
