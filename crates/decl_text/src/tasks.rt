use type_terms::NodeId;

/// What is to be done with a type in a walk.
#[derive(Clone, Copy)]
pub enum Task {
    /// To go through its parts and then to finish it.
    Enter(NodeId),
    /// To finish it, after its parts.
    Finish(NodeId),
}
