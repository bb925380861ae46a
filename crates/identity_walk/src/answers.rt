use replacement::SetFault;

/// What comes of comparing types.
#[derive(Clone, Copy, Debug, PartialEq, Eq)]
pub enum Verdict {
    /// The types are identical.
    Same,
    /// They aren't, down to this depth.
    Differ { depth: u32 },
}

/// Why a comparison has no verdict.
#[derive(Debug, Drop, PartialEq, Eq)]
pub enum IdFault {
    /// What stands behind a type isn't told.
    Set(SetFault),
    /// The comparison comes to so many pairs, one more than may be compared.
    TooMany { pairs: u32 },
    OutOfMemory,
}
