/// Where reading stops, told by how many tokens are left.
#[derive(Clone, Copy)]
pub enum Fault {
    /// With the next token the tokens begin no file.
    Unexpected(usize),
    /// With the next token a path of a tree is too long. The outermost type or expression that it is in begins
    /// at this place.
    Deep(usize, u32),
    /// The import of a package's names.
    DotImport(usize),
    /// The next token shows that the parenthesis at this place calls what stands before it.
    Call(usize, u32),
}

/// Why a reader gives no tree.
#[derive(Clone, Copy)]
pub enum Stop {
    OutOfMemory,
    At(Fault),
}
