//! What is known of a declaration: what it contains, and what it refers to.

use sqlite_items::Items;

/// What a declaration contains, as far as containment goes.
#[derive(Debug, Drop)]
pub enum Form {
    /// Nothing: a pointer, slice, map, channel, function or interface, or a basic type.
    Stop,
    /// The declaration's own type parameter of this number.
    Held(u32),
    /// The declaration at this place of the list, applied to these arguments.
    Apply(u32, Items<Form>),
    /// Each of these: the fields of a struct, or the element of an array.
    Parts(Items<Form>),
}

/// A declaration.
#[derive(Debug, Drop)]
pub struct DeclShape {
    /// How many type parameters it has.
    pub params: u32,
    pub holds: Form,
    /// The interfaces that it embeds.
    pub embeds: Vec<u32>,
    /// The aliases that it mentions, if it is an alias.
    pub aliases: Vec<u32>,
    /// The types that its type parameter list refers to.
    pub constraints: Vec<u32>,
    /// The constants that its value needs.
    pub values: Vec<u32>,
}
