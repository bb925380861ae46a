//! The values that numbers stand for, in a file of a format version. Version 1 has no generic types.

ghost use Rattle.std.specs.Prelude.{◌≡◌};
ghost use Rattle.code_tables.specs.Basic.{basic_code, basic_values};
ghost use Rattle.code_tables.specs.TypeTag.{type_tag_code, type_tag_values};
ghost use Rattle.code_tables.specs.DeclTag.{decl_tag_code, decl_tag_values};
ghost use Rattle.type_terms.specs.Trees.{predeclared};
ghost use Rattle.decl_spelling.specs.Tables.{basic_tree};
ghost use Rattle.decl_spelling.specs.Codes.{coded, basic_of, type_tag_of, decl_tag_of, dir_of};

use code_tables::{Basic, DeclTag, TypeTag, basics, decl_tags, type_tags};
use type_terms::Dir;

/// A predeclared type; in version 1 there is no comparable and no any.
pub fn basic_of(version: u8, number: u64) -> Option<Basic>
    ensures { result ≡ basic_of version number }
{
    if version == 1 && number >= 28 {
        return None;
    }
    coded_basic(number)
}

/// The predeclared type of a number. One that has none gives some type, as the definition does; those of a declaration
/// that is read have one.
pub fn basic_named(version: u8, number: u64) -> Basic
    ensures { predeclared result ≡ basic_tree (basic_of version number) }
{
    basic_of(version, number).unwrap_or(Basic::Bool)
}

fn coded_basic(number: u64) -> Option<Basic>
    ensures { result ≡ coded basic_code basic_values number }
{
    basics().of_code(number)
}

/// The kind of a descriptor; version 1 has those up to 8.
pub fn type_tag_of(version: u8, number: u64) -> Option<TypeTag>
    ensures { result ≡ type_tag_of version number }
{
    if version == 1 && number >= 9 {
        return None;
    }
    coded_type_tag(number)
}

fn coded_type_tag(number: u64) -> Option<TypeTag>
    ensures { result ≡ coded type_tag_code type_tag_values number }
{
    type_tags().of_code(number)
}

/// The kind of a declaration; version 1 has no generic ones.
pub fn decl_tag_of(version: u8, letter: u8) -> Option<DeclTag>
    ensures { result ≡ decl_tag_of version letter }
{
    match coded_decl_tag(u64::from(letter))? {
        DeclTag::GenericFunc
        | DeclTag::GenericDefined
        | DeclTag::GenericAlias
        | DeclTag::TypeParameter
            if version == 1 => { None }
        tag => Some(tag),
    }
}

fn coded_decl_tag(letter: u64) -> Option<DeclTag>
    ensures { result ≡ coded decl_tag_code decl_tag_values letter }
{
    decl_tags().of_code(letter)
}

/// What a channel may do.
pub fn dir_of(number: u64) -> Option<Dir>
    ensures { result ≡ dir_of number }
{
    match number {
        1 => Some(Dir::Receive),
        2 => Some(Dir::Send),
        3 => Some(Dir::Both),
        _ => None,
    }
}
