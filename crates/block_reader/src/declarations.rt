//! Declarations up to where their types decide what follows, with types as numbers.

ghost use Rattle.std.specs.Prelude.{◌≡◌, map};
ghost use Rattle.file_parts.specs.FileParts.{IsOfFile};
ghost use Rattle.decl_spelling.specs.Reading.{list_at};
ghost use Rattle.decl_spelling.specs.Declarations.{var_at, func_decl_at, generic_func_at, constant_at, defined_at};
ghost use Rattle.decl_spelling.specs.Declarations.{generic_defined_at, alias_at, generic_alias_at, parameter_at};
ghost use Rattle.decl_spelling.specs.Declarations.{constraint_demand, head_by, head_at, receiver_at};
ghost use Rattle.block_reader.specs.Calls.{ReadsBlock, sections_of};
ghost use Rattle.block_reader.specs.Parts.{head_spelled, receiver_spelled};

use crate::block::{Block, read_pos, read_text, read_truth, read_type};
use crate::codes::decl_tag_of;
use crate::lists::{Listed, read_list};
use crate::params::{Param, Signature, read_signature};
use crate::spelled::{SpelledConst, SpelledPos, SpelledText};
use crate::types::read_types;
use code_tables::DeclTag;
use decl_spelling::Demand;
use file_parts::Parts;
use std::alloc::Global;
use wire_bytes::{ByteFault, ReadFault};

/// A method of a defined type, with its receiver.
#[derive(Debug, Drop)]
pub struct ReceiverParts {
    pub pos: SpelledPos,
    pub name: SpelledText,
    pub recv: Param,
    pub signature: Signature,
}

/// A declaration. Its list of type parameters is empty where it has none.
#[derive(Debug, Drop)]
pub enum DeclParts {
    Var {
        pos: SpelledPos,
        ty: u64,
    },
    Func {
        pos: SpelledPos,
        tparams: Vec<u64>,
        signature: Signature,
    },
    Constant {
        pos: SpelledPos,
        ty: u64,
        value: SpelledConst,
    },
    Defined {
        pos: SpelledPos,
        tparams: Vec<u64>,
        underlying: u64,
        methods: Vec<ReceiverParts>,
    },
    Alias {
        pos: SpelledPos,
        tparams: Vec<u64>,
        ty: u64,
    },
    Parameter {
        pos: SpelledPos,
        implicit: bool,
        constraint: u64,
    },
}

/// A declaration up to where its types decide what follows.
#[derive(Debug, Drop)]
pub enum DeclHead {
    /// Nothing follows.
    Whole(DeclParts),
    /// The methods of a defined type follow, if its underlying type isn't an interface.
    Defined {
        pos: SpelledPos,
        tparams: Vec<u64>,
        underlying: u64,
    },
    /// The value of a constant follows, by its type, whose number stands at `at` in the file.
    Constant {
        pos: SpelledPos,
        ty: u64,
        at: u64,
    },
}

/// The letter of its kind, and a declaration.
#[tactic(auto, unfolding(decl_spelling::specs::Declarations::head_at))]
pub fn read_declaration_head(
    alloc: Global,
    parts: &Parts<'_>,
    block: &mut Block<'_>,
) -> Result<DeclHead, ReadFault>
    requires { IsOfFile parts.now }
    ensures { ReadsBlock head_spelled (head_at (sections_of parts.now)) block.old result block.new }
{
    let at = block.cursor.place() as u64;
    let letter = block.cursor.byte()?;
    match decl_tag_of(parts.version, letter) {
        Some(tag) => read_parts(alloc, parts, tag, block),
        None => Err(ReadFault::Bytes(ByteFault::Tag {
            at,
            value: u64::from(letter),
        })),
    }
}

/// The parts of a declaration of a kind.
fn read_parts(
    alloc: Global,
    parts: &Parts<'_>,
    tag: DeclTag,
    block: &mut Block<'_>,
) -> Result<DeclHead, ReadFault>
    requires { IsOfFile parts.now }
    ensures { ReadsBlock head_spelled (head_by (sections_of parts.now) tag) block.old result block.new }
{
    match tag {
        DeclTag::Var => read_var(alloc, parts, block),
        DeclTag::Func => read_func(alloc, parts, block),
        DeclTag::GenericFunc => read_generic_func(alloc, parts, block),
        DeclTag::Const => read_constant(alloc, parts, block),
        DeclTag::Defined => read_defined(alloc, parts, block),
        DeclTag::GenericDefined => read_generic_defined(alloc, parts, block),
        DeclTag::Alias => read_alias(alloc, parts, block),
        DeclTag::GenericAlias => read_generic_alias(alloc, parts, block),
        DeclTag::TypeParameter => read_type_parameter(alloc, parts, block),
    }
}

#[tactic(auto, unfolding(decl_spelling::specs::Declarations::var_at))]
fn read_var(alloc: Global, parts: &Parts<'_>, block: &mut Block<'_>) -> Result<DeclHead, ReadFault>
    requires { IsOfFile parts.now }
    ensures { ReadsBlock head_spelled (var_at (sections_of parts.now)) block.old result block.new }
{
    let pos = read_pos(alloc, parts, block)?;
    let ty = read_type(block, Demand::Any)?;
    Ok(DeclHead::Whole(DeclParts::Var { pos, ty }))
}

#[tactic(auto, unfolding(decl_spelling::specs::Declarations::func_decl_at))]
fn read_func(alloc: Global, parts: &Parts<'_>, block: &mut Block<'_>) -> Result<DeclHead, ReadFault>
    requires { IsOfFile parts.now }
    ensures { ReadsBlock head_spelled (func_decl_at (sections_of parts.now)) block.old result block.new }
{
    let pos = read_pos(alloc, parts, block)?;
    let signature = read_signature(alloc, parts, block)?;
    Ok(DeclHead::Whole(DeclParts::Func {
        pos,
        tparams: Vec::new(alloc),
        signature,
    }))
}

#[tactic(auto, unfolding(decl_spelling::specs::Declarations::generic_func_at))]
fn read_generic_func(
    alloc: Global,
    parts: &Parts<'_>,
    block: &mut Block<'_>,
) -> Result<DeclHead, ReadFault>
    requires { IsOfFile parts.now }
    ensures { ReadsBlock head_spelled (generic_func_at (sections_of parts.now)) block.old result block.new }
{
    let pos = read_pos(alloc, parts, block)?;
    let tparams = read_types(alloc, Demand::Parameter, block)?;
    let signature = read_signature(alloc, parts, block)?;
    Ok(DeclHead::Whole(DeclParts::Func {
        pos,
        tparams,
        signature,
    }))
}

#[tactic(auto, unfolding(decl_spelling::specs::Declarations::constant_at))]
fn read_constant(
    alloc: Global,
    parts: &Parts<'_>,
    block: &mut Block<'_>,
) -> Result<DeclHead, ReadFault>
    requires { IsOfFile parts.now }
    ensures { ReadsBlock head_spelled (constant_at (sections_of parts.now)) block.old result block.new }
{
    let pos = read_pos(alloc, parts, block)?;
    let at = block.cursor.place() as u64;
    let ty = read_type(block, Demand::Any)?;
    Ok(DeclHead::Constant { pos, ty, at })
}

#[tactic(auto, unfolding(decl_spelling::specs::Declarations::defined_at))]
fn read_defined(
    alloc: Global,
    parts: &Parts<'_>,
    block: &mut Block<'_>,
) -> Result<DeclHead, ReadFault>
    requires { IsOfFile parts.now }
    ensures { ReadsBlock head_spelled (defined_at (sections_of parts.now)) block.old result block.new }
{
    let pos = read_pos(alloc, parts, block)?;
    let underlying = read_type(block, Demand::Underlying)?;
    Ok(DeclHead::Defined {
        pos,
        tparams: Vec::new(alloc),
        underlying,
    })
}

#[tactic(auto, unfolding(decl_spelling::specs::Declarations::generic_defined_at))]
fn read_generic_defined(
    alloc: Global,
    parts: &Parts<'_>,
    block: &mut Block<'_>,
) -> Result<DeclHead, ReadFault>
    requires { IsOfFile parts.now }
    ensures { ReadsBlock head_spelled (generic_defined_at (sections_of parts.now)) block.old result block.new }
{
    let pos = read_pos(alloc, parts, block)?;
    let tparams = read_types(alloc, Demand::Parameter, block)?;
    let underlying = read_type(block, Demand::Underlying)?;
    Ok(DeclHead::Defined {
        pos,
        tparams,
        underlying,
    })
}

#[tactic(auto, unfolding(decl_spelling::specs::Declarations::alias_at))]
fn read_alias(
    alloc: Global,
    parts: &Parts<'_>,
    block: &mut Block<'_>,
) -> Result<DeclHead, ReadFault>
    requires { IsOfFile parts.now }
    ensures { ReadsBlock head_spelled (alias_at (sections_of parts.now)) block.old result block.new }
{
    let pos = read_pos(alloc, parts, block)?;
    let ty = read_type(block, Demand::Any)?;
    Ok(DeclHead::Whole(DeclParts::Alias {
        pos,
        tparams: Vec::new(alloc),
        ty,
    }))
}

#[tactic(auto, unfolding(decl_spelling::specs::Declarations::generic_alias_at))]
fn read_generic_alias(
    alloc: Global,
    parts: &Parts<'_>,
    block: &mut Block<'_>,
) -> Result<DeclHead, ReadFault>
    requires { IsOfFile parts.now }
    ensures { ReadsBlock head_spelled (generic_alias_at (sections_of parts.now)) block.old result block.new }
{
    let pos = read_pos(alloc, parts, block)?;
    let tparams = read_types(alloc, Demand::Parameter, block)?;
    let ty = read_type(block, Demand::NoParameter)?;
    Ok(DeclHead::Whole(DeclParts::Alias { pos, tparams, ty }))
}

/// Where the flag says that the constraint was written without `interface`, it is an interface.
#[tactic(auto, unfolding(decl_spelling::specs::Declarations::parameter_at))]
fn read_type_parameter(
    alloc: Global,
    parts: &Parts<'_>,
    block: &mut Block<'_>,
) -> Result<DeclHead, ReadFault>
    requires { IsOfFile parts.now }
    ensures { ReadsBlock head_spelled (parameter_at (sections_of parts.now)) block.old result block.new }
{
    let pos = read_pos(alloc, parts, block)?;
    let flag = block.cursor.place() as u64;
    let implicit = read_truth(block)?;
    let constraint = read_type(block, constraint_demand(implicit, flag))?;
    Ok(DeclHead::Whole(DeclParts::Parameter {
        pos,
        implicit,
        constraint,
    }))
}

fn constraint_demand(implicit: bool, flag: u64) -> Demand
    ensures { result ≡ constraint_demand implicit flag }
{
    if implicit {
        Demand::Interface { flag }
    } else {
        Demand::Any
    }
}

impl Listed for ReceiverParts {
    ghost use Rattle.decl_spelling.specs.Declarations.{Receiver, receiver_at};
    ghost use Rattle.block_reader.specs.Parts.{receiver_spelled};

    ghost Shape = { Receiver };

    ghost shape = { receiver_spelled };

    ghost reading = { receiver_at };

    #[tactic(auto, unfolding(decl_spelling::specs::Declarations::receiver_at))]
    fn read(
        alloc: Global,
        parts: &Parts<'_>,
        block: &mut Block<'_>,
    ) -> Result<ReceiverParts, ReadFault> {
        let pos = read_pos(alloc, parts, block)?;
        let name = read_text(alloc, parts, block)?;
        let recv = Param::read(alloc, parts, block)?;
        let signature = read_signature(alloc, parts, block)?;
        Ok(ReceiverParts {
            pos,
            name,
            recv,
            signature,
        })
    }
}

/// The methods of a defined type, after their count.
pub fn read_receivers(
    alloc: Global,
    parts: &Parts<'_>,
    block: &mut Block<'_>,
) -> Result<Vec<ReceiverParts>, ReadFault>
    requires { IsOfFile parts.now }
    ensures { ReadsBlock (λ v. map receiver_spelled v.items) (list_at (receiver_at (sections_of parts.now))) block.old
        result block.new }
{
    read_list(alloc, parts, block)
}
