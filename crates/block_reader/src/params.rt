//! Parameters and signatures, with types as numbers.

ghost use Rattle.std.specs.Prelude.{◌≡◌, map};
ghost use Rattle.file_parts.specs.FileParts.{IsOfFile};
ghost use Rattle.decl_spelling.specs.Descriptors.{variadic_at, sig_at};
ghost use Rattle.block_reader.specs.Calls.{ReadsBlock, sections_of};
ghost use Rattle.block_reader.specs.Parts.{param_spelled, sig_spelled};

use crate::block::{Block, read_pos, read_text, read_truth, read_type};
use crate::lists::{Listed, read_list};
use crate::spelled::{SpelledPos, SpelledText};
use decl_spelling::Demand;
use file_parts::Parts;
use std::alloc::Global;
use wire_bytes::ReadFault;

/// A parameter, a result or a receiver.
#[derive(Debug, Drop)]
pub struct Param {
    pub pos: SpelledPos,
    pub name: SpelledText,
    pub ty: u64,
}

/// The parameters and results of a function or method.
#[derive(Debug, Drop)]
pub struct Signature {
    pub params: Vec<Param>,
    pub results: Vec<Param>,
    pub variadic: bool,
}

impl Listed for Param {
    ghost use Rattle.decl_spelling.specs.Descriptors.{Param as Shape, param_at};
    ghost use Rattle.block_reader.specs.Parts.{param_spelled};

    ghost Shape = { Shape };

    ghost shape = { param_spelled };

    ghost reading = { param_at };

    #[tactic(auto, unfolding(decl_spelling::specs::Descriptors::param_at))]
    fn read(alloc: Global, parts: &Parts<'_>, block: &mut Block<'_>) -> Result<Param, ReadFault> {
        let pos = read_pos(alloc, parts, block)?;
        let name = read_text(alloc, parts, block)?;
        let ty = read_type(block, Demand::Any)?;
        Ok(Param { pos, name, ty })
    }
}

/// The flag stands only where there is a parameter.
fn read_variadic(params: &[Param], block: &mut Block<'_>) -> Result<bool, ReadFault>
    ensures { ReadsBlock (λ b. b) (variadic_at (map param_spelled params.now)) block.old result block.new }
{
    if params.is_empty() {
        return Ok(false);
    }
    read_truth(block)
}

/// The parameters, the results, and whether the last parameter is variadic.
#[tactic(auto, unfolding(decl_spelling::specs::Descriptors::sig_at))]
pub fn read_signature(
    alloc: Global,
    parts: &Parts<'_>,
    block: &mut Block<'_>,
) -> Result<Signature, ReadFault>
    requires { IsOfFile parts.now }
    ensures { ReadsBlock sig_spelled (sig_at (sections_of parts.now)) block.old result block.new }
{
    let params = read_list(alloc, parts, block)?;
    let results = read_list(alloc, parts, block)?;
    let variadic = read_variadic(params.as_slice(), block)?;
    Ok(Signature {
        params,
        results,
        variadic,
    })
}
