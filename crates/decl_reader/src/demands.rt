//! Whether a type is what its holder asks for.

ghost use Rattle.std.specs.Prelude.{◌≡◌, ℕ};
ghost use Rattle.type_terms.specs.NodeShapes.{node_shape};
ghost use Rattle.type_terms.specs.Shapes.{retype};
ghost use Rattle.type_terms.specs.Trees.{Tree, predeclared, tree_of};
ghost use Rattle.decl_spelling.specs.Descent.{meets, unmet, may_underlie};
ghost use Rattle.decl_reader.specs.Shapes.{flat_shape};

use block_reader::Flat;
use code_tables::Basic;
use decl_spelling::{Demand, Mention};
use type_terms::Node;
use wire_bytes::ByteFault;

/// Whether a predeclared type is what its holder asks for.
pub(crate) fn basic_meets(asked: Demand, basic: Basic) -> bool
    ensures { result ≡ meets asked (predeclared basic) }
{
    match asked {
        Demand::Any | Demand::NoParameter => true,
        Demand::Underlying => may_underlie(basic),
        Demand::Parameter | Demand::Base | Demand::Interface { .. } => false,
    }
}

/// Whether a predeclared type may be the underlying one of a defined type.
fn may_underlie(basic: Basic) -> bool
    ensures { result ≡ may_underlie basic }
{
    !matches!(
        basic,
        Basic::Error
            | Basic::UntypedBool
            | Basic::UntypedInt
            | Basic::UntypedRune
            | Basic::UntypedFloat
            | Basic::UntypedComplex
            | Basic::UntypedString
            | Basic::UntypedNil
            | Basic::Comparable
    )
}

/// Whether the type that a descriptor spells, whatever stands in it, is what its holder asks for.
pub(crate) fn flat_meets(asked: Demand, flat: &Flat) -> bool
    ensures { (types : ℕ → Tree) → result ≡ meets asked (tree_of (retype types (flat_shape flat.now))) }
{
    match flat {
        Flat::TypeParameter(_) => matches!(asked, Demand::Any | Demand::Parameter),
        Flat::Defined(_) | Flat::Alias(_) => {
            matches!(asked, Demand::Any | Demand::Base | Demand::NoParameter)
        }
        Flat::Instance(_, _, _) | Flat::Union(_) => {
            matches!(asked, Demand::Any | Demand::NoParameter)
        }
        Flat::Interface(_, _, _) => !matches!(asked, Demand::Parameter | Demand::Base),
        _ => matches!(
            asked,
            Demand::Any | Demand::Underlying | Demand::NoParameter
        ),
    }
}

/// Whether the type of a node, whatever stands in it, is what its holder asks for.
pub(crate) fn node_meets(asked: Demand, node: &Node) -> bool
    ensures { (types : ℕ → Tree) → result ≡ meets asked (tree_of (retype types (node_shape node.now))) }
{
    match node {
        Node::Predeclared(basic) => basic_meets(asked, *basic),
        Node::Param(_) => matches!(asked, Demand::Any | Demand::Parameter),
        Node::Named(_) | Node::AliasName(_) => {
            matches!(asked, Demand::Any | Demand::Base | Demand::NoParameter)
        }
        Node::Instance(_, _) | Node::Union(_) => {
            matches!(asked, Demand::Any | Demand::NoParameter)
        }
        Node::Iface(_, _, _) => !matches!(asked, Demand::Parameter | Demand::Base),
        _ => matches!(
            asked,
            Demand::Any | Demand::Underlying | Demand::NoParameter
        ),
    }
}

/// The fault of a type that isn't what its holder asks for. It stands at the typeOff, or for a constraint that was to
/// be an interface at the flag that says so.
pub(crate) fn unmet(named: Mention) -> ByteFault
    ensures { result ≡ unmet named named.asked }
{
    match named.asked {
        Demand::Interface { flag } => ByteFault::Tag { at: flag, value: 1 },
        _ => out_of_range(named),
    }
}

/// The fault of a type that can't be read, at the typeOff that names it.
pub(crate) fn out_of_range(named: Mention) -> ByteFault
    ensures { result ≡ ByteFault.Range named.at named.value }
{
    ByteFault::Range {
        at: named.at,
        value: named.value,
    }
}
