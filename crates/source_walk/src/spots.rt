ghost use Rattle.std.specs.Prelude.{◌≡◌, ℕ, List};
ghost use Rattle.source_trees.specs.Files.{written_top};
ghost use Rattle.source_walk.specs.Spots.{iota_in, start, value_of, constraint_of, right_side_of};
ghost use Rattle.source_walk.specs.Spots.{signature_of, inside, element_of, term_of};
ghost use Rattle.go_syntax.specs.declared.tree.Top.{Top as TopTree};

use go_syntax::Top;

/// What a written type is used as.
#[derive(Clone, Copy, Debug, PartialEq, Eq)]
pub enum Role {
    /// The type of a value, or a part of a type.
    Ordinary,
    /// The right side of a declared type or an alias.
    RightSide,
    /// The constraint of type parameters.
    Constraint,
    /// An embedded element of an interface.
    Element,
    /// A term of a union.
    Term,
}

/// The part of a declaration in which something stands, at any depth.
#[derive(Clone, Copy, Debug, PartialEq, Eq)]
pub enum Zone {
    /// The list of type parameters.
    TypeParameters,
    /// The right side of a declared type or an alias.
    RightSide,
    /// The signature of a function or method.
    Signature,
    /// The written type of constants or variables.
    WrittenType,
    /// The value of a constant.
    Value,
}

/// Where something stands in the files of a package.
#[derive(Clone, Copy, Debug, PartialEq, Eq)]
pub struct Spot {
    /// The number of the file.
    pub file: usize,
    /// The number of the declaration in the file.
    pub top: usize,
    /// Which of the names that are declared together a value belongs to.
    pub item: usize,
    /// The value of `iota`, in a declaration of constants.
    pub iota: Option<usize>,
    pub role: Role,
    pub zone: Zone,
    /// Whether only right sides, elements and terms lead here.
    pub straight: bool,
}

fn iota_in(top: &Top) -> Option<usize>
    ensures { (source : List ℕ) (all : List TopTree) (k : ℕ) → result ≡ iota_in (written_top source all k top.now) }
{
    match top {
        Top::Constant(constants) => Some(constants.iota),
        _ => None,
    }
}

impl Spot {
    /// The written type in a declaration of constants or variables, or where that would stand.
    #[tactic(auto, unfolding(crate::specs::Spots::start))]
    pub(crate) fn start(file: usize, number: usize, top: &Top) -> Spot
        ensures { (source : List ℕ) (all : List TopTree) (k : ℕ)
            → result ≡ start file number (written_top source all k top.now) }
    {
        Spot {
            file,
            top: number,
            item: 0,
            iota: iota_in(top),
            role: Role::Ordinary,
            zone: Zone::WrittenType,
            straight: false,
        }
    }

    #[tactic(auto, unfolding(crate::specs::Spots::value_of))]
    pub(crate) fn value_of(self, item: usize) -> Spot
        ensures { result ≡ value_of item self }
    {
        Spot {
            item,
            zone: Zone::Value,
            ..self
        }
    }

    #[tactic(auto, unfolding(crate::specs::Spots::constraint_of))]
    pub(crate) fn constraint(self) -> Spot
        ensures { result ≡ constraint_of self }
    {
        Spot {
            role: Role::Constraint,
            zone: Zone::TypeParameters,
            ..self
        }
    }

    #[tactic(auto, unfolding(crate::specs::Spots::right_side_of))]
    pub(crate) fn right_side(self) -> Spot
        ensures { result ≡ right_side_of self }
    {
        Spot {
            role: Role::RightSide,
            zone: Zone::RightSide,
            straight: true,
            ..self
        }
    }

    #[tactic(auto, unfolding(crate::specs::Spots::signature_of))]
    pub(crate) fn signature(self) -> Spot
        ensures { result ≡ signature_of self }
    {
        Spot {
            zone: Zone::Signature,
            ..self
        }
    }

    #[tactic(auto, unfolding(crate::specs::Spots::inside))]
    pub(crate) fn inside(self) -> Spot
        ensures { result ≡ inside self }
    {
        Spot {
            role: Role::Ordinary,
            straight: false,
            ..self
        }
    }

    #[tactic(auto, unfolding(crate::specs::Spots::element_of))]
    pub(crate) fn element(self) -> Spot
        ensures { result ≡ element_of self }
    {
        Spot {
            role: Role::Element,
            ..self
        }
    }

    #[tactic(auto, unfolding(crate::specs::Spots::term_of))]
    pub(crate) fn term(self) -> Spot
        ensures { result ≡ term_of self }
    {
        Spot {
            role: Role::Term,
            ..self
        }
    }
}
