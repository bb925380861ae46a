//! The rule that names mean what is wanted of them.

ghost use Rattle.std.specs.Prelude.{◌≡◌, ℕ, List, map};
ghost use Rattle.go_expr_syntax.specs.PlainExprs.{plain_name};
ghost use Rattle.go_syntax.specs.declared.tree.Top.{Top as TopTree};
ghost use Rattle.name_uses.specs.Uses.{found_at, in_receiver, in_right_side, in_top, is_own_parameter};
ghost use Rattle.name_uses.specs.Uses.{name_place, unknown_import, unknown_imports};
ghost use Rattle.source_places.specs.Places.{least};
ghost use Rattle.source_scopes.specs.Scopes.{scopes_at};
ghost use Rattle.source_trees.specs.Files.{receiver_if_any, written_import, written_top};
ghost use Rattle.source_trees.specs.Trees.{written_type};
ghost use Rattle.source_trees.specs.Words.{word};

use crate::uses::{UseFault, Wanted, is_wrong};
use go_syntax::{Expr, Import, NameExpr, Receiver, SourceFile, Top, TypeExpr};
use source_places::{Found, Place, earlier};
use source_scopes::{Meaning, PackageScopes, Packages, Resolution};
use source_walk::{Around, Rule, Source, Spot};
use std::convert::Infallible;

/// The rule that no name has a fault where it stands, with the cause that comes with its places.
#[derive(Drop)]
pub(crate) struct NameUses<'s, P, C> {
    pub fault: UseFault,
    pub cause: C,
    pub packages: &'s P,
    pub scopes: &'s PackageScopes<'s>,
}

impl<'s, P: Packages, C: Copy + Drop> NameUses<'s, P, C> {
    /// A place with the cause.
    fn found(&self, file: usize, at: u32) -> Found<C>
        ensures { result ≡ found_at self.now.cause (record { file = file; at = at }) }
    {
        Found {
            place: Place { file, at },
            cause: self.cause,
        }
    }

    /// The place of a name that has the fault, where this is wanted.
    fn name_place(
        &self,
        source: Source<'_>,
        top: usize,
        wanted: Wanted,
        name: &NameExpr,
    ) -> Option<Found<C>>
        ensures { result ≡ least (map (found_at self.now.cause) (name_place self.now.fault
            (record { names = P.names self.now.packages.now; offers = P.offers self.now.packages.now })
            (scopes_at self.now.scopes.now source.entry.file top) source.entry.file wanted
            (plain_name (word source.entry.bytes.now) name.now))) }
    {
        let resolution = self.scopes.resolve(self.packages, source, top, name);
        if is_wrong(self.scopes, self.fault, wanted, resolution) {
            Some(self.found(source.file, name.at))
        } else {
            None
        }
    }

    /// The place of an import of a path at which no package is known.
    fn unknown_import(&self, file: usize, import: &Import) -> Option<Found<C>>
        ensures { result ≡ least (map (found_at self.now.cause) (unknown_import file import.now.at
            (P.names self.now.packages.now import.now.path))) }
    {
        match self.packages.package_name(import.path.as_slice()) {
            Some(_) => None,
            None => Some(self.found(file, import.at)),
        }
    }

    /// The first import of a path at which no package is known.
    fn first_unknown_import(&self, source: Source<'_>, imports: &[Import]) -> Option<Found<C>>
        ensures { result ≡ least (map (found_at self.now.cause) (unknown_imports
            (record { names = P.names self.now.packages.now; offers = P.offers self.now.packages.now })
            source.entry.file (map (written_import source.entry.bytes.now) imports.now))) }
    {
        let mut found = None;
        for import in imports {
            found = earlier(found, self.unknown_import(source.file, import));
        }
        found
    }

    /// The base of a receiver that means nothing outside of the scope of the receiver's parameters.
    #[tactic(auto, unfolding(source_trees::specs::Words::word))]
    fn unknown_base(&self, source: Source<'_>, receiver: &Option<Receiver>) -> Option<Found<C>>
        ensures { result ≡ least (map (found_at self.now.cause) (in_receiver self.now.scopes.now
            source.entry.file (receiver_if_any source.entry.bytes.now receiver.now))) }
    {
        let base = match receiver {
            Some(receiver) => receiver.base,
            None => return None,
        };
        match self.scopes.meaning_outside(source.file, source.text(&base)) {
            Some(_) => None,
            None => Some(self.found(source.file, base.start)),
        }
    }

    /// Whether a type is one of the type parameters, written as a name alone, in parentheses or not.
    fn is_own_parameter(&self, source: Source<'_>, top: usize, ty: &TypeExpr) -> bool
        ensures { result ≡ is_own_parameter
            (record { names = P.names self.now.packages.now; offers = P.offers self.now.packages.now })
            (scopes_at self.now.scopes.now source.entry.file top)
            (written_type source.entry.bytes.now ty.now) }
    {
        match ty {
            TypeExpr::Name { name, args, .. } => args.is_empty()
                && matches!(
                    self.scopes.resolve(self.packages, source, top, name),
                    Resolution::Own(Meaning::Parameter(_))
                ),
            TypeExpr::Paren { ty, .. } => self.is_own_parameter(source, top, ty.get()),
            _ => false,
        }
    }

    /// The right side of a type or an alias that is one of its own type parameters.
    fn right_side(&self, source: Source<'_>, top: usize, ty: &TypeExpr) -> Option<Found<C>>
        ensures { result ≡ least (map (found_at self.now.cause) (in_right_side
            (record { names = P.names self.now.packages.now; offers = P.offers self.now.packages.now })
            (scopes_at self.now.scopes.now source.entry.file top) source.entry.file
            (written_type source.entry.bytes.now ty.now))) }
    {
        if self.is_own_parameter(source, top, ty) {
            Some(self.found(source.file, ty.at()))
        } else {
            None
        }
    }

    /// The place of the declaration with this number that has the fault, apart from the types and expressions in it.
    fn top_place(&self, source: Source<'_>, number: usize, top: &Top) -> Option<Found<C>>
        ensures { (all : List TopTree) (k : ℕ) → result ≡ least (map (found_at self.now.cause)
            (in_top self.now.fault
            (record { names = P.names self.now.packages.now; offers = P.offers self.now.packages.now })
            self.now.scopes.now source.entry.file number (written_top source.entry.bytes.now all k top.now))) }
    {
        match (self.fault, top) {
            (UseFault::Undefined, Top::Func(func)) => self.unknown_base(source, &func.receiver),
            (UseFault::NotAType, Top::Defined(declared) | Top::Alias(declared)) => {
                self.right_side(source, number, &declared.ty)
            }
            _ => None,
        }
    }
}

impl<'s, P: Packages, C: Copy + Drop> Rule for NameUses<'s, P, C> {
    ghost use Rattle.name_uses.specs.Uses.{wrong_at};

    type Cause = C;

    type Stop = Infallible;

    ghost places = { λ rule. wrong_at rule.cause rule.fault
        (record { names = P.names rule.packages.now; offers = P.offers rule.packages.now }) rule.scopes.now };

    fn at_file(
        &mut self,
        number: usize,
        source: &[u8],
        tree: &SourceFile,
    ) -> Result<Option<Found<C>>, Infallible> {
        match self.fault {
            UseFault::Undefined => {
                let source = Source {
                    file: number,
                    bytes: source,
                };
                Ok(self.first_unknown_import(source, tree.imports.as_slice()))
            }
            UseFault::NotAType | UseFault::NotAConstant => Ok(None),
        }
    }

    fn at_top(&mut self, around: &Around<'_>, spot: Spot) -> Result<Option<Found<C>>, Infallible> {
        let source = Source {
            file: spot.file,
            bytes: around.source,
        };
        Ok(self.top_place(source, spot.top, around.top))
    }

    fn at_type(
        &mut self,
        around: &Around<'_>,
        spot: Spot,
        ty: &TypeExpr,
    ) -> Result<Option<Found<C>>, Infallible> {
        let source = Source {
            file: spot.file,
            bytes: around.source,
        };
        match ty {
            TypeExpr::Name { name, .. } => Ok(self.name_place(
                source,
                spot.top,
                Wanted::AType,
                name,
            )),
            _ => Ok(None),
        }
    }

    fn at_expr(
        &mut self,
        around: &Around<'_>,
        spot: Spot,
        expr: &Expr,
    ) -> Result<Option<Found<C>>, Infallible> {
        let source = Source {
            file: spot.file,
            bytes: around.source,
        };
        match expr {
            Expr::Name { name, .. } => {
                let wanted = Wanted::AConstant(spot.iota.is_some());
                Ok(self.name_place(source, spot.top, wanted, name))
            }
            Expr::Convert { to, .. } => Ok(self.name_place(source, spot.top, Wanted::AType, to)),
            _ => Ok(None),
        }
    }
}
