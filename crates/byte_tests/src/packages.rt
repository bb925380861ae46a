//! A package over no dependencies, as the environment of names.

ghost use Rattle.std.specs.Prelude.{◌≡◌, ◌<◌, IfOk, length};
ghost use Rattle.type_terms.specs.Denotation.{tree};
ghost use Rattle.type_terms.specs.Trees.{predeclared};
ghost use Rattle.environments.specs.Packages.{PackageStands};

use basic_types::basic_type;
use code_tables::Basic;
use environments::{Env, EnvError, Given, NoDeps, Over, Package};
use go_values::{Bytes, Pos, QName};
use std::alloc::{AllocError, Global};
use std::test::Fail;
use type_terms::{Arena, DeclNode, Node, NodeId, Nodes};

/// The package `p`, which declares one alias. Its name is empty.
fn package_of(alloc: Global, basic: Basic, ty: NodeId, arena: &Arena) -> Result<Package, AllocError>
    requires below { ty < length arena.now.nodes }
    requires denotes { tree arena.now.nodes ty ≡ predeclared basic }
    ensures stands { IfOk result (λ whole. PackageStands arena.now.nodes whole) }
{
    let decl = DeclNode::Alias {
        pos: Pos::Nowhere,
        tparams: Nodes::from_items(Vec::new(alloc)),
        ty,
    };
    Ok(Package {
        path: Bytes::from_slice(alloc, b"p")?,
        name: Bytes::new(alloc),
        imports: Vec::new(alloc),
        decls: vec![in alloc; (Bytes::new(alloc), decl)]?,
        files: Vec::new(alloc),
    })
}

/// The declaration of an environment for a name; none where it has nothing for it.
fn found_by<'a, E: Env<'a>>(
    env: &mut E,
    q: &QName,
    arena: &mut Arena,
) -> Result<Option<Given<'a>>, EnvError>
    requires { E.stands env.old arena.old.nodes }
    ensures stands { E.stands env.new arena.new.nodes }
{
    match env.declare(q, arena) {
        Ok(decl) => Ok(Some(decl)),
        Err(EnvError::Unknown { .. }) => Ok(None),
        Err(fault) => Err(fault),
    }
}

/// The same of a package over no dependencies.
fn found_over<'a>(
    whole: &'a Package,
    q: &QName,
    arena: &mut Arena,
) -> Result<Option<Given<'a>>, EnvError>
    requires { PackageStands arena.old.nodes whole.now }
{
    let mut nothing = NoDeps;
    let mut env = Over {
        package: whole,
        base: &mut nothing,
    };
    found_by(&mut env, q, arena)
}

/// What a type comes down to over the package and no dependencies.
fn basic_over(
    alloc: Global,
    whole: &Package,
    arena: &mut Arena,
    ty: NodeId,
) -> Result<Option<Basic>, EnvError>
    requires stands { PackageStands arena.old.nodes whole.now }
    requires there { ty < length arena.old.nodes }
{
    let mut nothing = NoDeps;
    let mut env = Over {
        package: whole,
        base: &mut nothing,
    };
    basic_type(alloc, &mut env, arena, ty)
}

/// Whether the alias of `p` comes down to the predeclared type for which it stands.
fn comes_down(alloc: Global, basic: Basic) -> Result<bool, Fail> {
    let q = QName {
        path: Bytes::from_slice(alloc, b"p")?,
        name: Bytes::new(alloc),
    };
    let mut arena = Arena::new(alloc, 10);
    let alias = arena.add(Node::AliasName(q))?;
    let ty = arena.add(Node::Predeclared(basic))?;
    let whole = package_of(alloc, basic, ty, &arena)?;
    Ok(basic_over(alloc, &whole, &mut arena, alias)? == Some(basic))
}

/// Whether the alias of `p` is found under this path.
fn is_found(alloc: Global, path: &str) -> Result<bool, Fail> {
    let q = QName {
        path: Bytes::from_slice(alloc, path.as_bytes())?,
        name: Bytes::new(alloc),
    };
    let mut arena = Arena::new(alloc, 10);
    let ty = arena.add(Node::Predeclared(Basic::Int))?;
    let whole = package_of(alloc, Basic::Int, ty, &arena)?;
    Ok(found_over(&whole, &q, &mut arena)?.is_some())
}

#[test]
fn names_of_its_path_are_the_packages(rt: HostRuntime) -> Result<(), Fail> {
    assert!(rt; is_found(rt.alloc(), "p")?);
    assert!(rt; !is_found(rt.alloc(), "q")?);
    Ok(())
}

#[test]
fn aliases_come_down(rt: HostRuntime) -> Result<(), Fail> {
    assert!(rt; comes_down(rt.alloc(), Basic::Int)?);
    assert!(rt; comes_down(rt.alloc(), Basic::UntypedString)?);
    Ok(())
}
