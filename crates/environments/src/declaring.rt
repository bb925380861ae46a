ghost use Rattle.std.specs.Prelude.{◌≡◌, ℕ, List, ◌++◌, ◌⊎◌, Bool, Option, None, Some, IsErrOf, option_map};
ghost use Rattle.std.specs.List.{Contains};
ghost use Rattle.go_values.specs.declared.qualified.QName.{QName as Name};
ghost use Rattle.type_terms.specs.declared.descriptors.Node.{Node};
ghost use Rattle.type_terms.specs.Arenas.{Extends};
ghost use Rattle.type_terms.specs.Additions.{AddsOnly, Outgrows};
ghost use Rattle.type_terms.specs.DeclarationRules.{IsProperDecl};
ghost use Rattle.environments.specs.Environments.{Entry, declared, Answers, AsksOnly, entry_types};

use crate::given::Given;
use go_values::QName;
use type_terms::Arena;
use wire_bytes::ByteFault;

/// Why an environment gives no declaration.
#[derive(Debug, Drop, PartialEq, Eq)]
pub enum EnvError {
    /// It has nothing for the name.
    Unknown { q: QName },
    /// It has a fault for the name.
    Damaged { q: QName, fault: ByteFault },
    /// Its table has no room left.
    TableFull,
    /// The arena has as many nodes as its limit.
    Nodes,
    OutOfMemory,
}

/// What gives declarations for names; those that it lends live for `'a`. It means a finite map from names to a
/// declaration or a fault, and a map from paths of packages to their names, neither of which a call changes.
pub trait Env<'a> {
    /// What stands behind a name, where the arena has these nodes.
    ghost entries: { Self → List Node → Name → Option Entry };

    /// The names behind which something stands.
    ghost names: { Self → List Name };

    /// The names of packages by their paths.
    ghost packages: { Self → List ℕ → Option (List ℕ) };

    /// The nodes that it holds are among these.
    ghost stands: { Self → List Node → Type 0 };

    /// The names that it was asked for, where it keeps them.
    ghost asked: { Self → Option (List Name) };

    /// Whether its table had no room, where it keeps a table.
    ghost full: { Self → Option Bool };

    /// The declaration of a name, as nodes of the arena. `Nodes` comes only where the nodes at entry and what the entry
    /// opens are more distinct trees than the arena's limit.
    fn declare(&mut self, q: &QName, arena: &mut Arena) -> Result<Given<'a>, EnvError>
        requires stands { stands self.old arena.old.nodes }
        ensures answer { Answers (entries self.old arena.old.nodes q.now) q.now arena.new (full self.new) result }
        ensures entries { entries self.new arena.new.nodes ≡ entries self.old arena.old.nodes }
        ensures names { names self.new ≡ names self.old }
        ensures packages { packages self.new ≡ packages self.old }
        ensures asked { AsksOnly (asked self.old) q.now (asked self.new) }
        ensures extends { Extends arena.old arena.new }
        ensures adds { AddsOnly (entry_types (entries self.old arena.old.nodes q.now)) arena.old arena.new }
        ensures outgrown { IsErrOf result EnvError.Nodes
            → Outgrows arena.old (entry_types (entries self.old arena.old.nodes q.now)) }
        ensures stands_after { stands self.new arena.new.nodes };

    /// The name of the package with the path, if there is one. Takes no memory.
    fn package(&self, path: &[u8]) -> Option<&[u8]>
        ensures { option_map (λ name. name.now) result ≡ packages self.now path.now };

    ghost finite: { (env : Self) (nodes : List Node) (q : Name) (entry : Entry) → entries env nodes q ≡ Some entry
        → Contains (names env) q };

    ghost proper: { (env : Self) (nodes : List Node) (q : Name) (decl : _) → stands env nodes
        → entries env nodes q ≡ Some (declared decl) → IsProperDecl decl };

    ghost stays: { (env : Self) (nodes more : List Node) → stands env nodes → stands env (nodes ++ more)
        × (entries env (nodes ++ more) ≡ entries env nodes) };
}

/// The environment that has nothing.
#[derive(Clone, Copy, Debug)]
pub struct NoDeps;

impl<'a> Env<'a> for NoDeps {
    ghost use Rattle.std.specs.Prelude.{[], None, refl};
    ghost use Rattle.environments.specs.EntryLaws.{no_entry};

    ghost entries = { λ env nodes q. None };

    ghost names = { λ env. [] };

    ghost packages = { λ env path. None };

    ghost stands = { λ env nodes. Unit {0} };

    ghost asked = { λ env. None };

    ghost full = { λ env. None };

    fn declare(&mut self, q: &QName, _arena: &mut Arena) -> Result<Given<'a>, EnvError> {
        Err(unknown(q))
    }

    fn package(&self, _path: &[u8]) -> Option<&[u8]> {
        None
    }

    ghost finite = { λ env nodes q entry is. no_entry _ _ is };

    ghost proper = { λ env nodes q decl stands is. no_entry _ _ is };

    ghost stays = { λ env nodes more stands. (tt, refl) };
}

/// That there is nothing for the name, or that there was no memory to say so.
pub(crate) fn unknown(q: &QName) -> EnvError
    ensures { (result ≡ EnvError.Unknown q.now) ⊎ (result ≡ EnvError.OutOfMemory) }
{
    match q.clone() {
        Ok(q) => EnvError::Unknown { q },
        Err(_) => EnvError::OutOfMemory,
    }
}
