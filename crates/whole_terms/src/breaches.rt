//! Why a type that stands in a term is wrong.

ghost use Rattle.std.specs.Prelude.{◌≡◌};
ghost use Rattle.whole_terms.specs.Tables.{fault_of};

use go_values::QName;
use replacement::SetFault;

/// Why a type that stands in a term is wrong.
#[derive(Clone, Drop)]
pub enum Breach {
    /// It is an interface that isn't empty.
    Interface,
    /// It is an alias that has no type parameters, and arguments here.
    WrongKind(QName),
    /// It is an alias that has so many type parameters, and as many arguments as this here.
    WrongNumber(QName, u32, u32),
}

/// The breach as a fault.
pub(crate) fn fault(breach: Breach) -> SetFault
    ensures { result ≡ fault_of breach }
{
    match breach {
        Breach::Interface => SetFault::TermInterface,
        Breach::WrongKind(q) => SetFault::Kind { q },
        Breach::WrongNumber(q, want, have) => SetFault::Arity { q, want, have },
    }
}
