//! The cycles that Go forbids among declarations.
#![tactic(auto)]

mod components;
mod containment;
mod cycles;
mod shapes;

pub use cycles::{
    CycleFault, CycleKind, Ranks, check_cycles, cycle_kinds, only_own_parameters_count,
    ranks_exclude_cycles,
};
pub use shapes::{DeclShape, Form};
