//! The bytes of a full file from its sections and its index.
#![tactic(auto)]

mod laws;

pub use laws::a_file_has_its_envelope;
