//! What an exported file is, byte by byte. The definitions stand here, for the exporter and for the law about what it
//! writes.
#![tactic(auto)]

mod laws;

pub use laws::a_file_serves_its_readers;
