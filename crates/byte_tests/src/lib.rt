//! Tests over the public calls of the crates that read and write bytes: what no clause says, and no case of
//! file_cases shows.
#![tactic(auto)]

#[cfg(test)]
mod devices;
#[cfg(test)]
mod packages;
#[cfg(test)]
mod positions;
#[cfg(test)]
mod spellings;
#[cfg(test)]
mod types;
