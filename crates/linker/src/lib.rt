//! The documents of a publish, linked: a version, or its faults (SRGS 1.0 section 2.2).
#![tactic(auto)]

mod defined;
mod documents;
mod entries;
mod faults;
mod found;
mod laws;
mod laying;
mod linking;
mod publication;
mod scope;
mod set_fault;
mod tables;
mod target;
mod threads;
mod version;

pub use found::Found;
pub use laws::{faults_are_one, versions_are_one};
pub use linking::Linking;
pub use publication::link;
pub use set_fault::{FaultKind, SetFault};
pub use target::Target;
pub use version::{Version, VersionDoc};
