//! Unit tests of the crates of the kernel. They stand in a crate of their own, since a crate with tests is proved twice.
#![tactic(auto)]

#[cfg(test)]
mod capabilities;
#[cfg(test)]
mod checks;
#[cfg(test)]
mod credentials;
#[cfg(test)]
mod descriptors;
#[cfg(test)]
mod kernel;
#[cfg(test)]
mod lattice;
#[cfg(test)]
mod model;
#[cfg(test)]
mod names;
#[cfg(test)]
mod objects;
#[cfg(test)]
mod pipes;
#[cfg(test)]
mod processes;
#[cfg(test)]
mod tree;
#[cfg(test)]
mod walks;
