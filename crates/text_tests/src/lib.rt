//! Unit tests of the crates that read and write texts. They stand in a crate of their own, since a crate with tests is proved twice.
#![tactic(auto)]

#[cfg(test)]
mod capability_texts;
#[cfg(test)]
mod generated;
#[cfg(test)]
mod labels;
#[cfg(test)]
mod narrowing;
#[cfg(test)]
mod paths;
#[cfg(test)]
mod records;
#[cfg(test)]
mod scripts;
#[cfg(test)]
mod words;
#[cfg(test)]
mod worlds;
