//! Tests of what is written for types, strings and declarations, of what is read of declaration files, and of what a source
//! declares and where it lacks annotations.
#![tactic(auto)]

#[cfg(test)]
mod annotations;
#[cfg(test)]
mod declarations;
#[cfg(test)]
mod files;
#[cfg(test)]
mod strings;
#[cfg(test)]
mod surfaces;
#[cfg(test)]
mod types;
