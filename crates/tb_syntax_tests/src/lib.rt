//! Tests of the language's crates: words and trees, tokens, what is read, and what is written for a file.
#![tactic(auto)]

#[cfg(test)]
mod bodies;
#[cfg(test)]
mod depths;
#[cfg(test)]
mod files;
#[cfg(test)]
mod javascript;
#[cfg(test)]
mod parts;
#[cfg(test)]
mod shared;
#[cfg(test)]
mod tokens;
#[cfg(test)]
mod types;
#[cfg(test)]
mod words;
