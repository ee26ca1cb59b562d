//! Tests of the language, through the public calls of its crates.
#![tactic(auto)]

#[cfg(test)]
mod lex;
#[cfg(test)]
mod refusals;
#[cfg(test)]
mod statements;
