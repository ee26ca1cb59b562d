//! The tests of the crates that read statements against the schema.
#![tactic(auto)]

#[cfg(test)]
mod definitions;
#[cfg(test)]
mod inserts;
#[cfg(test)]
mod making;
#[cfg(test)]
mod paths;
#[cfg(test)]
mod queries;
#[cfg(test)]
mod schemas;
#[cfg(test)]
mod tables;
#[cfg(test)]
mod views;
