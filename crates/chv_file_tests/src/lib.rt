//! Tests of the crates that keep files: sites, gate logs, parts and tables.
#![tactic(auto)]

#[cfg(test)]
mod gate;
#[cfg(test)]
mod making;
#[cfg(test)]
mod merging;
#[cfg(test)]
mod opening;
#[cfg(test)]
mod part;
#[cfg(test)]
mod site;
#[cfg(test)]
mod states;
#[cfg(test)]
mod table;
