//! Tests of bytes, ids, values, states, blocks, windows, commits, normal forms and replies. It has no code of its own.
#![tactic(auto)]

#[cfg(test)]
mod blocks;
#[cfg(test)]
mod bytes;
#[cfg(test)]
mod commits;
#[cfg(test)]
mod ids;
#[cfg(test)]
mod kinds;
#[cfg(test)]
mod making;
#[cfg(test)]
mod merges;
#[cfg(test)]
mod normal_forms;
#[cfg(test)]
mod order;
#[cfg(test)]
mod replays;
#[cfg(test)]
mod replies;
#[cfg(test)]
mod squashing;
#[cfg(test)]
mod states;
#[cfg(test)]
mod texts;
#[cfg(test)]
mod windows;
