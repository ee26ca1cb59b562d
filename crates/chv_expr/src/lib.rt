//! Expressions: what they mean over the columns of a table, the same with places in place of names, and their values.
#![tactic(auto)]

mod arguments;
mod bind;
mod bound;
mod calculate;
mod call;
mod evaluate;
mod fault;
mod function;
mod kind;
mod literal;
mod operation;
mod tree;

pub use arguments::Arguments;
pub use bind::{bind_args, bind_expr, type_of};
pub use bound::Bound;
pub use evaluate::{eval, value_at};
pub use fault::{EvalFault, Untyped, ZeroDivisor};
