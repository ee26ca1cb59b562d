//! What statements are, how they are written, and why they are refused.
#![tactic(auto)]

mod expr;
mod laws;
mod refusal;
mod statement;
mod text;
mod token;

pub use expr::{Args, BinaryOp, Expr, Literal, UnaryOp};
pub use laws::law_well_formed;
pub use refusal::Refusal;
pub use statement::{
    ColumnDef, ColumnDefs, CreateTable, CreateView, EngineWord, Insert, Item, KindWord, LiteralRow,
    LiteralRows, Names, Optimize, Order, Select, Settings, ShowParts, Statement,
};
pub use text::{Digits, Name, Quoted};
pub use token::TokenKind;
