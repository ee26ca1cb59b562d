//! Aggregate functions: states that stand for lists of values, joined in any order, and their bytes.
#![tactic(auto)]

mod aggregate;
mod any_agg;
mod byte_laws;
mod count;
mod ending;
mod extremes;
mod gathering;
mod laws;
mod merges;
mod pair_laws;
mod plain;
mod reading;
mod spelling;
mod states;
mod sums;
mod tally;
mod uniq;

pub use aggregate::Aggregate;
pub use any_agg::{AnyAgg, ValueSet};
pub use byte_laws::{
    law_join_bytes, law_state_front, law_state_in, law_state_in_fits, law_state_reads_back,
};
pub use count::Count;
pub use ending::state_end;
pub use extremes::{Greatest, Least};
pub use laws::{
    law_join_order, law_join_states, law_mixed_states, law_mixtures, law_state_of_list,
};
pub use pair_laws::{
    law_collapsed_parts, law_grouped_items, law_joined_lists, law_mapped_pairs, law_pairs,
    law_recast_pairs, law_stepwise,
};
pub use plain::{plain_size, read_scalar, scalar_code, spell_scalar};
pub use reading::any_read;
pub use spelling::any_spell;
pub use states::{any_add, any_finish, any_merge, any_unit};
pub use sums::{SignedSum, UnsignedSum};
pub use tally::Tally;
pub use uniq::Distinct;
