// Sets of names, their order, and lists of them.
#![tactic(auto)]

mod environment;
mod environment_list;
mod laws;
mod word;

pub use environment::{Env, SLOTS};
pub use environment_list::EnvList;
pub use laws::{
    equal_sets_are_same, listings_are_unique, none_is_hit_by_none, order_is_strict, order_is_total,
    order_is_transitive, same_slots_are_equal, sizes_are_counts, slots_are_below_the_bound,
    subsets_have_less, walks_list_all,
};
