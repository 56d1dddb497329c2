// The slots of the components and of the standing measurements of a present, in its order.
#![tactic(auto)]

mod asking;
mod choosing;
mod laws;
mod listing;
mod positions;
mod showing;
mod standing;

pub use asking::{label_after, value_after};
pub use choosing::chosen;
pub use laws::{
    a_component_more_stands, a_measurement_more_stands, a_parked_reading_is_forgotten,
    a_parked_reading_stands, a_reading_is_parked, environments_are_slots, free_slots_do_not_stand,
    nets_alter_nothing, nothing_stands_for_nothing, slots_are_environments, slots_have_its_labels,
    slots_have_its_nogoods, slots_name_the_present, some_slot_is_free,
    the_last_component_is_forgotten, the_mask_is_everything, the_mask_is_remembered,
    the_order_is_the_presents,
};
pub use listing::{conflict_nogood, conflicts};
pub use positions::{
    hitting_sets_are_slots, positions_are_in_range, positions_have_slots,
    positions_keep_hitting_sets, positions_keep_subsets, positions_keep_the_order,
};
pub use standing::Standing;
