// Laws of what stands for a present.

ghost use Rattle.standing_view.specs.Laws.{SlotsNameThePresent, SlotsHaveItsLabels, SlotsHaveItsNogoods, EnvironmentsAreSlots, SlotsAreEnvironments, TheMaskIsRemembered, TheMaskIsEverything, TheOrderIsThePresents, NothingStandsForNothing, NetsAlterNothing, OneComponentMore, OneMeasurementMore, AReadingIsParked, AParkedReadingStands, AParkedReadingIsForgotten, TheLastComponentIsForgotten, SomeSlotIsFree, FreeSlotsDoNotStand};

/// The slots that stand and the places of the present name the same assumptions.
pub fn slots_name_the_present()
    ensures { SlotsNameThePresent }
{}

/// The labels over the slots that stand are those of the present.
pub fn slots_have_its_labels()
    ensures { SlotsHaveItsLabels }
{}

/// The nogoods over the slots that stand are those of the present.
pub fn slots_have_its_nogoods()
    ensures { SlotsHaveItsNogoods }
{}

/// Each environment of the present is that of exactly one set of slots that stand.
pub fn environments_are_slots()
    ensures { EnvironmentsAreSlots }
{}

/// The places of slots that stand are an environment of the present.
pub fn slots_are_environments()
    ensures { SlotsAreEnvironments }
{}

/// Each slot that stands is remembered.
pub fn the_mask_is_remembered()
    ensures { TheMaskIsRemembered }
{}

/// The places of all slots that stand are all of the present.
pub fn the_mask_is_everything()
    ensures { TheMaskIsEverything }
{}

/// Sets of slots that stand come in the order of their places.
pub fn the_order_is_the_presents()
    ensures { TheOrderIsThePresents }
{}

/// Where nothing is remembered, nothing stands for the empty present.
pub fn nothing_stands_for_nothing()
    ensures { NothingStandsForNothing }
{}

/// A further net alters nothing.
pub fn nets_alter_nothing()
    ensures { NetsAlterNothing }
{}

/// One component more stands for the present with it.
pub fn a_component_more_stands()
    ensures { OneComponentMore }
{}

/// One measurement more stands for the present with it.
pub fn a_measurement_more_stands()
    ensures { OneMeasurementMore }
{}

/// A measurement that stands no more is parked.
pub fn a_reading_is_parked()
    ensures { AReadingIsParked }
{}

/// A parked reading stands again.
pub fn a_parked_reading_stands()
    ensures { AParkedReadingStands }
{}

/// A parked reading is forgotten, and nothing else is.
pub fn a_parked_reading_is_forgotten()
    ensures { AParkedReadingIsForgotten }
{}

/// The last component stands no more and is forgotten, and nothing else is.
pub fn the_last_component_is_forgotten()
    ensures { TheLastComponentIsForgotten }
{}

/// What stands for a lawful present leaves a slot free, beside the parked readings of as many presents as are kept.
pub fn some_slot_is_free()
    ensures { SomeSlotIsFree }
{}

/// A slot that is free does not stand.
pub fn free_slots_do_not_stand()
    ensures { FreeSlotsDoNotStand }
{}
