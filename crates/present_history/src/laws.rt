// Laws of what takes changes back.
ghost use Rattle.present_history.specs.Laws.{ChangesAreUndone, ChangesAreKept, EarlierAreTaken, EarlierAreAsMany, EarlierAreLawful, RetractedStood, WhatStoodIsRetracted, MeasuredAreListed, RetractedAreFew};

/// A change of a present to which no check applies can be taken back, and then the present is as before it.
pub fn changes_are_undone()
    ensures { ChangesAreUndone }
{}

/// The earlier presents of the newest changes are the newest earlier presents.
pub fn earlier_are_taken()
    ensures { EarlierAreTaken }
{}

/// After a change the earlier presents are the one before it and then those before that, as many as are kept.
pub fn changes_are_kept()
    ensures { ChangesAreKept }
{}

/// There are as many earlier presents as changes.
pub fn earlier_are_as_many()
    ensures { EarlierAreAsMany }
{}

/// The earlier presents of a lawful one are lawful.
pub fn earlier_are_lawful()
    ensures { EarlierAreLawful }
{}

/// What was retracted is measured in some earlier present.
pub fn retracted_stood()
    ensures { RetractedStood }
{}

/// What is measured in some earlier present is measured still, or was retracted.
pub fn what_stood_is_retracted()
    ensures { WhatStoodIsRetracted }
{}

/// A lawful present measures what stands in its list.
pub fn measured_are_listed()
    ensures { MeasuredAreListed }
{}

/// No more measurements were retracted than changes made.
pub fn retracted_are_few()
    ensures { RetractedAreFew }
{}
