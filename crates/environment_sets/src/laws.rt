// Laws of sets, of their order and of lists of them.

ghost use Rattle.environment_sets.specs.Laws.{SlotsAreBelow, SameSlotsAreEqual, SubsetsHaveLess, SizesAreCounts, NoneIsHitByNone, OrderIsStrict, OrderIsTransitive, EqualSetsAreSame, OrderIsTotal, ListingsAreUnique, WalksListAll};

/// Each slot of an environment is below [`SLOTS`](crate::SLOTS).
pub fn slots_are_below_the_bound()
    ensures { SlotsAreBelow }
{}

/// Environments with the same slots are equal, also by `==`.
pub fn same_slots_are_equal()
    ensures { SameSlotsAreEqual }
{}

/// The signature of a subset has no bit that the signature of the other lacks.
pub fn subsets_have_less()
    ensures { SubsetsHaveLess }
{}

/// The size of a set is the count of its elements in any list of distinct numbers that has them all.
pub fn sizes_are_counts()
    ensures { SizesAreCounts }
{}

/// No two sets come before each other.
pub fn order_is_strict<N>()
    ensures { OrderIsStrict N }
{}

/// A set that comes before another comes before what comes after that one.
pub fn order_is_transitive<N>()
    ensures { OrderIsTransitive N }
{}

/// Of two sets of listed names one comes before the other, unless they are the same.
pub fn order_is_total<N>()
    ensures { OrderIsTotal N }
{}

/// Sets of listed names that compare equal are the same.
pub fn equal_sets_are_same<N>()
    ensures { EqualSetsAreSame N }
{}

/// There is one list of the sets with a property in which each comes before the later ones.
pub fn listings_are_unique<N>()
    ensures { ListingsAreUnique N }
{}

/// Of no sets the one minimal hitting set is the empty set.
pub fn none_is_hit_by_none()
    ensures { NoneIsHitByNone }
{}

/// A walk from the start, from each set to the next until there is none, gives every member inside the mask once, in
/// order.
pub fn walks_list_all<N>()
    ensures { WalksListAll N }
{}
