ghost use Rattle.list_facts.specs.Laws.{ApartListsAreShort, ApartListsChangePlaces, ApartListsJoin, ApartSumsAreLow, HalvingFinds, MembersAreContained, PartsTell};

/// A law: an element stands in a list exactly where the list contains it.
pub fn members_are_contained<T>()
    ensures { MembersAreContained T }
{}

/// A law: lists in which no element stands twice, and which share none, are such a list together.
pub fn apart_lists_join<T>()
    ensures { ApartListsJoin T }
{}

/// A law: elements that differ, each of them in another list, are no more than that list has.
pub fn apart_lists_are_short<T>()
    ensures { ApartListsAreShort T }
{}

/// A law: elements that differ, each of them in another list, have no greater sum than that list, whatever number
/// each of them counts.
pub fn apart_sums_are_low<T>()
    ensures { ApartSumsAreLow T }
{}

/// A law: lists in which, together, no element stands twice may change places.
pub fn apart_lists_change_places<T>()
    ensures { ApartListsChangePlaces T }
{}

/// A law: the halving search of a list that rises finds a place where an element ties, or the one where it would
/// go.
pub fn halving_finds<T>()
    ensures { HalvingFinds T }
{}

/// A law: between elements that are less and elements that are greater a part alone tells of an element: whether
/// it is there, and what the list is with it and without it.
pub fn parts_tell<T>()
    ensures { PartsTell T }
{}
