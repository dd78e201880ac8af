//! Laws of sets, sequences, maps, words and rows, each the contract of a function that does nothing.
ghost use Rattle.kid_value.specs.Entries.{MapsHoldValues};
ghost use Rattle.kid_value.specs.MapLaws.{MapLaws};
ghost use Rattle.kid_value.specs.Members.{SetsHoldMembers};
ghost use Rattle.kid_value.specs.RowLaws.{RowLaws};
ghost use Rattle.kid_value.specs.SequenceLaws.{SequenceLaws};
ghost use Rattle.kid_value.specs.SetLaws.{SetLaws};
ghost use Rattle.kid_value.specs.SortLaws.{SortLaws};
ghost use Rattle.kid_value.specs.WordLaws.{WordLaws};

/// An operator on sets, sequences or maps that makes a set gives that of just the values of its
/// rule: `union` those that are in the one or the other, `dom` those at which the map has a value,
/// and so on.
pub fn sets_hold_members()
    ensures { SetsHoldMembers }
{}

/// Two canonical sets of the same members are one; `subset` tells whether each member is one of the
/// other; `least` is a member that no other is before; `card` counts the members, and `sum` adds
/// them up; and of two sets the one that lacks the least value in which they differ is first.
pub fn set_laws()
    ensures { SetLaws }
{}

/// Two sequences of the same items are one; what `snoc` adds; `prefix` tells whether the second has
/// the first's items and then more, and what the two then have in common; `rest` is what follows a
/// prefix; and the order is lexicographic.
pub fn sequence_laws()
    ensures { SequenceLaws }
{}

/// An operator that makes a map gives one that has just the values of its rule: `put` the given value
/// at the given key and at each other key what the map has, and so on.
pub fn maps_hold_values()
    ensures { MapsHoldValues }
{}

/// Two canonical maps that have the same at each key are one; `ran` holds what a map has at some key;
/// which keys `put`, `drop`, `fill` and `narrow` leave; what `submap` and `fits` say of each key; and
/// of two maps the one that is lower at the least key at which they differ is first.
pub fn map_laws()
    ensures { MapLaws }
{}

/// `wenc` gives the word that has the bits of a set's numbers, `wdec` the set of the numbers of a
/// word's bits and no other; two words of the same bits are one, and a word and its set give each
/// other back; `win` tells whether a word has the bit of a number, `wcard` counts its bits, and
/// `wleast` gives the number of the lowest; `wor` has the bits of either word, `wand` of both,
/// `wnot` of the first alone.
pub fn word_laws()
    ensures { WordLaws }
{}

/// `rget` reads the map that `rdec` makes of a row, whose keys are numbers at which the row has
/// items; the row of `renc` has at its numbers what the map has, and nothing beyond, so that it gives
/// back a map that has no other keys; `rput` sets the value at a number of the row, `rdrop` takes it
/// away, and at each other key both leave the map as it was.
pub fn row_laws()
    ensures { RowLaws }
{}

/// A value of a sort of sets, sequences or maps is such a value, a sequence no longer than its sort
/// says; the members of a set, and a map's keys with their values, are of the sorts in it; and what
/// `with`, `without`, `union`, `inter`, `diff`, `snoc`, `put`, `drop`, `fill` and `narrow` make of
/// values of these sorts is of its sort.
pub fn sort_laws()
    ensures { SortLaws }
{}
