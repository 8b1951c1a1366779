// What the laws of the manager mean for the rule of turns.
ghost use Rattle.scm_book.specs.Ghosts.{ghosts_of};
ghost use Rattle.scm_book.specs.Laws.{EachFollows, KeepsStanding};

use record_journal::Keeper;

/// An entry that may be made after a legal history, and is owed or has room, is all that a commit
/// asks for: the longer history is legal, no earlier entry made or named those that this entry
/// makes, and callers that it doesn't name live on.
pub fn each_entry_follows<K: Keeper>()
    ensures { EachFollows (ghosts_of K.held K.faults K.settled K.crashes K.are_crashes K.asked) }
{}

/// What the holder of the turn has stands at the end of the longer history, once it made a step:
/// its manager in that history's state, its trail and its counts, its keeper with the changes that
/// were kept, and memory for all that is owed then.
pub fn standing_is_kept<K: Keeper>()
    ensures { KeepsStanding (ghosts_of K.held K.faults K.settled K.crashes K.are_crashes K.asked) }
{}
