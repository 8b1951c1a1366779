//! Which entry decides a right.
ghost use Rattle.sec_check.specs.Laws.{EachBitPasses, FirstEntryDecides};

/// The first entry that has a bit decides it, and rights are allowed if each of their bits is. It
/// does nothing.
pub fn first_entry_decides()
    ensures bits { FirstEntryDecides }
    ensures rights { EachBitPasses }
{}
