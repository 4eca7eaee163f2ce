//! What a link's Connect and Drop come to.

ghost use Rattle.link_core.specs.Laws.{ConnectsExactly, ConnectsShow, HoldsThroughout, DropsExactly, LooksShow};

/// By the accesses of a Connect a device holds the pages that were mapped more, also where a map was refused; each access
/// stays in its pages and in the domain's grant entries, and a refusal shows its cause. While a Connect is under way a link
/// tells what it holds. By the accesses of a Drop a device holds the dropped pages no longer, and the others as before.
pub fn holds_exactly()
    ensures connects { ConnectsExactly }
    ensures throughout { HoldsThroughout }
    ensures drops { DropsExactly }
{}

/// A Connect's refusal is the one that the words show which its last map found, and what a Look answers follows from the
/// index that it loaded.
pub fn shows_words()
    ensures connects { ConnectsShow }
    ensures looks { LooksShow }
{}
