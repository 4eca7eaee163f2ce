//! What a domain may do at its grant entries, and what a device's maps of them come to.

ghost use Rattle.pv_words.specs.Keeping.{LearnsEntries, OwnsEntries, StaysKnown};
ghost use Rattle.pv_words.specs.MapLaws.{HoldsExactly, MapsExactly, MapsShow, RefusesExactly, SucceedsExactly, UnmapsExactly};

/// Through a port that keeps a domain's grant entries, as through any other, the domain may load an entry; name the
/// frame where the grant is known not to be open for another one; open it, once the frame is named; and end it where it
/// isn't in use. What is known of an entry follows from the words that the domain found and stored there, and stays
/// known whatever a device loads, maps, unmaps, or writes in its pages.
pub fn keeps_entries()
    ensures owned { OwnsEntries }
    ensures learned { LearnsEntries }
    ensures kept { StaysKnown }
{}

/// A flags' word is refused for some reason exactly where it doesn't permit the mode. A map comes to the first refusal
/// that applies to the words that it found, or else to a hold of the frame that it found: that exactly where the domain has
/// the entry, the flags' word that it loaded permits the mode, its exchange saw the same word, and the domain has the frame.
/// A refusal tells the words that the map found.
pub fn maps_exactly()
    ensures refused { RefusesExactly }
    ensures comes_to { MapsExactly }
    ensures held { SucceedsExactly }
    ensures shown { MapsShow }
{}

/// By the accesses of a map a device holds one page more where the map succeeds, and what it held before where it is
/// refused; each access stays in the domain's grant entries, and a refusal shows its cause. By an unmap it holds one page
/// less.
pub fn holds_exactly()
    ensures maps { HoldsExactly }
    ensures unmaps { UnmapsExactly }
{}
