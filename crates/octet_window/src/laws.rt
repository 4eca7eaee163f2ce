//! What the pieces of a range come to.

ghost use Rattle.octet_window.specs.Laws.{BlendsRange, CoversRange, JoinsRange, LiesInPages, ReplacesWhole};

/// The octets of the pieces of a range are those of the range, in order, each once, and they are octets of words of the pages.
/// What is loaded for the pieces joins to the octets of the range, as the words were found; and where octets are blended into
/// these words piece by piece, just the octets of the range are changed, and all others of their words stay. For a piece that
/// is a whole word the octets alone tell the word that is blended.
pub fn covers_exactly()
    ensures covers { CoversRange }
    ensures lies { LiesInPages }
    ensures joins { JoinsRange }
    ensures blends { BlendsRange }
    ensures whole { ReplacesWhole }
{}
