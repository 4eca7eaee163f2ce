//! What comes of a stream since it was opened, whatever is done with it.

ghost use Rattle.pcm_stream.specs.Laws.{AllAreCounted, AllGoInOrder};

/// Whatever was done with a stream since it was opened: its position is the number of octets that moved, modulo 2^64, its
/// phase that number modulo the period, and the octets that a capture stream took are those of its line, from octet 0 on
/// and without a gap.
pub fn counts_all()
    ensures { AllAreCounted }
{}

/// Whatever was done with a stream since it was opened: what entered its queue left it in the same order, each octet once,
/// or is still in it.
pub fn goes_in_order()
    ensures { AllGoInOrder }
{}
