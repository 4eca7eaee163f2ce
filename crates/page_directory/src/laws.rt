//! What walks come to.

ghost use Rattle.page_directory.specs.Laws.{HoldsThroughout, WalksExactly, WalksShow};
ghost use Rattle.page_directory.specs.Reading.{ReadsExactly};
ghost use Rattle.page_directory.specs.Release.{ReleasesInOrder};

/// Whatever words a walk finds, a device that held some pages before holds beside them, where the walk ends with its
/// pages, just these, which are as many of the domain's as were asked for; and just what it held before where the walk is
/// refused. While it is under way it tells what the device holds beside the others. Each access is in range and lies in a
/// page that the device holds then, or in a grant entry of the domain. The
/// refusal is the one that the words show which were found last: NoNext where the reference of a next directory page was 0,
/// and else that of the last map.
pub fn walks_exactly()
    ensures holds { WalksExactly }
    ensures throughout { HoldsThroughout }
    ensures shown { WalksShow }
{}

/// Whatever words a walk finds, it loads the references in order, each once, from words 1 to 1023 of the directory page
/// which the reference before names, and maps each before it loads the next. The pages are those of the references that
/// were loaded, in order. A next directory page is asked for only where a further reference is needed, and a refusal is
/// NoNext exactly where its reference is 0; each other refusal shows the cause of the map of the reference that was loaded
/// last.
pub fn reads_exactly()
    ensures { ReadsExactly }
{}

/// A device that gives up the pages of a list, one after another, unmaps them in their order, whatever it does behind them.
pub fn releases_in_order<A>()
    ensures { ReleasesInOrder A }
{}
