//! What is so of all legal journals.

ghost use Rattle.scenario_run.specs.Laws.{LegalJournalsAreOne};

/// A scenario has one journal: where memory wasn't wanting, what a scenario states leaves nothing open.
pub fn legal_journals_are_one()
    ensures { LegalJournalsAreOne }
{}
