//! What a report without words has of the one with them.

ghost use Rattle.report_text.specs.Report.{PlainIsPart};

/// A report without words has the lines of the report with words that belong to entries which have one without words, in
/// order, and no others.
pub fn plain_reports_are_parts()
    ensures { PlainIsPart }
{}
