//! Laws of reports: each is the contract of a function that does nothing.
ghost use Rattle.wcet_report.specs.Laws.{ReportIsOne, ReportHasRoots, ReportHasEach, ReportHasLoops, ReportHasReasons, ReportTells};

/// Outcomes have at most one report.
pub fn report_is_one()
    ensures { ReportIsOne }
{}

/// The line of each root stands in the report.
pub fn report_has_roots()
    ensures { ReportHasRoots }
{}

/// The line of the context of each outcome stands in the report.
pub fn report_has_each()
    ensures { ReportHasEach }
{}

/// The line of each loop of each outcome stands in the report.
pub fn report_has_loops()
    ensures { ReportHasLoops }
{}

/// The line of each reason of each outcome stands in the report.
pub fn report_has_reasons()
    ensures { ReportHasReasons }
{}

/// What a report is of can be read back from it: the roots, and each outcome.
pub fn report_tells()
    ensures { ReportTells }
{}
