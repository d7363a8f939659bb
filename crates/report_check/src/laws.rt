//! What follows from a verdict on a report.

ghost use Rattle.report_check.specs.Reports.{ReportVerdictsDecide};

/// A true verdict says that the text is the report of the ledger exactly if it is.
pub fn report_verdicts_decide()
    ensures { ReportVerdictsDecide }
{}
