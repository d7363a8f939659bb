//! What follows from a verdict, from a full check, and from the columns of a line.

ghost use Rattle.ledger_check.specs.{Columns.ColumnsAreReadBack, FirstLines.FullChecksGoOn};
ghost use Rattle.ledger_check.specs.{FullChecks.FullChecksDecide, Orders.OrdersDecide};
ghost use Rattle.ledger_check.specs.Verdicts.{VerdictsDecide};

/// A true verdict is `legal` exactly if the text is, whole, a ledger of legal histories.
pub fn verdicts_decide()
    ensures { VerdictsDecide }
{}

/// No line of a ledger is earlier than the line before it exactly if its taps are in canonical order.
pub fn orders_decide()
    ensures { OrdersDecide }
{}

/// A full check has no remark exactly if the text is, whole, a ledger of legal histories.
pub fn full_checks_decide()
    ensures { FullChecksDecide }
{}

/// What is reported of a text's first lines is a prefix of each full check's report of the text.
pub fn full_checks_go_on()
    ensures { FullChecksGoOn }
{}

/// The columns of a line are read back as they were written: fields, class, upload and place.
pub fn columns_are_read_back()
    ensures { ColumnsAreReadBack }
{}
