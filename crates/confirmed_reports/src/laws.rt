// What follows from the definitions alone. Each function is its contract, and does nothing.
ghost use Rattle.confirmed_reports.specs.Confirmed.{ReportsAreConfirmed, CheckedIsConfirmed};

/// Of the text that a right report of a text's model has, whatever `replay` answers is that it is confirmed, with as
/// many executions as groups fail.
pub fn confirmed_law()
    ensures { ReportsAreConfirmed }
{
    model_names::names_law();
    report_read::print_laws();
    report_replay::judgement_law();
    line_scan::line_laws();
}

/// Of the text of a report that `check` answers, under limits that may be asked for, whatever `replay` answers is that
/// it is confirmed, with as many executions as groups fail.
pub fn checked_law()
    ensures { CheckedIsConfirmed }
{
    confirmed_law();
}
