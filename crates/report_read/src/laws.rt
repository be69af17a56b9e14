// What follows from the definitions alone. Each function is its contract, and does nothing.
ghost use Rattle.report_read.specs.Laws.{PrintedIsOne, ReadingIsExact};
ghost use Rattle.report_read.specs.Printing.{ReportsArePrinted, PrintedIsShown};

/// A text is at most one printed report. The text of a right report is one, and says what is printed of it; and what is
/// printed of a counterexample is one, whose path ends as before.
pub fn print_laws()
    ensures one { PrintedIsOne }
    ensures rendered { ReportsArePrinted }
    ensures shown { PrintedIsShown }
{
    line_scan::scan_laws();
    line_scan::line_laws();
    fol_sig::tuple_laws();
    fol_sig::tuple_set_laws();
    rml_command::update_law();
    rml_command::path_law();
    rml_command::goal_law();
}

// How the lines are read is what they say.
pub(crate) fn reading_laws()
    ensures { ReadingIsExact }
{
    line_scan::scan_laws();
    fol_sig::tuple_laws();
    rml_command::goal_law();
}
