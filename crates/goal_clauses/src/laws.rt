// What follows from the definitions alone. Each function is its contract, and does nothing.
ghost use Rattle.goal_clauses.specs.Laws.{GoalClausesRefute, GoalClausesAreExact};

/// Where no truth values satisfy the clauses of a goal, it has no counterexample.
pub fn counterexample_law()
    ensures { GoalClausesRefute }
{
    rml_wp::sentence_law();
    rml_wp::refuting_law();
    rml_wp::answered_law();
    ea_decide::clauses_law();
}

/// Truth values satisfy the clauses of a goal exactly where it has a counterexample.
pub fn exactness_law()
    ensures { GoalClausesAreExact }
{
    rml_wp::sentence_law();
    rml_wp::refuting_law();
    rml_wp::answered_law();
    ea_decide::exactness_law();
}
