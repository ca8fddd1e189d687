// Answers that are worked through.
ghost use Rattle.why_model.specs.Rows.{AreAnswered, AreAnsweredLater};

// One of each kind, and names that stand for nothing that is priced.
fn answers_are_worked_through()
    ensures { AreAnswered }
{}

// What is frozen, late, fixed, expired or refused.
fn later_answers_are_worked_through()
    ensures { AreAnsweredLater }
{}
