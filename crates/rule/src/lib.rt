// What the rule of a sheet means: its rows as a formula, and what is true of its grade.
// The formulas are definitions that nothing runs; each function below promises one law of the rules of sheets.
#![tactic(auto)]

ghost use Rattle.rule.specs.Laws.{RowsAreFormulas, PublishedRule, RuleEnclosed, RuleNarrows, EndsCanCome, RuleCarried};

use grade::{Grade, Translation};

// A row is made of the rows that it names, and its formula looks ahead as far as the row is long.
pub fn rows_are_formulas()
    ensures { RowsAreFormulas }
{}

// Over no and yes, the grade of a rule, and of each row, is the published meaning.
pub fn published_meaning()
    ensures { PublishedRule }
{}

// What is known of a take encloses what it may become.
pub fn encloses<G: Grade>()
    ensures { RuleEnclosed G.Grade.ops }
{}

// It narrows as frames come, and past the length of the rule it is the grade.
pub fn narrows<G: Grade>()
    ensures { RuleNarrows G.Grade.ops }
{}

// It is no wider than it must be, where no fact is read from both sides.
pub fn reaches_ends<G: Grade>()
    ensures { EndsCanCome G.Grade.ops }
{}

// Every translation carries the grade of a rule, and what is known of it.
pub fn translations_carry<T: Translation>()
    ensures { (t : T) → RuleCarried T.From.Grade.ops T.To.Grade.ops (T.map t) }
{}
