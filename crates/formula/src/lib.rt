// Formulas: rules as trees, their grades, and what is true of them in every lattice of grades.
// The trees are definitions that nothing runs; each function below promises one law of them.
#![tactic(auto)]

ghost use Rattle.formula.specs.Laws.{PublishedMeaning, Local, Enclosure, Narrowing, EndsReached, CarriesGrades};
ghost use Rattle.formula.specs.Neighbours.{NeighboursDiffer};

use grade::{Grade, Translation};

// The grade over no and yes is the published meaning.
pub fn published_meaning()
    ensures { PublishedMeaning }
{}

// Two readings that lie close differ from it.
pub fn neighbours_differ()
    ensures { NeighboursDiffer }
{}

// A grade rests on the frames up to the horizon alone.
pub fn looks_no_further<G: Grade>()
    ensures { Local G.Grade.ops }
{}

// Grades worked in spans enclose the grade, nest, and settle.
pub fn encloses<G: Grade>()
    ensures { Enclosure G.Grade.ops }
{}

// What is known of a take encloses what it may become, and narrows to the grade.
pub fn narrows<G: Grade>()
    ensures { Narrowing G.Grade.ops }
{}

// Where no fact is read from both sides, each end of what is known is the grade of a take.
pub fn reaches_both_ends<G: Grade>()
    ensures { EndsReached G.Grade.ops }
{}

// Every translation carries the grade, of values and of spans.
pub fn translations_carry<T: Translation>()
    ensures { (t : T) → CarriesGrades T.From.Grade.ops T.To.Grade.ops (T.map t) }
{}
