// What a mark answers.
use grade::Span;

#[derive(Clone, Copy)]
pub struct Mark<G> {
    // The worst and the best that the rule can still come to.
    pub span: Span<G>,
    // Whether they are the same.
    pub settled: bool,
}
