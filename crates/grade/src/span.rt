// A span: two ends of any grade, between which a grade lies that is not known yet.
pub mod graded;

#[derive(Clone, Copy, Debug, PartialEq, Eq)]
pub struct Span<G> {
    pub low: G,
    pub high: G,
}
