// The least and the greatest of some answers.

#[derive(Clone, Copy)]
pub struct Span<T> {
    pub least: T,
    pub greatest: T,
}

// The span of the answers before, if there are any, and of one more.
pub fn widened<T: Copy + Ord>(before: Option<Span<T>>, answer: T) -> Span<T> {
    match before {
        None => Span {
            least: answer,
            greatest: answer,
        },
        Some(span) => Span {
            least: span.least.min(answer),
            greatest: span.greatest.max(answer),
        },
    }
}
