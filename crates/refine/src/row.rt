use arrayvec::ArrayVec;

/// One state as it was read from a model (docs/LOGIC.md, "Models").
#[derive(Default, Drop)]
pub struct Row {
    /// The answers of its label, question by question, as many as its kind has questions, 32 at most.
    pub answers: ArrayVec<bool, 32>,
    /// The numbers of its successors in their order, 1 to 16 of them.
    pub next: ArrayVec<u16, 16>,
}
