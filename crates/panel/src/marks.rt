use crate::failure::Failure;
use evaluator::{Evaluation, evaluate};
use kripke::model::Model;
use kripke::node::Node;
use std::alloc::Global;

// Where the formula of each node of a table holds on a model.
#[derive(Drop)]
pub(crate) struct Marks {
    // Four words a node, which hold a bit for each state.
    rows: Vec<u64>,
    pub(crate) root: Evaluation,
}

impl Marks {
    pub(crate) fn of<M: Model>(heap: Global, model: &M, nodes: &[Node]) -> Result<Marks, Failure> {
        let mut rows = vec![in heap; 0u64; nodes.len().saturating_mul(4)]?;
        let root = evaluate(model, nodes, rows.as_mut_slice())?;
        Ok(Marks { rows, root })
    }

    // Whether node i holds at state s; a number that names none holds nowhere, where the evaluator's own reading would owe that it is in range.
    pub(crate) fn holds(&self, i: usize, s: usize) -> bool {
        match self.rows.get(i.saturating_mul(4).saturating_add(s / 64)) {
            Some(bits) => (*bits >> (s % 64)) & 1 == 1,
            None => false,
        }
    }

    // Whether the root, which is the last node, holds at state s.
    pub(crate) fn root_holds(&self, s: usize) -> bool {
        self.holds((self.rows.len() / 4).saturating_sub(1), s)
    }
}
