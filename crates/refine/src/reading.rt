ghost use Rattle.std.specs.Prelude.{◌≡◌, ◌<◌, map};
ghost use Rattle.kripke.specs.Structure.{size, state, successors};
ghost use Rattle.refine.specs.Rows.{state_of, structure};

use crate::row::Row;
use crate::table::Table;
use arrayvec::ArrayVec;
use kripke::label::Label;
use kripke::model::Model;

// The answers of a label, question by question.
fn answers<L: Label>(label: &L) -> ArrayVec<bool, 32>
    ensures { result.items ≡ L.Label.answers label.now }
{
    let mut answers = ArrayVec::new();
    for i in 0..L::questions() {
        answers.push(label.answer(i));
    }
    answers
}

// The successors of state s in their order.
fn next<M: Model>(model: &M, s: usize) -> ArrayVec<u16, 16>
    requires { s < size (M.Model.meaning model.now) }
    ensures { result.items ≡ successors (M.Model.meaning model.now) s }
{
    let mut next = ArrayVec::new();
    for i in 0..model.degree(s) {
        next.push(model.successor(s, i) as u16);
    }
    next
}

// State s of the model.
fn row<L: Label, M: Model<Label = L>>(model: &M, s: usize) -> Row
    requires { s < size (M.Model.meaning model.now) }
    ensures { state_of result ≡ state (M.Model.meaning model.now) s }
{
    let label = model.label(s);
    Row {
        answers: answers(&label),
        next: next(model, s),
    }
}

// The states of the model in their order.
fn rows<L: Label, M: Model<Label = L>>(model: &M) -> ArrayVec<Row, 256>
    ensures { map state_of result.items ≡ (M.Model.meaning model.now).states }
{
    let mut rows = ArrayVec::new();
    for s in 0..model.states() {
        rows.push(row(model, s));
    }
    rows
}

// The whole model, asked state by state.
pub(crate) fn read<L: Label, M: Model<Label = L>>(model: &M) -> Table
    ensures structure { structure result.initial result.rows.items ≡ M.Model.meaning model.now }
    ensures questions { result.questions ≡ L.Label.count }
{
    let questions = L::questions();
    let initial = model.initial();
    let rows = rows(model);
    Table {
        questions,
        initial,
        rows,
    }
}
