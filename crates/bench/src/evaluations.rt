// One evaluation: the table checked, all rows written, the answers read.
use crate::images::{Shape, image};
use evaluator::evaluate;
use image::slot::Slot;
use image::stored::StoredModel;
use kripke::model::Model;
use kripke::node::{MOST_NODES, Node};
use kripke::operator::Operator;
use labels::signal::SignalWord;
use rules::model::RuleModel;
use rules::rule::Rule;
use std::alloc::Global;
use std::io;
use std::time::Instant;

// The best of so many times, and of what takes about a second or more, of so many.
const TIMES: u32 = 50;

const FEW_TIMES: u32 = 3;

// The least time of an evaluation, in nanoseconds, and how many states were marked: in the last row, and in all.
#[derive(Clone, Copy)]
struct Measured {
    least: u128,
    root: u32,
    all: u32,
}

// How many bits of the words are set.
fn ones(words: &[u64]) -> u32 {
    let mut sum = 0u32;
    for word in words {
        sum = sum.saturating_add(word.count_ones());
    }
    sum
}

// Measures an evaluation, several at once where it is short.
fn measure<M: Model>(
    rt: &HostRuntime,
    model: &M,
    nodes: &[Node],
    times: u32,
) -> io::Result<Measured> {
    let mut words = vec![in rt.alloc(); 0u64; nodes.len().saturating_mul(4)]?;
    let at_once = if nodes.len() > 9 { 1u32 } else { 1000 };
    let mut least = u128::MAX;
    let mut root = 0;
    for _ in 0..times {
        let start = Instant::now(rt)?;
        for _ in 0..at_once {
            match evaluate(model, nodes, words.as_mut_slice()) {
                Ok(evaluation) => root = evaluation.count,
                Err(_) => return Err(io::Error::from(io::ErrorKind::InvalidInput)),
            }
        }
        least = least.min(start.elapsed(rt)?.as_nanos() / (at_once as u128));
    }
    let all = ones(words.as_slice());
    Ok(Measured { least, root, all })
}

fn print_measured(rt: &HostRuntime, name: &str, measured: Measured) -> io::Result<()> {
    let Measured { least, root, all } = measured;
    println!(rt; "  {name}: {least} ns, {root} at the root, {all} in all rows")
}

fn print_time<M: Model>(rt: &HostRuntime, name: &str, model: &M, nodes: &[Node]) -> io::Result<()> {
    print_measured(rt, name, measure(rt, model, nodes, TIMES)?)
}

// Question 0, true, its negation, and a last node.
fn table(last: Node) -> [Node; 4] {
    [
        Node::new(Operator::Question, 0, 0),
        Node::new(Operator::Truth, 0, 0),
        Node::new(Operator::Not, 0, 0),
        last,
    ]
}

// Question 0 and true, and then only nodes of these operators in turn.
fn long_table(heap: Global, operators: &[Operator]) -> io::Result<Vec<Node>> {
    let mut nodes = Vec::new(heap);
    nodes.push(Node::new(Operator::Question, 0, 0))?;
    nodes.push(Node::new(Operator::Truth, 0, 0))?;
    for operator in operators.iter().cycle().take(MOST_NODES - 2) {
        let two = matches!(
            operator,
            Operator::And | Operator::Or | Operator::EU | Operator::AU
        );
        nodes.push(if two {
            Node::new(*operator, 1, 0)
        } else {
            Node::new(*operator, 0, 0)
        })?;
    }
    Ok(nodes)
}

const OPERATORS: [Operator; 11] = [
    Operator::Not,
    Operator::And,
    Operator::Or,
    Operator::EX,
    Operator::AX,
    Operator::EF,
    Operator::AF,
    Operator::EG,
    Operator::AG,
    Operator::EU,
    Operator::AU,
];

fn print_times<M: Model>(rt: &HostRuntime, name: &str, model: &M) -> io::Result<()> {
    println!(rt; "{name}")?;
    print_time(
        rt,
        "q0, true, !q0",
        model,
        &table(Node::new(Operator::Truth, 0, 0)),
    )?;
    print_time(rt, "EX q0", model, &table(Node::new(Operator::EX, 0, 0)))?;
    print_time(
        rt,
        "E[true U q0]",
        model,
        &table(Node::new(Operator::EU, 1, 0)),
    )?;
    print_time(
        rt,
        "A[true U q0]",
        model,
        &table(Node::new(Operator::AU, 1, 0)),
    )?;
    print_time(rt, "EG !q0", model, &table(Node::new(Operator::EG, 2, 0)))?;
    print_time(rt, "AG !q0", model, &table(Node::new(Operator::AG, 2, 0)))?;
    let all = long_table(rt.alloc(), &OPERATORS)?;
    print_time(
        rt,
        "2045 nodes, all operators in turn",
        model,
        all.as_slice(),
    )?;
    let untils = long_table(rt.alloc(), &[Operator::EU])?;
    print_time(
        rt,
        "2045 nodes, each E[true U q0]",
        model,
        untils.as_slice(),
    )
}

fn stored(heap: Global, shape: Shape, lit: u8) -> io::Result<StoredModel<SignalWord>> {
    let bytes = image(heap, shape, Some(lit))?;
    let mut model = StoredModel::new(heap)?;
    match model.load(bytes.as_slice(), Slot::First) {
        Ok(()) => Ok(model),
        Err(_) => Err(io::Error::from(io::ErrorKind::InvalidInput)),
    }
}

pub(crate) fn report(rt: &HostRuntime) -> io::Result<()> {
    print_times(
        rt,
        "256 states, 16 successors each",
        &stored(rt.alloc(), Shape::Dense, 0)?,
    )?;
    print_times(
        rt,
        "ring with the sweep",
        &stored(rt.alloc(), Shape::Ring, 0)?,
    )?;
    print_times(
        rt,
        "ring against the sweep",
        &stored(rt.alloc(), Shape::RingBackward, 0)?,
    )?;
    let rule = Rule {
        care: 0,
        need: 0,
        set: 1,
        clear: 2,
    };
    print_times(
        rt,
        "rule model, 256 states, 16 rules that apply",
        &ruled(&[rule; 16])?,
    )?;
    report_worst(rt)
}

fn ruled(rules: &[Rule]) -> io::Result<RuleModel> {
    let mut model = RuleModel::new();
    match model.load(8, 0, rules) {
        Ok(()) => Ok(model),
        Err(_) => Err(io::Error::from(io::ErrorKind::InvalidInput)),
    }
}

// Rules that count with the highest bit as the lowest: each state but 255 leads to the one whose bits, read backward, are the next number,
// so that the path goes to and fro. Before them stand as many that lead from each state to itself.
fn counting_rules() -> [Rule; 16] {
    let mut rules = [Rule::default(); 16];
    for k in 0..8usize {
        let bit = 128u8 >> k;
        let above = !(255u8 >> k);
        rules[8 + k] = Rule {
            care: above | bit,
            need: above,
            set: bit,
            clear: above,
        };
    }
    rules
}

// True, the conjunction of the first eight questions, which holds at state 255 alone where the label is the number, and then untils of the two.
fn counting_table(heap: Global) -> io::Result<Vec<Node>> {
    let mut nodes = Vec::new(heap);
    nodes.push(Node::new(Operator::Truth, 0, 0))?;
    nodes.push(Node::new(Operator::Question, 0, 0))?;
    for j in 1..8u16 {
        nodes.push(Node::new(Operator::Question, j, 0))?;
        nodes.push(Node::new(Operator::And, 2 * j, 2 * j - 1))?;
    }
    for _ in 16..MOST_NODES {
        nodes.push(Node::new(Operator::EU, 0, 15))?;
    }
    Ok(nodes)
}

// What takes the evaluator longest: as many sweeps as there are states.
fn report_worst(rt: &HostRuntime) -> io::Result<()> {
    let name = "2045 nodes, nearly each E[true U f], f at the path's end";
    println!(rt; "a path to and fro, 16 successors each")?;
    let untils = long_table(rt.alloc(), &[Operator::EU])?;
    let model = stored(rt.alloc(), Shape::ToAndFro, 128)?;
    print_measured(rt, name, measure(rt, &model, untils.as_slice(), FEW_TIMES)?)?;
    println!(rt; "a path to and fro, by 16 rules")?;
    let untils = counting_table(rt.alloc())?;
    let model = ruled(&counting_rules())?;
    print_measured(rt, name, measure(rt, &model, untils.as_slice(), FEW_TIMES)?)
}
