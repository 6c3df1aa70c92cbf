// Reads one image from standard input and prints the model that it describes, or why it is refused.

#![tactic(auto)]

use image::slot::Slot;
use image::stored::{LONGEST_IMAGE, StoredModel};
use kripke::label::Label;
use kripke::model::Model;
use labels::coded::Coded;
use labels::kind::Kind;
use labels::reading::Reading;
use labels::signal::SignalWord;
use std::io;
use std::io::Read;

// One state: the questions that it answers yes, and its successors.
fn print_state<M: Model>(rt: &(impl Print), model: &M, s: usize) -> io::Result<()> {
    let label = model.label(s);
    print!(rt; "state {s}:")?;
    for i in (0..M::Label::questions()).filter(|i| label.answer(*i)) {
        print!(rt; " q{i}")?;
    }
    print!(rt; " ->")?;
    for next in (0..model.degree(s)).map(|i| model.successor(s, i)) {
        print!(rt; " {next}")?;
    }
    println!(rt; "")
}

// The kind, the number of states and the initial state, and then a line a state.
// The program `panel` lists a model in the same words: a library for both would be longer than these lines.
fn print_model<M: Model>(rt: &(impl Print), kind: Kind, model: &M) -> io::Result<()> {
    let states = model.states();
    let initial = model.initial();
    let noun = if states == 1 { "state" } else { "states" };
    println!(rt; "{kind}, {states} {noun}, initial state {initial}")?;
    for s in 0..states {
        print_state(rt, model, s)?;
    }
    Ok(())
}

fn show<L: Coded>(rt: &HostRuntime, image: &[u8]) -> io::Result<()> {
    let mut model = StoredModel::<L>::new(rt.alloc())?;
    match model.load(image, Slot::First) {
        Ok(()) => print_model(rt, L::kind(), &model),
        Err(refusal) => println!(rt; "{refusal}"),
    }
}

fn main(rt: HostRuntime) -> io::Result<()> {
    let mut image = Vec::new(rt.alloc());
    // Where there is one byte more, the image is refused whatever follows.
    let most = LONGEST_IMAGE as u64 + 1;
    rt.stdin().take(most).read_to_end(&mut image)?;
    // A match at each caller: no closure is generic in the label type, and a trait of what to do would be longer.
    match Kind::of_image(image.as_slice()) {
        Kind::SignalWords => show::<SignalWord>(&rt, image.as_slice()),
        Kind::Readings => show::<Reading>(&rt, image.as_slice()),
    }
}
