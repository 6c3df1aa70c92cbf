ghost use Rattle.compare.specs.Calls as calls;
ghost use Rattle.compare.specs.Calls.{SameModels, first, questions, rounds, second, table};
ghost use Rattle.compare.specs.Law.{Did, Run, Steady, served};
ghost use Rattle.std.specs.Prelude.{◌≡◌, drop, take};

use crate::comparison::Comparison;
use crate::requests::{Answer, Request};
use kripke::label::Label;
use kripke::model::Model;
use kripke::refusal::Refusal;

impl Comparison {
    // Answers one request.
    fn answer(&mut self, request: Request) -> Result<Answer, Refusal>
        ensures same { SameModels self.old self.new }
        ensures did { Did self.old request result self.new }
    {
        match request {
            Request::Round => Ok(Answer::Round(self.round()?)),
            Request::Class(i) => Ok(Answer::Class(self.class(i)?)),
            Request::Verdict => Ok(Answer::Verdict(self.verdict()?)),
            Request::Formula(places) => Ok(Answer::Formula(self.table_for(places)?.len())),
        }
    }

    /// Answers requests in their order, into the places from the first on, as many as there are places: each gets its answer or its refusal (17 to 21, layer 6).
    /// Requests past the places are not looked at, and the rest of the places stays as it was. A formula that is told is the one that `table` lends then.
    ///
    /// Where no round is accepted the comparison is exactly what it was. docs/FORMATS.md has requests and answers ("Requests and answers of a comparison").
    pub fn run(&mut self, requests: &[Request], answers: &mut [Result<Answer, Refusal>])
        ensures law { let n = served requests.now answers.old in
            Run (first self.old) (second self.old) (questions self.old) (rounds self.old) (table self.new) (take n requests.now) (take n answers.new) (rounds self.new) }
        ensures rest { let n = served requests.now answers.old in drop n answers.new ≡ drop n answers.old }
        ensures same { SameModels self.old self.new }
        ensures steady { Steady self.old self.new }
    {
        for i in 0..requests.len().min(answers.len()) {
            answers[i] = self.answer(requests[i]);
        }
    }

    /// Opens the comparison of two models of one label kind and runs the requests on it, as `open` and `run` do; the comparison as it is after them.
    /// Each place that is reached has its answer or its refusal (17 to 21, layer 6); the call itself refuses nothing and allocates nothing
    /// (docs/FORMATS.md, "Requests and answers of a comparison"; docs/LOGIC.md, "The comparison": a run).
    pub fn open_and_run<L: Label, M: Model<Label = L>, N: Model<Label = L>>(
        first: &M,
        second: &N,
        requests: &[Request],
        answers: &mut [Result<Answer, Refusal>],
    ) -> Comparison
        ensures first { calls.first result ≡ M.Model.meaning first.now }
        ensures second { calls.second result ≡ N.Model.meaning second.now }
        ensures questions { questions result ≡ L.Label.count }
        ensures law { let n = served requests.now answers.old in
            Run (M.Model.meaning first.now) (N.Model.meaning second.now) L.Label.count 0 (table result) (take n requests.now) (take n answers.new) (rounds result) }
        ensures rest { let n = served requests.now answers.old in drop n answers.new ≡ drop n answers.old }
    {
        let mut comparison = Comparison::open(first, second);
        comparison.run(requests, answers);
        comparison
    }
}
