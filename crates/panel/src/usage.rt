// How the commands are called.
pub(crate) const USAGE: &str = "usage: panel compare OLD.img NEW.img
       panel check MODEL.img CONDITION
       panel show [--dot] MODEL.img
       panel rules [--dot | --check CONDITION] BITS INITIAL [CARE,NEED,SET,CLEAR ...]
       panel batch COMMANDS
       panel COMMAND --help
";

pub(crate) const COMPARE: &str = "usage: panel compare OLD.img NEW.img

Says that the two panels are alike, so that no condition of any size tells them
apart, or gives a condition that is true at the first and false at the second,
and one way that the panels can go when it is tried. A line of that way has a
step of one panel, and then a step of the other: its only one, or one that is
supposed, of those that it could take. After another of these the rest of the
way need not hold.

Different after N rounds: a condition that is made of T, questions, !, & and EX
alone, with fewer than N EX within one another, is true at both panels or at
neither. One of another form may tell them apart with fewer, as one with EF and
no EX.
";

pub(crate) const CHECK: &str = "usage: panel check MODEL.img CONDITION

Says whether the condition holds at the panel's initial state, and at which
states it holds. A condition is T, qN, !f, EX f, AX f, EF f, AF f, EG f, AG f,
(f&f), (f|f), E[f U f] or A[f U f].
";

pub(crate) const SHOW: &str = "usage: panel show [--dot] MODEL.img

Lists the states of the panel, the questions that each answers yes, and its
successors; with --dot as a graph for Graphviz.
";

pub(crate) const RULES: &str =
    "usage: panel rules [--dot | --check CONDITION] BITS INITIAL [CARE,NEED,SET,CLEAR ...]

Lists the states of the model of the rules, or draws it, or checks a condition
on it. A rule applies in a state whose bits under CARE equal NEED, and leads to
the state without the CLEAR bits, with the SET bits.
";

pub(crate) const BATCH: &str = "usage: panel batch COMMANDS

Answers the commands of a file of at most 65536 bytes, a line each, written as
after the word panel; a word with spaces in it stands between double quotes. Each
line is shown with its answer below it, or with why there is none.
";
