ghost use Rattle.kripke.specs.Nodes.{code_of, constant, operators};
ghost use Rattle.printer.specs.Writing.{Written};
ghost use Rattle.std.specs.Prelude.{slice_index_or};

use kripke::operator::Operator;

// How an operator is written: as T, as a question, with a sign before its argument, or with signs before, between and after its two arguments.
pub(crate) enum Signs {
    Truth,
    Question,
    Before(&'static str),
    Around(&'static str, &'static str, &'static str),
}

impl From<Operator> for Signs {
    ghost from_gives = { λ operator signs. Written (slice_index_or operators (code_of operator) constant) signs };

    fn from(operator: Operator) -> Signs {
        match operator {
            Operator::Truth => Signs::Truth,
            Operator::Question => Signs::Question,
            Operator::Not => Signs::Before("!"),
            Operator::And => Signs::Around("(", "&", ")"),
            Operator::Or => Signs::Around("(", "|", ")"),
            Operator::EX => Signs::Before("EX "),
            Operator::AX => Signs::Before("AX "),
            Operator::EF => Signs::Before("EF "),
            Operator::AF => Signs::Before("AF "),
            Operator::EG => Signs::Before("EG "),
            Operator::AG => Signs::Before("AG "),
            Operator::EU => Signs::Around("E[", " U ", "]"),
            Operator::AU => Signs::Around("A[", " U ", "]"),
        }
    }
}
