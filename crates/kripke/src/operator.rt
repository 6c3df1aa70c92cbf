ghost use Rattle.kripke.specs.Nodes.{Decodes, code_of};
ghost use Rattle.std.specs.Prelude.{◌≡◌};

/// The operators of CTL formulas, each at the place of its code, 0 to 12. docs/LOGIC.md, "Formulas", says what each means.
#[derive(Clone, Copy, PartialEq, Eq, Debug)]
pub enum Operator {
    /// True.
    Truth,
    /// A question of the label.
    Question,
    /// Not f.
    Not,
    /// f and g.
    And,
    /// f or g.
    Or,
    /// f at the next state of some path.
    EX,
    /// f at the next state of each path.
    AX,
    /// f at some state of some path.
    EF,
    /// f at some state of each path.
    AF,
    /// f at every state of some path.
    EG,
    /// f at every state of each path.
    AG,
    /// f until g, on some path.
    EU,
    /// f until g, on each path.
    AU,
}

/// A code that is no operator's: 13 or more.
#[derive(Clone, Copy, PartialEq, Eq, Debug)]
pub struct UnknownCode(pub u8);

/// The code of an operator.
impl From<Operator> for u8 {
    ghost from_gives = { λ operator code. code ≡ code_of operator };

    fn from(operator: Operator) -> u8 {
        operator as u8
    }
}

/// The operator that has a code; the error tells a code that none has.
impl TryFrom<u8> for Operator {
    type Error = UnknownCode;

    ghost try_from_gives = { Decodes };

    fn try_from(code: u8) -> Result<Operator, UnknownCode> {
        match code {
            0 => Ok(Operator::Truth),
            1 => Ok(Operator::Question),
            2 => Ok(Operator::Not),
            3 => Ok(Operator::And),
            4 => Ok(Operator::Or),
            5 => Ok(Operator::EX),
            6 => Ok(Operator::AX),
            7 => Ok(Operator::EF),
            8 => Ok(Operator::AF),
            9 => Ok(Operator::EG),
            10 => Ok(Operator::AG),
            11 => Ok(Operator::EU),
            12 => Ok(Operator::AU),
            _ => Err(UnknownCode(code)),
        }
    }
}
