ghost use Rattle.std.specs.Prelude.{◌≡◌};
ghost use Rattle.dt_syntax.specs.Grammar.{level_of, is_join};

/// An operator between two operands.
#[derive(Clone, Copy, Debug, PartialEq, Eq)]
pub enum Op {
    /// `or`
    Or,
    /// `and`
    And,
    /// `==`
    Equal,
    /// `!=`
    Differ,
    /// `<`
    Less,
    /// `<=`
    AtMost,
    /// `>`
    More,
    /// `>=`
    AtLeast,
    /// `+`
    Add,
    /// `-`
    Sub,
    /// `++`
    Join,
    /// `*`
    Mul,
    /// `/`
    Div,
    /// `%`
    Rem,
}

impl Op {
    /// The level of the operator: 0 for `or`, 1 for `and`, 2 where it compares, 3 and 4 for the others.
    pub fn level(self) -> u8
        ensures { result ≡ level_of self }
    {
        match self {
            Op::Or => 0,
            Op::And => 1,
            Op::Equal => 2,
            Op::Differ => 2,
            Op::Less => 2,
            Op::AtMost => 2,
            Op::More => 2,
            Op::AtLeast => 2,
            Op::Add => 3,
            Op::Sub => 3,
            Op::Join => 3,
            Op::Mul => 4,
            Op::Div => 4,
            Op::Rem => 4,
        }
    }

    /// Whether the operator joins texts.
    pub fn is_join(self) -> bool
        ensures { result ≡ is_join self }
    {
        matches!(self, Op::Join)
    }
}
