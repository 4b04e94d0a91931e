// The flat form of a site program: a table of rows, one for each line, and a table of the terms of their expressions.
ghost use Rattle.std.specs.Prelude.{◌≡◌};
ghost use Rattle.program.specs.Building.{is_handler_of};

use language::Operator;

// A part of an expression in prefix order: an operator stands before its two parts.
#[derive(Clone, Copy, PartialEq, Eq, Debug, Default)]
pub enum Term {
    // The value of the ticket.
    #[default]
    Input,
    Constant(u32),
    Variable(u8),
    Operator(Operator),
}

impl Term {
    // What a lent place holds where no term was read into it.
    pub const BLANK: Term = Term::Input;
}

// What a row does.
#[derive(Clone, Copy, PartialEq, Eq, Debug)]
pub enum Kind {
    Skip,
    // Opens the handler of an in channel.
    Handler(u8),
    // Gives a variable the value of the row's expression.
    Assign(u8),
    // Makes a ticket for an out channel.
    Output(u8),
    If,
    While,
    // Begins the second part of an If.
    Else,
    // Closes the innermost block, or the handler.
    Close,
}

impl Kind {
    pub fn is_handler_of(self, channel: u8) -> bool
        ensures { result ≡ is_handler_of channel self }
    {
        self == Kind::Handler(channel)
    }
}

// Its places are plain numbers: the tables are lent, and a caller may have filled them.
#[derive(Clone, Copy, PartialEq, Eq, Debug)]
pub struct Row {
    pub kind: Kind,
    // Where the terms of its expression begin, and how many they are.
    pub first: u16,
    pub count: u8,
    // The row that ends what this one opens: the Else or Close of an If, else the Close; 0 where it opens nothing.
    pub partner: u8,
}

impl Row {
    // What a lent place holds where no row was read into it.
    pub const BLANK: Row = Row {
        kind: Kind::Skip,
        first: 0,
        count: 0,
        partner: 0,
    };
}
