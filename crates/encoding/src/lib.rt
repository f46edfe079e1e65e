// What stands in a batch's bytes, as types by value: numbers, operations, commands. Their meaning is in specs/.
#![tactic(auto)]

ghost use Rattle.std.specs.Prelude.{◌≡◌};
ghost use Rattle.encoding.specs.Operations.{operation_number, arguments, which};

// The place at which bytes go wrong.
#[derive(Clone, Copy, PartialEq, Eq)]
pub struct Fault {
    pub place: usize,
}

// A value read from bytes and where the next begins, or their fault. No reader that moves on: the rules speak of places.
pub type Reading<T> = Result<(T, usize), Fault>;

// 01: "1 search key; 2 insert key; 3 delete key; 4 step slot kind; 5 settle budget." 02 (vii): 6 with a key, 7 and 8 with the two ends of a span.
#[derive(Clone, Copy, PartialEq, Eq)]
pub enum Operation {
    Search = 1,
    Insert = 2,
    Delete = 3,
    Step = 4,
    Settle = 5,
    AtOrAbove = 6,
    Count = 7,
    DeleteSpan = 8,
}

impl Operation {
    // Their numbers, by name, for docs/RULES.md and for named.
    pub const SEARCH: u32 = Operation::Search as u32;

    pub const INSERT: u32 = Operation::Insert as u32;

    pub const DELETE: u32 = Operation::Delete as u32;

    pub const STEP: u32 = Operation::Step as u32;

    pub const SETTLE: u32 = Operation::Settle as u32;

    pub const AT_OR_ABOVE: u32 = Operation::AtOrAbove as u32;

    pub const COUNT: u32 = Operation::Count as u32;

    pub const DELETE_SPAN: u32 = Operation::DeleteSpan as u32;

    pub fn number(self) -> u32
        ensures { result ≡ operation_number self }
    {
        self as u32
    }

    // How many arguments it has.
    pub fn arguments(self) -> u32
        ensures { result ≡ arguments self }
    {
        match self {
            Operation::Search => 1,
            Operation::Insert => 1,
            Operation::Delete => 1,
            Operation::Step => 2,
            Operation::Settle => 1,
            Operation::AtOrAbove => 1,
            Operation::Count => 2,
            Operation::DeleteSpan => 2,
        }
    }

    // The operation that a number names, if one does.
    // An Option and no TryFrom: a caller makes a fault of None, and the fault needs the place of the number, which is not known here. And a match,
    // no search of a table as for a kind: each command of a batch is read by it.
    pub fn named(number: u32) -> Option<Operation>
        ensures { result ≡ which number }
    {
        match number {
            Operation::SEARCH => Some(Operation::Search),
            Operation::INSERT => Some(Operation::Insert),
            Operation::DELETE => Some(Operation::Delete),
            Operation::STEP => Some(Operation::Step),
            Operation::SETTLE => Some(Operation::Settle),
            Operation::AT_OR_ABOVE => Some(Operation::AtOrAbove),
            Operation::COUNT => Some(Operation::Count),
            Operation::DELETE_SPAN => Some(Operation::DeleteSpan),
            _ => None,
        }
    }
}

// An operation and its arguments; one that the operation does not have is 0.
#[derive(Clone, Copy, PartialEq, Eq)]
pub struct Command {
    pub operation: Operation,
    pub first: u32,
    pub second: u32,
}
