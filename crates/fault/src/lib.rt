// Why a case file is refused, and where.
#![tactic(auto)]

ghost use Rattle.std.specs.Prelude.{◌≡◌, ◌+◌, ◌-◌, ◌^◌, ◌<◌, ◌≤◌, length, IfSome, IfErr, Some};
ghost use Rattle.fault.specs.Checks.{need, first_past, none_past};
ghost use Rattle.fault.specs.Faults.{number_of, fault, moved_by, line_of};

use std::fmt;

// What is wrong with a file, in the order in which it is checked.
#[derive(Clone, Copy, Debug, PartialEq)]
pub enum Cause {
    // the file is longer than 65,536 bytes
    FileLength = 1,
    // the contents are short, have a wrong letter, or do not add up to the file
    Contents = 2,
    // a table's leading counts are short or out of range, or the section is too short for what they announce; a circuit's
    // has exactly that length
    TableCounts = 3,
    // a set has a bit for a state that is not there
    StrayBit = 4,
    // the counts of moves do not rise strictly from at least 1, or pass 16,384
    MoveCounts = 5,
    // the targets do not fill the section, do not rise strictly within a state, or are no states
    Targets = 6,
    // a circuit names a value that is not there, or a gate one that is not below it; its number is that of Targets
    ValueNumber = 10,
    // there is no start state
    NoStart = 7,
    // two tables side by side have too many states, atoms or fairness sets
    PairLimits = 8,
    // the wiring list is too long, or names an atom that is not there
    Wiring = 9,
}

impl Cause {
    // The fault's number. Two causes share one, so no discriminant alone gives it, and a `From` would not say what it is.
    pub fn number(self) -> u8
        ensures { result ≡ number_of self }
    {
        match self {
            Cause::ValueNumber => Cause::Targets as u8,
            _ => self as u8,
        }
    }

    // The fault of this cause at a place.
    pub fn at(self, place: usize) -> Fault
        ensures { result ≡ fault self place }
    {
        Fault { cause: self, place }
    }
}

// A cause, and the offset at which it was found. That is any number: a bound here would ask more of whoever makes a fault, so
// each reader of a section promises its own.
#[derive(Clone, Copy, Debug, PartialEq)]
pub struct Fault {
    pub cause: Cause,
    pub place: usize,
}

impl Fault {
    // A fault told from the beginning of a part, as one of the whole in which the part begins at `from`.
    pub fn moved_by(self, from: usize) -> Fault
        ensures moved { from + self.place < 2 ^ 64 → result ≡ moved_by from self }
        ensures past { 2 ^ 64 ≤ from + self.place → result ≡ fault self.cause (2 ^ 64 - 1) }
    {
        self.cause.at(self.place.saturating_add(from))
    }
}

// A check: passed where the condition holds, or else the fault.
pub fn need(holds: bool, fault: Fault) -> Result<(), Fault>
    ensures { result ≡ need holds fault }
{
    if holds { Ok(()) } else { Err(fault) }
}

// Where the first number that is not below the limit stands, from 0.
pub fn first_past(numbers: &[u8], limit: usize) -> Option<usize>
    ensures value { result ≡ first_past limit numbers.now }
    ensures inside { IfSome result (λ i. i < length numbers.now) }
{
    numbers.iter().position(|x| usize::from(*x) >= limit)
}

// No number of a row that begins at `from` is past the limit.
pub fn none_past(numbers: &[u8], limit: usize, cause: Cause, from: usize) -> Result<(), Fault>
    ensures value { from + length numbers.now < 2 ^ 64 → result ≡ none_past cause from (first_past limit numbers.now) }
    ensures place { IfErr result (λ e. e.place < from + length numbers.now) }
{
    match first_past(numbers, limit) {
        Some(i) => Err(cause.at(i).moved_by(from)),
        None => Ok(()),
    }
}

impl fmt::Display for Fault {
    ghost output = { λ e. Some (line_of e) };

    fn fmt<W: fmt::Write>(&self, f: &mut fmt::Formatter<W>) -> fmt::Result {
        let number = self.cause.number();
        let place = self.place;
        write!(f, "refused {number} {place}")
    }
}
