// Reading and checking a section that lays out a circuit.
ghost use Rattle.std.specs.Prelude.{◌≡◌, ◌+◌, ◌≤◌, length, OnOk};
ghost use Rattle.fault.specs.Checks.{first_of, first_past, none_past, mapped};
ghost use Rattle.fault.specs.declared.Cause.TheVariants.{ValueNumber};
ghost use Rattle.circuit.specs.Circuit.{registers, names as names_of};
ghost use Rattle.circuit.specs.Read.{size_checks, gates_check, value_checks, circuit_of, read_of, read_body};
ghost use Rattle.register.specs.Parts.{circuit_in};
ghost use Rattle.register.specs.Inner.{counts_in, Sizes};

use crate::parts::Parts;
use fault::{Cause, Fault, need, none_past};

// The counts that lead a section.
#[derive(Clone, Copy)]
struct Counts {
    registers: usize,
    inputs: usize,
    gates: usize,
    atoms: usize,
    fairness_sets: usize,
}

// The counts are in their ranges, and as many bytes follow as they announce.
fn check_sizes(n: Counts, long: usize) -> Result<(), Fault>
    ensures value { result ≡ first_of (size_checks (counts_in n) long) }
    ensures sizes { OnOk result (Sizes (counts_in n) long) }
{
    need((1..=10).contains(&n.registers), Cause::TableCounts.at(0))?;
    need(n.inputs <= 4, Cause::TableCounts.at(1))?;
    need(n.gates <= 200, Cause::TableCounts.at(2))?;
    need(n.atoms <= 16, Cause::TableCounts.at(3))?;
    need((1..=4).contains(&n.fairness_sets), Cause::TableCounts.at(4))?;
    let announced = 2 * n.gates + (n.registers + 1 + (n.atoms + n.fairness_sets));
    need(long == announced, Cause::TableCounts.at(0))
}

// Every operand is below its gate.
#[tactic(auto, using(crate::proofs::GatesCheck::gates_more))]
fn check_gates(parts: &Parts<'_>) -> Result<(), Fault>
    ensures { result ≡ gates_check (1 + registers (circuit_in parts.now) + parts.now.inputs) 5 (circuit_in parts.now).gates }
{
    let known = parts.first_gate();
    for (i, [x, y]) in parts.gates.iter().enumerate() {
        let gate = known + i;
        need(usize::from(*x) < gate, Cause::ValueNumber.at(5 + 2 * i))?;
        need(usize::from(*y) < gate, Cause::ValueNumber.at(6 + 2 * i))?;
    }
    Ok(())
}

// The values that the parts of a circuit name are there, and some state starts. `names` is all the names in one row, as they lie
// in the section: only so is the first that is not there found by one search.
fn check_values(parts: &Parts<'_>, names: &[u8]) -> Result<(), Fault>
    requires { names.now ≡ names_of (circuit_in parts.now) }
    ensures { result ≡ first_of (value_checks (circuit_in parts.now)) }
{
    let from = 5 + 2 * parts.gates.len();
    let start = from + parts.next.len();
    check_gates(parts)?;
    none_past(names, parts.count(), Cause::ValueNumber, from)?;
    need(parts.has_start(), Cause::NoStart.at(start))
}

// The parts of what follows the five leading bytes.
fn cut(rest: &[u8], n: Counts) -> Parts<'_>
    requires { Sizes (counts_in n) (length rest.now) }
    ensures { circuit_in result ≡ circuit_of (counts_in n) rest.now }
{
    let (gates, names) = rest.split_at(2 * n.gates);
    let (next, sets) = names.split_at(n.registers);
    let (atoms, fairness_sets) = sets[1..].split_at(n.atoms);
    Parts {
        inputs: n.inputs,
        gates: gates.as_chunks::<2>().0,
        next,
        start: sets[0],
        atoms,
        fairness_sets,
    }
}

// What follows the five leading bytes, with the counts that these gave.
fn read_body(rest: &[u8], n: Counts) -> Result<Parts<'_>, Fault>
    ensures { mapped circuit_in result ≡ read_body (counts_in n) rest.now }
{
    check_sizes(n, rest.len())?;
    let parts = cut(rest, n);
    check_values(&parts, &rest[2 * n.gates..])?;
    Ok(parts)
}

// The parts of a section, or its first fault; places are offsets in the section.
pub(crate) fn read(section: &[u8]) -> Result<Parts<'_>, Fault>
    ensures { mapped circuit_in result ≡ read_of section.now }
{
    let [registers, inputs, gates, atoms, fairness_sets, rest @ ..] = section else {
        return Err(Cause::TableCounts.at(0));
    };
    let counts = Counts {
        registers: usize::from(*registers),
        inputs: usize::from(*inputs),
        gates: usize::from(*gates),
        atoms: usize::from(*atoms),
        fairness_sets: usize::from(*fairness_sets),
    };
    read_body(rest, counts)
}
