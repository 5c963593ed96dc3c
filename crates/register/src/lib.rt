// Register tables: a table whose states are the contents of registers, in the bytes of a section.
#![tactic(auto)]

ghost use Rattle.std.specs.Prelude.{◌≡◌, ◌≤◌, true, Err, IfSome, IfOk, IfErr, None};
ghost use Rattle.fault.specs.Checks.{mapped, or_else, fault_in};
ghost use Rattle.table.specs.Same.{SameMeaning};
ghost use Rattle.table.specs.OneState.{one_state};
ghost use Rattle.circuit.specs.Table.{meaning_of, targets_of, usable, one_circuit};
ghost use Rattle.circuit.specs.Read.{read_of};
ghost use Rattle.circuit.specs.Law.{AcceptedIsLayout, LayoutIsAccepted, ValuesAre};
ghost use Rattle.circuit.proofs.Faithful.{circuit_faithful};
ghost use Rattle.register.specs.Parts.{circuit_in};

use crate::parts::Parts;
use crate::read::read;
use fault::Fault;
use table::Table;

mod parts;
mod read;
mod values;

// A table for any bytes: the circuit that a section lays out, or the one-state table where the section is refused.
#[derive(Clone, Copy)]
pub struct Register<'a> {
    // what the section lays out, or the parts of the one-state circuit; as in `Listed`, no question asks which
    parts: Parts<'a>,
    // why the section was refused, if it was
    fault: Option<Fault>,
    ghost bounded: { usable (circuit_in parts) ≡ true },
}

// The circuit without registers: one state.
fn one_state() -> Parts<'static>
    ensures { circuit_in result ≡ one_circuit }
{
    Parts {
        inputs: 0,
        gates: &[[0, 0]],
        next: &[],
        start: 1,
        atoms: &[],
        fairness_sets: &[1],
    }
}

impl<'a> Register<'a> {
    ghost use Rattle.register.specs.Register.{circuit_held, refusal};

    // The table of a section. What is accepted is the layout of exactly the circuit that was read, every lawful circuit's
    // layout is accepted, and its values are those of its registers, inputs and gates.
    #[tactic(auto, using(crate::proofs::Laws::laws))]
    pub fn of(section: &'a [u8]) -> Register<'a>
        ensures circuit { circuit_held result ≡ or_else one_circuit (read_of section.now) }
        ensures fault { refusal result ≡ fault_in (read_of section.now) }
        ensures place { IfSome (refusal result) (λ e. e.place ≤ 65536) }
        ensures refused { (e : Fault) → read_of section.now ≡ Err e → SameMeaning (meaning_of (circuit_held result)) one_state }
        ensures accepted { AcceptedIsLayout }
        ensures lawful { LayoutIsAccepted }
        ensures values { ValuesAre }
    {
        match read(section) {
            Ok(parts) => Register { parts, fault: None },
            Err(fault) => Register {
                parts: one_state(),
                fault: Some(fault),
            },
        }
    }

    // The table of a section that lays out a circuit, or the section's first fault; the place is an offset in the section.
    #[tactic(auto, using(crate::proofs::Laws::laws))]
    pub fn read(section: &'a [u8]) -> Result<Register<'a>, Fault>
        ensures circuit { mapped circuit_held result ≡ read_of section.now }
        ensures fault { IfOk result (λ t. refusal t ≡ None) }
        ensures place { IfErr result (λ e. e.place ≤ 65536) }
        ensures accepted { AcceptedIsLayout }
        ensures lawful { LayoutIsAccepted }
        ensures values { ValuesAre }
    {
        let parts = read(section)?;
        Ok(Register { parts, fault: None })
    }

    // Why the section was refused, if it was; the place is an offset in the section.
    pub fn fault(&self) -> Option<Fault>
        ensures { result ≡ refusal self.now }
    {
        self.fault
    }
}

// As in `Listed`, each question is put to the parts.
impl<'a> Table for Register<'a> {
    ghost use Rattle.register.specs.Register.{circuit_held};

    ghost meaning = { λ t. meaning_of (circuit_held t) };

    ghost targets = { λ t. targets_of (circuit_held t) };

    ghost faithful = { λ t. circuit_faithful (circuit_held t) t.bounded };

    fn states(&self) -> usize {
        self.parts.size()
    }

    fn atoms(&self) -> usize {
        self.parts.atoms.len()
    }

    fn fairness_sets(&self) -> usize {
        self.parts.fairness_sets.len()
    }

    fn is_start(&self, s: usize) -> bool {
        self.parts.is_start(s)
    }

    fn in_atom(&self, j: usize, s: usize) -> bool {
        self.parts.in_atom(j, s)
    }

    fn in_fairness_set(&self, i: usize, s: usize) -> bool {
        self.parts.in_fairness_set(i, s)
    }

    fn move_count(&self, s: usize) -> usize {
        self.parts.move_count(s)
    }

    fn target(&self, s: usize, k: usize) -> usize {
        self.parts.target(s, k)
    }
}
