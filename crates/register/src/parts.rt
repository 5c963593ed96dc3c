// A circuit where it lies in its section, and what it answers.
ghost use Rattle.std.specs.Prelude.{◌≡◌, ◌+◌, ◌^◌, ◌≤◌, length, slice_index};
ghost use Rattle.table.specs.Moves.{some_below};
ghost use Rattle.circuit.specs.Circuit.{registers, count as value_count};
ghost use Rattle.circuit.specs.Values.{values as values_in};
ghost use Rattle.circuit.specs.Table.{size as state_count, holds as holding, targets_of};

use crate::values::Values;

// A circuit cut into its parts. Every byte is the number of a value.
#[derive(Clone, Copy)]
pub struct Parts<'a> {
    // how many inputs there are
    pub inputs: usize,
    // the two operands of each gate
    pub gates: &'a [[u8; 2]],
    // what each register takes next
    pub next: &'a [u8],
    // the start set
    pub start: u8,
    pub atoms: &'a [u8],
    pub fairness_sets: &'a [u8],
    // the states are few, and there is room for all values
    ghost few_registers: { length next.now ≤ 10 },
    ghost few_inputs: { inputs ≤ 4 },
    ghost few_gates: { length gates.now ≤ 200 },
}

impl<'a> Parts<'a> {
    ghost use Rattle.register.specs.Parts.{circuit_in};
    ghost use Rattle.register.specs.Inner.{known};

    // How many states there are.
    pub fn size(&self) -> usize
        ensures { result ≡ state_count (circuit_in self.now) }
    {
        1 << self.next.len()
    }

    // The number of the first gate: how many values stand before it.
    pub fn first_gate(&self) -> usize
        ensures { result ≡ 1 + registers (circuit_in self.now) + self.now.inputs }
    {
        1 + self.next.len() + self.inputs
    }

    // How many values there are.
    pub fn count(&self) -> usize
        ensures { result ≡ value_count (circuit_in self.now) }
    {
        self.first_gate() + self.gates.len()
    }

    // All values in state s, with the inputs of move k.
    #[tactic(auto, using(crate::proofs::Turns::lengths))]
    fn evaluate(&self, s: usize, k: usize) -> Values
        ensures { known result ≡ values_in (circuit_in self.now) s k }
    {
        let mut values = Values::new();
        values.push_bits(self.next.len(), s);
        values.push_bits(self.inputs, k);
        values.push_gates(self.gates);
        values
    }

    // Whether s is a state in which value v is true, every input being false.
    pub fn holds(&self, v: u8, s: usize) -> bool
        ensures { result ≡ holding (circuit_in self.now) v s }
    {
        s < self.size() && self.evaluate(s, 0).value(v)
    }

    // Whether s is in the set that entry j of a row of value numbers names. An entry that is not there holds nowhere; no gate
    // is evaluated to tell that.
    fn in_set(&self, names: &[u8], j: usize, s: usize) -> bool
        ensures { result ≡ holding (circuit_in self.now) (slice_index names.now j) s }
    {
        match names.get(j) {
            Some(name) => self.holds(*name, s),
            None => false,
        }
    }

    // Whether s is a start state.
    pub fn is_start(&self, s: usize) -> bool
        ensures { result ≡ holding (circuit_in self.now) self.now.start s }
    {
        self.holds(self.start, s)
    }

    // Whether s is in atom j.
    pub fn in_atom(&self, j: usize, s: usize) -> bool
        ensures { result ≡ holding (circuit_in self.now) (slice_index self.now.atoms.now j) s }
    {
        self.in_set(self.atoms, j, s)
    }

    // Whether s is in fairness set i.
    pub fn in_fairness_set(&self, i: usize, s: usize) -> bool
        ensures { result ≡ holding (circuit_in self.now) (slice_index self.now.fairness_sets.now i) s }
    {
        self.in_set(self.fairness_sets, i, s)
    }

    // Whether some state starts.
    pub fn has_start(&self) -> bool
        ensures { result ≡ some_below (state_count (circuit_in self.now)) (holding (circuit_in self.now) self.now.start) }
    {
        (0..self.size()).any(|s| self.is_start(s))
    }

    // How many moves each state has.
    fn moves(&self) -> usize
        ensures { result ≡ 2 ^ self.now.inputs }
    {
        1 << self.inputs
    }

    // How many moves s has, which are none if it is no state.
    #[tactic(auto, using(crate::proofs::Turns::moves))]
    pub fn move_count(&self, s: usize) -> usize
        ensures { result ≡ length (targets_of (circuit_in self.now) s) }
    {
        if s < self.size() { self.moves() } else { 0 }
    }

    // The state to which move k of s goes.
    #[tactic(auto, using(crate::proofs::Turns::moves))]
    pub fn target(&self, s: usize, k: usize) -> usize
        ensures { result ≡ slice_index (targets_of (circuit_in self.now) s) k }
    {
        if k >= self.move_count(s) {
            return 0;
        }
        self.evaluate(s, k).number(self.next)
    }
}
