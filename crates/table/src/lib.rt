// Transition tables: the interface that every kind of table has, and what it means.
#![tactic(auto)]

ghost use Rattle.std.specs.Prelude.{◌≡◌, ℕ, List, length, slice_index};
ghost use Rattle.table.specs.Meaning.{Meaning};
ghost use Rattle.table.specs.Faithful.{Faithful};

pub mod moves;

// A table of states and moves. Every question takes every number, and answers no or 0 for a state, set or move that is
// not there.
pub trait Table {
    // what the table means
    ghost meaning: { Self → Meaning };

    // the targets of each state, in the order of its moves
    ghost targets: { Self → ℕ → List ℕ };

    // the targets are exactly the moves that the table means, and all bounds are kept
    ghost faithful: { (t : Self) → Faithful (meaning t) (targets t) };

    // How many states there are.
    fn states(&self) -> usize
        ensures { result ≡ (meaning self.now).states };

    // How many atoms there are.
    fn atoms(&self) -> usize
        ensures { result ≡ (meaning self.now).atoms };

    // How many fairness sets there are.
    fn fairness_sets(&self) -> usize
        ensures { result ≡ (meaning self.now).fairs };

    // Whether s is a start state.
    fn is_start(&self, s: usize) -> bool
        ensures { result ≡ (meaning self.now).starts s };

    // Whether s is in atom j.
    fn in_atom(&self, j: usize, s: usize) -> bool
        ensures { result ≡ (meaning self.now).atom j s };

    // Whether s is in fairness set i.
    fn in_fairness_set(&self, i: usize, s: usize) -> bool
        ensures { result ≡ (meaning self.now).fair i s };

    // How many moves s has.
    fn move_count(&self, s: usize) -> usize
        ensures { result ≡ length (targets self.now s) };

    // The state to which move k of s goes.
    fn target(&self, s: usize, k: usize) -> usize
        ensures { result ≡ slice_index (targets self.now s) k };
}
