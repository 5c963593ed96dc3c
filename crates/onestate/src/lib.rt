// The one-state table.
#![tactic(auto)]

ghost use Rattle.table.specs.OneState.{one_state, one_state_targets};
ghost use Rattle.table.proofs.OneState.{one_faithful};

use table::Table;

// One start state that moves to itself, without atoms, its one fairness set full.
#[derive(Clone, Copy)]
pub struct OneState;

impl Table for OneState {
    ghost meaning = { λ t. one_state };

    ghost targets = { λ t. one_state_targets };

    ghost faithful = { λ t. one_faithful };

    fn states(&self) -> usize {
        1
    }

    fn atoms(&self) -> usize {
        0
    }

    fn fairness_sets(&self) -> usize {
        1
    }

    fn is_start(&self, s: usize) -> bool {
        s == 0
    }

    fn in_atom(&self, j: usize, s: usize) -> bool {
        false
    }

    fn in_fairness_set(&self, i: usize, s: usize) -> bool {
        i == 0 && s == 0
    }

    fn move_count(&self, s: usize) -> usize {
        if s == 0 { 1 } else { 0 }
    }

    fn target(&self, s: usize, k: usize) -> usize {
        0
    }
}
