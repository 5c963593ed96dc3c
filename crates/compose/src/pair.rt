// Two tables side by side.
ghost use Rattle.std.specs.Prelude.{◌≡◌, ◌+◌, ◌*◌, ◌/◌, ◌%◌, ◌<◌, ◌≤◌, length, slice_index};
ghost use Rattle.combining.specs.Pair.{fits as fitting, pair, pair_targets};
ghost use Rattle.combining.specs.Crossing.{Crossing};
ghost use Rattle.combining.specs.Agree.{PairsAgree};
ghost use Rattle.combining.proofs.Pairs.{pair_faithful};

use onestate::OneState;
use table::Table;

// A table in which both start and both move: state s is state s / n of the first, rounded down, with state s mod n of
// the second, which has n states. Past the limits of a table it is the one-state table.
#[derive(Drop)]
pub struct Pair<A: Table, B: Table> {
    first: A,
    second: B,
    // whether the two together keep the limits of a table; where they do not, both are kept all the same
    fits: bool,
    ghost limits: { fits ≡ fitting (A.Table.meaning first) (B.Table.meaning second) },
}

impl<A: Table, B: Table> Pair<A, B> {
    // The pair of two tables. Pairs of tables of the same meaning mean the same.
    #[tactic(auto, using(combining::proofs::Same::pairs_agree))]
    pub fn new(first: A, second: B) -> Pair<A, B>
        ensures first { result.first ≡ first }
        ensures second { result.second ≡ second }
        ensures agree { PairsAgree }
    {
        let fits = first.states() * second.states() <= 1024
            && first.atoms() + second.atoms() <= 16
            && first.fairness_sets() + second.fairness_sets() <= 4;
        Pair {
            first,
            second,
            fits,
        }
    }

    // Whether the two together keep the limits of a table; where they do not, the pair is the one-state table.
    pub fn fits(&self) -> bool
        ensures { result ≡ fitting (A.Table.meaning self.now.first) (B.Table.meaning self.now.second) }
    {
        self.fits
    }

    // The halves of s: a state of the first and one of the second.
    fn halves(&self, s: usize) -> (usize, usize)
        ensures first { result.0 ≡ s / (B.Table.meaning self.now.second).states }
        ensures second { result.1 ≡ s % (B.Table.meaning self.now.second).states }
    {
        let n = self.second.states();
        (s / n, s % n)
    }

    // How many moves both have from s, and where each leads.
    #[tactic(auto, using(combining::proofs::Pairs::crossing))]
    fn moves_of_both(&self, s: usize) -> usize
        ensures { Crossing (B.Table.meaning self.now.second).states (A.Table.targets self.now.first) (B.Table.targets self.now.second) s result }
    {
        let (x, y) = self.halves(s);
        count_of(&self.first, x) * count_of(&self.second, y)
    }

    // State x of the first table with state y of the second.
    fn join(&self, x: usize, y: usize) -> usize
        requires first { x < 1024 }
        requires second { y < 1024 }
        ensures { result ≡ x * (B.Table.meaning self.now.second).states + y }
    {
        x * self.second.states() + y
    }
}

// How many moves s has: at most 1,024 × 16 ^ 4, few enough to multiply.
fn count_of<T: Table>(table: &T, s: usize) -> usize
    ensures value { result ≡ length (T.Table.targets table.now s) }
    ensures small { result ≤ 67108864 }
{
    table.move_count(s)
}

// The state to which move k of s goes: one of at most 1,024.
fn target_of<T: Table>(table: &T, s: usize, k: usize) -> usize
    ensures value { result ≡ slice_index (T.Table.targets table.now s) k }
    ensures small { result < 1024 }
{
    table.target(s, k)
}

impl<A: Table, B: Table> Table for Pair<A, B> {
    ghost meaning = { λ p. pair (A.Table.meaning p.first) (B.Table.meaning p.second) };

    ghost targets = { λ p. pair_targets (A.Table.meaning p.first) (B.Table.meaning p.second) (A.Table.targets p.first) (B.Table.targets p.second) };

    ghost faithful = { λ p. pair_faithful (A.Table.meaning p.first) (B.Table.meaning p.second) (A.Table.targets p.first) (B.Table.targets p.second) (A.Table.faithful p.first) (B.Table.faithful p.second) };

    fn states(&self) -> usize {
        if !self.fits {
            return OneState.states();
        }
        self.first.states() * self.second.states()
    }

    fn atoms(&self) -> usize {
        if !self.fits {
            return OneState.atoms();
        }
        self.first.atoms() + self.second.atoms()
    }

    fn fairness_sets(&self) -> usize {
        if !self.fits {
            return OneState.fairness_sets();
        }
        self.first.fairness_sets() + self.second.fairness_sets()
    }

    fn is_start(&self, s: usize) -> bool {
        if !self.fits {
            return OneState.is_start(s);
        }
        let (x, y) = self.halves(s);
        self.first.is_start(x) && self.second.is_start(y)
    }

    fn in_atom(&self, j: usize, s: usize) -> bool {
        if !self.fits {
            return OneState.in_atom(j, s);
        }
        let (x, y) = self.halves(s);
        let count = self.first.atoms();
        if x >= self.first.states() {
            false
        } else if j < count {
            self.first.in_atom(j, x)
        } else {
            self.second.in_atom(j - count, y)
        }
    }

    // as `in_atom`, of other questions: handing those over as closures would be longer
    fn in_fairness_set(&self, i: usize, s: usize) -> bool {
        if !self.fits {
            return OneState.in_fairness_set(i, s);
        }
        let (x, y) = self.halves(s);
        let count = self.first.fairness_sets();
        if x >= self.first.states() {
            false
        } else if i < count {
            self.first.in_fairness_set(i, x)
        } else {
            self.second.in_fairness_set(i - count, y)
        }
    }

    fn move_count(&self, s: usize) -> usize {
        if !self.fits {
            return OneState.move_count(s);
        }
        self.moves_of_both(s)
    }

    fn target(&self, s: usize, k: usize) -> usize {
        if !self.fits {
            return OneState.target(s, k);
        }
        if k >= self.moves_of_both(s) {
            return 0;
        }
        let (x, y) = self.halves(s);
        let moves = self.second.move_count(y);
        self.join(
            target_of(&self.first, x, k / moves),
            target_of(&self.second, y, k % moves),
        )
    }
}
