// A section of a listed table, where it lies, and what it answers.
ghost use Rattle.std.specs.Prelude.{◌≡◌, suc, ◌+◌, ◌*◌, ◌<◌, ◌≤◌, true, false, [], ◌∷◌, length, slice_index, slice_index_or};
ghost use Rattle.listing.specs.Numbers.{numbers, pairs};
ghost use Rattle.listing.specs.Read.{count_bytes, target_bytes, passes};

// A section that passed its checks, cut into its parts.
#[derive(Clone, Copy)]
pub struct Parts<'a> {
    pub states: usize,
    pub atoms: usize,
    pub fairness_sets: usize,
    // all that follows the four leading bytes: first the start set, the atoms and the fairness sets
    pub body: &'a [u8],
    // for each state the count of moves up to and with it, the low byte first
    pub counts: &'a [[u8; 2]],
    // the targets, the low byte first
    pub targets: &'a [[u8; 2]],
    ghost passed: { passes states atoms fairness_sets body.now ≡ true },
    ghost counted: { counts.now ≡ pairs (count_bytes states atoms fairness_sets body.now) },
    ghost targeted: { targets.now ≡ pairs (target_bytes states atoms fairness_sets body.now) },
}

// The number in two bytes, the low byte first.
pub(crate) fn number(pair: [u8; 2]) -> usize
    ensures value { result ≡ slice_index pair 0 + slice_index pair 1 * 256 }
    ensures small { result < 65536 }
{
    usize::from(u16::from_le_bytes(pair))
}

impl<'a> Parts<'a> {
    ghost use Rattle.listing.specs.Listed.{meaning_of, targets_of};
    ghost use Rattle.listing.specs.Parts.{listed_in, sets_in};

    // Whether s is in set j of the section: the start set, then the atoms, then the fairness sets.
    fn in_set(&self, j: usize, s: usize) -> bool
        requires { j < suc (self.now.atoms + self.now.fairness_sets) }
        ensures { result ≡ slice_index_or (slice_index_or (sets_in self.now) j []) s false }
    {
        let width = (self.states + 7) / 8;
        let from = j * width;
        s < self.states && stateset::contains(&self.body[from..from + width], s)
    }

    // Whether s is a start state.
    pub fn is_start(&self, s: usize) -> bool
        ensures { result ≡ (meaning_of (listed_in self.now)).starts s }
    {
        self.in_set(0, s)
    }

    // Whether s is in atom j.
    pub fn in_atom(&self, j: usize, s: usize) -> bool
        ensures { result ≡ (meaning_of (listed_in self.now)).atom j s }
    {
        j < self.atoms && self.in_set(1 + j, s)
    }

    // Whether s is in fairness set i.
    #[tactic(auto, using(crate::proofs::Questions::fair_is, crate::proofs::Questions::fair_none))]
    pub fn in_fairness_set(&self, i: usize, s: usize) -> bool
        ensures { result ≡ (meaning_of (listed_in self.now)).fair i s }
    {
        i < self.fairness_sets && self.in_set(1 + self.atoms + i, s)
    }

    // How many moves the states below s have.
    fn moves_before(&self, s: usize) -> usize
        requires { s < suc self.now.states }
        ensures { result ≡ slice_index (0 ∷ numbers self.now.counts.now) s }
    {
        if s == 0 {
            return 0;
        }
        number(self.counts[s - 1])
    }

    // The targets of s, the low byte first; none if s is no state.
    fn row(&self, s: usize) -> &'a [[u8; 2]]
        ensures { numbers result.now ≡ targets_of (listed_in self.now) s }
    {
        if s >= self.states {
            return &[];
        }
        &self.targets[self.moves_before(s)..self.moves_before(s + 1)]
    }

    // How many moves s has.
    pub fn move_count(&self, s: usize) -> usize
        ensures { result ≡ length (targets_of (listed_in self.now) s) }
    {
        self.row(s).len()
    }

    // The state to which move k of s goes.
    pub fn target(&self, s: usize, k: usize) -> usize
        ensures { result ≡ slice_index (targets_of (listed_in self.now) s) k }
    {
        match self.row(s).get(k) {
            Some(target) => number(*target),
            None => 0,
        }
    }
}
