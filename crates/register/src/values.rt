// The values of a circuit, one after another.
ghost use Rattle.std.specs.Prelude.{◌≡◌, ◌+◌, ◌≤◌, false, [], ◌∷◌, ◌++◌, map, length};
ghost use Rattle.stateset.specs.Sets.{bits, number as number_of};
ghost use Rattle.circuit.specs.Values.{value as value_in, with_gates};
ghost use Rattle.register.specs.Parts.{gate_in};
ghost use Rattle.register.specs.Inner.{known};

use arrayvec::ArrayVec;

// The values that are known so far.
#[derive(Drop)]
pub(crate) struct Values {
    known: ArrayVec<bool, 256>,
}

impl Values {
    // The first value is false.
    pub(crate) fn new() -> Values
        ensures { known result ≡ false ∷ [] }
    {
        let mut known = ArrayVec::new();
        known.push(false);
        Values { known }
    }

    // Value v; one that is not known is false.
    pub(crate) fn value(&self, v: u8) -> bool
        ensures { result ≡ value_in (known self.now) v }
    {
        self.known.get(usize::from(v)).copied().unwrap_or(false)
    }

    // Appends the lowest n bits of a number, bit 0 first.
    #[tactic(auto, using(crate::proofs::Turns::bits_more))]
    pub(crate) fn push_bits(&mut self, n: usize, number: usize)
        requires { length (known self.old) + n ≤ 64 }
        ensures { known self.new ≡ known self.old ++ bits n number }
    {
        for i in 0..n {
            self.known.push((number >> i) & 1 == 1);
        }
    }

    // Appends the values of a row of gates: each is 1 minus the product of its two operands.
    pub(crate) fn push_gates(&mut self, gates: &[[u8; 2]])
        requires { length (known self.old) + length gates.now ≤ 256 }
        ensures { known self.new ≡ with_gates (known self.old) (map gate_in gates.now) }
    {
        for [x, y] in gates {
            let product = self.value(*x) & self.value(*y);
            self.known.push(!product);
        }
    }

    // The number whose bit q is the value that name q names.
    #[tactic(auto, using(crate::proofs::Turns::number_few))]
    pub(crate) fn number(&self, names: &[u8]) -> usize
        requires { length names.now ≤ 10 }
        ensures { result ≡ number_of (map (value_in (known self.now)) names.now) }
    {
        let mut total = 0;
        for name in names.iter().rev() {
            total = 2 * total + usize::from(self.value(*name));
        }
        total
    }
}
