// Sets of states as rows of bytes: state s is bit s mod 8 of byte s / 8.
#![tactic(auto)]

ghost use Rattle.std.specs.Prelude.{◌≡◌, ◌/◌, ◌%◌, ◌^◌, ◌<◌, length, ◌==◌};
ghost use Rattle.std.specs.List.{list_any, list_all, range_with_len};
ghost use Rattle.stateset.specs.Sets.{bit_at, unpack, none, set_of, clear};

// Bit i of a byte, bit 0 the lowest.
fn bit(byte: u8, i: usize) -> bool
    requires { i < 8 }
    ensures { result ≡ (byte / 2 ^ i % 2 == 1) }
{
    (byte >> i) & 1 == 1
}

// Whether state s is in the set; past its end there is none.
pub fn contains(set: &[u8], s: usize) -> bool
    ensures { result ≡ bit_at set.now s }
{
    s / 8 < set.len() && bit(set[s / 8], s % 8)
}

// Whether the set has no bit at n or above, n lying in one of its bytes.
fn is_clear_from(set: &[u8], n: usize) -> bool
    requires { n / 8 < length set.now }
    ensures { result ≡ clear n set.now }
{
    let first = n / 8;
    set[first] >> (n % 8) == 0 && is_zero(&set[first + 1..])
}

// Whether the set has no bit at n or above.
pub fn is_below(set: &[u8], n: usize) -> bool
    ensures { result ≡ clear n set.now }
{
    n / 8 >= set.len() || is_clear_from(set, n)
}

// Whether every byte is 0.
fn is_zero(bytes: &[u8]) -> bool
    ensures { result ≡ list_all (λ b. b == 0) bytes.now }
{
    bytes.iter().all(|b| *b == 0)
}

// Whether some state below n is in the set.
fn has_below(set: &[u8], n: usize) -> bool
    ensures { result ≡ list_any (bit_at set.now) (range_with_len 0 n) }
{
    (0..n).any(|s| contains(set, s))
}

// Whether the set has no state below n.
#[tactic(auto, using(crate::proofs::Flags::none_below))]
pub fn is_empty(set: &[u8], n: usize) -> bool
    ensures { result ≡ none (set_of n set.now) }
{
    !has_below(set, n)
}
