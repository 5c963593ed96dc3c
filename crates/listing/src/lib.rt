// The layout of a listed table: reading and checking its section.
#![tactic(auto)]

ghost use Rattle.std.specs.Prelude.{◌≡◌, ◌+◌, ◌*◌, ◌/◌, ◌<◌, ◌≤◌, length, IfOk, IfErr, OnOk};
ghost use Rattle.stateset.specs.Sets.{FlagsAreBits};
ghost use Rattle.fault.specs.Checks.{first_of, mapped, passed};
ghost use Rattle.listing.specs.Numbers.{numbers};
ghost use Rattle.listing.specs.Rows.{dealt, last_of, Rises};
ghost use Rattle.listing.specs.Check.{sets_check, counts_check, row_check, rows_check};
ghost use Rattle.listing.specs.Read.{size_checks, read_body as body_read, read_of};
ghost use Rattle.listing.specs.Parts.{listed_in, Formed};
ghost use Rattle.listing.specs.Inner.{number_checks, Sizes};
ghost use Rattle.listing.specs.Layout.{AcceptedIsLayout, LayoutIsAccepted};

pub use crate::section::Parts;
use crate::section::number;
use fault::{Cause, Fault, need};

mod section;

// The counts that lead a section.
#[derive(Clone, Copy)]
struct Counts {
    states: usize,
    atoms: usize,
    fairness_sets: usize,
}

// Each set of k bytes has no bit at n or above; the sets begin at 4.
fn check_sets(sets: &[u8], n: usize, k: usize) -> Result<(), Fault>
    requires { (0 < k) × (length sets.now ≤ 2688) }
    ensures { result ≡ sets_check n k (length sets.now / k) 4 sets.now }
{
    for (j, set) in sets.chunks_exact(k).enumerate() {
        need(stateset::is_below(set, n), Cause::StrayBit.at(4 + j * k))?;
    }
    Ok(())
}

// The counts of moves rise strictly and stay within their limit; the last of them.
fn check_counts(counts: &[[u8; 2]], from: usize) -> Result<usize, Fault>
    requires { from + 2 * length counts.now ≤ 65536 }
    ensures value { passed result ≡ counts_check 0 from (numbers counts.now) }
    ensures last { IfOk result (λ c. (c ≡ last_of 0 (numbers counts.now)) × (c ≤ 16384)) }
{
    let mut last = 0;
    for (s, count) in counts.iter().enumerate() {
        let count = number(*count);
        need(
            last < count && count <= 16384,
            Cause::MoveCounts.at(from + 2 * s),
        )?;
        last = count;
    }
    Ok(last)
}

// The targets of one state rise strictly and are states. It is like `check_counts`: one function for both would have to take a
// count and a target for one above itself.
fn check_row(row: &[[u8; 2]], n: usize, from: usize) -> Result<(), Fault>
    requires { from + 2 * length row.now ≤ 65536 }
    ensures { result ≡ row_check n 0 from (numbers row.now) }
{
    let mut lowest = 0;
    for (k, target) in row.iter().enumerate() {
        let target = number(*target);
        need(
            lowest <= target && target < n,
            Cause::Targets.at(from + 2 * k),
        )?;
        lowest = target + 1;
    }
    Ok(())
}

// The targets of every state, whose counts are known to rise and to fill the targets.
fn check_rows(counts: &[[u8; 2]], targets: &[[u8; 2]], n: usize, from: usize) -> Result<(), Fault>
    requires room { from + 2 * length targets.now ≤ 65536 }
    requires rise { Rises 0 (numbers counts.now) }
    requires fill { last_of 0 (numbers counts.now) ≡ length targets.now }
    ensures { result ≡ rows_check n from (dealt 0 (numbers counts.now) (numbers targets.now)) }
{
    let mut first = 0;
    for end in counts {
        let end = number(*end);
        check_row(&targets[first..end], n, from + 2 * first)?;
        first = end;
    }
    Ok(())
}

// The counts of moves and the targets.
#[tactic(auto, using(crate::proofs::Order::numbers_are))]
fn check_moves(counts: &[[u8; 2]], targets: &[u8], n: usize, from: usize) -> Result<(), Fault>
    requires { (from + 2 * n ≤ 32768) × (length counts.now ≡ n) }
    ensures { result ≡ first_of (number_checks n from (numbers counts.now) targets.now) }
{
    let last = check_counts(counts, from)?;
    need(targets.len() == 2 * last, Cause::Targets.at(0))?;
    let (targets, _) = targets.as_chunks();
    check_rows(counts, targets, n, from + 2 * n)
}

// The counts that lead a section are in their ranges, and as many bytes follow as they announce.
fn check_sizes(n: Counts, long: usize) -> Result<(), Fault>
    ensures value { result ≡ first_of (size_checks n.states n.atoms n.fairness_sets long) }
    ensures sizes { OnOk result (Sizes n.states n.atoms n.fairness_sets long) }
{
    need((1..=1024).contains(&n.states), Cause::TableCounts.at(0))?;
    need(n.atoms <= 16, Cause::TableCounts.at(2))?;
    need((1..=4).contains(&n.fairness_sets), Cause::TableCounts.at(3))?;
    let sets = n.atoms + n.fairness_sets + 1;
    let announced = sets * ((n.states + 7) / 8) + 2 * n.states;
    need(announced <= long, Cause::TableCounts.at(0))
}

// What follows the four leading bytes, with the counts that these gave.
fn read_body(rest: &[u8], n: Counts) -> Result<Parts<'_>, Fault>
    ensures { mapped listed_in result ≡ body_read n.states n.atoms n.fairness_sets rest.now }
{
    check_sizes(n, rest.len())?;
    let width = (n.states + 7) / 8;
    let counts_at = (n.atoms + n.fairness_sets + 1) * width;
    let targets_at = counts_at + 2 * n.states;
    check_sets(&rest[..counts_at], n.states, width)?;
    let (counts, _) = rest[counts_at..targets_at].as_chunks();
    let (targets, _) = rest[targets_at..].as_chunks();
    check_moves(counts, &rest[targets_at..], n.states, 4 + counts_at)?;
    let started = !stateset::is_empty(&rest[..width], n.states);
    need(started, Cause::NoStart.at(4))?;
    Ok(Parts {
        states: n.states,
        atoms: n.atoms,
        fairness_sets: n.fairness_sets,
        body: rest,
        counts,
        targets,
    })
}

// The parts of a section, or its first fault; places are offsets in the section. What is accepted is the layout of
// exactly the table that was read, every lawful table's layout is accepted, and the flags of a set are its bits.
#[tactic(auto, using(crate::proofs::Inverse::layout_is_accepted, stateset::proofs::Flags::unpack_bit))]
pub fn read(section: &[u8]) -> Result<Parts<'_>, Fault>
    ensures value { mapped listed_in result ≡ read_of section.now }
    ensures formed { IfOk result Formed }
    ensures place { IfErr result (λ e. e.place ≤ 65536) }
    ensures accepted { AcceptedIsLayout }
    ensures lawful { LayoutIsAccepted }
    ensures flags { FlagsAreBits }
{
    let [low, high, atoms, fairness_sets, rest @ ..] = section else {
        return Err(Cause::TableCounts.at(0));
    };
    let counts = Counts {
        states: number([*low, *high]),
        atoms: usize::from(*atoms),
        fairness_sets: usize::from(*fairness_sets),
    };
    read_body(rest, counts)
}
