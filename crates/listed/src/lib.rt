// Listed tables: a table whose moves are listed one by one in the bytes of a section.
#![tactic(auto)]

ghost use Rattle.std.specs.Prelude.{◌≡◌, ◌≤◌, IfSome, IfOk, IfErr, None, Err};
ghost use Rattle.fault.specs.Checks.{mapped, or_else, fault_in};
ghost use Rattle.table.specs.Same.{SameMeaning};
ghost use Rattle.table.specs.OneState.{one_state};
ghost use Rattle.listing.specs.Listed.{meaning_of, targets_of, one_listed};
ghost use Rattle.listing.specs.Read.{read_of};
ghost use Rattle.listing.specs.Parts.{listed_in};
ghost use Rattle.listing.proofs.Faithful.{parts_faithful};
ghost use Rattle.listed.specs.Listed.{listed_held, refusal};

use fault::Fault;
use listing::{Parts, read};
use table::Table;

// A table for any bytes: the one that a section lays out, or the one-state table where the section is refused.
#[derive(Clone, Copy)]
pub struct Listed<'a> {
    // what the section lays out, or the parts of the one-state table. A `Result` of the parts would be looked into by each
    // question, which took up to twice the time.
    parts: Parts<'a>,
    // why the section was refused, if it was
    fault: Option<Fault>,
}

// One start state that moves to itself, without atoms, its one fairness set full.
fn one_state() -> Parts<'static>
    ensures { listed_in result ≡ one_listed }
{
    Parts {
        states: 1,
        atoms: 0,
        fairness_sets: 1,
        body: &[1, 1, 1, 0, 0, 0],
        counts: &[[1, 0]],
        targets: &[[0, 0]],
    }
}

impl<'a> Listed<'a> {
    // The table of a section.
    pub fn of(section: &'a [u8]) -> Listed<'a>
        ensures table { listed_held result ≡ or_else one_listed (read_of section.now) }
        ensures fault { refusal result ≡ fault_in (read_of section.now) }
        ensures place { IfSome (refusal result) (λ e. e.place ≤ 65536) }
        ensures refused { (e : Fault) → read_of section.now ≡ Err e → SameMeaning (meaning_of (listed_held result)) one_state }
    {
        match read(section) {
            Ok(parts) => Listed { parts, fault: None },
            Err(fault) => Listed {
                parts: one_state(),
                fault: Some(fault),
            },
        }
    }

    // The table of a section that lays one out, or the section's first fault; the place is an offset in the section.
    pub fn read(section: &'a [u8]) -> Result<Listed<'a>, Fault>
        ensures table { mapped listed_held result ≡ read_of section.now }
        ensures fault { IfOk result (λ t. refusal t ≡ None) }
        ensures place { IfErr result (λ e. e.place ≤ 65536) }
    {
        let parts = read(section)?;
        Ok(Listed { parts, fault: None })
    }

    // Why the section was refused, if it was; the place is an offset in the section.
    pub fn fault(&self) -> Option<Fault>
        ensures { result ≡ refusal self.now }
    {
        self.fault
    }
}

// Each question is put to the parts. `Register` has the same lines: one generic kind would need a newtype with these lines
// around each kind's parts all the same, since what shows the parts to be a table is proved in the crates below.
impl<'a> Table for Listed<'a> {
    ghost meaning = { λ t. meaning_of (listed_held t) };

    ghost targets = { λ t. targets_of (listed_held t) };

    ghost faithful = { λ t. parts_faithful t.parts };

    fn states(&self) -> usize {
        self.parts.states
    }

    #[tactic(auto, using(listing::proofs::Questions::atoms_are))]
    fn atoms(&self) -> usize {
        self.parts.atoms
    }

    #[tactic(auto, using(listing::proofs::Questions::fairs_are))]
    fn fairness_sets(&self) -> usize {
        self.parts.fairness_sets
    }

    fn is_start(&self, s: usize) -> bool {
        self.parts.is_start(s)
    }

    fn in_atom(&self, j: usize, s: usize) -> bool {
        self.parts.in_atom(j, s)
    }

    fn in_fairness_set(&self, i: usize, s: usize) -> bool {
        self.parts.in_fairness_set(i, s)
    }

    fn move_count(&self, s: usize) -> usize {
        self.parts.move_count(s)
    }

    fn target(&self, s: usize, k: usize) -> usize {
        self.parts.target(s, k)
    }
}

#[cfg(test)]
mod tests {
    use super::*;
    use fault::Cause;
    use table::moves::{all_moves_into, has_move_into};

    // Three states, 0 -> 1 2, 1 -> 1, 2 -> 0 1; 0 starts; atoms {0, 2} and {1}; one fairness set, {2}.
    const THREE: [u8; 25] = [
        3, 0, 2, 1, 1, 5, 2, 4, 2, 0, 3, 0, 5, 0, 1, 0, 2, 0, 1, 0, 0, 0, 1, 0, 0,
    ];

    #[test]
    fn answers_every_number(rt: HostRuntime) {
        let table = Listed::of(&THREE[0..24]);
        assert_eq!(rt; table.fault(), None);
        assert_eq!(rt;
            (table.states(), table.atoms(), table.fairness_sets()),
            (3, 2, 1)
        );
        assert!(rt; table.is_start(0) && !table.is_start(1) && !table.is_start(3));
        assert!(rt; table.in_atom(0, 2) && table.in_atom(1, 1) && !table.in_atom(2, 2));
        assert!(rt; table.in_fairness_set(0, 2) && !table.in_fairness_set(1, 2));
        assert_eq!(rt;
            (
                table.move_count(0),
                table.move_count(2),
                table.move_count(3),
            ),
            (2, 2, 0)
        );
        assert_eq!(rt;
            (table.target(0, 1), table.target(2, 1), table.target(2, 2)),
            (2, 1, 0)
        );
    }

    #[test]
    fn tells_moves_into_a_set(rt: HostRuntime) {
        let table = Listed::of(&THREE[0..24]);
        let mut set = [false; 1024];
        set[1] = true;
        assert!(rt; has_move_into(&table, &set, 0) && !all_moves_into(&table, &set, 0));
        assert!(rt; all_moves_into(&table, &set, 1) && !has_move_into(&table, &set, 3));
    }

    #[test]
    fn is_one_state_where_refused(rt: HostRuntime) {
        let table = Listed::of(&THREE);
        assert_eq!(rt;
            table.fault(),
            Some(Fault {
                cause: Cause::Targets,
                place: 0,
            })
        );
        assert_eq!(rt;
            (table.states(), table.atoms(), table.fairness_sets()),
            (1, 0, 1)
        );
        assert!(rt; table.is_start(0) && table.in_fairness_set(0, 0) && !table.in_atom(0, 0));
        assert_eq!(rt;
            (table.move_count(0), table.target(0, 0), table.move_count(1)),
            (1, 0, 0)
        );
    }
}
