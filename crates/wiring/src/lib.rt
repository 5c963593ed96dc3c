// Wiring lists: for each atom of a rule, the number of the table's atom that it stands for.
#![tactic(auto)]

ghost use Rattle.std.specs.Prelude.{◌≡◌, ◌<◌, ◌≤◌, length, IfErr, slice_get};
ghost use Rattle.fault.specs.Checks.{mapped};

use fault::{Cause, Fault, need, none_past};

// How many entries a list has at most.
pub const LIMIT: usize = 16;

// A list of up to 16 numbers of atoms. It is to be `Copy`, of fixed size, and to borrow nothing: so an array and a count.
#[derive(Clone, Copy)]
pub struct Wiring {
    entries: [u8; LIMIT],
    count: usize,
    ghost few: { count ≤ 16 },
}

impl Wiring {
    ghost use Rattle.wiring.specs.Lists.{list_in, list_of, entries_check};

    // The list of a section, or the fault of its length.
    pub fn read(section: &[u8]) -> Result<Wiring, Fault>
        ensures value { mapped list_in result ≡ list_of section.now }
        ensures place { IfErr result (λ e. e.place ≡ 0) }
    {
        need(section.len() <= LIMIT, Cause::Wiring.at(0))?;
        let mut entries = [0; LIMIT];
        entries[..section.len()].copy_from_slice(section);
        Ok(Wiring {
            entries,
            count: section.len(),
        })
    }

    // The entries in use.
    fn list(&self) -> &[u8]
        ensures { result.now ≡ list_in self.now }
    {
        &self.entries[..self.count]
    }

    // How many entries there are.
    pub fn count(&self) -> usize
        ensures { result ≡ length (list_in self.now) }
    {
        self.count
    }

    // Entry j, if it is there.
    pub fn entry(&self, j: usize) -> Option<u8>
        ensures { result ≡ slice_get (list_in self.now) j }
    {
        self.list().get(j).copied()
    }

    // Every entry names one of so many atoms; the place of a fault is the entry's, from 0.
    pub fn check(&self, atoms: usize) -> Result<(), Fault>
        ensures value { result ≡ entries_check atoms (list_in self.now) }
        ensures place { IfErr result (λ e. e.place < 16) }
    {
        none_past(self.list(), atoms, Cause::Wiring, 0)
    }
}
