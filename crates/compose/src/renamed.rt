// A table with its atoms numbered anew.
ghost use Rattle.std.specs.Prelude.{◌≡◌};
ghost use Rattle.combining.specs.Renaming.{renamed};
ghost use Rattle.combining.specs.Agree.{RenamingsAgree};
ghost use Rattle.combining.proofs.Renamings.{renamed_faithful};
ghost use Rattle.wiring.specs.Lists.{list_in};
ghost use Rattle.wiring.proofs.Used.{few_used};

use table::Table;
use wiring::Wiring;

// Atom j is the atom below whose number is entry j of the list, and holds nowhere if that is absent; the rest is as below.
#[derive(Drop)]
pub struct Renamed<T: Table> {
    table: T,
    wiring: Wiring,
}

impl<T: Table> Renamed<T> {
    // The table with its atoms numbered by the list. Renamings of tables of the same meaning mean the same.
    pub fn new(table: T, wiring: Wiring) -> Renamed<T>
        ensures table { result.table ≡ table }
        ensures wiring { result.wiring ≡ wiring }
        ensures agree { RenamingsAgree }
    {
        Renamed { table, wiring }
    }
}

impl<T: Table> Table for Renamed<T> {
    ghost meaning = { λ t. renamed (list_in t.wiring) (T.Table.meaning t.table) };

    ghost targets = { λ t. T.Table.targets t.table };

    ghost faithful = { λ t. renamed_faithful (list_in t.wiring) (T.Table.meaning t.table) (T.Table.targets t.table) (few_used t.wiring) (T.Table.faithful t.table) };

    fn states(&self) -> usize {
        self.table.states()
    }

    fn atoms(&self) -> usize {
        self.wiring.count()
    }

    fn fairness_sets(&self) -> usize {
        self.table.fairness_sets()
    }

    fn is_start(&self, s: usize) -> bool {
        self.table.is_start(s)
    }

    fn in_atom(&self, j: usize, s: usize) -> bool {
        match self.wiring.entry(j) {
            Some(i) => self.table.in_atom(usize::from(i), s),
            None => false,
        }
    }

    fn in_fairness_set(&self, i: usize, s: usize) -> bool {
        self.table.in_fairness_set(i, s)
    }

    fn move_count(&self, s: usize) -> usize {
        self.table.move_count(s)
    }

    fn target(&self, s: usize, k: usize) -> usize {
        self.table.target(s, k)
    }
}
