// A table as text: its counts, its sets, and a line a state.
#![tactic(auto)]

ghost use Rattle.std.specs.Prelude.{◌≡◌, ℕ, List, Some};
ghost use Rattle.std.specs.Fmt.{WritesOnOk};
ghost use Rattle.tabletext.specs.Text.{each_below, spaced, member, name_text, set_line, row_line, counts_text, table_text};
ghost use Rattle.tabletext.specs.Inner.{WritesEachBelow};

use std::fmt;
use table::Table;

// A set of states of a table.
#[derive(Clone, Copy)]
enum Set {
    Start,
    Atom(usize),
    Fairness(usize),
}

impl fmt::Display for Set {
    ghost output = { λ x. Some (name_text x) };

    fn fmt<W: fmt::Write>(&self, f: &mut fmt::Formatter<W>) -> fmt::Result {
        match self {
            Set::Start => f.write_str("start"),
            Set::Atom(j) => write!(f, "atom {j}:"),
            Set::Fairness(i) => write!(f, "fairness {i}:"),
        }
    }
}

// A number in a row of numbers.
fn write_spaced<W: fmt::Write>(x: usize, f: &mut fmt::Formatter<W>) -> fmt::Result
    ensures { WritesOnOk W.Write.write_str_gives f.old result (spaced x) f.new }
{
    write!(f, " {x}")
}

// What `write` writes of each number below n, in order.
fn write_each<W: fmt::Write, F: Fn(usize, &mut fmt::Formatter<W>) -> fmt::Result>(
    n: usize,
    f: &mut fmt::Formatter<W>,
    write: F,
) -> fmt::Result
    requires { F.IsAlwaysCallable write }
    ensures { (text : ℕ → List ℕ) → WritesEachBelow W.Write.write_str_gives (F.post write) n text → WritesOnOk W.Write.write_str_gives f.old result (each_below n text) f.new }
{
    for i in 0..n {
        write(i, f)?;
    }
    Ok(())
}

// A table of any kind, to be shown as text.
#[derive(Drop)]
pub struct TableText<'a, T> {
    pub table: &'a T,
}

impl<'a, T: Table> TableText<'a, T> {
    // Whether the table has s in the set.
    fn in_set(&self, set: Set, s: usize) -> bool
        ensures { result ≡ member (T.Table.meaning self.now.table.now) «set» s }
    {
        match set {
            Set::Start => self.table.is_start(s),
            Set::Atom(j) => self.table.in_atom(j, s),
            Set::Fairness(i) => self.table.in_fairness_set(i, s),
        }
    }

    // The three counts, a line each.
    fn write_counts<W: fmt::Write>(&self, f: &mut fmt::Formatter<W>) -> fmt::Result
        ensures { WritesOnOk W.Write.write_str_gives f.old result (counts_text (T.Table.meaning self.now.table.now)) f.new }
    {
        writeln!(f, "states {}", self.table.states())?;
        writeln!(f, "atoms {}", self.table.atoms())?;
        writeln!(f, "fairness sets {}", self.table.fairness_sets())
    }

    // The line of a set.
    fn write_set<W: fmt::Write>(&self, set: Set, f: &mut fmt::Formatter<W>) -> fmt::Result
        ensures { WritesOnOk W.Write.write_str_gives f.old result (set_line (T.Table.meaning self.now.table.now) «set») f.new }
    {
        write!(f, "{set}")?;
        write_each(self.table.states(), f, |s, f| {
            if self.in_set(set, s) {
                write_spaced(s, f)
            } else {
                Ok(())
            }
        })?;
        writeln!(f)
    }

    // The line of a state.
    fn write_row<W: fmt::Write>(&self, s: usize, f: &mut fmt::Formatter<W>) -> fmt::Result
        ensures { WritesOnOk W.Write.write_str_gives f.old result (row_line (T.Table.targets self.now.table.now) s) f.new }
    {
        write!(f, "{s} ->")?;
        write_each(self.table.move_count(s), f, |k, f| {
            write_spaced(self.table.target(s, k), f)
        })?;
        writeln!(f)
    }
}

impl<'a, T: Table> fmt::Display for TableText<'a, T> {
    ghost output = { λ t. Some (table_text (T.Table.meaning t.table.now) (T.Table.targets t.table.now)) };

    fn fmt<W: fmt::Write>(&self, f: &mut fmt::Formatter<W>) -> fmt::Result {
        self.write_counts(f)?;
        self.write_set(Set::Start, f)?;
        write_each(self.table.atoms(), f, |j, f| {
            self.write_set(Set::Atom(j), f)
        })?;
        write_each(self.table.fairness_sets(), f, |i, f| {
            self.write_set(Set::Fairness(i), f)
        })?;
        write_each(self.table.states(), f, |s, f| self.write_row(s, f))
    }
}
