// The table of a case file, and what is done with it.
#![tactic(auto)]

ghost use Rattle.std.specs.Prelude.{◌≡◌, ℕ, ◌≤◌, List, IfErr};
// in a clause `>>=` is Rust's
ghost use Rattle.fault.specs.Checks.{◌>>=◌ as ◌and_then◌};
ghost use Rattle.table.specs.Meaning.{Meaning};
ghost use Rattle.casefile.specs.Parts.{part_in, laid_in};
ghost use Rattle.casetable.specs.Tables.{told, moved, side_by_side, with_second as with_second_of, behind, table_in};
ghost use Rattle.casetable.specs.Task.{Done};

use casefile::{Contents, Kind, Section, read_contents};
use compose::pair::Pair;
use compose::renamed::Renamed;
use fault::{Cause, Fault, need};
use listed::Listed;
use register::Register;
use table::Table;
use wiring::Wiring;

// Something to be done with a table, of whatever kind it is. The kind of a file's table is known only when the file is
// read; a task is done by code that is made for that kind.
pub trait Task<C, A> {
    // what it is to be done with a table of this meaning and these targets: the context before, the answer, the context after
    ghost done: { Self → Meaning → (ℕ → List ℕ) → C → A → C → Type 0 };

    fn run<T: Table + Drop>(&self, table: T, context: &mut C) -> A
        ensures { done self.now (T.Table.meaning table) (T.Table.targets table) context.old result context.new };
}

// What a section holds, as `read` tells it of the section's bytes; a fault is told of the file.
fn read_at<'a, T, F: FnOnce(&'a [u8]) -> Result<T, Fault>>(
    section: Section<'a>,
    read: F,
) -> Result<T, Fault>
    requires callable { F.pre read section.bytes }
    requires near { (r : _) → F.post read section.bytes r → IfErr r (λ e. e.place ≤ 65536) }
    ensures { (r : _) × F.post read section.entry.bytes r × (result ≡ moved section.entry.at r) }
{
    read(section.bytes).map_err(|fault| fault.moved_by(section.at))
}

// The table behind the wiring list. `task` and `context` stay two parameters here and below, as they are in `with_table`.
fn with_wiring<T: Table + Drop, C, A, K: Task<C, A>>(
    table: T,
    section: Section<'_>,
    task: &K,
    context: &mut C,
) -> Result<A, Fault>
    ensures { let t = told (T.Table.meaning table) (T.Table.targets table) in
        Done (behind (part_in section.entry) t) result (K.Task.done task.now) context.old context.new }
{
    let wiring = read_at(section, Wiring::read)?;
    wiring
        .check(table.atoms())
        .map_err(|fault| fault.moved_by(section.at))?;
    Ok(task.run(Renamed::new(table, wiring), context))
}

// The first table beside the second.
fn with_second<F: Table + Drop, S: Table + Drop, C, A, K: Task<C, A>>(
    first: F,
    second: S,
    wiring: Section<'_>,
    task: &K,
    context: &mut C,
) -> Result<A, Fault>
    ensures { let A = told (F.Table.meaning first) (F.Table.targets first) in
        let B = told (S.Table.meaning second) (S.Table.targets second) in
        Done (side_by_side A B and_then behind (part_in wiring.entry))
        result (K.Task.done task.now) context.old context.new }
{
    let pair = Pair::new(first, second);
    need(pair.fits(), Cause::PairLimits.at(0))?;
    with_wiring(pair, wiring, task, context)
}

// The first table with the second, if there is one.
fn with_first<F: Table + Drop, C, A, K: Task<C, A>>(
    first: F,
    contents: &Contents<'_>,
    task: &K,
    context: &mut C,
) -> Result<A, Fault>
    ensures { let A = told (F.Table.meaning first) (F.Table.targets first) in
        let l = laid_in contents.now in
        Done (with_second_of l A and_then behind l.wiring) result (K.Task.done task.now) context.old context.new }
{
    let section = contents.second;
    if section.bytes.is_empty() {
        return with_wiring(first, contents.wiring, task, context);
    }
    // a table of each kind is a type of its own, for which the code below is made: so one arm for each
    match contents.second_kind {
        Kind::ListedTable => {
            let second = read_at(section, Listed::read)?;
            with_second(first, second, contents.wiring, task, context)
        }
        Kind::RegisterTable => {
            let second = read_at(section, Register::read)?;
            with_second(first, second, contents.wiring, task, context)
        }
    }
}

// Does the task with the table of a case file; or tells the file's first fault from 1 to 9.
pub fn with_table<C, A, K: Task<C, A>>(file: &[u8], task: &K, context: &mut C) -> Result<A, Fault>
    ensures { Done (table_in file.now) result (K.Task.done task.now) context.old context.new }
{
    let contents = read_contents(file)?;
    // as above, one arm for each kind
    match contents.first_kind {
        Kind::ListedTable => {
            let first = read_at(contents.first, Listed::read)?;
            with_first(first, &contents, task, context)
        }
        Kind::RegisterTable => {
            let first = read_at(contents.first, Register::read)?;
            with_first(first, &contents, task, context)
        }
    }
}
