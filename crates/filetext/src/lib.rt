// Case files as text.
#![tactic(auto)]

ghost use Rattle.std.specs.Fmt.{WritesOnOk};
ghost use Rattle.std.specs.Prelude.{Some};
ghost use Rattle.tabletext.specs.Text.{table_text};
ghost use Rattle.filetext.specs.Text.{file_text};

use casetable::{Task, with_table};
use std::fmt;
use table::Table;
use tabletext::TableText;

// The task of writing a table as text.
struct WriteTable;

impl<W: fmt::Write> Task<fmt::Formatter<W>, fmt::Result> for WriteTable {
    ghost done = { λ _ M targets f r g. WritesOnOk W.Write.write_str_gives f r (table_text M targets) g };

    fn run<T: Table + Drop>(&self, table: T, context: &mut fmt::Formatter<W>) -> fmt::Result {
        write!(context, "{}", TableText { table: &table })
    }
}

// A case file, to be shown as text: its table, or the line of its refusal.
#[derive(Drop)]
pub struct FileText<'a> {
    pub file: &'a [u8],
}

impl<'a> fmt::Display for FileText<'a> {
    ghost output = { λ c. Some (file_text c.file.now) };

    fn fmt<W: fmt::Write>(&self, f: &mut fmt::Formatter<W>) -> fmt::Result {
        match with_table(self.file, &WriteTable, f) {
            Ok(written) => written,
            Err(fault) => writeln!(f, "{fault}"),
        }
    }
}
