// Case files as text.
#![tactic(auto)]

ghost use Rattle.std.specs.Prelude.{◌≡◌, Some};
ghost use Rattle.std.specs.Fmt.{WritesOnOk};
ghost use Rattle.listing.specs.Read.{read_of};
ghost use Rattle.casefile.specs.Parts.{part_in};
ghost use Rattle.casetext.specs.Text.{second_text, listed_text, case_text};

use casefile::{Contents, Kind, read_contents};
use listed::Listed;
use std::fmt;
use tabletext::TableText;

// That a second table is there and not shown.
fn write_second<W: fmt::Write>(contents: &Contents<'_>, f: &mut fmt::Formatter<W>) -> fmt::Result
    ensures { WritesOnOk W.Write.write_str_gives f.old result (second_text contents.now.second_kind (part_in contents.now.second)) f.new }
{
    if contents.second.bytes.is_empty() {
        return Ok(());
    }
    let kind = contents.second_kind;
    writeln!(f, "not shown yet: second table, section {kind}")
}

// The first table, which is listed, with what is not shown behind it, or the line of its refusal.
fn write_listed<W: fmt::Write>(contents: &Contents<'_>, f: &mut fmt::Formatter<W>) -> fmt::Result
    ensures { let first = part_in contents.now.first in
        let second = second_text contents.now.second_kind (part_in contents.now.second) in
        WritesOnOk W.Write.write_str_gives f.old result (listed_text first.at (read_of first.bytes) second) f.new }
{
    match Listed::read(contents.first.bytes) {
        Ok(table) => {
            write!(f, "{}", TableText { table: &table })?;
            write_second(contents, f)
        }
        Err(fault) => writeln!(f, "{}", fault.moved_by(contents.first.at)),
    }
}

// A case file, to be shown as text: its first table, or the line of its refusal. What is not shown yet is named.
#[derive(Drop)]
pub struct CaseText<'a> {
    pub file: &'a [u8],
}

impl<'a> fmt::Display for CaseText<'a> {
    ghost output = { λ c. Some (case_text c.file.now) };

    fn fmt<W: fmt::Write>(&self, f: &mut fmt::Formatter<W>) -> fmt::Result {
        let contents = match read_contents(self.file) {
            Ok(contents) => contents,
            Err(fault) => return writeln!(f, "{fault}"),
        };
        // one kind is shown and the other named, so there is nothing to share
        match contents.first_kind {
            Kind::ListedTable => write_listed(&contents, f),
            Kind::RegisterTable => writeln!(f, "not shown yet: first table, section R"),
        }
    }
}
