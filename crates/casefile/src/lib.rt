// Case files: a table or two, a wiring list, a formula and steps, one section each.
#![tactic(auto)]

ghost use Rattle.std.specs.Prelude.{◌≡◌, ◌+◌, ◌≤◌, length, Some};
ghost use Rattle.casefile.specs.Contents.{kind_of, kind_text};

use fault::{Cause, Fault};
pub use read::read_contents;
use std::fmt;

mod read;

// The length of the longest file that is read.
pub const LIMIT: usize = 65_536;

// The kinds of table that a file can hold.
#[derive(Clone, Copy, Debug, PartialEq, Eq)]
pub enum Kind {
    ListedTable,
    RegisterTable,
}

// The kind of table that a letter names; another letter is the fault of the contents, told at their beginning. A byte is
// matched as a character, since letters are.
impl TryFrom<u8> for Kind {
    type Error = Fault;

    ghost try_from_gives = { λ letter r. r ≡ kind_of letter };

    fn try_from(letter: u8) -> Result<Kind, Fault> {
        match letter as char {
            'T' => Ok(Kind::ListedTable),
            'R' => Ok(Kind::RegisterTable),
            _ => Err(Cause::Contents.at(0)),
        }
    }
}

// A kind is shown by the letter of its section.
impl fmt::Display for Kind {
    ghost output = { λ k. Some (kind_text k) };

    fn fmt<W: fmt::Write>(&self, f: &mut fmt::Formatter<W>) -> fmt::Result {
        f.write_str(match self {
            Kind::ListedTable => "T",
            Kind::RegisterTable => "R",
        })
    }
}

// A section: where it begins in the file, and its bytes; it lies within the longest file.
#[derive(Clone, Copy)]
pub struct Section<'a> {
    pub at: usize,
    pub bytes: &'a [u8],
    ghost placed: { at + length bytes.now ≤ 65536 },
}

// The sections of a file. A second table of length 0 is absent. The kind of a table is told in the contents, and no part of its
// section, so it stands beside it.
#[derive(Clone, Copy)]
pub struct Contents<'a> {
    pub first_kind: Kind,
    pub first: Section<'a>,
    pub second_kind: Kind,
    pub second: Section<'a>,
    pub wiring: Section<'a>,
    pub formula: Section<'a>,
    pub steps: Section<'a>,
}
