// filebounds: reads case files, and prints the first line of the text of those that the file `list` names, and the whole
// text of those that `texts` names; then the text of a pair of a pair.
#![tactic(auto)]

use casefile::read_contents;
use caseio::{open_case, write_line};
use compose::pair::Pair;
use filetext::FileText;
use listed::Listed;
use register::Register;
use std::{fs, io};
use tabletext::TableText;

// The line of a case file: its name, and the first line of its text.
fn print_line(rt: &HostRuntime, name: &str) -> io::Result<()> {
    let file = open_case(rt, name)?;
    write_line(rt.alloc(), &mut rt.stdout(), name, FileText { file: &file })
}

// The name of a case file, and its text.
fn print_text(rt: &HostRuntime, name: &str) -> io::Result<()> {
    let file = open_case(rt, name)?;
    println!(rt; "{name}:")?;
    rt.print(FileText { file: &file })
}

// The tables of a case file, a listed one and a circuit, side by side, and beside them the first once more.
fn print_nested(rt: &HostRuntime, name: &str) -> io::Result<()> {
    let file = open_case(rt, name)?;
    println!(rt; "nested:")?;
    match read_contents(&file) {
        Ok(contents) => {
            let first = Listed::of(contents.first.bytes);
            let pair = Pair::new(first, Register::of(contents.second.bytes));
            let nested = Pair::new(pair, first);
            rt.print(TableText { table: &nested })
        }
        Err(_) => println!(rt; "refused"),
    }
}

fn main(rt: HostRuntime) -> io::Result<()> {
    let list = fs::read_to_string(&rt, "list")?;
    for name in list.lines() {
        print_line(&rt, name)?;
    }
    let texts = fs::read_to_string(&rt, "texts")?;
    for name in texts.lines() {
        print_text(&rt, name)?;
    }
    print_nested(&rt, "pair.case")
}
