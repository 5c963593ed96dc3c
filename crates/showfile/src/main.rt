// showfile: prints the table of a case file, read from standard input, as text.
#![tactic(auto)]

use caseio::read_case;
use filetext::FileText;
use std::io;

fn main(rt: HostRuntime) -> io::Result<()> {
    let file = read_case(rt.alloc(), rt.stdin())?;
    rt.print(FileText { file: &file })
}
