// show: prints the first table of a case file, read from standard input, as text.
#![tactic(auto)]

use caseio::read_case;
use casetext::CaseText;
use std::io;

fn main(rt: HostRuntime) -> io::Result<()> {
    let file = read_case(rt.alloc(), rt.stdin())?;
    rt.print(CaseText { file: &file })
}
