// boundary: reads each case file that the file `list` names, and prints its name with the first line of its text.
#![tactic(auto)]

use caseio::{open_case, write_line};
use casetext::CaseText;
use std::{fs, io};

// A line for each name in `list`.
fn main(rt: HostRuntime) -> io::Result<()> {
    let list = fs::read_to_string(&rt, "list")?;
    for name in list.lines() {
        let file = open_case(&rt, name)?;
        write_line(rt.alloc(), &mut rt.stdout(), name, CaseText { file: &file })?;
    }
    Ok(())
}
