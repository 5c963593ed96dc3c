// What the programs that read case files share: the bytes of a file, and a line for it.
#![tactic(auto)]

ghost use Rattle.std.specs.Prelude.{◌≡◌, ◌+◌, ◌≤◌, take, vec_len, IfOk, IfSome, OnOk};
ghost use Rattle.std.specs.Io.KnownBytes.{Appends};
ghost use Rattle.caseio.specs.Lines.{first_line, case_line};

use casefile::LIMIT;
use std::alloc::Allocator;
use std::fmt::Display;
use std::io::{Read, Write};
use std::rt::Files;
use std::{fs, io};

// The bytes that a reader gives, and never more of them than one past the longest case file.
pub fn read_case<A: Allocator, R: Read + Drop>(alloc: A, reader: R) -> io::Result<Vec<u8, A>>
    ensures bound { IfOk result (λ bytes. vec_len bytes ≤ LIMIT + 1) }
    ensures bytes { IfOk result (λ bytes. IfSome (R.remaining reader) (λ all. bytes.items ≡ take (LIMIT + 1) all)) }
{
    let mut bytes = Vec::new(alloc);
    // there is no `From` of a `usize` into a `u64`
    reader.take(LIMIT as u64 + 1).read_to_end(&mut bytes)?;
    // `take` stops there already, but its contract says so only of readers whose bytes are known
    bytes.truncate(LIMIT + 1);
    Ok(bytes)
}

// The bytes of the file of that name, and never more of them than one past the longest case file.
pub fn open_case<R: Files + Alloc>(rt: &R, name: &str) -> io::Result<Vec<u8, R::A>>
    ensures { IfOk result (λ bytes. vec_len bytes ≤ LIMIT + 1) }
{
    read_case(rt.alloc(), fs::open(rt, name)?)
}

// The first line of a text, or nothing where it has none.
fn first_line(text: &str) -> &str
    ensures { result.now ≡ first_line text.now }
{
    text.lines().next().unwrap_or("")
}

// The line of a case file: its name, and the first line of its text.
pub fn write_line<A: Allocator, W: Write, D: Display + Drop>(
    alloc: A,
    out: &mut W,
    name: &str,
    text: D,
) -> io::Result<()>
    ensures { OnOk result (IfSome (D.output text) (λ whole. Appends (W.contents out.old) (W.contents out.new) (case_line name.now whole))) }
{
    let text = format!(in &alloc; "{text}")?;
    let first = first_line(&text);
    // made whole first, so that it is handed to the writer by one call, and is not mixed with what others write
    let line = format!(in &alloc; "{name}: {first}\n")?;
    out.write_all(line.as_bytes())
}

#[cfg(test)]
mod tests {
    use super::*;
    use std::io::{Error, ErrorKind};
    use std::test::Fail;

    // A reader that fails.
    #[derive(Drop)]
    struct Failing;

    impl Read for Failing {
        fn read(&mut self, _: &mut [u8]) -> io::Result<usize> {
            Err(Error::from(ErrorKind::PermissionDenied))
        }
    }

    #[test]
    fn reads_to_the_end(rt: HostRuntime) -> Result<(), Fail> {
        let pieces = b"ca".as_slice().chain(b"se".as_slice());
        assert_eq!(rt;
            read_case(rt.alloc(), pieces)?.as_slice(),
            b"case".as_slice()
        );
        assert_eq!(rt; read_case(rt.alloc(), io::empty())?.len(), 0);
        Ok(())
    }

    #[test]
    fn opens_a_file(rt: HostRuntime) -> Result<(), Fail> {
        fs::write(&rt, "opens_a_file.case", b"case")?;
        let read = open_case(&rt, "opens_a_file.case");
        fs::remove_file(&rt, "opens_a_file.case")?;
        assert_eq!(rt; read?.as_slice(), b"case".as_slice());
        Ok(())
    }

    #[test]
    fn cuts_off_one_past_the_longest_file(rt: HostRuntime) -> Result<(), Fail> {
        for length in [65_535, 65_536, 65_537] {
            let reader = io::repeat(7).take(length);
            assert_eq!(rt; read_case(rt.alloc(), reader)?.len() as u64, length);
        }
        assert_eq!(rt; read_case(rt.alloc(), io::repeat(7))?.len(), 65_537);
        Ok(())
    }

    #[test]
    fn asks_for_no_byte_past_the_last_that_it_answers(rt: HostRuntime) -> Result<(), Fail> {
        let reader = io::repeat(7).take(65_537).chain(Failing);
        assert_eq!(rt; read_case(rt.alloc(), reader)?.len(), 65_537);
        Ok(())
    }

    #[test]
    fn fails_where_the_reader_does(rt: HostRuntime) {
        let reader = io::repeat(7).take(20_000).chain(Failing);
        let read = read_case(rt.alloc(), reader);
        assert_eq!(rt;
            read.map(|bytes| bytes.len()).map_err(|e| e.kind()),
            Err(ErrorKind::PermissionDenied)
        );
    }

    // A writer that counts its calls.
    #[derive(Drop)]
    struct Counting {
        calls: usize,
    }

    impl Write for Counting {
        fn write(&mut self, buf: &[u8]) -> io::Result<usize> {
            self.calls = self.calls.saturating_add(1);
            Ok(buf.len())
        }

        fn flush(&mut self) -> io::Result<()> {
            Ok(())
        }
    }

    #[test]
    fn writes_a_line_by_one_call(rt: HostRuntime) -> Result<(), Fail> {
        let mut out = Counting { calls: 0 };
        write_line(rt.alloc(), &mut out, "a.case", "states 3\natoms 2\n")?;
        assert_eq!(rt; out.calls, 1);
        Ok(())
    }

    #[test]
    fn writes_the_first_line(rt: HostRuntime) -> Result<(), Fail> {
        let mut out = Vec::new(rt.alloc());
        write_line(rt.alloc(), &mut out, "a.case", "states 3\natoms 2\n")?;
        write_line(rt.alloc(), &mut out, "b.case", "")?;
        assert_eq!(rt; out.as_slice(), b"a.case: states 3\nb.case: \n".as_slice());
        Ok(())
    }
}
