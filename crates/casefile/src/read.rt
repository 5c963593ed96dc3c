// Reading the contents of a case file.
ghost use Rattle.std.specs.Prelude.{◌≡◌, ◌^◌, ◌<◌, ◌≤◌, length, slice_range};
ghost use Rattle.fault.specs.Checks.{mapped};
ghost use Rattle.casefile.specs.Contents.{size, others_named, adding_up, contents_of};
ghost use Rattle.casefile.specs.Parts.{laid_in};

use crate::{Contents, Kind, LIMIT, Section};
use fault::{Cause, Fault, need};

// The length of section i, as its entry tells it. There is no `From` of a `u32` into a `usize`.
fn size(file: &[u8], i: usize) -> usize
    requires { (i < 5) × (25 ≤ length file.now) }
    ensures value { result ≡ size file.now i }
    ensures small { result < 2 ^ 32 }
{
    u32::from_le_bytes(file[5 * i + 1..5 * i + 5].try_into().unwrap()) as usize
}

// Whether the last three entries are named N, F and P, letters being matched as characters.
fn others_named(file: &[u8]) -> bool
    requires { 25 ≤ length file.now }
    ensures { result ≡ others_named file.now }
{
    matches!(
        (file[10] as char, file[15] as char, file[20] as char),
        ('N', 'F', 'P')
    )
}

// The section from `at` up to `end`.
fn cut(file: &[u8], at: usize, end: usize) -> Section<'_>
    requires { (at ≤ end) × (end ≤ length file.now) × (length file.now ≤ 65536) }
    ensures at { result.at ≡ at }
    ensures bytes { result.bytes.now ≡ slice_range file.now at end }
{
    Section {
        at,
        bytes: &file[at..end],
    }
}

// The sections of a file whose letters are right.
fn lay_out(file: &[u8], first_kind: Kind, second_kind: Kind) -> Result<Contents<'_>, Fault>
    requires { (25 ≤ length file.now) × (length file.now ≤ 65536) }
    ensures { mapped laid_in result ≡ adding_up file.now first_kind second_kind }
{
    let second = 25 + size(file, 0);
    let wiring = second + size(file, 1);
    let formula = wiring + size(file, 2);
    let steps = formula + size(file, 3);
    let end = steps + size(file, 4);
    need(end == file.len(), Cause::Contents.at(0))?;
    Ok(Contents {
        first_kind,
        first: cut(file, 25, second),
        second_kind,
        second: cut(file, second, wiring),
        wiring: cut(file, wiring, formula),
        formula: cut(file, formula, steps),
        steps: cut(file, steps, end),
    })
}

// The sections of a file, or the fault of its length or of its contents.
pub fn read_contents(file: &[u8]) -> Result<Contents<'_>, Fault>
    ensures { mapped laid_in result ≡ contents_of file.now }
{
    need(file.len() <= LIMIT, Cause::FileLength.at(0))?;
    need(file.len() >= 25, Cause::Contents.at(0))?;
    let first = Kind::try_from(file[0])?;
    let second = Kind::try_from(file[5])?;
    need(others_named(file), Cause::Contents.at(0))?;
    lay_out(file, first, second)
}
