// The first bytes of a matrix pack: the size and the control bytes of either mode.
ghost use Rattle.std.specs.Prelude.{◌≡◌, true, false, cond, ◌/◌, ◌≤◌, length, get_or};
ghost use Rattle.matrix.specs.Header.{first, second, single, fields_in, fields_of};
ghost use Rattle.matrix.specs.Meaning.{LawfulFirst};
ghost use Rattle.matrix.specs.Machine.{verdict_of, control1, control2, in_single, in_first};
ghost use Rattle.matrix.specs.Reached.{verdict_at, verdict_behind};
ghost use Rattle.matrixhead.specs.Parts.{HeadFrom};

use crate::control::{Size, first_of, least_values, second_of, single_of};
use crate::judge::{judge_control1, judge_control2, judge_single, judge_size, judged_at};
use matrix::{Fields, Told};
use verdict::{Reason, Stop};
use word::bytes::byte_at;

// From Mode 2's control byte 2 on, behind the size and control byte 1.
fn from_control2(bytes: &[u8], f: Fields) -> Result<Fields, Stop>
    requires { (f.mode1 ≡ false) × LawfulFirst f }
    ensures { HeadFrom (verdict_at (control2 f) bytes.now 2) (second f (get_or bytes.now 2 0)) bytes.now result }
{
    if bytes.len() <= 2 {
        return Err(Stop::Unfinished(1 + least_values(f)));
    }
    let d = byte_at(bytes, 2);
    let fields = second_of(f, d);
    judged_at(judge_control2(fields, d), 2)?;
    Ok(fields)
}

// Mode 2's control byte 1.
fn from_first(bytes: &[u8], size: Size, c: usize) -> Result<Fields, Stop>
    ensures { HeadFrom (verdict_behind (in_first (first size.n c) c) bytes.now 2) (second (first size.n c) (get_or bytes.now 2 0)) bytes.now result }
{
    let f = first_of(size.n, c);
    judged_at(judge_control1(f, c), 1)?;
    from_control2(bytes, f)
}

// Mode 1's control byte.
fn from_single(bytes: &[u8], told: Told, size: Size, c: usize) -> Result<Fields, Stop>
    requires { 2 ≤ length bytes.now }
    ensures { HeadFrom (verdict_behind (in_single (single told size.n c)) bytes.now 2) (single told size.n c) bytes.now result }
{
    let f = single_of(told, size.n, c);
    judged_at(judge_single(f), 1)?;
    Ok(f)
}

// A byte behind the size without its top bit: Mode 1's, or refused where that mode is not let in.
fn from_low(bytes: &[u8], told: Told, size: Size, c: usize) -> Result<Fields, Stop>
    requires { (2 ≤ length bytes.now) × (c ≡ get_or bytes.now 1 0) × (c / 128 ≡ 0) }
    ensures { HeadFrom (verdict_at (control1 told size.n) bytes.now 1) (fields_in told size.n (get_or bytes.now 1 0) (get_or bytes.now 2 0)) bytes.now result }
{
    if told.mode1 {
        return from_single(bytes, told, size, c);
    }
    Err(Stop::Refused(Reason::Mode.at(1)))
}

// From the byte behind the size on, whose top bit tells the mode.
fn from_control1(bytes: &[u8], told: Told, size: Size) -> Result<Fields, Stop>
    ensures { HeadFrom (verdict_at (control1 told size.n) bytes.now 1) (fields_in told size.n (get_or bytes.now 1 0) (get_or bytes.now 2 0)) bytes.now result }
{
    if bytes.len() <= 1 {
        return Err(Stop::Unfinished(size.least_behind(told)));
    }
    let c = byte_at(bytes, 1);
    if c / 128 == 0 {
        return from_low(bytes, told, size, c);
    }
    from_first(bytes, size, c)
}

// The fewest bytes of a pack.
fn least_of_all(told: Told) -> usize
    ensures { result ≡ cond told.mode1 3 4 }
{
    if told.mode1 { 3 } else { 4 }
}

// Lawful fields, or why there are none.
pub(crate) fn header(bytes: &[u8], told: Told) -> Result<Fields, Stop>
    ensures { HeadFrom (verdict_of told bytes.now) (fields_of told bytes.now) bytes.now result }
{
    if bytes.is_empty() {
        return Err(Stop::Unfinished(least_of_all(told)));
    }
    let n = byte_at(bytes, 0);
    judged_at(judge_size(n), 0)?;
    let size = Size { n };
    from_control1(bytes, told, size)
}
