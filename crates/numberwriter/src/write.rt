// Numbers written in the shortest form.
ghost use Rattle.std.specs.Prelude.{◌≡◌, ◌+◌, ◌-◌, ◌≤◌, length};
ghost use Rattle.verdict.specs.Answers.{written};
ghost use Rattle.verdict.specs.Writing.{put, room_rows, WrittenBy};
ghost use Rattle.number.specs.Octets.{octets};

use verdict::{Reason, Refusal, from_place};

// How many octets a value has.
pub fn count_of(value: u64) -> usize
    ensures { result ≡ length (octets value) }
{
    let mut count: usize = 1;
    let mut rest = value / 128;
    // how often is found by dividing: no index is counted
    while 0 < rest {
        count += 1;
        rest /= 128;
    }
    count
}

// A value's octets, the last one first, at a place with room for them.
fn put_at(out: &mut [u8], place: usize, count: usize, value: u64)
    requires { (count ≡ length (octets value)) × (place + count ≤ length out.old) }
    ensures { out.new ≡ put out.old place (octets value) }
{
    let last = count - 1;
    out[place + last] = (value % 128) as u8;
    let mut rest = value / 128;
    for left in (0..last).rev() {
        out[place + left] = (128 + rest % 128) as u8;
        rest /= 128;
    }
}

// A value's octets at a place: the count of them, or refused 13 and `out` as it was.
pub fn write_at(out: &mut [u8], place: usize, value: u64) -> Result<usize, Refusal>
    ensures { WrittenBy (room_rows (length (octets value)) (length out.old - place)) (octets value) out.old place (written result) out.new }
{
    let count = count_of(value);
    if from_place(out.len(), place) < count {
        return Err(Reason::SmallBuffer.at(0));
    }
    put_at(out, place, count, value);
    Ok(count)
}
