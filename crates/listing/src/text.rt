//! The text of a line, in fixed memory.
ghost use Rattle.std.specs.Prelude.{◌≡◌, ◌+◌, ◌≤◌, ◌++◌};
ghost use Rattle.arrayvec.specs.ArrayString.{array_string_len};
ghost use Rattle.table.specs.Buffers.{written_length, written_to};

use arrayvec::ArrayString;
use itoa::{Buffer, Integer};
use table::refusals::PlanFault;

/// How many bytes a line has room for. No line of the list is longer.
pub const ROOM: usize = 128;

/// A line of the list.
pub type Line = ArrayString<ROOM>;

/// Appends a number in decimal, with a minus sign before the digits if it is negative.
// A `write!` to a string of fixed room may fail, as far as its contract says, and a line cannot.
pub(super) fn push_number<I: Integer>(line: &mut Line, number: I)
    requires { array_string_len line.old + I.MAX_STR_LEN ≤ ROOM }
    ensures text { line.new.bytes ≡ line.old.bytes ++ I.text number }
    ensures short { array_string_len line.new ≤ array_string_len line.old + I.MAX_STR_LEN }
{
    line.push_str(Buffer::new().format(number));
}

/// Copies a text into a buffer, and answers its length. A buffer that is too short is left as it was, and refused with 33.
pub(super) fn copy_text(text: &str, out: &mut [u8]) -> Result<usize, PlanFault>
    ensures value { result ≡ written_length text.now out.old }
    ensures after { out.new ≡ written_to text.now out.old }
{
    if out.len() < text.len() {
        return Err(PlanFault::ShortBuffer);
    }
    out[..text.len()].copy_from_slice(text.as_bytes());
    Ok(text.len())
}
