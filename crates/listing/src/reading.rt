// The bytes of a reader, in lent memory.
ghost use Rattle.std.specs.Prelude.{IfOk};
ghost use Rattle.io.specs.Counts.{IsPrefixLen};
ghost use Rattle.listing.specs.Reading.{ReadsText};

use std::io::{Read, Result};

// Reads until the buffer is full or the input ends, and answers how many bytes it put at its start. By a loop over `read`: std says nothing of the
// bytes that `copy` leaves in a lent slice.
pub(crate) fn read_full<R: Read>(reader: &mut R, buffer: &mut [u8]) -> Result<usize>
    ensures prefix_len { IfOk result (λ n. IsPrefixLen n buffer.new) }
    ensures text { IfOk result (λ n. ReadsText (R.remaining reader.old) n buffer.new) }
{
    let mut done = 0;
    while done < buffer.len() {
        let n = reader.read(&mut buffer[done..])?;
        if n == 0 {
            break;
        }
        done += n;
    }
    Ok(done)
}
