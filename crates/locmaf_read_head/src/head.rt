// What stands before the property block.
// Letters: `o` an object's bytes.
ghost use Rattle.std.specs.Prelude.{◌≡◌};
ghost use Rattle.wire.specs.Form.{rows};
ghost use Rattle.locmaf_read_head.specs.Head.{block_f, head_of};

use constants::{ids, maxima};
use refusal::Refusal;
use wire::form::Form;

// An object's head: whether it is a delta, and where its block starts and ends.
#[derive(Clone, Copy)]
pub struct Place {
    pub delta: bool,
    pub at: usize,
    pub end: usize,
}

// From the block length on, which starts at the place p.
fn block_at(form: Form, o: &[u8], p: usize, delta: bool) -> Result<Place, Refusal>
    ensures { result ≡ block_f (rows form) o.now p delta }
{
    let (n, at) = wire::varint::read(form, o, p, o.len()).ok_or(Refusal::Unreadable)?;
    if ((o.len() - at) as u64) < n {
        return Err(Refusal::Unreadable); // the block ends past the object
    }
    if maxima::BLOCK < n {
        return Err(Refusal::OutOfRange);
    }
    Ok(Place {
        delta,
        at,
        end: at + n as usize,
    })
}

// The head of any bytes.
pub fn head_of(form: Form, o: &[u8]) -> Result<Place, Refusal>
    ensures { result ≡ head_of (rows form) o.now }
{
    let (id, p) = wire::varint::read(form, o, 0, o.len()).ok_or(Refusal::Unreadable)?;
    if id == ids::FULL {
        return block_at(form, o, p, false);
    }
    if id == ids::DELTA {
        return block_at(form, o, p, true);
    }
    Err(Refusal::OtherHeader)
}
