// One tuple of a property block.
// Letters: `s` bytes that are read.
ghost use Rattle.std.specs.Prelude.{◌≡◌};
ghost use Rattle.wire.specs.Form.{rows};
ghost use Rattle.locmaf_read_block.specs.Tuples.{kind_of, tuple_at};

use byte_parts::Part;
use constants::ids;
use wire::form::Form;

// What a tuple holds: one varint, a list of varints, bytes as they are, or records of events.
#[derive(Clone, Copy)]
pub enum Kind {
    Scalar(Part),
    Numbers(Part),
    Raw(Part),
    Records(Part),
}

// A tuple: its id, the number after the id (a scalar's value, or the length), and its kind with the part that it holds.
#[derive(Clone, Copy)]
pub struct Tuple {
    pub id: u64,
    pub number: u64,
    pub kind: Kind,
}

fn kind_of(id: u64, part: Part) -> Kind
    ensures { result ≡ kind_of id part }
{
    if id % 2 == 0 {
        return Kind::Scalar(part);
    }
    if id == ids::EVENTS {
        return Kind::Records(part);
    }
    if (id == 9) | (id == ids::BRANDS) {
        return Kind::Raw(part);
    }
    Kind::Numbers(part)
}

// The tuple from the place at, that ends before the place end.
pub fn tuple_at(form: Form, s: &[u8], at: usize, end: usize) -> Option<(Tuple, usize)>
    ensures { result ≡ tuple_at (rows form) s.now at end }
{
    let (id, p) = wire::varint::read(form, s, at, end)?;
    let (n, q) = wire::varint::read(form, s, p, end)?;
    if id % 2 == 0 {
        let scalar = kind_of(id, Part { at: p, len: q - p });
        return Some((
            Tuple {
                id,
                number: n,
                kind: scalar,
            },
            q,
        ));
    }
    if ((end - q) as u64) < n {
        return None;
    }
    let len = n as usize;
    let held = kind_of(id, Part { at: q, len });
    Some((
        Tuple {
            id,
            number: n,
            kind: held,
        },
        q + len,
    ))
}
