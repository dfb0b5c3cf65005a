// The number on the wire for a value, plain or as the zigzag of its distance from an old value, and back.
// Letters: `z` a number on the wire.
ghost use Rattle.std.specs.Prelude.{◌≡◌};
ghost use Rattle.wire.specs.Form.{rows};
ghost use Rattle.wire.specs.Zigzag.{fitted, code_of, reached};

use crate::form::Form;

// How a value stands on the wire.
#[derive(Clone, Copy)]
pub enum Coding {
    Plain,
    Delta,
}

fn fit(form: Form, z: u64) -> Option<u64>
    ensures { result ≡ fitted (rows form) z }
{
    if z <= crate::form::largest(form) {
        return Some(z);
    }
    None
}

fn distance(form: Form, old: u64, new: u64) -> Option<u64>
    ensures { result ≡ code_of (rows form) Coding.Delta old new }
{
    if new < old {
        let below = old - new - 1;
        return fit(form, below.checked_mul(2)? + 1);
    }
    let above = new - old;
    fit(form, above.checked_mul(2)?)
}

// The number that stands on the wire for the new value.
pub fn code(form: Form, coding: Coding, old: u64, new: u64) -> Option<u64>
    ensures { result ≡ code_of (rows form) coding old new }
{
    match coding {
        Coding::Plain => fit(form, new),
        Coding::Delta => distance(form, old, new),
    }
}

fn within(v: u64, bound: u64) -> Option<u64>
    ensures { result ≡ reached Coding.Plain 0 bound v }
{
    if v <= bound {
        return Some(v);
    }
    None
}

fn moved(old: u64, bound: u64, z: u64) -> Option<u64>
    ensures { result ≡ reached Coding.Delta old bound z }
{
    let h = z / 2;
    if z % 2 == 0 {
        return within(old.checked_add(h)?, bound);
    }
    within(old.checked_sub(h + 1)?, bound)
}

// The value, from 0 to the bound, that the number z on the wire stands for.
pub fn reach(coding: Coding, old: u64, bound: u64, z: u64) -> Option<u64>
    ensures { result ≡ reached coding old bound z }
{
    match coding {
        Coding::Plain => within(z, bound),
        Coding::Delta => moved(old, bound, z),
    }
}
