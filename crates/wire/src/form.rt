// The forms that a varint can have, each a table of rows.
// Letters: `b` a number, `v` a number.
ghost use Rattle.std.specs.Prelude.{◌≡◌, suc, Some};
ghost use Rattle.wire.specs.Form.{rows, by_first, by_value, limit, row, longest, ones, twos};

// The form of a track's varints. Each function of this crate takes one, so that a second form is a second table.
#[derive(Clone, Copy)]
pub enum Form {
    Rfc9000,
}

// A row of a form's table: `width` first bytes, from `mark` on, each with `tail` bytes after it.
#[derive(Clone, Copy)]
pub struct Row {
    pub tail: usize,
    pub mark: u64,
    pub width: u64,
}

fn in_row(tail: usize, mark: u64, width: u64) -> Option<Row>
    ensures { result ≡ Some (row tail mark width) }
{
    Some(Row { tail, mark, width })
}

// The row that a first byte is in.
pub fn by_first(form: Form, b: u64) -> Option<Row>
    ensures { result ≡ by_first (rows form) b }
{
    match form {
        Form::Rfc9000 => rfc9000_by_first(b),
    }
}

fn rfc9000_by_first(b: u64) -> Option<Row>
    ensures { result ≡ by_first (rows Form.Rfc9000) b }
{
    if b < 64 {
        return in_row(0, 0, 64);
    }
    if b < 128 {
        return in_row(1, 64, 64);
    }
    if b < 192 {
        return in_row(3, 128, 64);
    }
    if b < 256 {
        return in_row(7, 192, 64);
    }
    None
}

// The first row that holds v.
pub fn by_value(form: Form, v: u64) -> Option<Row>
    ensures { result ≡ by_value (rows form) v }
{
    match form {
        Form::Rfc9000 => rfc9000_by_value(v),
    }
}

fn rfc9000_by_value(v: u64) -> Option<Row>
    ensures { result ≡ by_value (rows Form.Rfc9000) v }
{
    if v < 0x40 {
        return in_row(0, 0, 64);
    }
    if v < 0x4000 {
        return in_row(1, 64, 64);
    }
    if v < 0x4000_0000 {
        return in_row(3, 128, 64);
    }
    if v < 0x4000_0000_0000_0000 {
        return in_row(7, 192, 64);
    }
    None
}

// The largest number that the form holds.
pub fn largest(form: Form) -> u64
    ensures { suc result ≡ limit (rows form) }
{
    match form {
        Form::Rfc9000 => 0x3fff_ffff_ffff_ffff,
    }
}

// The bytes of the form's longest varint.
pub fn most(form: Form) -> usize
    ensures { result ≡ longest (rows form) }
{
    match form {
        Form::Rfc9000 => 8,
    }
}

// How many first bytes, from 0 on, are varints of one byte: each is its own value.
pub fn ones(form: Form) -> u64
    ensures { result ≡ ones (rows form) }
{
    match form {
        Form::Rfc9000 => 64,
    }
}

// How many first bytes after those begin a varint of two bytes.
pub fn twos(form: Form) -> u64
    ensures { result ≡ twos (rows form) }
{
    match form {
        Form::Rfc9000 => 64,
    }
}
