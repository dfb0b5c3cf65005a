// Writing numbers, the highest byte first, and bytes. Each writer says by `Wrote` what now stands at its place and where it ended.
// Letters: `v` a number.
ghost use Rattle.std.specs.Prelude.{◌+◌, ◌*◌, ◌≤◌, length};
ghost use Rattle.laws.specs.Bytes.{be};
ghost use Rattle.laws.specs.Writes.{Wrote};
ghost use Rattle.boxes.specs.Box.{words};

// The low byte of v.
pub fn put_u8(out: &mut [u8], at: usize, v: u64) -> usize
    requires { at + 1 ≤ length out.old }
    ensures { Wrote out.old at (be 1 v) out.new result }
{
    out[at] = (v % 256) as u8;
    at + 1
}

pub fn put_u16(out: &mut [u8], at: usize, v: u64) -> usize
    requires { at + 2 ≤ length out.old }
    ensures { Wrote out.old at (be 2 v) out.new result }
{
    let a = put_u8(out, at, v / 256);
    put_u8(out, a, v)
}

pub fn put_u32(out: &mut [u8], at: usize, v: u64) -> usize
    requires { at + 4 ≤ length out.old }
    ensures { Wrote out.old at (be 4 v) out.new result }
{
    let a = put_u16(out, at, v / 65536);
    put_u16(out, a, v)
}

pub fn put_u64(out: &mut [u8], at: usize, v: u64) -> usize
    requires { at + 8 ≤ length out.old }
    ensures { Wrote out.old at (be 8 v) out.new result }
{
    let a = put_u32(out, at, v / 4294967296);
    put_u32(out, a, v)
}

// The numbers of ws one after another, four bytes each.
pub fn put_words(out: &mut [u8], at: usize, ws: &[u64]) -> usize
    requires { at + 4 * length ws.now ≤ length out.old }
    ensures { Wrote out.old at (words ws.now) out.new result }
{
    let mut p = at;
    for i in 0..ws.len() {
        p = put_u32(out, p, ws[i]);
    }
    p
}

// The bytes of src.
pub fn put_bytes(out: &mut [u8], at: usize, src: &[u8]) -> usize
    requires { at + length src.now ≤ length out.old }
    ensures { Wrote out.old at src.now out.new result }
{
    // Counted, as `copy` of `word_spans`: a slice's own copy asks the host for memmove.
    let mut p = at;
    for i in 0..src.len() {
        out[p] = src[i];
        p += 1;
    }
    p
}
