// The `styp`: its length, how many brands it has, and its minor version.
// Letters: `b` a box of the chunk, `c` a chunk's bytes.
ghost use Rattle.std.specs.Prelude.{◌≡◌};
ghost use Rattle.cmaf_read_shape.specs.Parts.{Inside};
ghost use Rattle.cmaf_read_prelude.specs.Styp.{styp_ok, brands_in, minor_version};

use byte_parts::Part;
use cmaf_read_tree::numbers;

// A major brand, a minor version and whole compatible brands; or no box.
pub fn styp_ok(b: Part) -> bool
    ensures { result ≡ styp_ok b }
{
    (b.len == 0) | ((16 <= b.len) & (b.len % 4 == 0))
}

// How many brands the box has, the major brand one of them.
pub fn brands_in(b: Part) -> usize
    ensures { result ≡ brands_in b }
{
    if b.len < 16 {
        return 0;
    }
    (b.len - 12) / 4
}

pub fn minor_version(c: &[u8], b: Part) -> u64
    requires { Inside c.now b }
    ensures { result ≡ minor_version c.now b }
{
    if b.len < 16 {
        return 0;
    }
    numbers::u32_at(c, b.at + 12)
}
