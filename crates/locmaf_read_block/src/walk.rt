// The records of an emsg list without a call for a record: whatever their number, the stack is the same.
// Letters: `s` bytes that are read, `n` how many.
ghost use Rattle.wire.specs.Form.{rows};
ghost use Rattle.locmaf_read_block.specs.Records.{Listable, ListedAs, records_run};

use crate::records;
use wire::form::Form;

// How many records the list s is, with n before it, as `records::read_list` says it.
pub fn walk_list(form: Form, s: &[u8], base: usize, n: usize, out: &mut [u64]) -> Option<usize>
    requires { Listable s.now base n out.old }
    ensures { ListedAs (records_run (rows form) base s.now) n out.old result
        out.new }
{
    let mut at: usize = 0;
    let mut count = n;
    while at < s.len() {
        let (r, k) = records::record_of(form, &s[at..], base + at)?;
        records::keep(&mut *out, count, r);
        at += k;
        count += 1;
    }
    Some(count)
}
