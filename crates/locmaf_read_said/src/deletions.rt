// The ids that a delta deletes.
// Letters: `o` an object's bytes, `r` the words of the reference's set.
ghost use Rattle.std.specs.Prelude.{◌≡◌, length, replicate};
ghost use Rattle.constants.specs.Ids.{id_count};
ghost use Rattle.wire.specs.Form.{rows};
ghost use Rattle.field_table.specs.Lines.{set_len};
ghost use Rattle.locmaf_read_index.specs.Places.{index_len};
ghost use Rattle.locmaf_read_said.specs.Said.{says_in, Telling};
ghost use Rattle.locmaf_read_said.specs.Deletions.{StruckAs, ListedAt, MarkedAs};

use field_table::lines;
use locmaf_read_index::places;
use wire::form::Form;

// Marks the id d as deleted, if it may be: it is a moof field of the reference that isn't sent again, nor deleted before.
fn strike(index: &[u64], r: &[u64], d: u64, gone: &mut [u64]) -> bool
    requires { (length index.now ≡ index_len) × (length r.now ≡ set_len) × (length gone.old ≡ id_count) }
    ensures { StruckAs index.now r.now d gone.old result gone.new }
{
    let i = lines::number_of(d);
    if i == lines::LINES {
        return false;
    }
    let k = d as usize;
    let place = lines::line_at(i).place;
    if (r[place] == 0) | ((index[k * places::EACH] != 0) | (gone[k] != 0)) {
        return false;
    }
    gone[k] = 1;
    true
}

// Marks the ids that the object lists from the place from up to the place end, as long as each may be deleted.
fn strike_all(
    form: Form,
    o: &[u8],
    from: usize,
    end: usize,
    index: &[u64],
    r: &[u64],
    gone: &mut [u64],
) -> bool
    requires telling { Telling (rows form) o.now index.now × ListedAt (rows form) o.now index.now from end }
    requires r_len { (length r.now ≡ set_len) × (gone.old ≡ replicate id_count 0) }
    ensures { MarkedAs r.now (says_in (rows form) o.now index.now)
        result gone.new }
{
    let mut p = from;
    while p < end {
        let Some((d, next)) = wire::varint::read(form, o, p, end) else {
            return false;
        };
        if !strike(index, r, d, &mut *gone) {
            return false;
        }
        p = next;
    }
    true
}

// Whether each id of the tuple 27 may be deleted; each is then marked.
pub fn mark(form: Form, o: &[u8], index: &[u64], r: &[u64], gone: &mut [u64]) -> bool
    requires telling { Telling (rows form) o.now index.now }
    requires r_len { (length r.now ≡ set_len) × (gone.old ≡ replicate id_count 0) }
    ensures { MarkedAs r.now (says_in (rows form) o.now index.now)
        result gone.new }
{
    if index[places::DELETIONS] == 0 {
        return true;
    }
    let from = (index[places::DELETIONS] - 1) as usize;
    let end = from + index[places::DELETIONS_LENGTH] as usize;
    strike_all(form, o, from, end, index, r, gone)
}
