// What an object says of an id, by the index of its block.
ghost use Rattle.std.specs.Prelude.{◌≡◌, ◌<◌, length};
ghost use Rattle.constants.specs.Ids.{id_count};
ghost use Rattle.locmaf_read_index.specs.Places.{index_len};
ghost use Rattle.locmaf_read_said.specs.Said.{word_in};

use locmaf_read_index::places;

// Where the body of a tuple stands, the number after its id, and how many numbers it has.
#[derive(Clone, Copy)]
pub struct Span {
    pub at: usize,
    pub number: u64,
    pub count: u64,
}

// Nothing, that the id is deleted, or numbers.
#[derive(Clone, Copy)]
pub enum Word {
    Omitted,
    Deleted,
    Sent(Span),
}

// What the object says of an id, by the index of its block and the marks of what it deletes.
pub fn word_of(index: &[u64], gone: &[u64], id: u64) -> Word
    requires { (id < id_count) × (length index.now ≡ index_len) × (length gone.now ≡ id_count) }
    ensures { result ≡ word_in index.now gone.now id }
{
    let i = id as usize * places::EACH;
    let mark = index[i];
    if mark != 0 {
        return Word::Sent(Span {
            at: (mark - 1) as usize,
            number: index[i + places::NUMBER],
            count: index[i + places::COUNT],
        });
    }
    if gone[id as usize] != 0 {
        return Word::Deleted;
    }
    Word::Omitted
}
