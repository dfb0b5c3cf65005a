// Whether a chunk begins with a sync sample.
// Letters: `a` the track's parameters.
use cmaf_read_chunk::read;
use field_table::lines;
use track::Asked;
use wire::form::Form;

// The words that a chunk is read into: those of its events, and from this place on those of its set.
const FROM: usize = event_value::ALL_WORDS;

const WORDS: usize = FROM + lines::SET;

// The flags of the first sample, in five-bit form, by the words of the chunk's set: the first sample's own, those of each sample, the fragment's, or the track's.
fn first_flags(words: &[u64; WORDS], usual: u64) -> u64 {
    if words[FROM + lines::FIRST_FLAGS] != 0 {
        return words[FROM + lines::FIRST_FLAGS + 1];
    }
    if words[FROM + lines::FLAGS] != 0 {
        return words[FROM + lines::FLAGS + 1];
    }
    if words[FROM + lines::DEFAULT_FLAGS] != 0 {
        return words[FROM + lines::DEFAULT_FLAGS + 1];
    }
    usual
}

// Whether the chunk is accepted on a track and its first sample's non_sync is 0.
pub fn begins_sync(a: Asked, chunk: &[u8]) -> bool {
    if !track::is_lawful(a) {
        return false;
    }
    let t = track::narrowed(a);
    let mut words = [0u64; WORDS];
    let c = read::read_chunk(Form::Rfc9000, t, chunk, &mut words);
    if c.is_err() | (words[FROM + lines::COUNT] == 0) {
        return false;
    }
    first_flags(&words, a.flags) % 2 == 0
}
