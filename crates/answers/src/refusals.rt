// What a refused object leaves of its share.
// Letters: `s` the words of a share.
ghost use Rattle.std.specs.Prelude.{◌≡◌, length};
ghost use Rattle.share_words.specs.Share.{share_len};
ghost use Rattle.answers.specs.Refusals.{dropped_by, after_refusal};

use share_words::share;

// 12 to 16 and 21 drop the reference: what the object was read against can't be told any more.
fn drops(number: u64) -> bool
    ensures { result ≡ dropped_by number }
{
    ((12 <= number) & (number <= 16)) | (number == 21)
}

// The share after a refusal with the number; every other number changes nothing.
pub fn leave(number: u64, s: &mut [u64])
    requires { length s.old ≡ share_len }
    ensures { s.new ≡ after_refusal number s.old }
{
    if drops(number) {
        share::drop_reference(s);
    }
}
