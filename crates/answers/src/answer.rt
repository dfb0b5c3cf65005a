// What a chunk or an object is answered with, before it is handed out and then.
ghost use Rattle.std.specs.Prelude.{◌≡◌, ◌+◌, ◌≤◌, length};
ghost use Rattle.std.proofs.Math.Seq.{slice};
ghost use Rattle.answers.specs.Answered.{payload_in};

use byte_parts::Part;
use refusal::Refusal;

// The front's length, and where the payload stands in what was lent.
#[derive(Clone, Copy)]
pub struct Answer {
    pub front: u64,
    pub payload: Part,
}

// The front's length, and the payload as the part of the lent bytes that it is.
#[derive(Clone, Copy)]
pub struct Handed<'a> {
    pub front: u64,
    pub payload: &'a [u8],
}

// The answer of a call that was lent these bytes, as its caller gets it.
pub fn hand_out<'a>(a: Answer, lent: &'a [u8]) -> Handed<'a>
    requires { a.payload.at + a.payload.len ≤ length lent.now }
    ensures front { result.front ≡ a.front }
    ensures payload { result.payload.now ≡ slice a.payload.at (a.payload.at + a.payload.len) lent.now }
{
    let from = a.payload.at;
    Handed {
        front: a.front,
        payload: &lent[from..from + a.payload.len],
    }
}

// What a call hands back of the bytes that it was lent: the payload, or on a refusal no byte at their front.
pub fn payload_of<'a>(given: &Result<Handed<'a>, Refusal>, lent: &'a [u8]) -> &'a [u8]
    ensures { result.now ≡ payload_in given.now }
{
    match given {
        Ok(h) => h.payload,
        Err(_) => &lent[..0],
    }
}
