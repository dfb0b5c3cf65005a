// Why a call gives nothing: one case for each number of the rules' table but 0.
#![tactic(auto)]

ghost use Rattle.std.specs.Prelude.{◌≡◌};
ghost use Rattle.refusal.specs.Numbers.{number_of, number_in};

#[derive(Clone, Copy, PartialEq, Eq, Debug)]
pub enum Refusal {
    NoSuchSlot,
    NotOpen,
    AlreadyOpen,
    BadParameters,
    BrokenTree,
    WrongBox,
    BrokenRule,
    PastMaximum,
    NoObject,
    OtherHeader,
    NoReference,
    Unreadable,
    WrongIds,
    UnlawfulSet,
    OutOfRange,
    SumsDisagree,
    NoRoom,
    UnlawfulTable,
    IvPastSize,
}

impl Refusal {
    // The number that the rules give it.
    pub fn number(self) -> u64
        ensures { result ≡ number_of self }
    {
        match self {
            Refusal::NoSuchSlot => 1,
            Refusal::NotOpen => 2,
            Refusal::AlreadyOpen => 3,
            Refusal::BadParameters => 4,
            Refusal::BrokenTree => 5,
            Refusal::WrongBox => 6,
            Refusal::BrokenRule => 7,
            Refusal::PastMaximum => 8,
            Refusal::NoObject => 9,
            Refusal::OtherHeader => 10,
            Refusal::NoReference => 11,
            Refusal::Unreadable => 12,
            Refusal::WrongIds => 13,
            Refusal::UnlawfulSet => 14,
            Refusal::OutOfRange => 15,
            Refusal::SumsDisagree => 16,
            Refusal::NoRoom => 17,
            Refusal::UnlawfulTable => 18,
            Refusal::IvPastSize => 21,
        }
    }
}

// The number of an answer, 0 where it is no refusal.
pub fn number_in<T>(answer: &Result<T, Refusal>) -> u64
    ensures { result ≡ number_in answer.now }
{
    match answer {
        Ok(_) => 0,
        Err(r) => r.number(),
    }
}
