// What samples come to by the words of a set: their effective sizes and durations, the BMDT that is expected behind them, and whether sizes and
// subsamples add up.
#![tactic(auto)]

pub mod sizes; // sizes.rt: the sizes of the samples
pub mod durations; // durations.rt: the sum of their durations
pub mod expected; // expected.rt: the BMDT that is expected behind them
pub mod sums; // sums.rt: sizes against the payload, protected bytes against the sizes
