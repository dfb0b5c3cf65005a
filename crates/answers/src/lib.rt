// What a call hands back, and what a refusal leaves behind.
#![tactic(auto)]

pub mod answer; // answer.rt: front and payload, by place and as handed out
pub mod refusals; // refusals.rt: which refusals drop the reference
pub mod room; // room.rt: whether the output has room
