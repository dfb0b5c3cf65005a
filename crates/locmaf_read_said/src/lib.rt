// What an object says of an id: numbers, that it is deleted, or nothing; and what that is read against.
#![tactic(auto)]

pub mod said; // said.rt: what the words of an id say
pub mod deletions; // deletions.rt: the ids that a delta deletes
pub mod against; // against.rt: what an object is read against
