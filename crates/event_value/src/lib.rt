// An event as ten words; what they say stands in specs/. Code that reads or writes events goes by these places.
#![tactic(auto)]

use constants::maxima;

// The words of an event, and those of all the events that a block or a chunk can have.
pub const WORDS: usize = 10;

pub const ALL_WORDS: usize = WORDS * maxima::EVENTS;

// The places among an event's words: where scheme, value and message stand and how long they are, and the four numbers between them.
pub const SCHEME: usize = 0;

pub const SCHEME_LENGTH: usize = 1;

pub const VALUE: usize = 2;

pub const VALUE_LENGTH: usize = 3;

pub const TIMESCALE: usize = 4;

pub const TIME: usize = 5;

pub const DURATION: usize = 6;

pub const ID: usize = 7;

pub const MESSAGE: usize = 8;

pub const MESSAGE_LENGTH: usize = 9;
