// Sends captured tracks from an encoder to a receiver and says what that saves. Each chunk becomes an object, the object a chunk again, and that chunk
// once more an object, by an encoder that has seen only rebuilt chunks: the two objects have to be the same, byte for byte.
//
// Its last line on standard output is its verdict, and the script `relay` makes the exit status of it.
#![tactic(auto)]

mod calls; // calls.rt: the two calls, with front and payload put together
mod home; // home.rt: counters that were left at home
mod join; // join.rt: a second receiver that starts at a full object
mod passage; // passage.rt: one chunk from end to end
mod sync; // sync.rt: whether a chunk begins with a sync sample
mod tables; // tables.rt: the tables of an encoder and a receiver
mod tracks; // tracks.rt: one track after another, and the chunks of each

use accounts::report;
use inputs::arguments::Request;
use inputs::{arguments, usage};
use std::io;

fn main(rt: HostRuntime) -> io::Result<()> {
    let err = rt.stderr();
    match arguments::read(&rt, &err) {
        Request::Run(options) => {
            let total = tracks::run(&rt, &err, options)?;
            report::all(&rt, options.join, &total)
        }
        Request::Help => usage::usage(&rt),
        Request::Bad => {
            // What can't be said on standard error is left out, as in `inputs`.
            let _ = usage::usage(&err);
            println!(rt; "bad arguments")
        }
    }
}
