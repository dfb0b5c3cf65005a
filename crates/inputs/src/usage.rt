// What the program can be started with, in words. `--unproved` never comes to it: the script `relay` takes that word out, and prints this text as it stands here.
use std::io;

pub fn usage<P: Print>(out: &P) -> io::Result<()> {
    out.write_all(
        b"usage: relay [--unproved] [--every N | --sync] [--join N] [FOLDER ..]

Encodes the chunks of each track, receives the objects, and encodes the rebuilt chunks again.

  FOLDER     a track: params.txt (track_ID, timescale, description, duration, size, flags, protection,
             IV size), chunks.txt (a line a chunk, which begins with its length in bytes) and chunks.bin
             (the chunks); without one, the tracks that captures/tracks.txt names
  --every N  a full object at the first chunk and at every Nth after it, deltas between (N is 8 if not said)
  --sync     a full object at each chunk whose first sample is a sync sample, deltas between
  --join N   at each track's Nth full object a second receiver starts, just opened, as if the capture were cut there:
             it has to make the same chunks, but for mfhd numbers all less by the same, and keep the same reference
  --unproved the program built at once, without proofs: first and last line say so
  --help     this text

A chunk has up to 262,144 bytes, and chunks.txt up to 65,536.
Exit status: 0 all is well (a refused chunk is), 1 a file is bad, or an object or a second receiver differed, 2 bad arguments.
",
    )
}
