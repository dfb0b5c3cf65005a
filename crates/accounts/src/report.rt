// The lines that people read.
// Letters: `rt` what prints, `i` which one, counted from 1, `at` the full object that a second receiver starts at.
use crate::joins::{Join, Joins};
use crate::saved::Saved;
use crate::tally::{Passed, Sent, Tally, Total};
use crate::words::meaning;
use std::io;
use track::Asked;

fn protection<R: Print>(rt: &R, params: &Asked) -> io::Result<()> {
    match params.protection {
        track::NONE => println!(rt; ", not protected"),
        track::CENC => println!(rt; ", cenc with IVs of {} bytes", params.iv_size),
        _ => println!(rt; ", cbcs"),
    }
}

// A track's name and parameters, and the heads of the columns.
pub fn head<R: Print>(rt: &R, folder: &[u8], params: &Asked) -> io::Result<()> {
    print!(rt; "track ")?;
    rt.write_all(folder)?;
    print!(rt;
        ": track_ID {}, timescale {}, defaults: description {}, duration {}, size {}, flags {}",
        params.track,
        params.timescale,
        params.description,
        params.duration,
        params.size,
        params.flags
    )?;
    protection(rt, params)?;
    println!(rt; "   chunk  kind     CMAF head  LOCMAF head   payload  number")
}

fn sent<R: Print>(rt: &R, i: u64, sent: &Sent) -> io::Result<()> {
    let kind = if sent.delta { "delta" } else { "full" };
    let note = if sent.same {
        ""
    } else {
        "  the rebuilt chunk gave another object"
    };
    println!(rt;
        "{i:>8}  {kind:<5}  {:>11}{:>13}{:>10}{:>8}{note}",
        sent.cmaf, sent.locmaf, sent.payload, 0
    )
}

// A chunk's line.
pub fn chunk<R: Print>(rt: &R, i: u64, passed: &Passed) -> io::Result<()> {
    match passed {
        Ok(s) => sent(rt, i, s),
        Err(number) => println!(rt;
            "{i:>8}  refused          -            -         -{number:>8}  {}",
            meaning(*number)
        ),
    }
}

fn heads<R: Print>(rt: &R, t: &Tally) -> io::Result<()> {
    let heads = Saved {
        before: t.cmaf,
        after: t.locmaf,
    };
    let all = Saved {
        before: t.cmaf.saturating_add(t.payload),
        after: t.locmaf.saturating_add(t.payload),
    };
    println!(rt;
        "  heads: CMAF {} bytes, LOCMAF {} bytes, saved {heads}",
        t.cmaf, t.locmaf
    )?;
    println!(rt; "  payload: {} bytes; of all bytes, saved {all}", t.payload)
}

// Of a protected track with IVs: how many chunks left their counters at home, and what that saved.
fn counters<R: Print>(rt: &R, t: &Tally) -> io::Result<()> {
    if t.ivs == 0 {
        return Ok(());
    }
    println!(rt;
        "  counters: chunks with IVs {}, left at home by {}, saved {} bytes",
        t.ivs, t.home, t.spared
    )
}

// The totals of a track, or of all.
pub fn totals<R: Print>(rt: &R, t: &Tally) -> io::Result<()> {
    println!(rt;
        "  chunks {}: full {}, delta {}, refused {}",
        t.chunks, t.full, t.delta, t.refused
    )?;
    if t.chunks == t.refused {
        return println!(rt; "  no chunk was accepted, so nothing is compared");
    }
    heads(rt, t)?;
    counters(rt, t)?;
    print!(rt; "  each rebuilt chunk gave the same object again: ")?;
    match t.differs {
        None => println!(rt; "yes"),
        Some(chunk) => println!(rt; "no, first not chunk {chunk}"),
    }
}

// What came of a second receiver that starts at a track's full object `at`.
pub fn joined<R: Print>(rt: &R, at: u64, j: &Join) -> io::Result<()> {
    let Some(start) = j.chunk else {
        return println!(rt; "  not joined: the track has fewer than {at} full objects");
    };
    print!(rt;
        "  joined at full object {at}, chunk {start}: objects {}",
        j.objects
    )?;
    match j.differs {
        Some(chunk) => println!(rt; ", another chunk or reference first at chunk {chunk}"),
        None => println!(rt;
            ", each chunk the same but for an mfhd number {} less, each reference the same",
            j.less.unwrap_or(0)
        ),
    }
}

// What came of them on all tracks.
fn all_joined<R: Print>(rt: &R, at: u64, j: &Joins) -> io::Result<()> {
    if j.tracks == 0 {
        return println!(rt; "  not joined: each track has fewer than {at} full objects");
    }
    print!(rt;
        "  joined at full object {at}: tracks {}, objects {}",
        j.tracks, j.objects
    )?;
    match j.differs {
        Some(chunk) => println!(rt; ", another chunk or reference first at chunk {chunk}"),
        None => println!(rt;
            ", each chunk the same but for its mfhd number, each reference the same"
        ),
    }
}

// After the last track: the totals of all where there are several, and the verdict in words that the script `relay` looks for. With `at` a second receiver started
// at that full object.
pub fn all<R: Print>(rt: &R, at: Option<u64>, t: &Total) -> io::Result<()> {
    if 1 < t.tracks {
        println!(rt; "all {} tracks", t.tracks)?;
        totals(rt, &t.tally)?;
        if let Some(at) = at {
            all_joined(rt, at, &t.joins)?;
        }
    }
    if t.bad != 0 {
        println!(rt; "tracks left out for a bad file: {}", t.bad)?;
    }
    println!(rt;
        "{}",
        if t.is_well() {
            "all is well"
        } else {
            "not all is well"
        }
    )
}
