// One track after another, those that the program was started with or the bundled ones, and the chunks of each.
// Letters: `rt` the runtime, `err` standard error.
use crate::passage::Rooms;
use crate::tables::Tables;
use crate::{join, passage, sync};
use accounts::report;
use accounts::tally::{Total, Track};
use inputs::arguments::{Options, WORD};
use inputs::errors::Error;
use inputs::{arguments, files, numbers};
use std::io;
use std::rt::{Env, Files};
use track::Asked;

// Whether a delta is wished for the chunk behind so many.
fn wishes_delta(options: Options, before: u64, params: Asked, chunk: &[u8]) -> bool {
    if options.sync {
        return !sync::begins_sync(params, chunk);
    }
    options.every != 0 && before % options.every != 0
}

// A chunk of a track: its way, its line, and the sums with it. A second receiver gets its object too, where one was asked for and there is an object.
fn send<R: Print>(
    rt: &R,
    options: Options,
    params: Asked,
    chunk: &[u8],
    tables: &mut Tables,
    rooms: &mut Rooms,
    track: &mut Track,
) -> io::Result<()> {
    let delta = wishes_delta(options, track.tally.chunks, params, chunk);
    let passage = passage::pass(
        tables,
        delta,
        chunk,
        &mut rooms.object,
        &mut rooms.rebuilt,
        &mut rooms.other,
    )?;
    let passed = match passage {
        Ok(p) => Ok(p.sent),
        Err(number) => Err(number),
    };
    track.tally.count(&passed);
    report::chunk(rt, track.tally.chunks, &passed)?;
    if let (Some(at), Ok(p)) = (options.join, passage) {
        let i = track.tally.chunks;
        join::follow(&mut track.join, at, i, p, tables, &mut rooms.other)?;
    }
    Ok(())
}

// A track, whose lines have been printed where all its files are good. A room for a chunk, and those of its way, are lent for each.
fn go_through<R: Files + Print + AllocGlobal>(
    rt: &R,
    options: Options,
    folder: &[u8],
    room: &mut Vec<u8>,
    rooms: &mut Rooms,
) -> Result<Track, Error> {
    let params = files::params(rt, folder)?;
    let lines = files::lines(rt, folder)?;
    let mut chunks = files::open(rt, folder, files::CHUNKS)?;
    let mut tables = Tables::open(rt.alloc(), params)?;
    report::head(rt, folder, &params)?;
    let mut track = Track::default();
    for line in lines.split_inclusive(|b| *b == b'\n') {
        let i = track.tally.chunks.saturating_add(1);
        let chunk = files::chunk(&mut chunks, line, i, room)?;
        send(rt, options, params, chunk, &mut tables, rooms, &mut track)?;
    }
    files::end(&mut chunks)?;
    report::totals(rt, &track.tally)?;
    if let Some(at) = options.join {
        report::joined(rt, at, &track.join)?;
    }
    Ok(track)
}

// A track in the total: its sums, or that it is left out for a bad file, which is explained.
fn add<E: Print>(
    err: &E,
    total: &mut Total,
    folder: &[u8],
    track: Result<Track, Error>,
) -> io::Result<()> {
    match track {
        Ok(t) => total.add(&t),
        Err(Error::Bad(name, wrong)) => {
            files::tell(err, folder, name, &wrong);
            total.leave_out();
        }
        Err(Error::Failed(e)) => return Err(e),
    }
    Ok(())
}

// The tracks that captures/tracks.txt names, a line each; an empty line names none.
fn bundled<R: Files + Print + AllocGlobal, E: Print>(
    rt: &R,
    err: &E,
    options: Options,
    chunk: &mut Vec<u8>,
    rooms: &mut Rooms,
    total: &mut Total,
) -> io::Result<()> {
    let lines = match files::bundled(rt) {
        Ok(lines) => lines,
        Err(e) => return add(err, total, b"captures", Err(e)),
    };
    let mut path = [0u8; WORD];
    for line in lines.split_inclusive(|b| *b == b'\n') {
        let name = numbers::first_word(line);
        if !name.is_empty() {
            let folder = files::path_of(b"captures", name, &mut path);
            let track = go_through(rt, options, folder, chunk, rooms);
            add(err, total, folder, track)?;
        }
    }
    Ok(())
}

// The tracks whose folders the program was started with.
fn named<R: Env + Files + Print + AllocGlobal, E: Print>(
    rt: &R,
    err: &E,
    options: Options,
    chunk: &mut Vec<u8>,
    rooms: &mut Rooms,
    total: &mut Total,
) -> io::Result<()> {
    let mut path = [0u8; WORD];
    for i in 1..arguments::how_many(rt) {
        if let Some(folder) = arguments::folder_at(rt, i, &mut path) {
            let track = go_through(rt, options, folder, chunk, rooms);
            add(err, total, folder, track)?;
        }
    }
    Ok(())
}

pub fn run<R: Env + Files + Print + AllocGlobal, E: Print>(
    rt: &R,
    err: &E,
    options: Options,
) -> io::Result<Total> {
    let mut total = Total::default();
    let mut chunk = Vec::new(rt.alloc());
    let mut rooms = Rooms::new(rt.alloc());
    if options.folders {
        named(rt, err, options, &mut chunk, &mut rooms, &mut total)?;
    } else {
        bundled(rt, err, options, &mut chunk, &mut rooms, &mut total)?;
    }
    Ok(total)
}
