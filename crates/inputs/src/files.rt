// A track's files.
// Letters: `rt` the runtime, `err` standard error.
ghost use Rattle.std.specs.Prelude.{◌≡◌, ◌≤◌, ◌<◌, codes, length, vec_len, IfErr, IfOk, MatchResult};
ghost use Rattle.std.specs.Io.KnownBytes.{Consumes};
ghost use Rattle.inputs.specs.Errors.{BlamesAtMost, BlamesAtMostLine, IsOfLine, SaysGoesOn};
ghost use Rattle.inputs.specs.Files.{IsLengthOf, path_in};
ghost use Rattle.inputs.specs.Numbers.{IsBelowLimit};

use crate::arguments::WORD;
use crate::errors::{Error, Wrong};
use crate::numbers;
use std::alloc::{AllocError, Global};
use std::io::Read;
use std::rt::Files;
use std::{fs, io, str};
use track::Asked;

pub const PARAMS: &'static str = "params.txt";

pub const LINES: &'static str = "chunks.txt";

pub const CHUNKS: &'static str = "chunks.bin";

// The bytes that params.txt and the list of the bundled tracks may have, those that chunks.txt may have, and those that a chunk may have.
const SHORT: u64 = 4095;

const LONG: u64 = 65536;

const CHUNK: u64 = 262144;

// The system's number for a path with a NUL in it.
const NO_PATH: i32 = 22;

// The path of a file in a folder, put into the room that is lent for it; no bytes where it is too long for that.
pub fn path_of<'a>(folder: &[u8], name: &[u8], room: &'a mut [u8]) -> &'a [u8]
    ensures { result.now ≡ path_in (length room.old) folder.now name.now }
{
    let slash = folder.len();
    let end = slash.saturating_add(1).saturating_add(name.len());
    if room.len() < end {
        return &room[..0];
    }
    let path = &mut room[..end];
    path[..slash].copy_from_slice(folder);
    path[slash] = b'/';
    path[slash + 1..].copy_from_slice(name);
    path
}

fn opened<R: Files>(rt: &R, path: &[u8]) -> io::Result<R::File> {
    if path.contains(&0) {
        return Err(io::Error::from_raw_os_error(NO_PATH));
    }
    match str::from_utf8(path) {
        Ok(text) => fs::open(rt, text),
        Err(_) => Err(io::Error::new(io::ErrorKind::InvalidInput, "its path isn't UTF-8")),
    }
}

// The words of an error, without the system's number for it, which stands behind them.
fn words_of(alloc: Global, e: io::Error) -> Result<String, AllocError> {
    let text = format!(in alloc; "{e}")?;
    match text.split_once(" (os error ") {
        Some((words, _)) => String::from_str(alloc, words),
        None => Ok(text),
    }
}

// A file in a folder.
pub fn open<R: Files + AllocGlobal>(
    rt: &R,
    folder: &[u8],
    name: &'static str,
) -> Result<R::File, Error>
    ensures { IfErr result (λ e. BlamesAtMost name.now e) }
{
    let mut room = [0u8; WORD];
    match opened(rt, path_of(folder, name.as_bytes(), &mut room)) {
        Ok(file) => Ok(file),
        Err(e) => Err(Error::Bad(name, Wrong::Closed(words_of(rt.alloc(), e)?))),
    }
}

// A whole file of at most so many bytes. Where a read fails the file ends.
fn read<R: Files + AllocGlobal>(
    rt: &R,
    folder: &[u8],
    name: &'static str,
    most: u64,
) -> Result<Vec<u8>, Error>
    ensures ok { IfOk result (λ v. (0 < vec_len v) × (vec_len v ≤ most)) }
    ensures err { IfErr result (λ e. BlamesAtMost name.now e) }
{
    let mut text = Vec::new(rt.alloc());
    let file = open(rt, folder, name)?;
    if let Err(e) = file.take(most.saturating_add(1)).read_to_end(&mut text) {
        if e.kind() == io::ErrorKind::OutOfMemory {
            return Err(Error::Failed(e));
        }
    }
    if text.is_empty() {
        return Err(Error::Bad(name, Wrong::Empty));
    }
    if text.len() as u64 > most {
        return Err(Error::Bad(name, Wrong::TooLong));
    }
    Ok(text)
}

// The names of the bundled tracks, a line for each.
pub fn bundled<R: Files + AllocGlobal>(rt: &R) -> Result<Vec<u8>, Error>
    ensures ok { IfOk result (λ v. (0 < vec_len v) × (vec_len v ≤ SHORT)) }
    ensures err { IfErr result (λ e. BlamesAtMost (codes "tracks.txt") e) }
{
    read(rt, b"captures", "tracks.txt", SHORT)
}

// The parameters of a track.
pub fn params<R: Files + AllocGlobal>(rt: &R, folder: &[u8]) -> Result<Asked, Error>
    ensures ok { IfOk result (λ a. IsBelowLimit a) }
    ensures err { IfErr result (λ e. BlamesAtMost PARAMS.now e) }
{
    let text = read(rt, folder, PARAMS, SHORT)?;
    numbers::params(&text).ok_or(Error::Bad(PARAMS, Wrong::NotParams))
}

// What stands of the chunks in chunks.txt, a line for each, which begins with its length.
pub fn lines<R: Files + AllocGlobal>(rt: &R, folder: &[u8]) -> Result<Vec<u8>, Error>
    ensures ok { IfOk result (λ v. (0 < vec_len v) × (vec_len v ≤ LONG)) }
    ensures err { IfErr result (λ e. BlamesAtMost LINES.now e) }
{
    read(rt, folder, LINES, LONG)
}

// The length of the chunk that a line of chunks.txt is for.
fn length_of(line: &[u8], i: u64) -> Result<usize, Wrong>
    ensures ok { IfOk result (λ n. IsLengthOf line.now n) }
    ensures err { IfErr result (λ w. IsOfLine i w) }
{
    match numbers::number(numbers::first_word(line)) {
        None => Err(Wrong::NoLength(i)),
        Some(0) => Err(Wrong::NoBytes(i)),
        Some(n) if n > CHUNK => Err(Wrong::LongChunk(i)),
        Some(n) => Ok(n as usize),
    }
}

// The next chunk of chunks.bin, for which a line of chunks.txt stands, counted from 1: in the room that is lent for it, which grows where it is too small.
pub fn chunk<'a, F: Read>(
    file: &mut F,
    line: &[u8],
    i: u64,
    room: &'a mut Vec<u8>,
) -> Result<&'a [u8], Error>
    ensures length { IfOk result (λ v. IsLengthOf line.now (length v.now)) }
    ensures bytes { IfOk result (λ v. Consumes (F.remaining file.old) (F.remaining file.new) v.now) }
    ensures err { IfErr result (λ e. BlamesAtMostLine LINES.now i e) }
{
    let length = length_of(line, i).map_err(|w| Error::Bad(LINES, w))?;
    if room.len() < length {
        room.resize(length, 0)?;
    }
    let chunk = &mut room[..length];
    match file.read_exact(chunk) {
        Ok(()) => Ok(chunk),
        Err(_) => Err(Error::Bad(LINES, Wrong::CutChunk(i))),
    }
}

// Behind the last chunk chunks.bin has to end.
pub fn end<F: Read>(file: &mut F) -> Result<(), Error>
    ensures { IfErr result (λ e. SaysGoesOn CHUNKS.now e) }
{
    match file.read(&mut [0u8; 1]) {
        Ok(1) => Err(Error::Bad(CHUNKS, Wrong::GoesOn)),
        _ => Ok(()),
    }
}

// A sentence on standard error: which file is bad, and why. What can't be written there is left out: there is no other place to say it, and the verdict on standard
// output says enough.
pub fn tell<E: Print>(err: &E, folder: &[u8], name: &'static str, wrong: &Wrong) {
    let mut room = [0u8; WORD];
    let _ = err.print("relay: ");
    let _ = err.write_all(path_of(folder, name.as_bytes(), &mut room));
    let _ = err.println(format_args!(": {wrong}"));
}

#[cfg(test)]
mod tests {
    use super::*;
    use std::test::Fail;

    #[test]
    fn joins_paths(rt: HostRuntime) -> Result<(), Fail> {
        let mut room = [0u8; WORD];
        let path = path_of(b"captures/a", b"params.txt", &mut room);
        assert_eq!(rt; path, b"captures/a/params.txt".as_slice());
        let long = vec![in rt.alloc(); b'a'; WORD]?;
        assert!(rt; path_of(&long, b"b", &mut room).is_empty());
        let mut three = [0u8; 3];
        assert_eq!(rt; path_of(b"a", b"b", &mut three), b"a/b".as_slice());
        assert!(rt; path_of(b"a", b"bc", &mut three).is_empty());
        Ok(())
    }

    #[test]
    fn cuts_chunks(rt: HostRuntime) -> Result<(), Fail> {
        let mut file: &[u8] = b"chunk, tail";
        let mut room = Vec::new(rt.alloc());
        let first = chunk(&mut file, b"5 sync\n", 1, &mut room)?;
        assert_eq!(rt; first, b"chunk".as_slice());
        assert!(rt; matches!(end(&mut file), Err(Error::Bad(CHUNKS, Wrong::GoesOn))));
        for (line, i) in [
            (b"0\n".as_slice(), 2),
            (b"262145", 3),
            (b"9", 4),
            (b"+1", 5),
        ] {
            assert!(rt; chunk(&mut file, line, i, &mut room).is_err(), "at {i}");
        }
        let mut none: &[u8] = b"";
        end(&mut none)?;
        Ok(())
    }

    #[test]
    fn reads_a_track(rt: HostRuntime) -> Result<(), Fail> {
        fs::create_dir_all(&rt, "out/t")?;
        fs::write(&rt, "out/t/params.txt", "1 90000 1 3000 0 0\n1 16")?;
        fs::write(&rt, "out/t/chunks.txt", "5 sync\n")?;
        let asked = params(&rt, b"out/t")?;
        assert_eq!(rt; asked.timescale, 90000);
        assert_eq!(rt; asked.iv_size, 16);
        assert_eq!(rt; lines(&rt, b"out/t")?.as_slice(), b"5 sync\n".as_slice());
        assert!(rt; open(&rt, b"out/t", LINES).is_ok());
        tell(&rt.stderr(), b"out/t", LINES, &Wrong::Empty);
        let missing = bundled(&rt);
        assert!(rt; matches!(&missing, Err(Error::Bad("tracks.txt", Wrong::Closed(_)))));
        fs::remove_dir_all(&rt, "out/t")?;
        Ok(())
    }
}
