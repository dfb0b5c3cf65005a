// The words that the program is started with. They need not be UTF-8, since a folder's name need not. They are read twice, first all options and then one folder after
// another, so that none is kept.
// Letters: `rt` the runtime, `err` standard error, `i` which word, counted from 0.
ghost use Rattle.std.specs.Prelude.{◌≡◌, ◌<◌, true, length, IfSome};
ghost use Rattle.inputs.specs.Arguments.{IsLawful, RunsLawfully};

use crate::numbers;
use std::env::FillError;
use std::fmt;
use std::rt::Env;

// What is asked for: a full object at every so many chunks, or at each that begins with a sync sample; the full object of each track that a second receiver starts
// at; and whether folders of tracks are named, or the bundled ones are meant.
#[derive(Clone, Copy)]
pub struct Options {
    pub every: u64,
    pub sync: bool,
    pub join: Option<u64>,
    pub folders: bool,
}

// What the program is to do.
#[derive(Clone, Copy)]
pub enum Request {
    Run(Options),
    Help,
    // What is bad has been said.
    Bad,
}

// The options behind which a number comes.
#[derive(Clone, Copy)]
enum Counted {
    Every,
    Join,
}

impl fmt::Display for Counted {
    fn fmt<W: fmt::Write>(&self, f: &mut fmt::Formatter<W>) -> fmt::Result {
        match self {
            Counted::Every => write!(f, "--every"),
            Counted::Join => write!(f, "--join"),
        }
    }
}

// Of every so many chunks, if it isn't said.
const EVERY: u64 = 8;

// The bytes that a word may have, and a path.
pub const WORD: usize = 4096;

// Whether a word that is no option's number is a folder's name.
fn names_folder(word: &[u8]) -> bool
    ensures { result ≡ true → 0 < length word.now }
{
    !matches!(word, [] | [b'-', ..])
}

// What has been read so far, and the option whose number comes next.
#[derive(Clone, Copy)]
struct Reading {
    options: Options,
    help: bool,
    bad: bool,
    awaited: Option<Counted>,
}

impl Reading {
    fn complain<E: Print, D: fmt::Display + Drop>(&mut self, err: &E, what: D, word: &[u8])
        ensures { self.new.options ≡ self.old.options }
    {
        self.bad = true;
        // What can't be said on standard error is left out, as in `files`.
        let _ = err.print(format_args!("relay: {what}"));
        let _ = err.write_all(word);
        let _ = err.print("\n");
    }

    fn count<E: Print>(&mut self, err: &E, option: Counted, word: &[u8])
        requires { IsLawful self.old.options }
        ensures { IsLawful self.new.options }
    {
        match numbers::number(word) {
            None | Some(0) => self.complain(
                err,
                format_args!("{option} takes a number from 1 on, and this is none: "),
                word,
            ),
            Some(n) => match option {
                Counted::Every => self.options.every = n,
                Counted::Join => self.options.join = Some(n),
            },
        }
    }

    // A further word.
    fn take<E: Print>(&mut self, err: &E, word: &[u8])
        requires { IsLawful self.old.options }
        ensures { IsLawful self.new.options }
    {
        if let Some(option) = self.awaited.take() {
            self.count(err, option, word);
            return;
        }
        match word {
            b"--every" => self.awaited = Some(Counted::Every),
            b"--join" => self.awaited = Some(Counted::Join),
            b"--sync" => self.options.sync = true,
            b"--help" => self.help = true,
            _ if names_folder(word) => self.options.folders = true,
            _ => self.complain(err, "no option and no folder: ", word),
        }
    }

    fn done<E: Print>(mut self, err: &E) -> Request
        requires { IsLawful self.options }
        ensures { RunsLawfully result }
    {
        if let Some(option) = self.awaited {
            self.complain(err, format_args!("{option} takes a number from 1 on"), b"");
        }
        if self.bad {
            return Request::Bad;
        }
        if self.help {
            return Request::Help;
        }
        Request::Run(self.options)
    }
}

// What the program was started with.
pub fn read<R: Env, E: Print>(rt: &R, err: &E) -> Request
    ensures { RunsLawfully result }
{
    let mut word = [0u8; WORD];
    let mut reading = Reading {
        options: Options {
            every: EVERY,
            sync: false,
            join: None,
            folders: false,
        },
        help: false,
        bad: false,
        awaited: None,
    };
    for i in 1..usize::MAX {
        match rt.arg(i, &mut word) {
            Ok(n) => reading.take(err, &word[..n]),
            Err(FillError::TooLong) => {
                reading.awaited = None;
                reading.complain(err, "an argument is too long", b"");
            }
            Err(FillError::NotPresent) => break,
        }
    }
    reading.done(err)
}

// How many words the program was started with, its own name among them.
pub fn how_many<R: Env>(rt: &R) -> usize {
    let mut first = [0u8; 1];
    for i in 0..usize::MAX {
        if let Err(FillError::NotPresent) = rt.arg(i, &mut first) {
            return i;
        }
    }
    usize::MAX
}

// Whether a word is the number of an option, where all are lawful. The one before it need not be read whole: no option with a number is longer than this.
fn is_count<R: Env>(rt: &R, i: usize) -> bool {
    let mut word = [0u8; 7];
    if i < 2 {
        return false;
    }
    match rt.arg(i - 1, &mut word) {
        Ok(n) => matches!(&word[..n], b"--every" | b"--join"),
        Err(_) => false,
    }
}

// The folder that a word names, if it names one, in the room that is lent for it.
pub fn folder_at<'a, R: Env>(rt: &R, i: usize, room: &'a mut [u8]) -> Option<&'a [u8]>
    ensures { IfSome result (λ folder. 0 < length folder.now) }
{
    if is_count(rt, i) {
        return None;
    }
    let Ok(n) = rt.arg(i, room) else {
        return None;
    };
    let word = &room[..n];
    if names_folder(word) { Some(word) } else { None }
}

#[cfg(test)]
mod tests {
    use super::*;
    use std::test::Fail;

    // The words that a test is started with are names, which pass for folders.
    #[test]
    fn asks_to_run(rt: HostRuntime) -> Result<(), Fail> {
        match read(&rt, &rt.stderr()) {
            Request::Run(options) => assert_eq!(rt; options.every, EVERY),
            _ => assert!(rt; false),
        }
        let mut room = [0u8; WORD];
        assert!(rt; folder_at(&rt, how_many(&rt), &mut room).is_none());
        Ok(())
    }
}
