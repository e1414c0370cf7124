//! Files and standard output: the edge at which the system is trusted.
ghost use Rattle.std.specs.Prelude.{◌≡◌, ◌<◌, ◌≤◌, [], length, take, Ok, IfOk, IfSome, OnOk, OnErr};
ghost use Rattle.room_outside.specs.Faults.{Rose, one_more};
ghost use Rattle.room_outside.specs.Shown.{Keeps, IsReadAt};
ghost use Rattle.room_outside.specs.Written.{Appends};

use crate::{Failed, Shelf, Sink};
use std::alloc::Global;
use std::io::{BufWriter, IsTerminal, Read, Seek, SeekFrom, Stderr, Stdout, Write};
use std::marker::Model;
use std::rt::Files;
use std::{fs, io};

/// A file that is open, and the offset that its next read begins at.
#[derive(Drop)]
struct OpenFile<F> {
    file: F,
    at: u64,
}

/// The file at a path. It seeks even to the front, so that what can be read only once, as a pipe,
/// is refused: a second reading would take it for an empty text.
fn open_at<R: Files>(files: &R, path: &str, from: u64) -> io::Result<OpenFile<R::File>> {
    let mut file = fs::open(files, path)?;
    file.seek(SeekFrom::Start(from))?;
    Ok(OpenFile { file, at: from })
}

impl<F: Read + Seek> OpenFile<F> {
    /// Reads from an offset on, and seeks only where the last read ended elsewhere.
    fn read_from(&mut self, from: u64, buf: &mut [u8]) -> io::Result<usize>
        ensures { IfOk result (λ n. n ≤ length buf.new) }
    {
        if from != self.at {
            self.file.seek(SeekFrom::Start(from))?;
        }
        let n = self.file.read(buf)?;
        self.at = from.saturating_add(n as u64);
        Ok(n)
    }
}

/// The file that was read last, and its path.
#[derive(Drop)]
struct LastFile<F> {
    path: String,
    open: OpenFile<F>,
}

/// Reads on from the last file where it has this path, and else closes it and opens the file at the
/// path. That file becomes the last one until its end is read or a read fails.
fn read_file<R: Files + AllocGlobal>(
    files: &R,
    last: &mut Option<LastFile<R::File>>,
    path: &str,
    from: u64,
    buf: &mut [u8],
) -> io::Result<usize>
    ensures { IfOk result (λ n. n ≤ length buf.new) }
{
    let mut file = match last.take().filter(|file| file.path.as_str() == path) {
        Some(file) => file,
        None => {
            let mut open = open_at(files, path, from)?;
            // Without memory for the path the file is opened for this read alone.
            let Ok(path) = String::from_str(files.alloc(), path) else {
                return open.read_from(from, buf);
            };
            LastFile { path, open }
        }
    };
    let n = file.open.read_from(from, buf)?;
    if n > 0 {
        *last = Some(file);
    }
    Ok(n)
}

/// The files of a system, each under its path. It tells no text, and has one count of faults,
/// which is that of every name.
///
/// The file that was read last stays open, so that a text that is read in pieces from front to end
/// is opened once, and all its pieces are of one file. A read of another path, the end of the text
/// and a failed read close it. Whatever the system lacks to open a file, memory too, is a failed
/// read.
#[derive(Drop)]
pub struct FileShelf<R: Files> {
    files: R,
    last: Option<LastFile<R::File>>,
    faults: u64,
}

impl<R: Files> Model for FileShelf<R> {
    ghost use Rattle.std.specs.Prelude.{ℕ};

    ghost Value = { ℕ };

    ghost view = { λ s. s.faults };
}

impl<R: Files> FileShelf<R> {
    /// The files that this runtime reaches.
    pub fn new(files: R) -> FileShelf<R>
        ensures { result ≡ 0 }
    {
        FileShelf {
            files,
            last: None,
            faults: 0,
        }
    }

    /// How many reads have failed.
    pub fn faults(&self) -> u64
        ensures { result ≡ self.now }
    {
        self.faults
    }
}

impl<R: Files + AllocGlobal> Shelf for FileShelf<R> {
    ghost use Rattle.room_outside.specs.Shown.{untold};

    ghost shown = { untold };

    /// Reads from the file at the path `name`.
    fn read_at(&mut self, name: &str, from: u64, buf: &mut [u8]) -> Result<usize, Failed>
        ensures within { IfOk result (λ n. n ≤ length buf.new) }
        ensures read { IfOk result (λ n. IfSome ((untold self.old).text name.now) (λ text. IsReadAt text from n buf.new)) }
        ensures fault { OnErr result (Rose ((untold self.old).faults name.now) ((untold self.new).faults name.now)) }
        ensures keeps { Keeps (untold self.old) (untold self.new) }
        ensures ok { OnOk result (self.new ≡ self.old) }
        ensures err { OnErr result (self.new ≡ one_more self.old) }
    {
        match read_file(&self.files, &mut self.last, name, from, buf) {
            Ok(n) => Ok(n),
            Err(_) => {
                self.faults = self.faults.saturating_add(1);
                Err(Failed)
            }
        }
    }
}

/// How many bytes are gathered before they are handed to the system.
const GATHERED: usize = 65_536;

/// One of the two standard streams.
#[derive(Drop)]
pub enum Stream {
    Output(Stdout),
    /// Standard output, in pieces of 65,536 bytes.
    Gathered(BufWriter<Stdout>),
    Errors(Stderr),
}

impl Write for Stream {
    fn write(&mut self, buf: &[u8]) -> io::Result<usize> {
        match self {
            Stream::Output(stdout) => stdout.write(buf),
            Stream::Gathered(gathered) => gathered.write(buf),
            Stream::Errors(stderr) => stderr.write(buf),
        }
    }

    fn flush(&mut self) -> io::Result<()> {
        match self {
            Stream::Output(stdout) => stdout.flush(),
            Stream::Gathered(gathered) => gathered.flush(),
            Stream::Errors(stderr) => stderr.flush(),
        }
    }
}

/// A sink over a writer, usually a standard stream. It tells no bytes and counts its faults. It
/// keeps nothing back: each write is one of the writer's own. What the writer keeps back goes out by
/// `finish`.
#[derive(Drop)]
pub struct OutSink<W = Stream> {
    out: W,
    faults: u64,
}

impl<W> Model for OutSink<W> {
    ghost use Rattle.std.specs.Prelude.{ℕ};

    ghost Value = { ℕ };

    ghost view = { λ s. s.faults };
}

impl OutSink {
    /// A sink over standard output.
    pub fn output(stdout: Stdout) -> OutSink
        ensures { result ≡ 0 }
    {
        OutSink::new(Stream::Output(stdout))
    }

    /// A sink over standard output. Where that is no terminal, pieces are gathered until there are
    /// 65,536 bytes, if there is memory for as many, so that a long text takes few calls of the
    /// system: `finish` writes out the rest.
    pub fn gathered(alloc: Global, stdout: Stdout) -> OutSink
        ensures { result ≡ 0 }
    {
        if stdout.is_terminal() {
            return OutSink::new(Stream::Output(stdout));
        }
        match BufWriter::with_capacity(alloc, GATHERED, stdout) {
            Ok(gathered) => OutSink::new(Stream::Gathered(gathered)),
            Err(_) => OutSink::new(Stream::Output(stdout)),
        }
    }

    /// A sink over standard error.
    pub fn errors(stderr: Stderr) -> OutSink
        ensures { result ≡ 0 }
    {
        OutSink::new(Stream::Errors(stderr))
    }
}

impl<W> OutSink<W> {
    /// A sink over a writer.
    pub fn new(out: W) -> OutSink<W>
        ensures { result ≡ 0 }
    {
        OutSink { out, faults: 0 }
    }

    /// How many writes have failed.
    pub fn faults(&self) -> u64
        ensures { result ≡ self.now }
    {
        self.faults
    }
}

impl<W: Write> OutSink<W> {
    /// Writes out what the writer kept back. That it can't is a fault.
    pub fn finish(&mut self) -> Result<(), Failed>
        ensures ok { OnOk result (self.new ≡ self.old) }
        ensures err { OnErr result (self.new ≡ one_more self.old) }
    {
        match self.out.flush() {
            Ok(()) => Ok(()),
            Err(_) => {
                self.faults = self.faults.saturating_add(1);
                Err(Failed)
            }
        }
    }
}

impl<W: Write> Sink for OutSink<W> {
    ghost use Rattle.room_outside.specs.Written.{untold};

    ghost written = { untold };

    /// Hands the piece to the writer. That nothing is taken of a piece that has bytes is a fault.
    fn write(&mut self, piece: &[u8]) -> Result<usize, Failed>
        ensures within { IfOk result (λ n. n ≤ length piece.now) }
        ensures taken { IfOk result (λ n. Appends (untold self.old) (untold self.new) (take n piece.now)) }
        ensures failed { OnErr result (Appends (untold self.old) (untold self.new) []) }
        ensures fault { OnErr result (Rose self.old self.new) }
        ensures none { result ≡ Ok 0 → 0 < length piece.now → Rose self.old self.new }
        ensures ok { OnOk result (self.new ≡ self.old) }
        ensures err { OnErr result (self.new ≡ one_more self.old) }
    {
        match self.out.write(piece) {
            Ok(n) if n > 0 || piece.is_empty() => Ok(n),
            _ => {
                self.faults = self.faults.saturating_add(1);
                Err(Failed)
            }
        }
    }
}
