//! Opening feeds, and reading one that no thread can take.
ghost use Rattle.std.specs.Prelude.{◌≡◌, ◌⊎◌, ◌<◌, ◌+◌, ℕ, List, Option, None, length, map, slice_index_or, [], string_bytes, IfOk, IfErr, IfSome, OnOk};
ghost use Rattle.std.specs.List.{AllZip};
ghost use Rattle.fkv_commands.specs.Sources.{said_of, opened_of, Agrees};

use fkv_functions::Refused;
use fkv_meters::{ProgressSource, ReadProgress};
use fkv_streams::{CountedReader, Source};
use std::alloc::Global;
use std::fs::{self, Files};
use std::io::ErrorKind;
use std::marker::PhantomData;
use std::rt::Stdin;

/// A feed in a file, or one whose bytes were read. A run takes both as one type, so it is compiled once.
#[derive(Drop)]
pub enum Feed<F, B> {
    File(F),
    Bytes(B),
}

/// A feed in a file, or standard input, which a thread can take as it takes a file. Each counts its own failures, so that none is
/// hidden.
#[derive(Drop)]
pub enum FeedInput<F, I> {
    File(F),
    Input(I),
}

/// What is opened at a path.
pub type OpenedFile<T> = FeedInput<CountedReader<T>, CountedReader<Stdin>>;

/// A feed that tells how far it is where it was opened; the reader of the bytes has told it of the other.
pub type FeedOf<'a, 'b, T, P> = Feed<ProgressSource<'a, OpenedFile<T>, P>, CountedReader<&'b [u8]>>;

impl<F: Source, I: Source> Source for FeedInput<F, I> {
    ghost remaining = { opened_of F.remaining I.remaining };

    ghost failures = { opened_of F.failures I.failures };

    fn read(&mut self, buf: &mut [u8]) -> Result<usize, Refused> {
        match self {
            FeedInput::File(source) => source.read(buf),
            FeedInput::Input(source) => source.read(buf),
        }
    }
}

impl<F: Source, B: Source> Source for Feed<F, B> {
    ghost remaining = { said_of F.remaining B.remaining };

    ghost failures = { said_of F.failures B.failures };

    fn read(&mut self, buf: &mut [u8]) -> Result<usize, Refused> {
        match self {
            Feed::File(source) => source.read(buf),
            Feed::Bytes(source) => source.read(buf),
        }
    }
}

/// What opens feeds by their paths.
pub trait Opener {
    type Feed: Source + Drop;

    /// The bytes that a path leads to, where they are known.
    ghost bytes: { Self → List ℕ → Option (List ℕ) };

    /// What holds of a path wherever it can not be opened.
    ghost is_closed: { Self → List ℕ → Type 0 };

    /// Opens the feed at this path, which is told as the feed of this number.
    ///
    /// # Errors
    ///
    /// `NoMemory`; `Unreadable` with the number.
    fn open(&self, path: &str, number: u64) -> Result<Self::Feed, Refused>
        ensures ok { IfOk result (λ feed. Agrees (bytes self.now path.now) (Self.Feed.remaining feed)) }
        ensures only { IfErr result (λ e. (e ≡ Refused.NoMemory)
            ⊎ ((e ≡ Refused.Unreadable number) × is_closed self.now path.now)) };
}

/// Feeds in files, and standard input by the path `-`, which tell a hook how far they are. What stands in a file is not known, nor
/// what standard input gives. A file of this name is `./-`.
#[derive(Drop)]
pub struct FeedFiles<'a, 'b, H, P> {
    files: &'a H,
    /// Standard input, where it is lent.
    input: Option<Stdin>,
    hook: &'a P,
    of: PhantomData<&'b [u8]>,
}

impl<'a, 'b, H, P> FeedFiles<'a, 'b, H, P> {
    /// The feeds in these files, which tell this hook. Standard input can't be read.
    pub fn new(files: &'a H, hook: &'a P) -> FeedFiles<'a, 'b, H, P> {
        FeedFiles {
            files,
            input: None,
            hook,
            of: PhantomData,
        }
    }

    /// The same feeds, and this standard input.
    pub fn with_input(mut self, input: Stdin) -> FeedFiles<'a, 'b, H, P> {
        self.input = Some(input);
        self
    }
}

/// Opens the file at this path, or this standard input by the path `-`. Refused: `NoMemory`; `Unreadable` with the number.
fn open_at<H: Files>(
    files: &H,
    input: Option<Stdin>,
    path: &str,
    number: u64,
) -> Result<OpenedFile<H::File>, Refused>
    ensures { IfErr result (λ e. (e ≡ Refused.NoMemory) ⊎ (e ≡ Refused.Unreadable number)) }
{
    if path == "-" {
        return match input {
            Some(input) => Ok(FeedInput::Input(CountedReader::new(input))),
            None => Err(Refused::Unreadable { number }),
        };
    }
    match fs::open(files, path) {
        Ok(file) => Ok(FeedInput::File(CountedReader::new(file))),
        Err(error) => match error.kind() {
            ErrorKind::OutOfMemory => Err(Refused::NoMemory),
            _ => Err(Refused::Unreadable { number }),
        },
    }
}

impl<'a, 'b, H: Files, P: ReadProgress> Opener for FeedFiles<'a, 'b, H, P> {
    type Feed = FeedOf<'a, 'b, H::File, P>;

    ghost bytes = { λ _ _. None };

    ghost is_closed = { λ _ _. Unit {0} };

    fn open(&self, path: &str, number: u64) -> Result<FeedOf<'a, 'b, H::File, P>, Refused> {
        match open_at(self.files, self.input, path, number) {
            Ok(opened) => {
                let feed = ProgressSource::new(opened, self.hook);
                Ok(Feed::File(feed))
            }
            Err(refused) => Err(refused),
        }
    }
}

/// Opens a feed for each path, in order. Refused: `Unreadable` with the number of the first that can not be opened, counted
/// from 1; `NoMemory`.
pub(crate) fn all_opened<O: Opener>(
    alloc: Global,
    opener: &O,
    paths: &[String],
) -> Result<Vec<O::Feed>, Refused>
    ensures ok { IfOk result (λ feeds. AllZip Agrees (map (λ path. O.bytes opener.now (string_bytes path)) paths.now)
        (map O.Feed.remaining feeds.items)) }
    ensures only { IfErr result (λ e. (e ≡ Refused.NoMemory)
        ⊎ ((n : ℕ) × (n < length paths.now) × (e ≡ Refused.Unreadable (n + 1))
        × O.is_closed opener.now (slice_index_or (map string_bytes paths.now) n []))) }
{
    let mut feeds = Vec::new(alloc);
    for (place, path) in paths.iter().enumerate() {
        let feed = match opener.open(path.as_str(), place as u64 + 1) {
            Ok(feed) => feed,
            Err(refused) => return Err(refused),
        };
        let Ok(()) = feeds.push(feed) else {
            return Err(Refused::NoMemory);
        };
    }
    Ok(feeds)
}

/// All bytes that a reader gives. Refused: `Unreadable` with number 1 where it fails; `NoMemory`.
pub(crate) fn read_whole<R: Source>(alloc: Global, reader: &mut R) -> Result<Vec<u8>, Refused>
    ensures ok { IfOk result (λ bytes. IfSome (R.remaining reader.old) (λ xs. bytes.items ≡ xs)) }
    ensures steady { OnOk result (R.failures reader.new ≡ R.failures reader.old) }
    ensures only { IfErr result (λ e. (e ≡ Refused.NoMemory) ⊎ (e ≡ Refused.Unreadable 1)) }
{
    let mut bytes = Vec::new(alloc);
    let mut buffer = [0u8; 8192];
    for _ in 0..u64::MAX {
        let count = match reader.read(&mut buffer) {
            Ok(0) => return Ok(bytes),
            Ok(count) => count,
            Err(refused) => return Err(refused),
        };
        let Ok(()) = bytes.extend_from_slice(&buffer[..count]) else {
            return Err(Refused::NoMemory);
        };
    }
    Err(Refused::NoMemory)
}
