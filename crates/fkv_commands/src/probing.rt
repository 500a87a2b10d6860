//! Looking once more at what could not be read, made or written.
use fkv_partition::Config;
use std::alloc::{AllocError, Global};
use std::fmt::{self, Display};
use std::fs::{self, Files, OpenOptions, create_dir_all};
use std::io::{self, ErrorKind, Write};

/// Why something can't be read or written, as far as looking at it again shows.
#[derive(Drop)]
pub(crate) enum Why {
    Missing,
    Folder,
    Forbidden,
    /// In the system's words.
    Failing(io::Error),
}

impl Display for Why {
    fn fmt<W: fmt::Write>(&self, f: &mut fmt::Formatter<W>) -> fmt::Result {
        match self {
            Why::Missing => f.write_str("no such file"),
            Why::Folder => f.write_str("it is a folder"),
            Why::Forbidden => f.write_str("no permission"),
            Why::Failing(error) => write!(f, "{error}"),
        }
    }
}

/// What an error says.
fn why_of(error: io::Error) -> Why {
    match error.kind() {
        ErrorKind::NotFound => Why::Missing,
        ErrorKind::IsADirectory => Why::Folder,
        ErrorKind::PermissionDenied => Why::Forbidden,
        _ => Why::Failing(error),
    }
}

/// Why the file at this path can't be read; `None` where it can by now, and where it is no regular file: opening that may wait for
/// ever.
pub(crate) fn why_unreadable<H: Files>(files: &H, path: &str) -> Option<Why> {
    match fs::metadata(files, path) {
        Ok(found) if found.is_dir() => Some(Why::Folder),
        Ok(found) if found.is_file() => fs::open(files, path).err().map(why_of),
        Ok(_) => None,
        Err(error) => Some(why_of(error)),
    }
}

/// The path of a partition's file.
fn part_path(alloc: Global, folder: &str, partition: u64) -> Result<String, AllocError> {
    format!(in alloc; "{folder}/part-{partition:02}.log")
}

/// How many partitions there are.
fn partitions(config: &Config) -> u64 {
    1 << config.partition_bits.min(6)
}

/// Why this folder can't be made, or its files can't be opened; `None` where they can by now.
pub(crate) fn why_unmade<H: Files>(
    files: &H,
    alloc: Global,
    folder: &str,
    config: &Config,
) -> Option<Why> {
    if let Err(error) = create_dir_all(files, folder) {
        return Some(why_of(error));
    }
    for partition in 0..partitions(config) {
        let path = part_path(alloc, folder, partition).ok()?;
        let mut how = OpenOptions::new();
        if let Err(error) = how.write(true).create(true).open(files, path.as_str()) {
            return Some(why_of(error));
        }
    }
    None
}

/// Why a page can't be written behind the others of a file.
fn why_unput<H: Files>(files: &H, alloc: Global, path: &str, size: usize) -> Option<Why> {
    let mut page = Vec::new(alloc);
    page.resize(size, 0u8).ok()?;
    let mut how = OpenOptions::new();
    let mut file = match how.append(true).open(files, path) {
        Ok(file) => file,
        Err(error) => return Some(why_of(error)),
    };
    file.write_all(page.as_slice()).err().map(why_of)
}

/// Why no page can be written to one of this folder's files, which the run leaves; `None` where one can be by now.
pub(crate) fn why_unwritten<H: Files>(
    files: &H,
    alloc: Global,
    folder: &str,
    config: &Config,
) -> Option<Why> {
    let size = 1usize << config.page_bits.min(20);
    for partition in 0..partitions(config) {
        let path = part_path(alloc, folder, partition).ok()?;
        let why = why_unput(files, alloc, path.as_str(), size);
        if why.is_some() {
            return why;
        }
    }
    None
}
