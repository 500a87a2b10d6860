//! What the words of a command line ask for.
ghost use Rattle.std.specs.Prelude.{◌≡◌, false, IfOk, IfErr, codes, count_by, is_none, is_some, map, option_map, string_bytes, Some};
ghost use Rattle.std.specs.Str.{bytes_eq};
ghost use Rattle.clap.specs.Words.{app_of, first_value, found_of, kind_of, new_app, rows_of, rule_of, subcommand_rows_of};
ghost use Rattle.clap.specs.declared.builder.command.Command.TheViews.{out-Command};
ghost use Rattle.fkv_requests.specs.Requests.{
  IsAskedBy,
  IsAskedByKind,
  IsAskedIn,
  program,
  with_version,
  IsMistake,
  IsTableBy,
  number_rule,
  memory_rule,
  feeds_rule,
  placed_app,
  numbered_app,
  told_app,
  table_app,
  table_named,
  dir_rule,
  audit_of,
  number_of,
  given_or,
  memory_of,
  config_of,
  partition_bits_of,
  folder_of,
  has_bad_path,
  has_bad_spill,
  inputs_in,
  is_nameless,
  paths_of,
  flag_rule,
  is_given,
  is_set,
  sized_of,
  source_of,
  spill_of,
};

use crate::memory::{
    bucket_bits_in, digits_in, frames_in, page_bits_in, partition_bits_in, share_of, size_of,
};
use clap::builder::ValueParser;
use clap::error::ErrorKind;
use clap::parser::ValueSource;
use clap::{Arg, ArgAction, ArgMatches, Command, Error};
use fkv_functions::Refused;
use fkv_partition::Config;
use std::alloc::{AllocError, Global};

/// The program's version. `fkv_commands` writes it behind the name.
const VERSION: &str = "0.1.0";

/// Two command lines, at the end of help.
const EXAMPLES: &str = "Examples:
  fkv_cli sum january.csv february.csv
  fkv_cli count --workers 4 --memory 2G --dir pages *.csv";

/// What is told of a size that can't be read.
const BAD_SIZE: &str =
    "error: --memory takes a number of one to eighteen digits with K, M, G or T behind it, such as 64M\n";

/// What is told of a size that is a number alone.
const BARE_SIZE: &str =
    "error: --memory takes a unit behind its number: K, M, G or T, such as 64M\n";

/// What is told of a folder with an empty path.
const NO_FOLDER: &str = "error: --dir takes the path of a folder\n";

/// What is told of two feeds that are standard input.
const TWO_INPUTS: &str =
    "error: standard input can be read once, so '-' may stand once among the feeds\n";

/// What is told of a table that is to be spilled, and has no folder.
const NO_SPILL_FOLDER: &str = "error: --spill needs a folder for its pages: --dir PATH\n";

/// What is told of a table that is to be spilled, and of which histories are to be kept.
const AUDITED_SPILL: &str =
    "error: --spill can't stand with --audit, which keeps every update in memory\n";

/// What a table shows of the amounts of each key.
#[derive(Clone, Copy, PartialEq, Eq, Debug)]
pub enum Shown {
    /// How many there are.
    Count,
    /// What they add up to.
    Sum,
    /// The greatest.
    Max,
    /// How many there are, their sum, the least and the greatest.
    Summary,
}

/// A table that is asked for.
#[derive(Drop)]
pub struct TableRequest {
    pub shown: Shown,
    /// The configuration of the store that makes it.
    pub config: Config,
    /// The folder whose files keep its pages; with none they are kept in memory.
    pub folder: Option<String>,
    /// How many workers read the feeds, each in a thread of its own: 1 to 14.
    pub workers: u64,
    /// Whether a row is made a merge where it would read a page.
    pub merge: bool,
    /// Whether the table stands in pages of the folder until it is written out; then no history is kept.
    pub spill: bool,
    /// Whether the history of each partition is kept, and compared at the end with what the workers were answered.
    pub audit: bool,
    /// Whether what the run did is told at its end.
    pub stats: bool,
    /// Whether the rows that were read so far are told on the way.
    pub progress: bool,
    /// Whether the words say how much of the store stays in memory, by its size or by its page frames.
    pub sized: bool,
    /// Where its feeds are; with none the one feed is standard input.
    pub paths: Vec<String>,
}

/// What a command line asks for.
#[derive(Drop)]
pub enum Request {
    /// A script's run.
    Replay,
    /// A table of feeds.
    Table(TableRequest),
    /// How the program is called, which is this text.
    Help(String),
    /// The program's name and version.
    Version,
    /// Nothing that the program does; the text says why.
    Mistake(String),
}

/// What the words ask for, of which the first is the program's name. Refused: `NoMemory`.
pub fn request_of(alloc: Global, words: &[String]) -> Result<Request, Refused>
    ensures ok { IfOk result (IsAskedBy (map string_bytes words.now)) }
    ensures only { IfErr result (λ refused. refused ≡ Refused.NoMemory) }
{
    let Ok(command) = command(alloc) else {
        return Err(Refused::NoMemory);
    };
    match command.try_get_matches_from(words) {
        Ok(matches) => asked(alloc, &matches),
        Err(error) => unmatched(alloc, &error),
    }
}

/// What a parse that clap does not take asks for. Refused: `NoMemory`.
fn unmatched(alloc: Global, error: &Error) -> Result<Request, Refused>
    ensures ok { IfOk result (IsAskedByKind (kind_of error.now)) }
    ensures only { IfErr result (λ refused. refused ≡ Refused.NoMemory) }
{
    match error.kind() {
        ErrorKind::OutOfMemory => Err(Refused::NoMemory),
        ErrorKind::DisplayVersion => Ok(Request::Version),
        ErrorKind::DisplayHelp => match text_of(alloc, error) {
            Ok(text) => Ok(Request::Help(text)),
            Err(refused) => Err(refused),
        },
        _ => match text_of(alloc, error) {
            Ok(text) => Ok(Request::Mistake(text)),
            Err(refused) => Err(refused),
        },
    }
}

/// What clap tells the user. Refused: `NoMemory`.
fn text_of(alloc: Global, error: &Error) -> Result<String, Refused>
    ensures only { IfErr result (λ refused. refused ≡ Refused.NoMemory) }
{
    match format!(in alloc; "{error}") {
        Ok(text) => Ok(text),
        Err(_) => Err(Refused::NoMemory),
    }
}

/// What a parse that clap takes asks for. Refused: `NoMemory`.
fn asked(alloc: Global, matches: &ArgMatches<'_>) -> Result<Request, Refused>
    ensures ok { IfOk result (IsAskedIn (subcommand_rows_of matches.now)) }
    ensures only { IfErr result (λ refused. refused ≡ Refused.NoMemory) }
{
    let Some((name, options)) = matches.subcommand() else {
        return Ok(Request::Replay);
    };
    let Some(shown) = shown_by(name) else {
        return Ok(Request::Replay);
    };
    let Some(memory) = memory_by(options) else {
        return mistake(alloc, bad_size(options));
    };
    if let Some(text) = bad_path(options) {
        return mistake(alloc, text);
    }
    match bad_spill(options) {
        None => table_by(alloc, options, shown, memory),
        Some(text) => mistake(alloc, text),
    }
}

/// The memory that the options name, or that they name none; `None` where the size can't be read.
fn memory_by(options: &ArgMatches<'_>) -> Option<Option<u64>>
    ensures { result ≡ memory_of (rows_of (found_of options.now)) }
{
    match options.get_str("memory") {
        None => Some(None),
        Some(text) => match size_of(text.as_bytes()) {
            Some(size) => Some(Some(size)),
            None => None,
        },
    }
}

/// The table that the options ask for, within so much memory where a size is named. Refused: `NoMemory`.
fn table_by(
    alloc: Global,
    options: &ArgMatches<'_>,
    shown: Shown,
    memory: Option<u64>,
) -> Result<Request, Refused>
    ensures ok { IfOk result (λ request. (table : TableRequest) × (request ≡ Request.Table table)
        × (table.shown ≡ shown) × IsTableBy memory (rows_of (found_of options.now)) table) }
    ensures only { IfErr result (λ refused. refused ≡ Refused.NoMemory) }
{
    let config = config_by(options, memory);
    let folder = match folder_by(alloc, options) {
        Ok(folder) => folder,
        Err(refused) => return Err(refused),
    };
    match paths_by(alloc, options) {
        Ok(paths) => Ok(Request::Table(TableRequest {
            shown,
            config,
            folder,
            workers: number_by(options, "workers"),
            merge: flag_by(options, "merge"),
            spill: flag_by(options, "spill"),
            audit: flag_by(options, "audit"),
            stats: flag_by(options, "stats"),
            progress: flag_by(options, "progress"),
            sized: is_sized(options),
            paths,
        })),
        Err(refused) => Err(refused),
    }
}

/// What is told of the size that the options name, which can't be read.
fn bad_size(options: &ArgMatches<'_>) -> &'static str {
    match options.get_str("memory") {
        Some(text) if is_bare(text.as_bytes()) => BARE_SIZE,
        _ => BAD_SIZE,
    }
}

/// Whether a size is a number alone.
fn is_bare(text: &[u8]) -> bool {
    !text.is_empty() && digits_in(text) == text.len()
}

/// What is told of a folder that is named by an empty path, or of standard input that is named twice.
fn bad_path(options: &ArgMatches<'_>) -> Option<&'static str>
    ensures { is_some result ≡ has_bad_path (rows_of (found_of options.now)) }
{
    if is_nameless(options) {
        return Some(NO_FOLDER);
    }
    if inputs_in(options) > 1 {
        return Some(TWO_INPUTS);
    }
    None
}

/// What is told of a table that is to be spilled, and names no folder for its pages, or keeps histories.
fn bad_spill(options: &ArgMatches<'_>) -> Option<&'static str>
    ensures { is_some result ≡ has_bad_spill (rows_of (found_of options.now)) }
{
    if !is_spilled(options) {
        return None;
    }
    if lacks_folder(options) {
        return Some(NO_SPILL_FOLDER);
    }
    if is_audited(options) {
        return Some(AUDITED_SPILL);
    }
    None
}

/// Whether a table is to be spilled.
fn is_spilled(options: &ArgMatches<'_>) -> bool
    ensures { result ≡ spill_of (rows_of (found_of options.now)) }
{
    flag_by(options, "spill")
}

/// Whether no folder is named.
fn lacks_folder(options: &ArgMatches<'_>) -> bool
    ensures { result ≡ is_none (folder_of (rows_of (found_of options.now))) }
{
    match options.get_str("dir") {
        Some(_) => false,
        None => true,
    }
}

/// Whether a table keeps histories.
fn is_audited(options: &ArgMatches<'_>) -> bool
    ensures { result ≡ audit_of (rows_of (found_of options.now)) }
{
    flag_by(options, "audit")
}

/// Whether a folder is named by an empty path.
fn is_nameless(options: &ArgMatches<'_>) -> bool
    ensures { result ≡ is_nameless (folder_of (rows_of (found_of options.now))) }
{
    match options.get_str("dir") {
        Some(path) => path.is_empty(),
        None => false,
    }
}

/// How many of the feeds are standard input.
fn inputs_in(options: &ArgMatches<'_>) -> usize
    ensures { result ≡ inputs_in (paths_of (rows_of (found_of options.now))) }
{
    match options.get_strs("FEED") {
        Some(paths) => dashes(paths),
        None => 0,
    }
}

/// How many of these texts are `-`.
fn dashes(paths: &[&str]) -> usize
    ensures { result ≡ count_by (λ path. bytes_eq path.now (codes "-")) paths.now }
{
    paths.iter().filter(|path| **path == "-").count()
}

/// A mistake that clap does not find, which is told so. Refused: `NoMemory`.
fn mistake(alloc: Global, text: &str) -> Result<Request, Refused>
    ensures mistake { IfOk result IsMistake }
    ensures only { IfErr result (λ refused. refused ≡ Refused.NoMemory) }
{
    match String::from_str(alloc, text) {
        Ok(text) => Ok(Request::Mistake(text)),
        Err(_) => Err(Refused::NoMemory),
    }
}

/// The table that a subcommand makes, if it makes one.
fn shown_by(name: &str) -> Option<Shown>
    ensures { result ≡ table_named name.now }
{
    if name == "count" {
        Some(Shown::Count)
    } else if name == "sum" {
        Some(Shown::Sum)
    } else if name == "max" {
        Some(Shown::Max)
    } else if name == "summary" {
        Some(Shown::Summary)
    } else {
        None
    }
}

/// The number of an option.
fn number_by(options: &ArgMatches<'_>, id: &str) -> u64
    ensures { result ≡ number_of (first_value (found_of options.now) id.now) }
{
    let Some(text) = options.get_str(id) else {
        return u64::MAX;
    };
    match text.parse::<u64>() {
        Ok(number) => number,
        Err(_) => u64::MAX,
    }
}

/// Whether a flag is given.
fn flag_by(options: &ArgMatches<'_>, id: &str) -> bool
    ensures { result ≡ is_set (first_value (found_of options.now) id.now) }
{
    match options.get_str(id) {
        None => false,
        Some(text) => text == "true",
    }
}

/// Whether the words give an option a value, which is no default then.
fn is_given(options: &ArgMatches<'_>, id: &str) -> bool
    ensures { result ≡ is_given (source_of id.now (rows_of (found_of options.now))) }
{
    match options.value_source(id) {
        Some(ValueSource::CommandLine) => true,
        Some(ValueSource::DefaultValue) => false,
        None => false,
    }
}

/// Whether the words say how much of the store stays in memory.
fn is_sized(options: &ArgMatches<'_>) -> bool
    ensures { result ≡ sized_of (rows_of (found_of options.now)) }
{
    is_given(options, "memory") || is_given(options, "frames")
}

/// The number that the words give an option, or this one in the place of its default.
fn number_or(options: &ArgMatches<'_>, id: &str, usual: u64) -> u64
    ensures { result ≡ given_or id.now (rows_of (found_of options.now)) usual }
{
    if is_given(options, id) {
        number_by(options, id)
    } else {
        usual
    }
}

/// The bits of the number of partitions where no size is named: several workers have 2^6 where none is given.
fn partition_bits_by(options: &ArgMatches<'_>) -> u64
    ensures { result ≡ partition_bits_of (rows_of (found_of options.now)) }
{
    let usual = if number_by(options, "workers") > 1 {
        6
    } else {
        number_by(options, "partition-bits")
    };
    number_or(options, "partition-bits", usual)
}

/// The configuration that the options say, within so much memory where a size is named.
fn config_by(options: &ArgMatches<'_>, memory: Option<u64>) -> Config
    ensures { result ≡ config_of memory (rows_of (found_of options.now)) }
{
    let Some(memory) = memory else {
        return Config {
            id: 1,
            partition_bits: partition_bits_by(options),
            bucket_bits: number_by(options, "bucket-bits"),
            page_bits: number_by(options, "page-bits"),
            frames: number_by(options, "frames"),
            turns: 1_000_000,
        };
    };
    let partition_bits = number_or(options, "partition-bits", partition_bits_in(memory));
    let share = share_of(memory, partition_bits);
    let bucket_bits = number_or(options, "bucket-bits", bucket_bits_in(share));
    let merge = flag_by(options, "merge");
    let page_bits = number_or(options, "page-bits", page_bits_in(share, merge));
    let frames = frames_in(bucket_bits, page_bits, share);
    Config {
        id: 1,
        partition_bits,
        bucket_bits,
        page_bits,
        frames: number_or(options, "frames", frames),
        turns: 1_000_000,
    }
}

/// The folder that keeps the pages, if one is named. Refused: `NoMemory`.
fn folder_by(alloc: Global, options: &ArgMatches<'_>) -> Result<Option<String>, Refused>
    ensures ok { IfOk result
        (λ folder. option_map string_bytes folder ≡ folder_of (rows_of (found_of options.now))) }
    ensures only { IfErr result (λ refused. refused ≡ Refused.NoMemory) }
{
    let Some(text) = options.get_str("dir") else {
        return Ok(None);
    };
    match String::from_str(alloc, text) {
        Ok(folder) => Ok(Some(folder)),
        Err(_) => Err(Refused::NoMemory),
    }
}

/// The paths of the feeds. Refused: `NoMemory`.
fn paths_by(alloc: Global, options: &ArgMatches<'_>) -> Result<Vec<String>, Refused>
    ensures ok { IfOk result
        (λ paths. map string_bytes paths.items ≡ paths_of (rows_of (found_of options.now))) }
    ensures only { IfErr result (λ refused. refused ≡ Refused.NoMemory) }
{
    match options.get_strs("FEED") {
        Some(texts) => copied(alloc, texts),
        None => Ok(Vec::new(alloc)),
    }
}

/// The same texts. Refused: `NoMemory`.
fn copied(alloc: Global, texts: &[&str]) -> Result<Vec<String>, Refused>
    ensures ok { IfOk result (λ copies. map string_bytes copies.items ≡ map (λ text. text.now) texts.now) }
    ensures only { IfErr result (λ refused. refused ≡ Refused.NoMemory) }
{
    let mut copies = Vec::new(alloc);
    for text in texts {
        let Ok(copy) = String::from_str(alloc, text) else {
            return Err(Refused::NoMemory);
        };
        let Ok(()) = copies.push(copy) else {
            return Err(Refused::NoMemory);
        };
    }
    Ok(copies)
}

/// An option that has a number of a range, and this one where none is given.
fn number<'a>(
    alloc: Global,
    name: &'a str,
    least: u64,
    most: u64,
    usual: &'a str,
    help: &'a str,
) -> Arg<'a>
    ensures rule { rule_of result ≡ number_rule name.entry.now least most usual.entry.now }
    ensures local { result.global ≡ false }
{
    Arg::new(alloc, name)
        .long(name)
        .value_name("N")
        .value_parser(ValueParser::unsigned(least, most))
        .default_value(usual)
        .help(help)
}

/// How much memory the store may take.
fn memory<'a>(alloc: Global) -> Arg<'a>
    ensures rule { rule_of result ≡ memory_rule }
    ensures local { result.global ≡ false }
{
    Arg::new(alloc, "memory")
        .long("memory")
        .value_name("SIZE")
        .help(
            "How much memory the store may take, as 64M or 2G, an eighth of it for what grows with the table; it sets \
--partition-bits, --bucket-bits, --page-bits and --frames, where they are not given",
        )
}

/// The folder whose files keep the pages.
fn dir<'a>(alloc: Global) -> Arg<'a>
    ensures rule { rule_of result ≡ dir_rule }
    ensures local { result.global ≡ false }
{
    Arg::new(alloc, "dir").long("dir").value_name("PATH").help(
        "Keep pages in files of this folder, made anew; without it they are kept in memory",
    )
}

/// An option with no value.
fn flag<'a>(alloc: Global, name: &'a str, help: &'a str) -> Arg<'a>
    ensures rule { rule_of result ≡ flag_rule name.entry.now }
    ensures local { result.global ≡ false }
{
    Arg::new(alloc, name)
        .long(name)
        .action(ArgAction::SetTrue)
        .help(help)
}

/// The paths of the feeds.
fn feeds<'a>(alloc: Global) -> Arg<'a>
    ensures rule { rule_of result ≡ feeds_rule }
    ensures local { result.global ≡ false }
{
    Arg::new(alloc, "FEED").num_args(0..=64).help(
        "CSV files, up to 64, of which - is standard input; with none, standard input. Each line is KEY,AMOUNT (count wants an \
amount too), with no header: KEY has 1 to 31 bytes, AMOUNT is a whole number of 64 bits",
    )
}

/// A subcommand, with where its pages are, and how its rows reach the store.
fn placed<'a>(
    alloc: Global,
    name: &'static str,
    about: &'static str,
) -> Result<Command<'a>, AllocError>
    ensures { IfOk result (λ command. (app_of command ≡ placed_app name.now)
        × ((out-Command command).has_globals ≡ false)) }
{
    Command::new(alloc, name)
        .about(about)
        .arg(memory(alloc))?
        .arg(dir(alloc))?
        .arg(number(
            alloc,
            "workers",
            1,
            14,
            "1",
            "How many threads read the feeds, in blocks that they share: 1 to 14",
        ))?
        .arg(flag(
            alloc,
            "merge",
            "Make a row a merge where it would read a page",
        ))?
        .arg(flag(
            alloc,
            "spill",
            "Keep the table in pages of --dir until it is written, for one larger than memory; it can't stand with --audit. A page \
that can't be read may then end the run after a part of the table was written",
        ))
}

/// A subcommand, with what it tells of its work, and what it compares.
fn told<'a>(alloc: Global, command: Command<'a>) -> Result<Command<'a>, AllocError>
    requires { (out-Command command).has_globals ≡ false }
    ensures { IfOk result (λ more. (app_of more ≡ told_app (app_of command.entry))
        × ((out-Command more).has_globals ≡ false)) }
{
    command
        .arg(flag(
            alloc,
            "stats",
            "Tell on standard error, at the end, what the run did",
        ))?
        .arg(flag(
            alloc,
            "progress",
            "Tell on standard error, as it goes, how many rows were read",
        ))?
        .arg(flag(
            alloc,
            "audit",
            "Keep every update, and compare them at the end with what the workers were answered",
        ))
}

/// A subcommand, with the numbers of a store.
fn numbered<'a>(alloc: Global, command: Command<'a>) -> Result<Command<'a>, AllocError>
    requires { (out-Command command).has_globals ≡ false }
    ensures { IfOk result (λ more. (app_of more ≡ numbered_app (app_of command.entry))
        × ((out-Command more).has_globals ≡ false)) }
{
    command
        .arg(number(
            alloc,
            "partition-bits",
            0,
            6,
            "2",
            "There are 2 to this many partitions: 0 to 6; of several workers 6 where neither it nor --memory is given",
        ))?
        .arg(number(
            alloc,
            "bucket-bits",
            0,
            20,
            "10",
            "There are 2 to this many buckets in each: 0 to 20",
        ))?
        .arg(number(
            alloc,
            "page-bits",
            8,
            20,
            "16",
            "A page has 2 to this many bytes: 8 to 20",
        ))?
        .arg(number(
            alloc,
            "frames",
            2,
            1024,
            "4",
            "The page frames of each partition: 2 to 1024",
        ))
}

/// A subcommand that makes a table.
fn table<'a>(
    alloc: Global,
    name: &'static str,
    about: &'static str,
) -> Result<Command<'a>, AllocError>
    ensures { IfOk result (λ command. (app_of command ≡ table_app name.now)
        × ((out-Command command).has_globals ≡ false)) }
{
    numbered(alloc, told(alloc, placed(alloc, name, about)?)?)?.arg(feeds(alloc))
}

/// The subcommand that runs a script.
fn replay<'a>(alloc: Global) -> Command<'a>
    ensures app { app_of result ≡ new_app (codes "replay") }
    ensures local { (out-Command result).has_globals ≡ false }
{
    Command::new(alloc, "replay").about(
        "Runs the script on standard input, and prints what it tells",
    )
}

/// The program's name and version, with no subcommand yet.
fn named<'a>(alloc: Global) -> Command<'a>
    ensures { app_of result ≡ with_version (new_app (codes "fkv_cli")) }
{
    Command::new(alloc, "fkv_cli")
        .about("A proved key-value store for per-key state")
        .version(VERSION)
        .after_help(EXAMPLES)
}

/// The program's command line.
fn command<'a>(alloc: Global) -> Result<Command<'a>, AllocError>
    ensures { IfOk result (λ command. app_of command ≡ program) }
{
    let count = table(alloc, "count", "Counts the rows of each key")?;
    let sum = table(alloc, "sum", "Adds up the amounts of each key")?;
    let max = table(alloc, "max", "Finds the greatest amount of each key")?;
    let summary = table(
        alloc,
        "summary",
        "Writes KEY,COUNT,SUM,MIN,MAX for each key",
    )?;
    named(alloc)
        .subcommand(replay(alloc))?
        .subcommand(count)?
        .subcommand(sum)?
        .subcommand(max)?
        .subcommand(summary)
}
