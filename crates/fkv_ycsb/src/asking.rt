//! The command line.
use crate::drawing::Law;
use crate::mixes::Mix;
use clap::builder::ValueParser;
use clap::{Arg, ArgAction, ArgMatches, Command, Error};
use fkv_partition::Config;
use std::alloc::{AllocError, Global};

/// The store that is measured.
#[derive(Clone, Copy, PartialEq, Eq, Debug)]
pub enum Kind {
    /// The one that threads share, which counts its operations.
    Shared,
    /// The same, which keeps each operation.
    Audited,
    /// The store of one thread.
    Local,
}

/// What is asked for.
#[derive(Clone, Copy, Debug)]
pub struct Plan<'a> {
    pub kind: Kind,
    /// How many keys are loaded.
    pub keys: u64,
    /// How many operations each thread makes.
    pub operations: u64,
    pub threads: u64,
    pub mix: Mix,
    pub law: Law,
    pub seed: u64,
    /// Whether an update is a merge where it would read a page.
    pub merge: bool,
    /// Whether times are told.
    pub timed: bool,
    /// The folder whose files keep the pages; with none they are kept in memory.
    pub folder: Option<&'a str>,
    pub config: Config,
}

/// An option that has a number of a range.
fn number<'a>(
    alloc: Global,
    name: &'a str,
    least: u64,
    most: u64,
    usual: &'a str,
    help: &'a str,
) -> Arg<'a> {
    Arg::new(alloc, name)
        .long(name)
        .value_name("N")
        .value_parser(ValueParser::unsigned(least, most))
        .default_value(usual)
        .help(help)
}

/// An option that has a word.
fn word<'a>(alloc: Global, name: &'a str, usual: &'a str, help: &'a str) -> Arg<'a> {
    Arg::new(alloc, name)
        .long(name)
        .value_name("WORD")
        .default_value(usual)
        .help(help)
}

/// An option with no value.
fn flag<'a>(alloc: Global, name: &'a str, help: &'a str) -> Arg<'a> {
    Arg::new(alloc, name)
        .long(name)
        .action(ArgAction::SetTrue)
        .help(help)
}

/// The options that say what is done.
fn work<'a>(alloc: Global, command: Command<'a>) -> Result<Command<'a>, AllocError> {
    command
        .arg(number(
            alloc,
            "keys",
            1,
            1 << 40,
            "1000",
            "How many keys are loaded",
        ))?
        .arg(number(
            alloc,
            "operations",
            0,
            1 << 40,
            "1000",
            "How many operations each thread makes on them",
        ))?
        .arg(number(alloc, "threads", 1, 14, "1", "How many threads: 1 to 14"))?
        .arg(word(
            alloc,
            "mix",
            "0:100",
            "0:100 read-modify-writes; 50:50 or 95:5 reads and upserts; none draws the keys alone",
        ))?
        .arg(word(
            alloc,
            "law",
            "uniform",
            "How keys are drawn: uniform or zipf",
        ))?
        .arg(number(alloc, "seed", 0, u64::MAX, "1", "What the draws begin with"))
}

/// The options that say over which store.
fn store<'a>(alloc: Global, command: Command<'a>) -> Result<Command<'a>, AllocError> {
    command
        .arg(word(
            alloc,
            "store",
            "shared",
            "shared; audited, which keeps each operation; or local, the store of one thread",
        ))?
        .arg(flag(
            alloc,
            "merge",
            "Make an update a merge where it would read a page",
        ))?
        .arg(flag(alloc, "untimed", "Tell no times"))?
        .arg(
            Arg::new(alloc, "dir").long("dir").value_name("PATH").help(
                "Keep pages in files of this folder, made anew; without it they are kept in memory",
            ),
        )?
        .arg(number(
            alloc,
            "partition-bits",
            0,
            6,
            "6",
            "There are 2 to this many partitions",
        ))?
        .arg(number(
            alloc,
            "bucket-bits",
            0,
            20,
            "8",
            "There are 2 to this many buckets in each",
        ))?
        .arg(number(
            alloc,
            "page-bits",
            8,
            20,
            "12",
            "A page has 2 to this many bytes",
        ))?
        .arg(number(
            alloc,
            "frames",
            2,
            1024,
            "8",
            "The page frames of each partition",
        ))
}

/// The program's command line.
pub fn command<'a>(alloc: Global) -> Result<Command<'a>, AllocError> {
    let command = Command::new(alloc, "fkv_ycsb").about(
        "Measures the library by the workloads of YCSB, and checks that no update was lost",
    );
    store(alloc, work(alloc, command)?)
}

/// The number of an option.
fn number_by(options: &ArgMatches<'_>, id: &str) -> u64 {
    match options.get_one::<u64>(id) {
        Some(number) => number,
        None => 0,
    }
}

/// The mix that a word names.
fn mix_by(word: &str) -> Option<Mix> {
    match word {
        "0:100" => Some(Mix::Updates),
        "50:50" => Some(Mix::Halves),
        "95:5" => Some(Mix::Reads),
        "none" => Some(Mix::Nothing),
        _ => None,
    }
}

/// The law that a word names.
fn law_by(word: &str) -> Option<Law> {
    match word {
        "uniform" => Some(Law::Uniform),
        "zipf" => Some(Law::Zipf),
        _ => None,
    }
}

/// The store that a word names.
fn kind_by(word: &str) -> Option<Kind> {
    match word {
        "shared" => Some(Kind::Shared),
        "audited" => Some(Kind::Audited),
        "local" => Some(Kind::Local),
        _ => None,
    }
}

/// What the options ask for, or `None` where a word names nothing.
pub fn plan_by<'a>(options: &ArgMatches<'a>) -> Option<Plan<'a>> {
    Some(Plan {
        kind: kind_by(options.get_str("store")?)?,
        keys: number_by(options, "keys"),
        operations: number_by(options, "operations"),
        threads: number_by(options, "threads"),
        mix: mix_by(options.get_str("mix")?)?,
        law: law_by(options.get_str("law")?)?,
        seed: number_by(options, "seed"),
        merge: options.get_flag("merge"),
        timed: !options.get_flag("untimed"),
        folder: options.get_str("dir"),
        config: Config {
            id: 1,
            partition_bits: number_by(options, "partition-bits"),
            bucket_bits: number_by(options, "bucket-bits"),
            page_bits: number_by(options, "page-bits"),
            frames: number_by(options, "frames"),
            turns: 1_000_000,
        },
    })
}
