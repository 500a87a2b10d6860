//! Scripts of which a growth may be refused, run also by `bench/refuse_growths`: a script is refused as a whole before a byte is
//! written, or its lines are, and then what is printed of those that are done is the fold of them, and so is the map.
use crate::folds::Fold;
use fkv_functions::{Name, Refused};
use fkv_lives::ContextId;
use fkv_operations::{Answer, KeyedOp, Op};
use fkv_scripts::{LIMIT, Line, Script, read_script};
use fkv_steps::scripts::run_script;
use fkv_streams::{CountedReader, CountedWriter};
use std::alloc::Global;
use std::str;
use std::test::Fail;

/// An operation of a line, on sums.
type Asked = Op<Name, i128, i64>;

/// The sessions of these scripts.
const SLOTS: usize = 2;

/// The contexts of a session.
const CONTEXTS: usize = 8;

/// The fold of the lines so far, and what is open in each context of each session.
#[derive(Drop)]
struct Followed {
    fold: Fold,
    open: [[Option<Asked>; CONTEXTS]; SLOTS],
    /// Whether an operation stays open that is made by one line, which prints that memory was refused: to its issue, or to a
    /// later step.
    stays_open: bool,
}

fn on_sums(op: &KeyedOp<Name, i64, i64>) -> Asked {
    match op {
        KeyedOp::Read(key, input) => Op::Read(*key, *input),
        KeyedOp::Upsert(key, sum) => Op::Upsert(*key, i128::from(*sum)),
        KeyedOp::Rmw(key, amount) => Op::Rmw(*key, *amount),
        KeyedOp::Delete(key) => Op::Delete(*key),
        KeyedOp::Merge(key, amount) => Op::Merge(*key, *amount),
    }
}

/// The answer that a line tells, if it tells one.
fn answer_of(told: &str) -> Option<Answer<i128>> {
    match told {
        "done stored" => Some(Answer::Stored),
        "done deleted" => Some(Answer::Deleted),
        "done absent" => Some(Answer::Absent),
        "done cleared" => Some(Answer::Cleared),
        _ => {
            let sum = told.strip_prefix("done value ")?;
            Some(Answer::Value(sum.parse::<i128>().ok()?))
        }
    }
}

impl Followed {
    fn new(stays_open: bool) -> Followed {
        Followed {
            fold: Fold::new(),
            open: [[None; CONTEXTS]; SLOTS],
            stays_open,
        }
    }

    /// What is open in a context.
    fn open_in(&self, slot: usize, context: usize) -> Option<Asked> {
        *self.open.get(slot)?.get(context)?
    }

    /// Has this open in a context, or nothing.
    fn set(&mut self, slot: usize, context: usize, asked: Option<Asked>) {
        if let Some(open) = self.open.get_mut(slot) {
            if let Some(place) = open.get_mut(context) {
                *place = asked;
            }
        }
    }

    /// Has this open in the lowest free context of a session.
    fn begin(&mut self, slot: usize, asked: Asked) {
        if let Some(free) = (0..CONTEXTS).find(|context| self.open_in(slot, *context).is_none()) {
            self.set(slot, free, Some(asked));
        }
    }

    /// Whether a line that goes on with what is open in a context may tell this: where that is done, what the fold answers.
    fn goes_on(&mut self, place: &ContextId, told: &str) -> bool {
        let Some(answer) = answer_of(told) else {
            return true;
        };
        let Some(asked) = self.open_in(place.slot, place.context) else {
            return false;
        };
        self.set(place.slot, place.context, None);
        self.fold.answer(&asked) == answer
    }

    /// Whether a line that makes an operation from its issue to its end may tell this.
    fn does(&mut self, slot: u64, asked: Asked, told: &str) -> bool {
        if let Some(answer) = answer_of(told) {
            return self.fold.answer(&asked) == answer;
        }
        let is_open = if told == "refused NoMemory" {
            self.stays_open
        } else {
            !told.starts_with("refused ")
        };
        if is_open {
            self.begin(slot as usize, asked);
        }
        true
    }

    /// Whether a line may tell this.
    fn follows(&mut self, line: &Line, told: &str) -> bool {
        match line {
            Line::Issue { session, op, .. } => {
                if told.starts_with("issued ") {
                    self.begin(*session as usize, on_sums(op));
                }
                true
            }
            Line::Do { session, op, .. } => self.does(*session, on_sums(op), told),
            Line::Compact { session, .. } => self.does(*session, Op::Relocate, told),
            Line::Go(place) | Line::Install(place) | Line::Ready(place) | Line::Finish(place) => {
                self.goes_on(place, told)
            }
            Line::Load(place, _) => self.goes_on(place, told),
            _ => answer_of(told).is_none(),
        }
    }

    /// Whether a line of the map is a key of the fold with its sum.
    fn has(&self, line: &str) -> bool {
        let Some((key, sum)) = line.split_once(' ') else {
            return false;
        };
        match (key.as_bytes(), sum.parse::<i128>()) {
            ([letter], Ok(sum)) => self.fold.has(*letter, sum),
            _ => false,
        }
    }
}

/// Whether the lines that a script printed are those of the fold of what was done, and then its map.
fn is_folded(script: &Script, printed: &str, stays_open: bool) -> bool {
    let mut followed = Followed::new(stays_open);
    let mut lines = printed.lines();
    for line in &script.lines {
        let Some(told) = lines.next() else {
            return false;
        };
        if !followed.follows(line, told) {
            return false;
        }
    }
    let Some(count) = lines.next().and_then(|line| line.strip_prefix("map ")) else {
        return false;
    };
    let mut pairs = 0usize;
    for line in lines {
        if !followed.has(line) {
            return false;
        }
        pairs = pairs.saturating_add(1);
    }
    pairs == followed.fold.count() && count.parse::<usize>() == Ok(pairs)
}

/// The room for what a script of these prints.
const ROOM: usize = 4096;

/// What a script prints, and whether it was run. What it is written to takes no memory.
fn printed(alloc: Global, script: &str) -> Result<Vec<u8>, Refused> {
    let Ok(mut written) = Vec::with_capacity(alloc, ROOM) else {
        return Err(Refused::NoMemory);
    };
    let mut reader = CountedReader::new(script.as_bytes());
    match run_script(alloc, &mut reader, &mut CountedWriter::new(&mut written)) {
        Ok(()) => Ok(written),
        // before which nothing was written
        Err(Refused::NoMemory) if written.is_empty() => Err(Refused::NoMemory),
        Err(_) => Err(Refused::Unwritable),
    }
}

/// What a script prints, as [`printed`] has it, asked again where memory was refused once.
fn printed_again(alloc: Global, script: &str) -> Result<Vec<u8>, Refused> {
    match printed(alloc, script) {
        Err(Refused::NoMemory) => printed(alloc, script),
        done => done,
    }
}

/// The lines of a script, asked again where memory was refused once.
fn lines_again(alloc: Global, script: &str) -> Result<Script, Refused> {
    match read_script(alloc, &mut CountedReader::new(script.as_bytes()), LIMIT) {
        Err(Refused::NoMemory) => {
            read_script(alloc, &mut CountedReader::new(script.as_bytes()), LIMIT)
        }
        done => done,
    }
}

/// Whether a script prints what the fold of its lines comes to.
fn is_whole(alloc: Global, script: &str) -> bool {
    let Ok(text) = printed_again(alloc, script) else {
        return false;
    };
    let Ok(lines) = lines_again(alloc, script) else {
        return false;
    };
    match str::from_utf8(text.as_slice()) {
        Ok(text) => is_folded(&lines, text, false) || is_folded(&lines, text, true),
        Err(_) => false,
    }
}

const THIN_PATH: &str = "store sum 0 8 8 2
enter 0
do 0 0 rmw a 5
do 0 0 rmw a -2
do 0 0 read a
";

const ONE_CLASS: &str = "store sum 0 0 8 8
enter 0
do 0 0 rmw a 1
do 0 0 rmw b 2
do 0 0 rmw c 3
do 0 0 rmw d 4
do 0 0 rmw e 5
do 0 0 rmw f 6
do 0 0 rmw g 7
do 0 0 rmw h 8
do 0 0 read a
do 0 0 read b
do 0 0 read c
do 0 0 read d
do 0 0 read e
do 0 0 read f
do 0 0 read g
do 0 0 read h
";

const TRUNCATION_UNDER_A_PENDING_READ: &str = "store sum 0 8 8 2
enter 0
enter 0
do 0 0 upsert a 10
do 0 0 upsert b 1
do 0 0 upsert c 1
readonly 0 1
refresh 0 0
refresh 0 1
flush 0 ok
head 0 1
refresh 0 0
refresh 0 1
read 0 0 a
ready 0 0 0
compact 0 1
compact 0 1
compact 0 1
compact 0 1
truncate 0
truncate 0
load 0 0 0 ok
finish 0 0 0
";

const FULL: &str = "store sum 0 8 8 2
enter 0
do 0 0 upsert a 1
do 0 0 upsert b 2
do 0 0 upsert c 3
do 0 0 upsert d 4
do 0 0 upsert e 5
do 0 0 upsert f 6
do 0 0 upsert g 7
do 0 0 upsert h 8
flush 0 ok
readonly 0 2
flush 0 ok
refresh 0 0
flush 0 fault
flush 0 ok
head 0 2
head 0 1
finish 0 0 0
refresh 0 0
finish 0 0 0
flush 0 ok
flush 0 ok
do 0 0 read a
";

const MERGE_BESIDE_A_PREPARED_UPDATE: &str = "store sum 0 8 8 2
enter 0
enter 0
do 0 0 upsert a 10
do 0 0 upsert b 1
do 0 0 upsert c 1
readonly 0 1
refresh 0 0
refresh 0 1
flush 0 ok
head 0 1
refresh 0 0
refresh 0 1
do 0 0 merge a 5
rmw 0 0 a 1
ready 0 0 0
load 0 0 0 ok
do 0 1 merge a 2
install 0 0 0
finish 0 0 0
";

const RELOCATION_JOINS: &str = "store sum 0 8 8 2
enter 0
enter 0
do 0 0 upsert a 10
do 0 0 upsert b 1
do 0 0 upsert c 1
readonly 0 1
refresh 0 0
refresh 0 1
flush 0 ok
head 0 1
refresh 0 0
refresh 0 1
do 0 0 merge a 5
compact 0 1
compact 0 1
compact 0 1
truncate 0
do 0 0 read a
merge 0 0 d 4
finish 0 0 0
do 0 0 read d
";

const SCRIPTS: [&str; 6] = [
    THIN_PATH,
    ONE_CLASS,
    TRUNCATION_UNDER_A_PENDING_READ,
    FULL,
    MERGE_BESIDE_A_PREPARED_UPDATE,
    RELOCATION_JOINS,
];

#[test]
fn refused_growths_of_scripts(rt: HostRuntime) {
    for (at, script) in SCRIPTS.iter().enumerate() {
        assert!(rt; is_whole(rt.alloc(), script), "script {at}");
    }
}

/// A text that the fold of the thin path does not print, in each of its parts.
const OTHERS: [&str; 6] = [
    "entered 0\ndone value 5\ndone value 4\ndone value 4\nmap 1\na 4\n",
    "entered 0\ndone value 5\ndone value 3\ndone value 3\nmap 1\na 5\n",
    "entered 0\ndone value 5\nrefused NoMemory\ndone value 3\nmap 1\na 3\n",
    "entered 0\nrefused NoMemory\ndone value 3\ndone value 3\nmap 1\na 3\n",
    "entered 0\ndone value 5\ndone value 3\ndone value 3\nmap 0\n",
    "entered 0\ndone value 5\ndone value 3\ndone stored\nmap 1\na 3\n",
];

/// Texts that it may print.
const FOLDED: [&str; 3] = [
    "entered 0\ndone value 5\ndone value 3\ndone value 3\nmap 1\na 3\n",
    "entered 0\nrefused NoMemory\ndone value -2\ndone value -2\nmap 1\na -2\n",
    "refused NoMemory\nrefused Unknown\nrefused Unknown\nrefused Unknown\nmap 0\n",
];

/// What is no fold is told from what is one.
#[test]
fn folds(rt: HostRuntime) -> Result<(), Fail> {
    let lines = lines_again(rt.alloc(), THIN_PATH)?;
    for (at, text) in FOLDED.iter().enumerate() {
        assert!(rt; is_folded(&lines, text, false), "text {at}");
    }
    for (at, text) in OTHERS.iter().enumerate() {
        assert!(rt; !is_folded(&lines, text, false), "other {at}");
        assert!(rt; !is_folded(&lines, text, true), "other {at}");
    }
    Ok(())
}
