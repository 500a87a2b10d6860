//! What one line says, found word by word.
ghost use Rattle.std.specs.Prelude.{◌≡◌, IfSome, Some};
ghost use Rattle.std.specs.Str.{bytes_eq};
ghost use Rattle.fkv_scripts.specs.declared.lines.Line.{Line};
ghost use Rattle.fkv_scripts.specs.declared.lines.Opening.{Opening};
ghost use Rattle.fkv_scripts.specs.Words.{words_of};
ghost use Rattle.fkv_scripts.specs.Grammar.{Opens};
ghost use Rattle.fkv_scripts.specs.Script.{SaysTo};
ghost use Rattle.fkv_scripts.specs.Reading.{Gives, first_as, line_of, served_of, alone_of, pair_of, issue_of, do_of, place_of, access_of, load_of, flush_of, key_alone, key_and_amount, operation_of, functions_of, store_of, opening_of};

use crate::lines::{FunctionsName, Line, Opening};
use crate::words::Words;
use fkv_functions::Name;
use fkv_lives::{Access, ContextId};
use fkv_operations::KeyedOp;

/// What a line after the first says to a store of these functions, where it says anything.
pub fn parse_line(functions: FunctionsName, bytes: &[u8]) -> Option<Line>
    // It says what was found.
    ensures found { IfSome result (λ l. SaysTo functions bytes.now l) }
    // What it says is found.
    ensures only { (l : Line) → SaysTo functions bytes.now l → result ≡ Some l }
{
    let said = line(bytes)?;
    if !functions.takes(&said) {
        return None;
    }
    Some(said)
}

/// The store that a first line opens, where it opens one.
pub fn parse_opening(bytes: &[u8]) -> Option<Opening>
    ensures found { IfSome result (λ o. Opens bytes.now o) }
    ensures only { (o : Opening) → Opens bytes.now o → result ≡ Some o }
{
    opening(bytes)
}

#[tactic(auto, unfolding(crate::specs::Reading::line_of))]
fn line(bytes: &[u8]) -> Option<Line>
    ensures { result ≡ line_of (words_of bytes.now) }
{
    let mut words = Words::new(bytes);
    let verb = words.next()?;
    if is(verb, "enter") {
        let partition = alone(&mut words)?;
        return Some(Line::Enter { partition });
    }
    if is(verb, "leave") {
        let (partition, session) = pair(&mut words)?;
        return Some(Line::Leave { partition, session });
    }
    if is(verb, "refresh") {
        let (partition, session) = pair(&mut words)?;
        return Some(Line::Refresh { partition, session });
    }
    if is(verb, "readonly") {
        let (partition, page) = pair(&mut words)?;
        return Some(Line::ReadOnly { partition, page });
    }
    if is(verb, "head") {
        let (partition, page) = pair(&mut words)?;
        return Some(Line::Head { partition, page });
    }
    if is(verb, "flush") {
        return flush(&mut words);
    }
    if is(verb, "truncate") {
        let partition = alone(&mut words)?;
        return Some(Line::Truncate { partition });
    }
    served(verb, &mut words)
}

/// A line of an operation or of a relocation.
#[tactic(auto, unfolding(crate::specs::Reading::served_of))]
fn served(verb: &[u8], words: &mut Words<'_>) -> Option<Line>
    ensures { result ≡ served_of verb.now words.old }
{
    if is(verb, "do") {
        return do_line(words);
    }
    if is(verb, "compact") {
        let (partition, session) = pair(words)?;
        return Some(Line::Compact { partition, session });
    }
    if is(verb, "go") {
        return Some(Line::Go(place(words)?));
    }
    if is(verb, "install") {
        return Some(Line::Install(place(words)?));
    }
    if is(verb, "load") {
        return load(words);
    }
    if is(verb, "giveup") {
        return Some(Line::GiveUp(place(words)?));
    }
    if is(verb, "ready") {
        return Some(Line::Ready(place(words)?));
    }
    if is(verb, "finish") {
        return Some(Line::Finish(place(words)?));
    }
    issue(verb, words)
}

#[tactic(auto, unfolding(crate::specs::Reading::opening_of))]
fn opening(bytes: &[u8]) -> Option<Opening>
    ensures { result ≡ opening_of (words_of bytes.now) }
{
    let mut words = Words::new(bytes);
    let verb = words.next()?;
    if is(verb, "store") {
        return store(&mut words);
    }
    None
}

fn is(word: &[u8], text: &str) -> bool
    ensures { result ≡ bytes_eq word.now text.now }
{
    word == text.as_bytes()
}

#[tactic(auto, unfolding(crate::specs::Reading::functions_of))]
fn functions(words: &mut Words<'_>) -> Option<FunctionsName>
    ensures { Gives result (first_as functions_of words.old) words.new }
{
    let word = words.next()?;
    if is(word, "count") {
        return Some(FunctionsName::Count);
    }
    if is(word, "sum") {
        return Some(FunctionsName::Sum);
    }
    if is(word, "max") {
        return Some(FunctionsName::Max);
    }
    if is(word, "capped") {
        return Some(FunctionsName::Capped);
    }
    None
}

#[tactic(auto, unfolding(crate::specs::Reading::store_of))]
fn store(words: &mut Words<'_>) -> Option<Opening>
    ensures { result ≡ store_of words.old }
{
    let functions = functions(words)?;
    let partition_bits = words.number()?;
    let bucket_bits = words.number()?;
    let page_bits = words.number()?;
    let frames = words.number()?;
    if !words.is_empty() {
        return None;
    }
    Some(Opening {
        functions,
        partition_bits,
        bucket_bits,
        page_bits,
        frames,
    })
}

/// A number, and nothing after it.
#[tactic(auto, unfolding(crate::specs::Reading::alone_of))]
fn alone(words: &mut Words<'_>) -> Option<u64>
    ensures { result ≡ alone_of words.old }
{
    let number = words.number()?;
    if !words.is_empty() {
        return None;
    }
    Some(number)
}

/// Two numbers, and nothing after them.
#[tactic(auto, unfolding(crate::specs::Reading::pair_of))]
fn pair(words: &mut Words<'_>) -> Option<(u64, u64)>
    ensures { result ≡ pair_of words.old }
{
    let one = words.number()?;
    let other = words.number()?;
    if !words.is_empty() {
        return None;
    }
    Some((one, other))
}

#[tactic(auto, unfolding(crate::specs::Reading::place_of))]
fn place(words: &mut Words<'_>) -> Option<ContextId>
    ensures { result ≡ place_of words.old }
{
    let partition = words.number()?;
    let slot = words.number()?;
    let context = words.number()?;
    if !words.is_empty() {
        return None;
    }
    Some(ContextId {
        partition: partition as usize,
        slot: slot as usize,
        context: context as usize,
    })
}

/// How the device takes or gives a page.
#[tactic(auto, unfolding(crate::specs::Reading::access_of))]
fn access(words: &mut Words<'_>) -> Option<Access>
    ensures { Gives result (first_as access_of words.old) words.new }
{
    let word = words.next()?;
    if is(word, "ok") {
        return Some(Access::Works);
    }
    if is(word, "fault") {
        return Some(Access::Fails);
    }
    None
}

#[tactic(auto, unfolding(crate::specs::Reading::flush_of))]
fn flush(words: &mut Words<'_>) -> Option<Line>
    ensures { result ≡ flush_of words.old }
{
    let partition = words.number()?;
    let access = access(words)?;
    if !words.is_empty() {
        return None;
    }
    Some(Line::Flush { partition, access })
}

#[tactic(auto, unfolding(crate::specs::Reading::load_of))]
fn load(words: &mut Words<'_>) -> Option<Line>
    ensures { result ≡ load_of words.old }
{
    let partition = words.number()?;
    let slot = words.number()?;
    let context = words.number()?;
    let access = access(words)?;
    if !words.is_empty() {
        return None;
    }
    let place = ContextId {
        partition: partition as usize,
        slot: slot as usize,
        context: context as usize,
    };
    Some(Line::Load(place, access))
}

#[tactic(auto, unfolding(crate::specs::Reading::key_alone))]
fn key_alone(words: &mut Words<'_>) -> Option<Name>
    ensures { result ≡ key_alone words.old }
{
    let key = words.key()?;
    if !words.is_empty() {
        return None;
    }
    Some(key)
}

#[tactic(auto, unfolding(crate::specs::Reading::key_and_amount))]
fn key_and_amount(words: &mut Words<'_>) -> Option<(Name, i64)>
    ensures { result ≡ key_and_amount words.old }
{
    let key = words.key()?;
    let amount = words.amount()?;
    if !words.is_empty() {
        return None;
    }
    Some((key, amount))
}

#[tactic(auto, unfolding(crate::specs::Reading::operation_of))]
fn operation(verb: &[u8], words: &mut Words<'_>) -> Option<KeyedOp<Name, i64, i64>>
    ensures { result ≡ operation_of verb.now words.old }
{
    if is(verb, "read") {
        return Some(KeyedOp::Read(key_alone(words)?, 0));
    }
    if is(verb, "upsert") {
        let (key, amount) = key_and_amount(words)?;
        return Some(KeyedOp::Upsert(key, amount));
    }
    if is(verb, "rmw") {
        let (key, amount) = key_and_amount(words)?;
        return Some(KeyedOp::Rmw(key, amount));
    }
    if is(verb, "delete") {
        return Some(KeyedOp::Delete(key_alone(words)?));
    }
    if is(verb, "merge") {
        let (key, amount) = key_and_amount(words)?;
        return Some(KeyedOp::Merge(key, amount));
    }
    None
}

#[tactic(auto, unfolding(crate::specs::Reading::issue_of))]
fn issue(verb: &[u8], words: &mut Words<'_>) -> Option<Line>
    ensures { result ≡ issue_of verb.now words.old }
{
    let partition = words.number()?;
    let session = words.number()?;
    let op = operation(verb, words)?;
    Some(Line::Issue {
        partition,
        session,
        op,
    })
}

#[tactic(auto, unfolding(crate::specs::Reading::do_of))]
fn do_line(words: &mut Words<'_>) -> Option<Line>
    ensures { result ≡ do_of words.old }
{
    let partition = words.number()?;
    let session = words.number()?;
    let verb = words.next()?;
    let op = operation(verb, words)?;
    Some(Line::Do {
        partition,
        session,
        op,
    })
}
