//! The text of an outcome, which scripts print.
ghost use Rattle.std.specs.Prelude.{◌≡◌, ℕ, List, Some};
ghost use Rattle.std.specs.Fmt.{DisplaysOnOk, decimal, signed_decimal};
ghost use Rattle.fkv_lives.specs.declared.outcomes.Outcome.TheVariants.{Build, Done};
ghost use Rattle.fkv_lives.specs.OutcomeTexts.{outcome_text};

use crate::outcomes::Outcome;
use fkv_operations::Answer;
use fkv_partition::Wait;
use std::fmt::{self, Display};

/// A value whose printed text is known.
pub trait Printed: Display {
    /// The text that `{}` writes.
    ghost text: { Self → List ℕ };

    /// Tells a proof that `{}` writes this text.
    fn printed(&self)
        ensures { Self.output self.now ≡ Some (text self.now) };
}

impl Printed for u64 {
    ghost text = { decimal };

    fn printed(&self) {}
}

impl Printed for i64 {
    ghost text = { signed_decimal };

    fn printed(&self) {}
}

impl Printed for i128 {
    ghost text = { signed_decimal };

    fn printed(&self) {}
}

/// Writes what an operation asks for.
fn write_build<V: Printed, O: Printed, W: fmt::Write>(
    source: &Option<V>,
    f: &mut fmt::Formatter<W>,
) -> fmt::Result
    ensures { DisplaysOnOk W.write_str_gives f.old result (Some (outcome_text V.text O.text (Build source.now))) f.new }
{
    match source {
        None => write!(f, "build none"),
        Some(value) => {
            value.printed();
            write!(f, "build {value}")
        }
    }
}

/// Writes an answer.
fn write_done<V: Printed, O: Printed, W: fmt::Write>(
    answer: &Answer<O>,
    f: &mut fmt::Formatter<W>,
) -> fmt::Result
    ensures { DisplaysOnOk W.write_str_gives f.old result (Some (outcome_text V.text O.text (Done answer.now))) f.new }
{
    match answer {
        Answer::Value(shown) => {
            shown.printed();
            write!(f, "done value {shown}")
        }
        Answer::Absent => write!(f, "done absent"),
        Answer::Stored => write!(f, "done stored"),
        Answer::Deleted => write!(f, "done deleted"),
        Answer::Cleared => write!(f, "done cleared"),
        Answer::Declined => write!(f, "done declined"),
    }
}

/// An outcome prints as a script's line does: `entered S`, `left`, `refreshed`, `shifted`, `taken N`, `flushed N`,
/// `issued C`, `next`, `build none`, `build V`, `load ADDRESS`, `wait fuzzy`, `wait full`, `done value V`, `done absent`,
/// `done stored`, `done deleted`, `done cleared`, `done declined`, `given up` or `begin ADDRESS`.
impl<V: Printed, O: Printed> Display for Outcome<V, O> {
    ghost output = { λ o. Some (outcome_text V.text O.text o) };

    fn fmt<W: fmt::Write>(&self, f: &mut fmt::Formatter<W>) -> fmt::Result {
        match self {
            Outcome::Entered(slot) => write!(f, "entered {slot}"),
            Outcome::Left => write!(f, "left"),
            Outcome::Refreshed => write!(f, "refreshed"),
            Outcome::Shifted => write!(f, "shifted"),
            Outcome::Taken(page) => write!(f, "taken {page}"),
            Outcome::Flushed(page) => write!(f, "flushed {page}"),
            Outcome::Issued(context) => write!(f, "issued {context}"),
            Outcome::Next => write!(f, "next"),
            Outcome::Build(source) => write_build::<V, O, W>(source, f),
            Outcome::Load(address) => write!(f, "load {address}"),
            Outcome::Waits(Wait::Fuzzy) => write!(f, "wait fuzzy"),
            Outcome::Waits(Wait::Full) => write!(f, "wait full"),
            Outcome::Done(answer) => write_done::<V, O, W>(answer, f),
            Outcome::GivenUp => write!(f, "given up"),
            Outcome::Truncated(begin) => write!(f, "begin {begin}"),
        }
    }
}
