//! Questions for a value, and their answers.
ghost use Rattle.std.specs.Prelude.{◌≡◌, ◌↔◌, IsTrue};
ghost use Rattle.fkv_functions.specs.Meanings.{updated};

use crate::updates::Functions;
use crate::values::Known;
use std::marker::Model;

/// A question of an update: the value of this key after this input, from the one that it has.
#[derive(Clone, Copy, Debug, PartialEq, Eq)]
pub struct Ask<K, V, I> {
    /// The number of the operation that asks.
    pub number: u64,
    pub key: K,
    /// The value that the key has, if any.
    pub source: Option<V>,
    pub input: I,
}

impl<K: Known, V: Known, I: Known> Ask<K, V, I> {
    /// Whether this is the same question, in each part.
    pub fn is(&self, other: &Self) -> bool
        ensures { IsTrue result ↔ (self.now ≡ other.now) }
    {
        if self.number != other.number || !self.key.is(&other.key) || !self.input.is(&other.input) {
            return false;
        }
        match (&self.source, &other.source) {
            (None, None) => true,
            (Some(held), Some(came)) => held.is(came),
            _ => false,
        }
    }
}

/// The questions of one type of functions.
pub type AskOf<F> = Ask<<F as Functions>::Key, <F as Functions>::Value, <F as Functions>::Input>;

/// A question with its answer: the new value, or none where the update is declined, is the meaning of the functions at
/// this question.
///
/// A contract sees it as the question, which determines the value. It can be made by [`Built::make`]
/// alone.
#[derive(Drop)]
pub struct Built<F: Functions> {
    ask: AskOf<F>,
    value: Option<F::Value>,
}

impl<F: Functions> Model for Built<F> {
    ghost use Rattle.std.specs.Prelude.{◌≡◌};
    ghost use Rattle.fkv_functions.specs.declared.asks.Ask.{Ask};
    ghost use Rattle.fkv_functions.specs.Meanings.{updated};

    ghost Value = { Ask F.Key F.Value F.Input };

    ghost view = { λ b. b.ask };

    ghost invariant = { λ b. b.value ≡ updated F.meaning b.ask.key b.ask.input b.ask.source };
}

impl<F: Functions> Built<F> {
    /// Answers a question: the first value where there is no source, else the next one.
    pub fn make(functions: &F, ask: AskOf<F>) -> Self
        ensures { result ≡ ask }
    {
        let value = match &ask.source {
            None => functions.initial(&ask.key, &ask.input),
            Some(held) => functions.copy(&ask.key, &ask.input, held),
        };
        Built { ask, value }
    }

    /// The question.
    pub fn ask(&self) -> AskOf<F>
        ensures { result ≡ self.now }
    {
        self.ask
    }

    /// The new value, or `None` where the update is declined.
    pub fn value(&self) -> Option<F::Value>
        ensures { result ≡ updated F.meaning self.now.key self.now.input self.now.source }
    {
        self.value
    }
}
