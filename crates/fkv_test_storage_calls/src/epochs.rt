//! Calls on epochs: what is due then, and the epoch after it.
use crate::lines::{Line, Subject};
use fkv_epoch::{Action, Call, Epochs};
use std::alloc::AllocError;

impl Subject for Epochs {
    fn call(&mut self, line: &Line, out: &mut String) -> Result<(), AllocError> {
        let number = line.numbers[0];
        if self.epoch() == u64::MAX {
            return writeln!(out, "Never");
        }
        let call = match line.word {
            "enter" => return writeln!(out, "{:?}", self.enter()),
            "look" => Call::Enter,
            "refresh" => Call::Refresh(number as usize),
            "leave" => Call::Leave(number as usize),
            "safe" => Call::Bump(Action::Safe(number)),
            "closed" => Call::Bump(Action::Closed(number)),
            _ => return writeln!(out, "Never"),
        };
        match self.make(call) {
            Ok(due) => writeln!(out, "{:?} {}", due.as_slice(), self.epoch()),
            Err(refused) => writeln!(out, "{refused:?} {}", self.epoch()),
        }
    }
}
