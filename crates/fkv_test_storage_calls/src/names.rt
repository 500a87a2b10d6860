//! Calls on names, their hashes, and the bytes of values. Names and bytes are given in hexadecimal digits.
use crate::hex::{bytes_of, write_bytes};
use crate::lines::{Line, Subject};
use fkv_functions::hashes::fnv_1a_hash;
use fkv_functions::{CountFns, Fixed, Functions, Known, MaxFns, Name, SumFns};
use std::alloc::{AllocError, Global};

#[derive(Drop)]
pub struct NameCalls {
    alloc: Global,
}

impl NameCalls {
    pub fn new(alloc: Global) -> NameCalls {
        NameCalls { alloc }
    }

    /// The name of the bytes of a text, if they are one.
    fn name(&self, text: &str) -> Result<Option<Name>, AllocError> {
        let bytes = bytes_of(self.alloc, text)?;
        Ok(Name::new(&bytes))
    }

    /// Reads a value from its bytes, twice, and writes what it writes.
    fn read_value<V: Fixed>(&self, text: &str, out: &mut String) -> Result<(), AllocError> {
        let bytes = bytes_of(self.alloc, text)?;
        let size = V::SIZE;
        if size > 32 || bytes.len() != size {
            return writeln!(out, "Never");
        }
        let Some(value) = V::take(&bytes) else {
            return writeln!(out, "None");
        };
        value.known();
        let mut written = [7u8; 32];
        value.put(&mut written[..size]);
        let held = V::held_in(&written[..size]);
        write!(out, "{} ", held.is(&value))?;
        write_bytes(&written[..size], out)
    }

    /// Writes the length of a name and its hash, as each set of functions tells it.
    fn write_name(&self, text: &str, out: &mut String) -> Result<(), AllocError> {
        let Some(name) = self.name(text)? else {
            return writeln!(out, "None");
        };
        let hashes = [CountFns.hash(&name), SumFns.hash(&name), MaxFns.hash(&name)];
        let length = name.bytes().len();
        writeln!(
            out,
            "{length} {:#018x} {:#018x} {:#018x}",
            hashes[0], hashes[1], hashes[2]
        )
    }
}

impl Subject for NameCalls {
    fn call(&mut self, line: &Line, out: &mut String) -> Result<(), AllocError> {
        let [text, other, ..] = line.texts;
        match line.word {
            "hash" => writeln!(out, "{:#018x}", fnv_1a_hash(&bytes_of(self.alloc, text)?)),
            "name" => self.write_name(text, out),
            "compare" => match (self.name(text)?, self.name(other)?) {
                (Some(name), Some(other)) => writeln!(out, "{} {}", name < other, name == other),
                _ => writeln!(out, "None"),
            },
            "count" => self.read_value::<u64>(text, out),
            "maximum" => self.read_value::<i64>(text, out),
            "sum" => self.read_value::<i128>(text, out),
            "name_value" => self.read_value::<Name>(text, out),
            _ => writeln!(out, "Never"),
        }
    }
}
