//! A table of the latest inputs from rows of CSV.
ghost use Rattle.fkv_example.specs.LatestInputs.{latest_field, latest_some};

use crate::latest_inputs::{Latest, LatestFns};
use crate::store::CONFIG;
use anyhow::{Context, Result};
use fkv_device::MemoryDevice;
use fkv_feeds::{RowFields, run_alone, write_table};
use fkv_streams::{CountedReader, CountedWriter};
use itoa::Buffer;
use std::alloc::Global;
use std::str;

/// The rows of a feed.
const ROWS: &[u8] = b"apples,7\nplums,12\napples,-2\nplums,30\n";

impl RowFields for Latest {
    const FIELDS: usize = 2;

    ghost FIELDS = { 2 };

    ghost field_at = { latest_field };

    fn field<'a>(&'a self, place: usize, digits: &'a mut Buffer) -> &'a [u8] {
        let text = match place {
            0 => digits.format(self.count),
            _ => digits.format(self.last),
        };
        text.as_bytes()
    }

    ghost some = { latest_some };
}

/// Prints the table of these rows: of each key how many there are and the last amount, keys rising.
pub fn tabulate<P: Print>(rt: &P, alloc: Global) -> Result<()> {
    let device = MemoryDevice::new(alloc);
    let run = run_alone(
        alloc,
        &mut CountedReader::new(ROWS),
        LatestFns,
        &CONFIG,
        device,
    )?;
    let mut text = Vec::new(alloc);
    write_table(alloc, &run.table, &mut CountedWriter::new(&mut text))?;
    print!(rt; "{}", str::from_utf8(&text)?)?;
    Ok(())
}
