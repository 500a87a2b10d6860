//! Calls on shapes: bits of pages and a size of records come first.
use crate::lines::{Line, Subject};
use fkv_records::Shape;
use std::alloc::AllocError;

#[derive(Drop)]
pub struct ShapeCalls;

/// Writes the addresses below a limit that are places, and those that a run from 64 comes to.
fn write_places(shape: Shape, limit: u64, out: &mut String) -> Result<(), AllocError> {
    let mut next = Some(64);
    for address in 0..limit.min(1 << 20) {
        if shape.is_record_start(address) {
            write!(out, "{address} ")?;
        }
        if next == Some(address) {
            write!(out, "> ")?;
            next = shape.next_place(address);
        }
    }
    writeln!(out)
}

impl Subject for ShapeCalls {
    fn call(&mut self, line: &Line, out: &mut String) -> Result<(), AllocError> {
        let [bits, size, number, ..] = line.numbers;
        let Some(shape) = Shape::new(bits.min(u64::from(u32::MAX)) as u32, size as usize) else {
            return writeln!(out, "None");
        };
        match line.word {
            "shape" => writeln!(out, "{}", shape.page_size()),
            "next" => writeln!(out, "{:?}", shape.next_place(number)),
            "is_place" => writeln!(out, "{}", shape.is_record_start(number)),
            "places" => write_places(shape, number, out),
            "page" => writeln!(out, "{} {}", shape.page_of(number), shape.offset_of(number)),
            "start" if number < 1 << 40 => match number.checked_mul(shape.page_size() as u64) {
                Some(_address) => writeln!(out, "{}", shape.start(number)),
                None => writeln!(out, "Never"),
            },
            _ => writeln!(out, "Never"),
        }
    }
}
