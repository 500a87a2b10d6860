//! What the lines of a script say, as text.
use fkv_functions::Name;
use fkv_operations::KeyedOp;
use fkv_steps::scripts::{Line, Script};
use std::io::{self, Write};

/// Writes an operation: its kind, its key and its amount.
fn write_operation<W: Write>(op: &KeyedOp<Name, i64, i64>, writer: &mut W) -> io::Result<()> {
    match op {
        KeyedOp::Read(_, input) => write!(writer, " Read {input} ")?,
        KeyedOp::Upsert(_, value) => write!(writer, " Upsert {value} ")?,
        KeyedOp::Rmw(_, input) => write!(writer, " Rmw {input} ")?,
        KeyedOp::Delete(_) => write!(writer, " Delete ")?,
        KeyedOp::Merge(_, input) => write!(writer, " Merge {input} ")?,
    }
    writer.write_all(op.key().bytes())?;
    writeln!(writer)
}

/// Writes the first line of a script and each line after it.
pub fn write_script<W: Write>(script: &Script, writer: &mut W) -> io::Result<()> {
    writeln!(writer, "{:?}", script.opening)?;
    for line in &script.lines {
        match line {
            Line::Issue {
                partition,
                session,
                op,
            } => {
                write!(writer, "Issue {partition} {session}")?;
                write_operation(op, writer)?;
            }
            Line::Do {
                partition,
                session,
                op,
            } => {
                write!(writer, "Do {partition} {session}")?;
                write_operation(op, writer)?;
            }
            other => writeln!(writer, "{other:?}")?,
        }
    }
    Ok(())
}
