//! Scripts: running them, and the text that they print; and, by name, what their lines say (`fkv_scripts`) and the
//! streams that they are read from and written to (`fkv_streams`).
//!
//! `specs/Running.antt` says what each line does, and `specs/Printing.antt` has the text that is printed.

pub mod printing;
pub mod running;
pub mod written;

pub use fkv_lives::Printed;
pub use fkv_scripts::{FunctionsName, LIMIT, Line, Opening, Script, one_reading, read_script};
pub use fkv_streams::{CountedReader, CountedWriter, Sink, Source, write_out};
pub use printing::text_of;
pub use running::run_script;
pub use written::FromAmount;
