//! What a run does, counted beside it: the pages of a device, and the lines of feeds.
//!
//! A [`MeteredDevice`] hands each call on to a device and counts it in [`Meters`]. A [`ProgressSource`] hands each read on to
//! a source, and tells a [`ReadProgress`] what was read, which counts its lines. Several threads share the counts. What
//! either promises is what the thing inside it promises, so a run's contracts stay as they are.
#![tactic(auto)]

pub mod devices;
pub mod meters;
pub mod progress;
pub mod sources;

pub use devices::{MeteredDevice, MeteredReader, MeteredWriter};
pub use meters::{MeterReadings, Meters};
pub use progress::{Beside, ProgressLine, ReadProgress, Silent};
pub use sources::ProgressSource;
