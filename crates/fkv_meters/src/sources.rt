//! A source that tells how far it is.
ghost use Rattle.std.specs.Prelude.{◌≡◌};

use crate::progress::ReadProgress;
use fkv_functions::Refused;
use fkv_streams::Source;

/// Hands reads on to a source, and tells a hook what was read.
///
/// A row of a feed is mostly a line, so the hook counts line ends (byte 10). An empty line is counted though it is no row, a quoted
/// field with line breaks makes a row count as more than one line, and a last row without a line feed is not counted.
#[derive(Drop)]
pub struct ProgressSource<'a, S, P> {
    source: S,
    hook: &'a P,
}

impl<'a, S, P> ProgressSource<'a, S, P> {
    /// This source, telling this hook.
    pub fn new(source: S, hook: &'a P) -> ProgressSource<'a, S, P>
        ensures source { result.source ≡ source }
    {
        ProgressSource { source, hook }
    }
}

impl<'a, S: Source, P: ReadProgress> Source for ProgressSource<'a, S, P> {
    ghost remaining = { λ p. S.remaining p.source };

    ghost failures = { λ p. S.failures p.source };

    fn read(&mut self, buf: &mut [u8]) -> Result<usize, Refused> {
        let count = self.source.read(buf)?;
        self.hook.read(&buf[..count]);
        Ok(count)
    }
}
