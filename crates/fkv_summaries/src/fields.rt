//! A summary as the fields of a row.
ghost use Rattle.fkv_summaries.specs.Summaries.{summary_field, summary_some};

use crate::summaries::Summary;
use fkv_feeds::RowFields;
use itoa::Buffer;

impl RowFields for Summary {
    const FIELDS: usize = 4;

    ghost FIELDS = { 4 };

    ghost field_at = { summary_field };

    fn field<'a>(&'a self, place: usize, digits: &'a mut Buffer) -> &'a [u8] {
        let text = match place {
            0 => digits.format(self.count),
            1 => digits.format(self.sum),
            2 => digits.format(self.least),
            _ => digits.format(self.greatest),
        };
        text.as_bytes()
    }

    ghost some = { summary_some };
}
