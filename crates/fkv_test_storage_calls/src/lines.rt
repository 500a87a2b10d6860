//! Lines of calls, and what they are made on.
use std::alloc::AllocError;

/// A line: its first word, and what stands after it, as text and as numbers. What is no number counts as 0.
#[derive(Clone, Copy)]
pub struct Line<'a> {
    pub word: &'a str,
    pub texts: [&'a str; 5],
    pub numbers: [u64; 5],
}

impl<'a> Line<'a> {
    /// What a line says.
    pub fn new(line: &'a str) -> Line<'a> {
        let mut words = line.split(' ');
        let word = words.next().unwrap_or("");
        let mut texts = [""; 5];
        let mut numbers = [0u64; 5];
        for at in 0..5 {
            if let Some(text) = words.next() {
                texts[at] = text;
                numbers[at] = text.parse().unwrap_or(0);
            }
        }
        Line {
            word,
            texts,
            numbers,
        }
    }
}

/// What calls are made on.
pub trait Subject: Drop {
    /// Makes a call, and writes its answer as a line.
    fn call(&mut self, line: &Line, out: &mut String) -> Result<(), AllocError>;
}

/// Makes a call for each line.
pub fn make_calls<S: Subject>(
    subject: &mut S,
    calls: &str,
    out: &mut String,
) -> Result<(), AllocError> {
    for line in calls.lines() {
        subject.call(&Line::new(line), out)?;
    }
    Ok(())
}
