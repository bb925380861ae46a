use std::alloc::{AllocError, Global};

/// What is printed of a case.
#[derive(Drop)]
pub struct Report {
    bytes: Vec<u8>,
}

impl Report {
    pub fn new(alloc: Global) -> Report {
        Report {
            bytes: Vec::new(alloc),
        }
    }

    pub fn bytes(&self) -> &[u8] {
        self.bytes.as_slice()
    }

    /// Adds a line: a mark, and what it marks.
    pub fn line(&mut self, mark: &str, text: &[u8]) -> Result<(), AllocError> {
        self.bytes.extend_from_slice(mark.as_bytes())?;
        self.bytes.extend_from_slice(text)?;
        self.bytes.push(b'\n')?;
        Ok(())
    }

    /// Adds the lines of a text but for so many first ones. A last one without a line feed has a line behind it that
    /// says so.
    pub fn lines(&mut self, mark: &str, text: &[u8], skipped: usize) -> Result<(), AllocError> {
        if text.is_empty() {
            return Ok(());
        }
        let Some(whole) = text.strip_suffix(b"\n") else {
            self.split_lines(mark, text, skipped)?;
            return self.line("\\ ", b"no line feed");
        };
        self.split_lines(mark, whole, skipped)
    }

    fn split_lines(&mut self, mark: &str, text: &[u8], skipped: usize) -> Result<(), AllocError> {
        for line in text.split(|byte| *byte == b'\n').skip(skipped) {
            self.line(mark, line)?;
        }
        Ok(())
    }
}
