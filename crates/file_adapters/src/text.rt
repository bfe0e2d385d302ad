//! A text that is written as a file.
use spl_value::{Bytes, Name};

/// A file and the text that it is to hold.
pub struct TextFile {
    pub file: Name,
    pub text: Bytes,
}

impl Drop for TextFile {
    fn drop(self) {
        let TextFile { file: _, text: _ } = self;
    }
}
