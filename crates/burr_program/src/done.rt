use crate::files::{SourceFile, WrittenFile};
use burr_judge::Status;

/// What a command has done: its status, the files that it read, and the file that it wrote.
#[derive(Drop)]
pub struct Done<'a> {
    pub status: Status,
    /// The assembly's text.
    pub assembly: Option<SourceFile<'a>>,
    /// The plan, its text, or a sheet.
    pub source: Option<SourceFile<'a>>,
    pub written: Option<WrittenFile<'a>>,
}
