// Added: captures at the bench. They are the capture file, and the line that is printed for a capture.
#![tactic(auto)]

// Files, read and written.
pub mod file;
// The line of a capture.
pub mod line;
// The line of a file.
pub mod list;
mod number;
