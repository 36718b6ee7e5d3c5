// The nesting of a file's records (01 Nesting): what an answer says of it, and the reader, which goes from record to record.
#![tactic(auto)]

pub mod reader;

// What a legal file has. Of the records of a file an answer is these counts, or else the number of the record at fault.
#[derive(Clone, Copy, Debug, PartialEq, Eq)]
pub struct Counts {
    pub batches: usize,
    pub payments: usize,
}
