//! The ending of the writer of a published table.
use crate::rule::TableWriter;
use std::sync::Wait;

/// The value that ends the writer of a published table. Ending the writer waits for the last reader, but its owner may be dropped anywhere,
/// also where nothing may wait. So this value, which is passed in when the writer is made, does the waiting.
pub trait Ending: Drop {
    /// Ends the writer, once nobody reads what it published.
    fn end(&self, writer: TableWriter);
}

/// An ending that uses a runtime to wait.
#[derive(Drop)]
pub struct Waiting<R: Wait + Drop> {
    runtime: R,
}

impl<R: Wait + Drop> Waiting<R> {
    /// Returns an ending that uses this runtime to wait.
    pub fn new(runtime: R) -> Waiting<R> {
        Waiting { runtime }
    }
}

impl<R: Wait + Drop> Ending for Waiting<R> {
    fn end(&self, writer: TableWriter) {
        drop(writer.take(&self.runtime));
    }
}
