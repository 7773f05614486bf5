//! A log that keeps its records.

use crate::stop::{Stop, Told, both};
use log::kv::Source;
use log::span::Spans;
use log::{Log, Metadata, Record};
use std::alloc::{AllocError, Global};
use std::cell::{Cell, RefCell};
use std::fmt::Display;

/// The records, one after another, and whether memory has sufficed for them.
#[derive(Drop)]
pub struct Noted {
    alloc: Global,
    text: RefCell<String>,
    is_whole: Cell<bool>,
}

impl Noted {
    /// Returns a log of no records.
    pub fn new(alloc: Global) -> Noted {
        Noted {
            alloc,
            text: RefCell::new(String::new(alloc)),
            is_whole: Cell::new(true),
        }
    }

    /// Answers with a text and the records after it.
    pub fn tell(self, answer: &mut String, front: &str) -> Told {
        if !self.is_whole.get() {
            return Err(Stop::Memory);
        }
        let records = self.text.into_inner();
        both(answer, front, &records)
    }

    fn note<D: Display, K: Source, S: Spans>(
        &self,
        record: &Record<'_, D, K, S>,
    ) -> Result<(), AllocError> {
        let (level, said) = (record.level(), record.args());
        let noted = format!(in self.alloc; " | {level}: {said}")?;
        match self.text.try_borrow_mut() {
            Ok(mut text) => text.push_str(&noted),
            Err(_) => Err(AllocError),
        }
    }
}

impl Log for Noted {
    fn enabled(&self, _metadata: &Metadata<'_>) -> bool {
        true
    }

    fn log<D: Display, K: Source, S: Spans>(&self, record: &Record<'_, D, K, S>) {
        if self.note(record).is_err() {
            self.is_whole.set(false);
        }
    }

    fn flush(&self) {}

    fn target(&self) -> &str {
        ""
    }
}
