//! Answers as JSON.

use crate::runs::ToldRun;
use nq_bend::{Bent, LeftOut, Why};
use serde_json::{Map, Value};
use std::alloc::{AllocError, Global};

/// An object that is being made.
#[derive(Drop)]
pub(crate) struct Made {
    alloc: Global,
    map: Map<String, Value>,
}

impl Made {
    /// No member.
    pub(crate) fn new(alloc: Global) -> Made {
        Made {
            alloc,
            map: Map::new(alloc),
        }
    }

    /// Adds a number.
    pub(crate) fn number(&mut self, name: &str, number: u64) -> Result<(), AllocError> {
        self.value(name, Value::from(number))
    }

    /// Adds a text; an empty one where the bytes are no UTF-8.
    pub(crate) fn text(&mut self, name: &str, bytes: Vec<u8>) -> Result<(), AllocError> {
        let text = match String::from_utf8(bytes) {
            Ok(text) => text,
            Err(_) => String::new(self.alloc),
        };
        self.value(name, Value::String(text))
    }

    /// Adds a value.
    pub(crate) fn value(&mut self, name: &str, value: Value) -> Result<(), AllocError> {
        serde_json::put(&mut self.map, self.alloc, name, value)
    }

    /// Adds what is told of a run.
    pub(crate) fn run(&mut self, run: ToldRun) -> Result<(), AllocError> {
        let ToldRun {
            status,
            printed,
            verdict,
            told,
        } = run;
        self.number("status", status as u64)?;
        self.text("printed", printed)?;
        self.text("verdict", verdict)?;
        self.text("told", told)
    }

    /// Adds how a schedule was bent.
    pub(crate) fn bent(&mut self, bent: Bent) -> Result<(), AllocError> {
        self.origins(&bent)?;
        self.text("schedule", bent.text)
    }

    /// Adds where the events of a bent schedule come from, and which were left out.
    fn origins(&mut self, bent: &Bent) -> Result<(), AllocError> {
        let origin = origins_of(self.alloc, &bent.origins)?;
        self.value("origin", origin)?;
        let left = left_of(self.alloc, &bent.left)?;
        self.value("left_out", left)
    }

    /// Adds that no schedule was bent.
    pub(crate) fn unbent(&mut self) -> Result<(), AllocError> {
        let alloc = self.alloc;
        self.value("origin", Value::Array(Vec::new(alloc)))?;
        self.value("left_out", Value::Array(Vec::new(alloc)))?;
        self.text("schedule", Vec::new(alloc))
    }

    /// It as a value.
    fn into_value(self) -> Value {
        let Made { map, .. } = self;
        Value::Object(map)
    }

    /// Its bytes.
    pub(crate) fn into_bytes(self) -> Result<Vec<u8>, AllocError> {
        let alloc = self.alloc;
        self.into_value().to_vec(alloc)
    }
}

/// The places in the old run of events; -1 for one that was not there.
fn origins_of(alloc: Global, origins: &[Option<usize>]) -> Result<Value, AllocError> {
    let mut places = Vec::new(alloc);
    for origin in origins {
        let place = match origin {
            Some(place) => Value::from(*place),
            None => Value::from(-1i64),
        };
        places.push(place)?;
    }
    Ok(Value::Array(places))
}

/// The events that were left out.
fn left_of(alloc: Global, left: &[LeftOut]) -> Result<Value, AllocError> {
    let mut events = Vec::new(alloc);
    for out in left {
        let packet = out.packet;
        let line = format!(in alloc; "deliver {packet}")?;
        let mut made = Made::new(alloc);
        made.number("event", out.event as u64)?;
        made.value("line", Value::String(line))?;
        made.text("why", word_of(out.why).as_bytes().to_vec(alloc)?)?;
        events.push(made.into_value())?;
    }
    Ok(Value::Array(events))
}

/// Why an event is left out, in a word.
fn word_of(why: Why) -> &'static str {
    match why {
        Why::Lost => "lost",
        Why::Later => "later",
        Why::CutOff => "cut off",
        Why::NoMatch => "no match",
    }
}
