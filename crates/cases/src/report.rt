use crate::stage::Stage;
use std::alloc::{AllocError, Global};

/// How many cases were tried, and what differs in them.
#[derive(Drop)]
pub struct Report {
    alloc: Global,
    /// The number of the line at hand, from 1.
    pub line: usize,
    pub cases: usize,
    /// The lines on what differs.
    pub text: String,
}

impl Report {
    /// Nothing was tried.
    pub fn new(alloc: Global) -> Report {
        Report {
            alloc,
            line: 0,
            cases: 0,
            text: String::new(alloc),
        }
    }

    /// Adds that the line at hand is not so, with the status of the last call and what that said.
    pub fn add(&mut self, line: &str, stage: &Stage) -> Result<(), AllocError> {
        let said = str::from_utf8(stage.answer()).unwrap_or("");
        let text = format!(in self.alloc;
            "line {} is not so: {line}\nIn '{}' the status is {}, and this is said:\n{said}\n",
            self.line, stage.title, stage.status
        )?;
        self.text.push_str(text.as_str())
    }
}
