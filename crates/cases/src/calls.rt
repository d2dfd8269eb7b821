//! Calls of the two programs.
use crate::bytes::{number, parted};
use crate::stage::Stage;
use crate::stop::Stop;
use std::alloc::{AllocError, Global};

/// Calls the program txflash with words, and returns whether it ends with the status before them.
pub fn call(text: &str, stage: &mut Stage) -> Result<bool, Stop> {
    let (wanted, words) = parted(text)?;
    let words = words_of(stage.alloc, words)?;
    let status = command_line::top(stage.alloc, &words, &mut stage.desk);
    end(wanted, status, stage)
}

/// Calls the program flash_view with words, and returns whether it ends with the status before them.
pub fn view(text: &str, stage: &mut Stage) -> Result<bool, Stop> {
    let (wanted, words) = parted(text)?;
    let words = words_of(stage.alloc, words)?;
    let status = view_command_line::top(stage.alloc, &words, &mut stage.desk);
    end(wanted, status, stage)
}

/// Keeps how a call ended, and returns whether it is the status that is wanted.
fn end(wanted: &str, status: u8, stage: &mut Stage) -> Result<bool, Stop> {
    stage.begin = stage.heard;
    stage.status = status;
    Ok(number(wanted)? == usize::from(status))
}

/// The words of a text, of which `''` is the word without a byte.
fn words_of(alloc: Global, text: &str) -> Result<Vec<String>, AllocError> {
    let mut words = Vec::new(alloc);
    add_words(alloc, text, &mut words)?;
    Ok(words)
}

/// Adds them.
fn add_words(alloc: Global, text: &str, words: &mut Vec<String>) -> Result<(), AllocError> {
    for word in text.split(' ') {
        match word {
            "" => {}
            "''" => words.push(String::new(alloc))?,
            _ => words.push(String::from_str(alloc, word)?)?,
        }
    }
    Ok(())
}
