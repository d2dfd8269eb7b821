//! Cases are tried one after the other, and a line of each after the other.
use crate::bytes::number;
use crate::kinds::holds;
use crate::report::Report;
use crate::stage::Stage;
use crate::stop::Stop;
use std::alloc::{AllocError, Global};

/// Tries the cases of a text.
pub fn try_cases(alloc: Global, text: &str, report: &mut Report) -> Result<(), Stop> {
    let mut before = 0;
    for paragraph in text.split("\n\n") {
        report.line = before;
        try_paragraph(alloc, paragraph, report)?;
        before = report.line.saturating_add(1);
    }
    Ok(())
}

/// Tries the case of a paragraph, once with each number of its second line if that has some.
fn try_paragraph(alloc: Global, paragraph: &str, report: &mut Report) -> Result<(), Stop> {
    let before = report.line;
    report.line = before.saturating_add(2);
    let (first, last) = range_of(paragraph)?;
    for number in first..=last {
        report.line = before;
        try_case(
            alloc,
            with_number(alloc, paragraph, number)?.as_str(),
            report,
        )?;
    }
    Ok(())
}

/// The first and the last number of a paragraph's line `each`. Without such a line both are 0.
fn range_of(paragraph: &str) -> Result<(usize, usize), Stop> {
    let second = paragraph.split('\n').nth(1).unwrap_or("");
    match second.strip_prefix("each ") {
        Some(numbers) => {
            let (first, last) = numbers.split_once(' ').ok_or(Stop::BadLine)?;
            Ok((number(first)?, number(last)?))
        }
        None => Ok((0, 0)),
    }
}

/// A paragraph with a number in the place of each `@`.
fn with_number(alloc: Global, paragraph: &str, number: usize) -> Result<String, AllocError> {
    let digits = format!(in alloc; "{number}")?;
    let mut text = String::new(alloc);
    add_parts(paragraph, digits.as_str(), &mut text)?;
    Ok(text)
}

/// Adds the parts of a paragraph with digits between each two.
fn add_parts(paragraph: &str, digits: &str, text: &mut String) -> Result<(), AllocError> {
    let mut parts = paragraph.split('@');
    text.push_str(parts.next().unwrap_or(""))?;
    for part in parts {
        text.push_str(digits)?;
        text.push_str(part)?;
    }
    Ok(())
}

/// Tries a case on a desk of its own.
fn try_case(alloc: Global, text: &str, report: &mut Report) -> Result<(), Stop> {
    let mut stage = Stage::new(alloc);
    let tried = try_lines(text, &mut stage, report);
    drop(stage);
    tried
}

/// Does what the lines of a case say, and reports each that is not so.
fn try_lines<'a>(text: &'a str, stage: &mut Stage<'a>, report: &mut Report) -> Result<(), Stop> {
    for line in text.split('\n') {
        report.line = report.line.saturating_add(1);
        try_line(line, stage, report)?;
    }
    end_answer(stage, report)
}

/// Does what a line says, and reports it if it is not so.
fn try_line<'a>(line: &'a str, stage: &mut Stage<'a>, report: &mut Report) -> Result<(), Stop> {
    if line.starts_with("case ") {
        report.cases = report.cases.saturating_add(1);
    }
    if !line.starts_with('<') {
        end_answer(stage, report)?;
    }
    if !holds(line, stage)? {
        report.add(line, stage)?;
    }
    Ok(())
}

/// Reports it if the lines on the last call have not told all that it said.
fn end_answer(stage: &mut Stage, report: &mut Report) -> Result<(), Stop> {
    let count = stage.unheard().len();
    if count > 0 {
        report.add("no more is said", stage)?;
        stage.hear(count);
    }
    Ok(())
}
