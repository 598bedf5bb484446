//! Files of cases.

use nz_base::NoMemory;
use std::alloc::Global;

/// An input, and what it is called.
#[derive(Drop)]
pub struct Case {
    pub name: String,
    pub input: String,
}

/// The count and the text after a sign: `=3 get a` has the count 3 and the text `get a`.
fn repeated<'a>(line: &'a str, sign: &str) -> Option<(u32, &'a str)> {
    let (numeral, text) = line.strip_prefix(sign)?.split_once(' ')?;
    Some((numeral.parse().unwrap_or(0), text))
}

/// Adds the text so often, each time with the end.
fn add_times(input: &mut String, count: u32, text: &str, end: &str) -> Result<(), NoMemory> {
    for _ in 0..count {
        input.push_str(text)?;
        input.push_str(end)?;
    }
    Ok(())
}

/// Adds what a line of a file stands for: `=3 get a` for three lines `get a`, and `+3 x` for one line `xxx`.
fn add_lines(input: &mut String, line: &str) -> Result<(), NoMemory> {
    if let Some((count, text)) = repeated(line, "=") {
        return add_times(input, count, text, "\n");
    }
    let (count, text) = repeated(line, "+").unwrap_or((1, line));
    add_times(input, count, text, "")?;
    Ok(input.push('\n')?)
}

/// The cases of a file, each after a line `== NAME`.
pub fn cases_of(alloc: Global, text: &str) -> Result<Vec<Case>, NoMemory> {
    let mut cases: Vec<Case> = Vec::new(alloc);
    for line in text.lines() {
        if let Some(name) = line.strip_prefix("== ") {
            let name = String::from_str(alloc, name)?;
            cases.push(Case {
                name,
                input: String::new(alloc),
            })?;
        } else if let Some(case) = cases.last_mut() {
            add_lines(&mut case.input, line)?;
        }
    }
    Ok(cases)
}
