//! Which case files are read, and which of their cases are run.

use crate::cases::Case;
use crate::reading::read_cases;
use anyhow::{Result, bail};
use std::{env, fs};

/// What the words of the command line choose: the case files, or none for all in the folder, and a text
/// that the name of each case holds.
#[derive(Drop)]
pub struct Choice {
    /// The names of the case files.
    pub files: Vec<String>,
    /// The text.
    pub only: String,
}

/// The choice of the command line: names of files, and `--only` with a text.
pub fn choice_of(rt: &HostRuntime) -> Result<Choice> {
    let mut files = Vec::new(rt.alloc());
    let mut only = String::new(rt.alloc());
    let mut is_text = false;
    for word in env::args(rt)?.skip(1) {
        if is_text {
            only = word;
            is_text = false;
        } else if word.as_str() == "--only" {
            is_text = true;
        } else {
            files.push(word)?;
        }
    }
    if files.is_empty() {
        files = files_here(rt)?;
    }
    Ok(Choice { files, only })
}

/// The names of the case files in the working folder, sorted.
fn files_here(rt: &HostRuntime) -> Result<Vec<String>> {
    let mut names = Vec::new(rt.alloc());
    for entry in fs::read_dir(rt, ".")? {
        let entry = entry?;
        if entry.file_name().ends_with(".cases") {
            names.push(String::from_str(rt.alloc(), entry.file_name())?)?;
        }
    }
    names.sort()?;
    Ok(names)
}

/// The cases that are chosen, of all files in order.
pub fn chosen_cases(rt: &HostRuntime, choice: &Choice) -> Result<Vec<Case>> {
    let mut cases = Vec::new(rt.alloc());
    for name in &choice.files {
        cases.append(&mut cases_in(rt, name.as_str())?)?;
    }
    cases.retain(|case| case.name.as_str().contains(choice.only.as_str()));
    Ok(cases)
}

/// The cases of a file.
fn cases_in(rt: &HostRuntime, name: &str) -> Result<Vec<Case>> {
    let bytes = match fs::read(rt, name) {
        Ok(bytes) => bytes,
        Err(error) => bail!("{name}: {error}"),
    };
    match read_cases(rt.alloc(), bytes.as_slice()) {
        Ok(cases) => Ok(cases),
        Err(at) => bail!("{name}:{}: {}", at.line, at.fault.words()),
    }
}
