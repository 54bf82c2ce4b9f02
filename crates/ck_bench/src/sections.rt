//! A script in sections. A line `#measure NAME` begins one; the calls before the first line of this
//! kind prepare the token. The callers of lines are passed over.
use anyhow::bail;
use ck_script::{Line, LineError};
use ck_token::{Call, NoMemory};
use std::alloc::Global;

/// Calls that are measured together.
#[derive(Drop)]
pub(crate) struct Section<'a> {
    pub(crate) name: &'a str,
    pub(crate) calls: Vec<Call>,
}

/// Begins a section.
fn begin<'a>(
    alloc: Global,
    sections: &mut Vec<Section<'a>>,
    name: &'a str,
) -> Result<(), NoMemory> {
    let calls = Vec::new(alloc);
    sections.push(Section { name, calls })?;
    Ok(())
}

/// Adds a call to the newest section.
fn add_call(sections: &mut [Section], call: Call) -> Result<(), NoMemory> {
    if let Some(section) = sections.last_mut() {
        section.calls.push(call)?;
    }
    Ok(())
}

/// Adds what a line says to the sections.
fn add_line<'a>(
    alloc: Global,
    sections: &mut Vec<Section<'a>>,
    number: u64,
    text: &'a str,
) -> anyhow::Result<()> {
    if let Some(name) = text.strip_prefix("#measure ") {
        return Ok(begin(alloc, sections, name)?);
    }
    match Line::parse(alloc, text.as_bytes()) {
        Ok(Line::Skipped) => Ok(()),
        Ok(Line::Called { call, .. }) => Ok(add_call(sections, call)?),
        Err(LineError::Memory) => Err(NoMemory.into()),
        Err(LineError::Bad(reason)) => bail!("line {number}: {reason}"),
    }
}

/// The sections of a script.
pub(crate) fn sections_in<'a>(alloc: Global, text: &'a str) -> anyhow::Result<Vec<Section<'a>>> {
    let mut sections = Vec::new(alloc);
    let mut number = 0u64;
    begin(alloc, &mut sections, "first calls")?;
    for line in text.lines() {
        number = number.saturating_add(1);
        add_line(alloc, &mut sections, number, line)?;
    }
    Ok(sections)
}
