//! The races of a file. Each begins with a line `race`. The other lines are calls: a line of a
//! script, an arrow and the reply, as `1 OpenSession 6 -> 0 1`.
//!
//! - `sessions 2`: at most two sessions are open at once; where this isn't said, 64.
//! - The calls before a line `cut` are made before the token is shared, and then its journal is
//!   cut.
//! - The first calls after it are made one after the other.
//! - The calls after `together` are made by callers in threads of their own. In the order in which
//!   they stand they get these replies. Where `together in any order` stands, the replies come in
//!   every order of the calls, to whichever callers.
//! - The calls after `afterwards` are made where these replies have come.
//!
//! A word of bytes may have an asterisk and a count: `61*5000` is 5,000 bytes `61`.
//!
//! Empty lines and lines that begin with `#` are skipped. A file has one race at least, and each
//! race has calls that are made together; without a line `together` these are all of them.
use crate::words::script_line;
use anyhow::{Context, bail, ensure};
use ck_script::{Line, LineError, reply_line};
use ck_token::{Call, Limits, MOST_CALLERS, NoMemory, Reply};
use std::alloc::Global;
use std::mem;

/// A call with the reply that it gets, as a text, and the number of its line.
#[derive(Drop)]
pub(crate) struct RaceLine<'a> {
    pub(crate) number: u64,
    pub(crate) caller: u32,
    pub(crate) call: Call,
    pub(crate) reply: &'a str,
}

/// Which calls of a race follow.
#[derive(Clone, Copy, PartialEq)]
enum Stage {
    First,
    Together,
    Afterwards,
}

/// The calls of callers, and the replies to them.
#[derive(Drop)]
pub(crate) struct Race<'a> {
    /// The number of its first line.
    pub(crate) number: u64,
    pub(crate) limits: Limits,
    /// The calls before the cut.
    pub(crate) earlier: Vec<RaceLine<'a>>,
    /// The first calls, and after them those that are made together.
    pub(crate) lines: Vec<RaceLine<'a>>,
    /// How many first calls there are.
    pub(crate) first: usize,
    pub(crate) is_in_any_order: bool,
    pub(crate) afterwards: Vec<RaceLine<'a>>,
    stage: Stage,
}

impl<'a> Race<'a> {
    ghost use Rattle.std.specs.Prelude.{◌≤◌};

    /// How many callers the race has: they are numbered from 1.
    pub(crate) fn callers(&self) -> u32
        ensures { (1 ≤ result) × (result ≤ 8) }
    {
        let mut most = 1;
        for line in &self.lines {
            most = line.caller.max(most);
        }
        most.clamp(1, MOST_CALLERS)
    }

    /// A race without calls.
    fn new(alloc: Global, number: u64) -> Race<'a> {
        Race {
            number,
            limits: Limits::largest(),
            earlier: Vec::new(alloc),
            lines: Vec::new(alloc),
            first: 0,
            is_in_any_order: false,
            afterwards: Vec::new(alloc),
            stage: Stage::First,
        }
    }

    /// Makes the calls so far those before the cut.
    fn cut(&mut self, alloc: Global) {
        self.earlier = mem::replace(&mut self.lines, Vec::new(alloc));
    }

    /// Begins the calls that are made together.
    fn gather(&mut self, is_in_any_order: bool) {
        self.first = self.lines.len();
        self.is_in_any_order = is_in_any_order;
        self.stage = Stage::Together;
    }

    /// Adds a call to those that are made afterwards, or to those before.
    fn add_call(&mut self, line: RaceLine<'a>) -> Result<(), NoMemory> {
        if self.stage == Stage::Afterwards {
            self.afterwards.push(line)?;
        } else {
            self.lines.push(line)?;
        }
        Ok(())
    }

    /// Whether some calls are made together.
    fn is_whole(&self) -> bool {
        self.first < self.lines.len()
    }

    /// Adds what a line says.
    fn add(&mut self, alloc: Global, number: u64, text: &'a str) -> anyhow::Result<()> {
        let is_first = self.stage == Stage::First;
        match text {
            "cut" if is_first && self.earlier.is_empty() => self.cut(alloc),
            "together" if is_first => self.gather(false),
            "together in any order" if is_first => self.gather(true),
            "afterwards" if self.stage != Stage::Afterwards && self.is_whole() => {
                self.stage = Stage::Afterwards;
            }
            "cut" | "together" | "together in any order" | "afterwards" => {
                bail!("line {number}: {text} can't stand here")
            }
            _ => match text.strip_prefix("sessions ") {
                Some(sessions) => self.limits = limits_of(number, sessions)?,
                None => self.add_call(line_in(alloc, number, text)?)?,
            },
        }
        Ok(())
    }
}

/// The largest limits with this many sessions.
fn limits_of(number: u64, sessions: &str) -> anyhow::Result<Limits> {
    let largest = Limits::largest();
    let sessions = sessions.parse().unwrap_or(0u64);
    Limits::of(
        sessions,
        largest.openings(),
        largest.creations(),
        largest.logins(),
    )
    .context(format_args!("line {number}: sessions are 1 to 64"))
}

/// Checks that the reply is that of the line.
pub(crate) fn check_reply(alloc: Global, line: &RaceLine, reply: &Reply) -> anyhow::Result<()> {
    let came = reply_line(alloc, reply)?;
    ensure!(
        came.as_str() == line.reply,
        "line {}: came {came}",
        line.number
    );
    Ok(())
}

/// The call of a line, with its reply.
pub(crate) fn line_in<'a>(
    alloc: Global,
    number: u64,
    text: &'a str,
) -> anyhow::Result<RaceLine<'a>> {
    let (text, reply) = text.split_once(" -> ").unwrap_or((text, ""));
    let line = script_line(alloc, text)?;
    match Line::parse(alloc, line.as_bytes()) {
        Ok(Line::Called { caller, call }) => Ok(RaceLine {
            number,
            caller,
            call,
            reply,
        }),
        Ok(Line::Skipped) => bail!("line {number} has no call"),
        Err(LineError::Memory) => Err(NoMemory.into()),
        Err(LineError::Bad(reason)) => bail!("line {number}: {reason}"),
    }
}

/// Adds what a line says to the races.
fn add_line<'a>(
    alloc: Global,
    number: u64,
    text: &'a str,
    races: &mut Vec<Race<'a>>,
) -> anyhow::Result<()> {
    if text == "race" {
        races.push(Race::new(alloc, number))?;
        return Ok(());
    }
    let race = races
        .last_mut()
        .context(format_args!("line {number} is of no race"))?;
    race.add(alloc, number, text)
}

/// Checks that there is a race, and that each has calls that are made together.
fn check_races(races: &[Race]) -> anyhow::Result<()> {
    ensure!(!races.is_empty(), "there is no race");
    for race in races {
        ensure!(
            race.is_whole(),
            "the race of line {} has no calls that are made together",
            race.number
        );
    }
    Ok(())
}

/// The races of a file.
pub(crate) fn races_in<'a>(alloc: Global, text: &'a str) -> anyhow::Result<Vec<Race<'a>>> {
    let mut races = Vec::new(alloc);
    let mut number = 0u64;
    for text in text.lines() {
        number = number.saturating_add(1);
        if !text.is_empty() && !text.starts_with('#') {
            add_line(alloc, number, text, &mut races)?;
        }
    }
    check_races(&races)?;
    Ok(races)
}
