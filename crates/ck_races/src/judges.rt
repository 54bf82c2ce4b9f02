//! What judges the runs is judged first: it must refuse what is wrong, or a run says nothing.
use crate::asks::check_status;
use crate::journals::{
    CallerReplies, check_entries, check_in_any_order, check_number, check_order, check_replies,
    check_token,
};
use crate::orders::CallOrder;
use crate::races::{Race, RaceLine, races_in};
use crate::runs::check_run;
use anyhow::{bail, ensure};
use ck_token::{Journal, Limits, Token};
use std::alloc::Global;

/// Calls of two callers, and the same calls with a wrong reply.
const RACES: &str = "\
race
1 InitToken 31323334 -> 0
2 OpenSession 6 -> 0 1
race
1 InitToken 31323334 -> 0
2 OpenSession 6 -> 0 2
";

/// Makes the calls of two callers, and gives the reply to each as one to the other.
fn make_exchanged(
    alloc: Global,
    token: &mut Token,
    lines: &[RaceLine],
) -> anyhow::Result<Vec<CallerReplies>> {
    let mut all = Vec::new(alloc);
    for line in lines {
        let reply = token.call(alloc, line.caller, line.call.clone()?)?;
        let replies = vec![in alloc; reply]?;
        let number = if line.caller == 1 { 2 } else { 1 };
        all.push(CallerReplies { number, replies })?;
    }
    Ok(all)
}

/// How many wrong inputs were refused.
#[derive(Drop)]
struct Refusals {
    count: u64,
}

impl Refusals {
    /// Counts a wrong input, of which this was said.
    fn add(&mut self, said: anyhow::Result<()>) -> anyhow::Result<()> {
        ensure!(said.is_err(), "what is wrong isn't refused");
        self.count = self.count.saturating_add(1);
        Ok(())
    }

    /// A status that isn't there, and a number at another place.
    fn add_answers(&mut self, alloc: Global) -> anyhow::Result<()> {
        self.add(check_status(alloc, &None, "0"))?;
        self.add(check_number(0, 2))
    }

    /// A run whose callers got the replies of each other.
    fn add_run(&mut self, alloc: Global, token: &mut Token, race: &Race) -> anyhow::Result<()> {
        let exchanged = make_exchanged(alloc, token, &race.lines)?;
        let order = CallOrder::new(&[1, 2]);
        let run = check_run(alloc, token, race, &order, exchanged);
        self.add(run.map(|_calls| ()))
    }

    /// Replies that aren't those of the callers' entries, and too few.
    fn add_replies(&mut self, alloc: Global, token: &mut Token, race: &Race) -> anyhow::Result<()> {
        let exchanged = make_exchanged(alloc, token, &race.lines)?;
        self.add(check_replies(token.journal(), exchanged))?;
        let none = CallerReplies {
            number: 1,
            replies: Vec::new(alloc),
        };
        self.add(check_replies(token.journal(), vec![in alloc; none]?))
    }

    /// Entries in another order, others than those of the lines, and more than there are lines.
    fn add_entries(
        &mut self,
        alloc: Global,
        journal: &Journal,
        lines: &[RaceLine],
        wrong: &[RaceLine],
    ) -> anyhow::Result<()> {
        self.add(check_order(journal, lines, &[2, 1]))?;
        self.add(check_order(journal, &[], &[1, 2]))?;
        self.add(check_entries(alloc, wrong, journal))?;
        self.add(check_entries(alloc, &[], journal))?;
        self.add(check_in_any_order(alloc, wrong, journal))
    }
}

/// Checks that all wrong inputs are refused. Says how many there are.
pub(crate) fn check_judges(alloc: Global) -> anyhow::Result<u64> {
    let races = races_in(alloc, RACES)?;
    let [race, wrong] = races.as_slice() else {
        bail!("there are not two races");
    };
    let mut refusals = Refusals { count: 0 };
    refusals.add_answers(alloc)?;
    refusals.add_run(alloc, &mut Token::new(alloc, Limits::largest()), race)?;
    let mut token = Token::new(alloc, Limits::largest());
    refusals.add_replies(alloc, &mut token, race)?;
    refusals.add_entries(alloc, token.journal(), &race.lines, &wrong.lines)?;
    // A reply in the right order that isn't that of its line.
    refusals.add(check_token(alloc, &mut token, wrong, &[1, 2]))?;
    Ok(refusals.count)
}
