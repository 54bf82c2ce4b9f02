//! The calls of a script that is read whole, each of one of the callers.
ghost use Rattle.std.specs.Prelude.{◌≡◌, ◌++◌, ◌⊎◌, false, [], ◌∷◌, Some, IfOk, OnOk, IfErr};
ghost use Rattle.ck_script.specs.declared.line_errors.BadLine.TheVariants as bad_line;
ghost use Rattle.ck_script.specs.Lines.{lines_in, meaning};
ghost use Rattle.ck_plays.specs.declared.faults.PlayFault.TheVariants as play_fault;
ghost use Rattle.ck_plays.specs.Devices.{Reading};
ghost use Rattle.ck_plays.specs.Plays.{with_call};
ghost use Rattle.ck_plays.specs.CallerScripts.{is_bad_for, AreCallsOf, IsRefusedFor, IsRefusedLine};
ghost use Rattle.ck_plays.specs.CallerScripts.{HasGoodScript, HasNoCalls};

use crate::devices::Source;
use crate::faults::PlayFault;
use crate::readings::read_script;
use ck_journal::Call;
use ck_script::{BadLine, Line, LineError, cut_line};
use std::alloc::Global;

/// Adds the call of the line of this number, where its caller is one of 1 to `callers`.
fn add_call(
    calls: &mut Vec<(u32, Call)>,
    caller: u32,
    call: Call,
    number: u64,
    callers: u32,
) -> Result<(), PlayFault>
    ensures good { OnOk result (is_bad_for callers (Some (Line.Called caller call)) ≡ false) }
    ensures added { OnOk result (calls.new.items ≡ calls.old.items ++ (caller, call) ∷ []) }
    ensures err { IfErr result (IsRefusedLine callers (Some (Line.Called caller call)) number) }
    ensures reason { IfErr result (λ fault. (fault ≡ play_fault.Memory)
        ⊎ (fault ≡ play_fault.Line number (bad_line.CallerAbove callers))) }
{
    if !(1..=callers).contains(&caller) {
        return Err(PlayFault::Line(number, BadLine::CallerAbove(callers)));
    }
    calls.push((caller, call))?;
    Ok(())
}

/// Adds the call of a line of this number, if it has one.
fn add_line(
    calls: &mut Vec<(u32, Call)>,
    alloc: Global,
    line: &[u8],
    number: u64,
    callers: u32,
) -> Result<(), PlayFault>
    ensures good { OnOk result (is_bad_for callers (meaning line.now) ≡ false) }
    ensures added { OnOk result (calls.new.items
        ≡ calls.old.items ++ with_call (meaning line.now) []) }
    ensures err { IfErr result (IsRefusedLine callers (meaning line.now) number) }
{
    match Line::parse(alloc, line) {
        Ok(Line::Skipped) => Ok(()),
        Ok(Line::Called { caller, call }) => add_call(calls, caller, call, number, callers),
        Err(LineError::Bad(reason)) => Err(PlayFault::Line(number, reason)),
        Err(LineError::Memory) => Err(PlayFault::Memory),
    }
}

/// The calls of a script's lines, each with its caller, which is one of 1 to `callers`.
fn calls_of(alloc: Global, script: &[u8], callers: u32) -> Result<Vec<(u32, Call)>, PlayFault>
    ensures ok { IfOk result (λ calls. AreCallsOf callers (lines_in script.now) calls.items) }
    ensures err { IfErr result (IsRefusedFor callers (lines_in script.now)) }
{
    let mut calls = Vec::new(alloc);
    let mut rest = script;
    let mut number = 1u64;
    // The label is the loop's name in the proofs.
    'lines: while let Some((line, more)) = cut_line(rest) {
        add_line(&mut calls, alloc, line, number, callers)?;
        number = number.saturating_add(1);
        rest = more;
    }
    add_line(&mut calls, alloc, rest, number, callers)?;
    Ok(calls)
}

/// Reads a script whole, in at most `most` reads, and gives the calls of its lines, each with its
/// caller, which is one of 1 to `callers`.
pub fn read_calls<R: Source>(
    alloc: Global,
    reader: &mut R,
    callers: u32,
    most: u64,
) -> Result<Vec<(u32, Call)>, PlayFault>
    ensures ok { IfOk result (λ calls. (read : Reading) → R.is_read reader.old read
        → HasGoodScript callers most read (R.is_read reader.new) calls.items) }
    ensures err { IfErr result (λ fault. (read : Reading) → R.is_read reader.old read
        → HasNoCalls callers most read (R.is_read reader.new) fault) }
{
    let script = read_script(alloc, reader, most)?;
    calls_of(alloc, &script, callers)
}
