//! A script that is cut after each of its bytes. What is left of a line may be another call.
use crate::tests::devices::{Devices, End, check_play};
use std::alloc::Global;
use std::process::Abort;
use std::test::Fail;

/// A line, and the reply to its call.
type CallAndReply = (&'static str, &'static str);

const LINES: [CallAndReply; 8] = [
    ("1 InitToken 31323334", "0"),
    ("1 OpenSession 6", "0 1"),
    ("1 CreateObject 1 0=0000000000000000,3=6162", "0 1"),
    ("1 GetAttributeValue 1 1 3:8,11:?", "0 =6162,:0"),
    ("1 DestroyObject 1 1", "0"),
    ("1 GetAttributeValue 1 1 3:8", "82"),
    ("1 CloseSession 1", "0"),
    ("1 CloseSession 1", "b3"),
];

/// Beginnings of the lines that are calls too. The first of the queries stands before the object is
/// destroyed.
const BEGINNINGS: [CallAndReply; 13] = [
    ("1 InitToken 31", "a2"),
    ("1 InitToken 3132", "a2"),
    ("1 InitToken 313233", "a2"),
    ("1 CreateObject 1 0=00", "13"),
    ("1 CreateObject 1 0=0000", "13"),
    ("1 CreateObject 1 0=000000", "13"),
    ("1 CreateObject 1 0=00000000", "13"),
    ("1 CreateObject 1 0=0000000000", "13"),
    ("1 CreateObject 1 0=000000000000", "13"),
    ("1 CreateObject 1 0=00000000000000", "13"),
    ("1 CreateObject 1 0=0000000000000000", "0 1"),
    ("1 CreateObject 1 0=0000000000000000,3=61", "0 1"),
    ("1 GetAttributeValue 1 1 3:8", "0 =6162"),
];

/// The reply to what is left of a line, where that is a call.
fn reply_to(beginning: &[u8]) -> Option<&'static str> {
    BEGINNINGS
        .iter()
        .find(|(text, _)| text.as_bytes() == beginning)
        .map(|(_, reply)| *reply)
}

/// The first `index` lines, and the replies to them.
fn lines_before(alloc: Global, index: usize) -> Result<(String, String), Fail> {
    let (mut script, mut replies) = (String::new(alloc), String::new(alloc));
    for (line, reply) in LINES.iter().take(index) {
        write!(script, "{line}\n")?;
        write!(replies, "{reply}\n")?;
    }
    Ok((script, replies))
}

/// The line of this index is cut, also where nothing or all of it is left.
fn check_cuts(rt: &impl Abort, alloc: Global, index: usize) -> Result<(), Fail> {
    let (line, reply) = LINES.get(index).copied().ok_or("there is no such line")?;
    let line = line.as_bytes();
    for count in 0..=line.len() {
        let (before, mut replies) = lines_before(alloc, index)?;
        let left = line.split_at(count.min(line.len())).0;
        let mut script = Vec::from_slice(alloc, before.as_bytes())?;
        script.extend_from_slice(left)?;
        let came = if count == line.len() {
            Some(reply)
        } else {
            reply_to(left)
        };
        let end = if came.is_some() || left.is_empty() {
            End::Played
        } else {
            End::Line((index as u64).saturating_add(1))
        };
        if let Some(came) = came {
            write!(replies, "{came}\n")?;
        }
        check_play(rt, alloc, &script, Devices::of(9), replies.as_bytes(), end);
    }
    Ok(())
}

#[test]
fn a_script_may_be_cut_at_every_byte(rt: HostRuntime) -> Result<(), Fail> {
    for index in 0..LINES.len() {
        check_cuts(&rt, rt.alloc(), index)?;
    }
    Ok(())
}
