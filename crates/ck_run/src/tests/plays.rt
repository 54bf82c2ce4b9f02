//! Scripts, the replies to them, and how playing ends.
use crate::tests::devices::{Devices, End, check_script};
use ck_plays::{PlayFault, play_with};
use ck_script::{BadLine, LONGEST_LINE};
use ck_token::{Limits, Token};
use std::alloc::Global;
use std::process::Abort;
use std::test::Fail;

/// How many reads of 65,536 bytes give a longest line.
const LONGEST_LINE_READS: u64 = 64;

/// A script, the replies to it, and how playing ends.
type ScriptRow = (&'static str, &'static str, End);

#[rattlefmt::skip]
const PLAYS: [ScriptRow; 27] = [
    ("# x", "", End::Played),
    ("", "", End::Played),
    ("\n\n# x\n", "", End::Played),
    ("\n\n# x\nNope", "", End::Line(4)),
    ("\nNope\n# x\nNope\n", "", End::Line(2)),
    ("1 InitToken 31323334", "0\n", End::Played),
    ("1 InitToken 31323334\n", "0\n", End::Played),
    ("1 InitToken 31323334\n\n# x\n1 Nope", "0\n", End::Line(4)),
    ("1 InitToken 31323334\n\n# x\n1 Nope\n1 InitToken 31\n", "0\n", End::Line(4)),
    ("1 InitTok", "", End::Line(1)),
    ("1 InitToken ", "", End::Line(1)),
    ("1 InitToken 31", "a2\n", End::Played),
    ("1 InitToken 313", "", End::Line(1)),
    ("1 InitToken 31\n2 InitToken 31323334\n", "a2\n0\n", End::Played),
    ("1 InitToken 31323334\n1 OpenSession 6\n1 CreateObject 1 0=00", "0\n0 1\n13\n", End::Played),
    ("1 InitToken 31323334\n1 OpenSession 6\n1 CreateObject 1 3=61", "0\n0 1\nd0\n", End::Played),
    ("1 InitToken 31323334\n1 OpenSession 6\n1 CreateObject 1 3=6", "0\n0 1\n", End::Line(3)),
    ("1 OpenSession E", "", End::Line(1)),
    ("1 OpenSession 06", "", End::Line(1)),
    ("1  OpenSession 6", "", End::Line(1)),
    ("1 OpenSession 6 ", "", End::Line(1)),
    ("1 OpenSession 6\r", "", End::Line(1)),
    ("9 OpenSession 6", "", End::Line(1)),
    ("1 CloseSession 18446744073709551616", "", End::Line(1)),
    ("1 CreateObject 1 0=", "", End::Line(1)),
    ("1 CreateObject 1 3=61,", "", End::Line(1)),
    ("1 InitToken 3", "", End::Line(1)),
];

fn check_plays(rt: &impl Abort, alloc: Global, plays: &[ScriptRow], devices: Devices) {
    for play in plays {
        check_script(rt, alloc, devices, *play);
    }
}

#[test]
fn scripts_are_played(rt: HostRuntime) {
    for most_bytes in [1, 3, 1_000] {
        check_plays(&rt, rt.alloc(), &PLAYS, Devices::of(most_bytes));
    }
}

/// How many bytes `a` a message has, which comes in one piece, and the replies. A million bytes
/// give the digest of FIPS 180-2, appendix B.3. The next message has the most bytes that a piece
/// may have, and the last one has a byte more and is refused.
const MESSAGES: [(usize, &str); 3] = [
    (
        1_000_000,
        "0\n0 1\n0\n0\n0 cdc76e5c9914fb9281a1c7e284d73e67f1809a48a497200e046d39ccc7112cd0\n",
    ),
    (
        0x10_0000,
        "0\n0 1\n0\n0\n0 9bc1b2a288b26af7257a36277ae3816a7d4f16e89c1e7e77d0a5c48bad62b360\n",
    ),
    (0x10_0001, "0\n0 1\n0\n21\n91\n"),
];

/// A script that digests a message of `count` bytes `a`, which is one piece.
fn digest_script(alloc: Global, count: usize) -> Result<String, Fail> {
    let piece = "61".repeat(alloc, count)?;
    Ok(format!(in alloc;
        "1 InitToken 31323334\n1 OpenSession 6\n1 DigestInit 1 250\n\
        1 DigestUpdate 1 {piece}\n1 DigestFinal 1 32"
    )?)
}

fn check_messages(rt: &impl Abort, alloc: Global, rows: &[(usize, &str)]) -> Result<(), Fail> {
    for (count, replies) in rows {
        let script = digest_script(alloc, *count)?;
        let devices = Devices::of(LONGEST_LINE);
        check_script(rt, alloc, devices, (script.as_str(), replies, End::Played));
    }
    Ok(())
}

#[test]
fn long_messages(rt: HostRuntime) -> Result<(), Fail> {
    check_messages(&rt, rt.alloc(), &MESSAGES)
}

#[test]
fn reads_no_further_than_a_line_may_go(rt: HostRuntime) -> Result<(), Fail> {
    let script = vec![in rt.alloc(); b'#'; 2 * LONGEST_LINE]?;
    let devices = Devices::of(LONGEST_LINE);
    let mut reader = devices.reader(&script);
    let mut writer = devices.writer(rt.alloc());
    let limits = Limits::largest();
    let result = play_with::<Token, _, _>(
        rt.alloc(),
        limits,
        &mut reader,
        &mut writer,
        devices.most_reads,
    );
    assert!(rt; matches!(result, Err(PlayFault::Line(1, BadLine::TooLong))));
    assert_eq!(rt; reader.reads(), LONGEST_LINE_READS + 1);
    Ok(())
}
