//! The program over devices that move single bytes: what it writes, and its status.
use crate::tests::devices::Devices;
use ck_plays::{MemorySink, PlayFault};
use ck_program::{Callers, Options, ProgramFault, Runtime, options_of, play_threads, run};
use ck_token::{Limits, Token};
use std::alloc::Global;
use std::process::Abort;
use std::test::Fail;

/// The arguments of the program, a script, what the program writes, and its status.
type ProgramRow = (&'static str, &'static str, &'static str, u8);

/// The same, and after the script the read and the write that fail.
type FailingPlay = (
    &'static str,
    &'static str,
    Option<u64>,
    Option<u64>,
    &'static str,
    u8,
);

/// A script of two callers.
const SCRIPT: &str = "1 InitToken 31323334\n1 OpenSession 6\n2 CloseSession 7\n";

/// A script whose session is closed twice, the last two lines by a second caller.
const CLOSED_TWICE: &str = "\
1 InitToken 31323334
1 OpenSession 6
1 CreateObject 1 0=0000000000000000,3=6162
1 GetAttributeValue 1 1 3:8,11:?
1 DestroyObject 1 1
1 GetAttributeValue 1 1 3:8
2 CloseSession 1
2 CloseSession 1
";

/// How the program is used.
const HELP: &str = "\
Plays a script of PKCS #11 calls, read from standard input, on a new token

Usage: ck_run [OPTIONS]

Options:
      --callers <N>  Play each caller's lines in a thread of its own; N is 1 to 8
  -h, --help         Print help
";

#[rattlefmt::skip]
const PLAYS: [ProgramRow; 11] = [
    ("ck_run", "", "", 0),
    ("ck_run", "1 InitToken 31323334", "0\n", 0),
    ("ck_run", "1 InitToken 31\n1 Login", "a2\n", 1),
    ("ck_run --callers 1", SCRIPT, "", 1),
    ("ck_run --callers 2", SCRIPT, "entries 3\naudit ok\n", 0),
    ("ck_run --callers=2", SCRIPT, "entries 3\naudit ok\n", 0),
    ("ck_run --callers 2", CLOSED_TWICE, "entries 8\naudit ok\n", 0),
    ("ck_run --callers 2", "1 GetTokenInfo\n1 Nope\n", "", 1),
    ("ck_run --callers 2", "1 GetTokenInfo\n3 GetTokenInfo\n", "", 1),
    ("ck_run --callers 8", "", "entries 0\naudit ok\n", 0),
    ("ck_run --help", "", HELP, 0),
];

/// In the first row the program ends before the read that fails.
#[rattlefmt::skip]
const FAILING: [FailingPlay; 8] = [
    ("ck_run", "Nope\n", Some(6), None, "", 1),
    ("ck_run", "Nope\n", Some(5), None, "", 3),
    ("ck_run", "Nope", Some(5), None, "", 3),
    ("ck_run", "1 InitToken 31\n", Some(16), None, "a2\n", 3),
    ("ck_run", "1 InitToken 31\n", None, Some(2), "a", 3),
    ("ck_run --callers 2", SCRIPT, Some(5), None, "", 3),
    ("ck_run --callers 2", SCRIPT, None, Some(2), "e", 3),
    ("ck_run --help", "", None, Some(1), "", 3),
];

/// Arguments with which nothing is read or written.
const BAD_ARGUMENTS: [&str; 9] = [
    "ck_run x",
    "ck_run --callers",
    "ck_run --callers 0",
    "ck_run --callers 9",
    "ck_run --callers 02",
    "ck_run --callers +2",
    "ck_run --callers x",
    "ck_run --callers 2 x",
    "ck_run --callers 2 --callers 2",
];

fn arguments_of(alloc: Global, text: &str) -> Result<Vec<String>, Fail> {
    let mut arguments = Vec::new(alloc);
    for word in text.split_whitespace() {
        arguments.push(String::from_str(alloc, word)?)?;
    }
    Ok(arguments)
}

/// The status of the program.
fn status_of<RT: Eprint + Runtime>(
    rt: RT,
    alloc: Global,
    arguments: &[String],
    script: &str,
    devices: Devices,
    writer: &mut MemorySink,
) -> u8 {
    let mut reader = devices.reader(script.as_bytes());
    run::<Token, _, _, _>(rt, alloc, options_of(alloc, arguments), &mut reader, writer)
}

fn check_play<RT: Abort + Eprint + Runtime>(
    rt: RT,
    alloc: Global,
    play: FailingPlay,
) -> Result<(), Fail> {
    let (arguments, script, read_fails_at, write_fails_at, written, status) = play;
    let devices = Devices {
        read_fails_at,
        write_fails_at,
        ..Devices::of(1)
    };
    let arguments = arguments_of(alloc, arguments)?;
    let mut writer = devices.writer(alloc);
    let came = status_of(rt, alloc, &arguments, script, devices, &mut writer);
    assert!(&rt;
        writer.as_slice() == written.as_bytes() && came == status,
        "{play:?}: {came}"
    );
    Ok(())
}

#[test]
fn the_program_writes_and_ends(rt: HostRuntime) -> Result<(), Fail> {
    for (arguments, script, written, status) in &PLAYS {
        check_play(
            rt,
            rt.alloc(),
            (arguments, script, None, None, written, *status),
        )?;
    }
    Ok(())
}

/// Plays a comment, which takes three reads, and one more to find the end, in at most this many.
fn play_comment<RT: Runtime>(
    rt: RT,
    alloc: Global,
    callers: Callers,
    most_reads: u64,
) -> Result<(), ProgramFault> {
    let devices = Devices::of(1);
    let (mut reader, mut writer) = (devices.reader(b"#x\n"), devices.writer(alloc));
    play_threads::<Token, _, _, _>(
        rt,
        alloc,
        Limits::largest(),
        callers,
        &mut reader,
        &mut writer,
        most_reads,
    )
}

#[test]
fn a_script_of_callers_ends_in_time(rt: HostRuntime) -> Result<(), Fail> {
    let arguments = arguments_of(rt.alloc(), "ck_run --callers 1")?;
    let Ok(Options::InThreads(callers)) = options_of(rt.alloc(), &arguments) else {
        return Err(Fail::from("the arguments aren't taken"));
    };
    let early = play_comment(rt, rt.alloc(), callers, 3);
    assert!(&rt;
        matches!(early, Err(ProgramFault::Play(PlayFault::Turns))),
        "{early:?}"
    );
    let played = play_comment(rt, rt.alloc(), callers, 4);
    assert!(&rt; played.is_ok(), "{played:?}");
    Ok(())
}

#[test]
fn devices_fail(rt: HostRuntime) -> Result<(), Fail> {
    for play in &FAILING {
        check_play(rt, rt.alloc(), *play)?;
    }
    Ok(())
}

#[test]
fn bad_arguments_are_refused(rt: HostRuntime) -> Result<(), Fail> {
    for arguments in &BAD_ARGUMENTS {
        check_play(rt, rt.alloc(), (arguments, "", None, None, "", 2))?;
    }
    Ok(())
}
