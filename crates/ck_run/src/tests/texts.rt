//! The texts of return codes, of faults, of bad arguments, of a stopped run and of other errors.
use ck_plays::PlayFault;
use ck_program::{ArgumentFault, BadArguments, ProgramFault, options_of};
use ck_script::{BadLine, Line, LineError};
use ck_token::{CallError, NoMemory, Rv, RvError, Stopped, Uncut};
use std::alloc::Global;
use std::fmt::Display;
use std::io;
use std::process::Abort;
use std::test::Fail;

/// Each return code, and its name.
#[rattlefmt::skip]
const CODES: [(u64, &str); 40] = [
    (0x0, "CKR_OK"),
    (0x2, "CKR_HOST_MEMORY"),
    (0x7, "CKR_ARGUMENTS_BAD"),
    (0x10, "CKR_ATTRIBUTE_READ_ONLY"),
    (0x11, "CKR_ATTRIBUTE_SENSITIVE"),
    (0x12, "CKR_ATTRIBUTE_TYPE_INVALID"),
    (0x13, "CKR_ATTRIBUTE_VALUE_INVALID"),
    (0x1b, "CKR_ACTION_PROHIBITED"),
    (0x21, "CKR_DATA_LEN_RANGE"),
    (0x31, "CKR_DEVICE_MEMORY"),
    (0x60, "CKR_KEY_HANDLE_INVALID"),
    (0x62, "CKR_KEY_SIZE_RANGE"),
    (0x63, "CKR_KEY_TYPE_INCONSISTENT"),
    (0x68, "CKR_KEY_FUNCTION_NOT_PERMITTED"),
    (0x70, "CKR_MECHANISM_INVALID"),
    (0x71, "CKR_MECHANISM_PARAM_INVALID"),
    (0x82, "CKR_OBJECT_HANDLE_INVALID"),
    (0x90, "CKR_OPERATION_ACTIVE"),
    (0x91, "CKR_OPERATION_NOT_INITIALIZED"),
    (0xa0, "CKR_PIN_INCORRECT"),
    (0xa2, "CKR_PIN_LEN_RANGE"),
    (0xa4, "CKR_PIN_LOCKED"),
    (0xb1, "CKR_SESSION_COUNT"),
    (0xb3, "CKR_SESSION_HANDLE_INVALID"),
    (0xb4, "CKR_SESSION_PARALLEL_NOT_SUPPORTED"),
    (0xb5, "CKR_SESSION_READ_ONLY"),
    (0xb6, "CKR_SESSION_EXISTS"),
    (0xb7, "CKR_SESSION_READ_ONLY_EXISTS"),
    (0xb8, "CKR_SESSION_READ_WRITE_SO_EXISTS"),
    (0xc0, "CKR_SIGNATURE_INVALID"),
    (0xc1, "CKR_SIGNATURE_LEN_RANGE"),
    (0xd0, "CKR_TEMPLATE_INCOMPLETE"),
    (0xd1, "CKR_TEMPLATE_INCONSISTENT"),
    (0xe1, "CKR_TOKEN_NOT_RECOGNIZED"),
    (0x100, "CKR_USER_ALREADY_LOGGED_IN"),
    (0x101, "CKR_USER_NOT_LOGGED_IN"),
    (0x102, "CKR_USER_PIN_NOT_INITIALIZED"),
    (0x103, "CKR_USER_TYPE_INVALID"),
    (0x104, "CKR_USER_ANOTHER_ALREADY_LOGGED_IN"),
    (0x150, "CKR_BUFFER_TOO_SMALL"),
];

const FAULTS: [(&ProgramFault, &str); 8] = [
    (
        &ProgramFault::Play(PlayFault::Line(u64::MAX, BadLine::NoCall)),
        "line 18446744073709551615: bad script: a line is a caller, a call and its arguments",
    ),
    (
        &ProgramFault::Play(PlayFault::Line(3, BadLine::CallerAbove(2))),
        "line 3: bad script: the caller is a number from 1 to 2",
    ),
    (
        &ProgramFault::Play(PlayFault::Line(1, BadLine::NotText)),
        "line 1: bad script: the line isn't text",
    ),
    (&ProgramFault::Play(PlayFault::Read), "read fault"),
    (&ProgramFault::Play(PlayFault::Write), "write fault"),
    (&ProgramFault::Play(PlayFault::Memory), "out of memory"),
    (&ProgramFault::Play(PlayFault::Turns), "reader does not end"),
    (&ProgramFault::Thread, "thread not started"),
];

fn check_text(
    rt: &impl Abort,
    alloc: Global,
    shown: &impl Display,
    want: &str,
) -> Result<(), Fail> {
    let text = format!(in alloc; "{shown}")?;
    assert!(rt; text.as_str() == want, "{text} in place of {want}");
    Ok(())
}

fn check_codes(rt: &impl Abort, alloc: Global, codes: &[(u64, &str)]) -> Result<(), Fail> {
    for (number, name) in codes {
        let code = Rv::of(*number).ok_or("a number is no code")?;
        check_text(rt, alloc, &code, name)?;
    }
    Ok(())
}

#[test]
fn return_codes_have_their_names(rt: HostRuntime) -> Result<(), Fail> {
    check_codes(&rt, rt.alloc(), &CODES)
}

fn check_faults(
    rt: &impl Abort,
    alloc: Global,
    rows: &[(&ProgramFault, &str)],
) -> Result<(), Fail> {
    for (fault, want) in rows {
        check_text(rt, alloc, *fault, want)?;
    }
    Ok(())
}

#[test]
fn faults_have_their_texts(rt: HostRuntime) -> Result<(), Fail> {
    check_faults(&rt, rt.alloc(), &FAULTS)
}

/// Lines in which a control character stands: behind a name, in the first line of a program, behind
/// a byte order mark, and beside a tab.
const NO_TEXTS: [&[u8]; 4] = [
    b"1 GetTokenInfo\0",
    b"\x7fELF\x02\x01\x01\0\0",
    b"\xef\xbb\xbf1\0",
    b"1\tGetTokenInfo\x1b",
];

#[test]
fn lines_with_control_characters_are_no_text(rt: HostRuntime) {
    for bytes in NO_TEXTS {
        let line = Line::parse(rt.alloc(), bytes);
        assert!(&rt;
            matches!(line, Err(LineError::Bad(BadLine::NotText))),
            "{bytes:?}"
        );
    }
}

/// Each control character except a tab, a line feed and a carriage return, behind a caller.
#[test]
fn no_control_character_stands_in_text(rt: HostRuntime) {
    for byte in (0..=0x7f).filter(u8::is_ascii_control) {
        let line = Line::parse(rt.alloc(), &[b'1', b' ', byte]);
        let is_bad = matches!(line, Err(LineError::Bad(BadLine::NotText)));
        assert!(&rt; is_bad != matches!(byte, b'\t' | b'\n' | b'\r'), "{byte}");
    }
}

/// Why these arguments are bad.
fn reason_of(alloc: Global, arguments: &[&str]) -> Result<BadArguments, Fail> {
    let mut owned = Vec::new(alloc);
    for argument in arguments {
        owned.push(String::from_str(alloc, argument)?)?;
    }
    match options_of(alloc, &owned) {
        Err(ArgumentFault::Bad(reason)) => Ok(reason),
        _ => Err(Fail::from("the arguments are taken")),
    }
}

const UNEXPECTED: &str = "\
unexpected argument '--caller' found

  tip: a similar argument exists: '--callers'

Usage: ck_run --callers <N>

For more information, try '--help'.";

#[test]
fn bad_arguments_say_why(rt: HostRuntime) -> Result<(), Fail> {
    let reason = reason_of(rt.alloc(), &["ck_run", "--caller", "2"])?;
    check_text(&rt, rt.alloc(), &reason, UNEXPECTED)?;
    let reason = reason_of(rt.alloc(), &["ck_run", "--callers", "9"])?;
    check_text(
        &rt,
        rt.alloc(),
        &reason,
        "--callers takes a number from 1 to 8",
    )
}

/// No clause says which errors of the system are about memory.
#[test]
fn only_arguments_without_memory_end_with_status_3(rt: HostRuntime) {
    for (kind, status) in [(io::ErrorKind::OutOfMemory, 3u8), (io::ErrorKind::Other, 2)] {
        let fault = ArgumentFault::from(io::Error::from(kind));
        assert!(&rt; fault.status() == status, "{fault}");
    }
}

#[test]
fn a_stopped_run_says_what_was_answered(rt: HostRuntime) -> Result<(), Fail> {
    check_text(
        &rt,
        rt.alloc(),
        &Stopped { answered: 3 },
        "out of memory after 3 calls",
    )
}

#[test]
fn errors_have_their_texts(rt: HostRuntime) -> Result<(), Fail> {
    let (rt, alloc) = (&rt, rt.alloc());
    check_text(rt, alloc, &NoMemory, "out of memory")?;
    check_text(rt, alloc, &Uncut::Session, "a session is open")?;
    check_text(rt, alloc, &Uncut::Memory, "out of memory")?;
    let refused = CallError::Refused(RvError::PinLocked);
    check_text(rt, alloc, &refused, "CKR_PIN_LOCKED")?;
    check_text(rt, alloc, &CallError::Memory, "out of memory")?;
    let bad = LineError::Bad(BadLine::CallerAbove(7));
    check_text(rt, alloc, &bad, "the caller is a number from 1 to 7")?;
    check_text(rt, alloc, &LineError::Memory, "out of memory")
}
