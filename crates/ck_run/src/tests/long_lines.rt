//! Lines of the greatest length and longer, lists of many items, and long values.
use crate::tests::devices::{Devices, End, check_play, check_script};
use ck_script::LONGEST_LINE;
use std::alloc::Global;
use std::process::Abort;
use std::test::Fail;

/// How many bytes a line may have, written out again so that another `LONGEST_LINE` is noticed.
const LONGEST: usize = 4_194_304;

/// Plays a comment of `length` bytes, and a call after it.
fn check_comment(
    rt: &impl Abort,
    alloc: Global,
    length: usize,
    replies: &str,
    end: End,
) -> Result<(), Fail> {
    let mut script = vec![in alloc; b'#'; length]?;
    script.extend_from_slice(b"\n1 GetTokenInfo")?;
    let devices = Devices::of(LONGEST_LINE);
    check_play(rt, alloc, &script, devices, replies.as_bytes(), end);
    Ok(())
}

#[test]
fn a_comment_may_be_as_long_as_a_line(rt: HostRuntime) -> Result<(), Fail> {
    let alloc = rt.alloc();
    check_comment(&rt, alloc, LONGEST, "0 4 64 0 0\n", End::Played)?;
    check_comment(&rt, alloc, LONGEST + 1, "", End::Line(1))
}

/// How many times a row gives what stands in parentheses.
const MANY: usize = 30_000;

/// A call and its reply. In both, what stands in parentheses is given many times.
type CallAndReply = (&'static str, &'static str);

/// Templates of many labels, each equal to the others, and of one more item.
#[rattlefmt::skip]
const TEMPLATES: [CallAndReply; 20] = [
    ("1 CreateObject 1 0=0000000000000000(,3=61)", "0 1"),
    ("1 CreateObject 1 0=0000000000000000(,3=61),3=62", "d1"),
    ("1 CreateObject 1 0=0000000000000000(,3=61),103=01", "12"),
    ("1 CopyObject 1 1 10=63(,3=62)", "0 2"),
    ("1 CopyObject 1 1 10=63(,3=62),3=61", "d1"),
    ("1 GenerateKey 1 350 2=00,161=0100000000000000(,3=61) ff", "0 3"),
    ("1 GenerateKey 1 350 2=00,161=0100000000000000(,3=61),3=62 ff", "d1"),
    ("1 SetAttributeValue 1 3 102=63(,3=62)", "0"),
    ("1 SetAttributeValue 1 3 102=63(,3=62),3=61", "d1"),
    ("1 GetAttributeValue 1 1 3:8,10:8", "0 =61,=-"),
    ("1 GetAttributeValue 1 2 3:8,10:8", "0 =62,=63"),
    ("1 GetAttributeValue 1 3 3:8,102:8", "0 =62,=63"),
    ("1 FindObjectsInit 1 3=62(,3=62)", "0"),
    ("1 FindObjects 1 9", "0 2,3"),
    ("1 FindObjectsFinal 1", "0"),
    ("1 FindObjectsInit 1 3=62(,3=62),10=63", "0"),
    ("1 FindObjects 1 9", "0 2"),
    ("1 FindObjectsFinal 1", "0"),
    ("1 FindObjectsInit 1 3=62(,3=62),3=61", "0"),
    ("1 FindObjects 1 9", "0 -"),
];

/// Many queries. The last of some is refused.
#[rattlefmt::skip]
const QUERIES: [CallAndReply; 4] = [
    ("1 CreateObject 1 0=0000000000000000,3=6162", "0 1"),
    ("1 GetAttributeValue 1 1 10:8(,3:8),3:?", "0 =-(,=6162),:2"),
    ("1 GetAttributeValue 1 1 10:?(,3:8),3:1", "150 :0(,=6162),!"),
    ("1 GetAttributeValue 1 1 3:8(,3:?),103:8", "12 =6162(,:2),!"),
];

/// A value of 300,000 bytes, which are ten bytes many times.
#[rattlefmt::skip]
const VALUES: [CallAndReply; 8] = [
    ("1 CreateObject 1 0=0000000000000000,11=(6162636465666768696a)", "0 1"),
    ("1 GetAttributeValue 1 1 11:?", "0 :300000"),
    ("1 GetAttributeValue 1 1 11:299999", "150 !"),
    ("1 GetAttributeValue 1 1 11:300000", "0 =(6162636465666768696a)"),
    ("1 FindObjectsInit 1 11=(6162636465666768696a)", "0"),
    ("1 FindObjects 1 9", "0 1"),
    ("1 SetAttributeValue 1 1 11=(6a696867666564636261)", "0"),
    ("1 GetAttributeValue 1 1 11:300000", "0 =(6a696867666564636261)"),
];

/// Texts of 300,000 bytes: labels, applications, object identifiers and identifiers of keys.
#[rattlefmt::skip]
const TEXTS: [CallAndReply; 10] = [
    ("1 CreateObject 1 0=0000000000000000,3=(6162636465666768696a)", "0 1"),
    ("1 GetAttributeValue 1 1 3:300000", "0 =(6162636465666768696a)"),
    ("1 FindObjectsInit 1 3=(6162636465666768696a)", "0"),
    ("1 FindObjects 1 9", "0 1"),
    ("1 CopyObject 1 1 10=(6a696867666564636261)", "0 2"),
    ("1 GetAttributeValue 1 2 10:300000", "0 =(6a696867666564636261)"),
    ("1 SetAttributeValue 1 2 12=(6162636465666768696a)", "0"),
    ("1 GetAttributeValue 1 2 12:300000", "0 =(6162636465666768696a)"),
    ("1 GenerateKey 1 350 161=0100000000000000,2=00,102=(6162636465666768696a) ff", "0 3"),
    ("1 GetAttributeValue 1 3 102:300000", "0 =(6162636465666768696a)"),
];

/// A text of a row, written out.
fn written_out(alloc: Global, text: &str) -> Result<String, Fail> {
    let Some((front, rest)) = text.split_once('(') else {
        return Ok(String::from_str(alloc, text)?);
    };
    let (item, back) = rest
        .split_once(')')
        .ok_or("there is no end of what is repeated")?;
    let items = item.repeat(alloc, MANY)?;
    Ok(format!(in alloc; "{front}{items}{back}")?)
}

/// Plays these calls in session 1 of a new token: these replies are written.
fn check_calls(rt: &impl Abort, alloc: Global, calls: &[CallAndReply]) -> Result<(), Fail> {
    let mut script = String::from_str(alloc, "1 InitToken 31323334\n1 OpenSession 6\n")?;
    let mut replies = String::from_str(alloc, "0\n0 1\n")?;
    for (call, reply) in calls {
        let (call, reply) = (written_out(alloc, call)?, written_out(alloc, reply)?);
        write!(script, "{call}\n")?;
        write!(replies, "{reply}\n")?;
    }
    let devices = Devices::of(LONGEST_LINE);
    check_script(
        rt,
        alloc,
        devices,
        (script.as_str(), replies.as_str(), End::Played),
    );
    Ok(())
}

#[test]
fn a_template_may_have_many_items(rt: HostRuntime) -> Result<(), Fail> {
    check_calls(&rt, rt.alloc(), &TEMPLATES)
}

#[test]
fn many_queries_may_be_asked_at_once(rt: HostRuntime) -> Result<(), Fail> {
    check_calls(&rt, rt.alloc(), &QUERIES)
}

#[test]
fn values_and_texts_may_be_long(rt: HostRuntime) -> Result<(), Fail> {
    check_calls(&rt, rt.alloc(), &VALUES)?;
    check_calls(&rt, rt.alloc(), &TEXTS)
}

/// How many bytes a value has whose creation is a line of the greatest length.
const LONG_VALUE: usize = 2_097_130;

/// Plays a creation that is a line of the greatest length, and queries of the length of its value
/// and of the value.
#[test]
fn a_value_may_be_as_long_as_a_line(rt: HostRuntime) -> Result<(), Fail> {
    let alloc = rt.alloc();
    let value = "a7".repeat(alloc, LONG_VALUE)?;
    let call = format!(in alloc; "1 CreateObject 1 0=0000000000000000,1=00,11={value}")?;
    assert_eq!(&rt; call.len(), LONGEST);
    let script = format!(in alloc;
        "1 InitToken 31323334\n1 OpenSession 6\n{call}\n1 GetAttributeValue 1 1 11:?,11:9999999"
    )?;
    let replies = format!(in alloc; "0\n0 1\n0 1\n0 :{LONG_VALUE},={value}\n")?;
    let devices = Devices::of(LONGEST_LINE);
    check_script(
        &rt,
        alloc,
        devices,
        (script.as_str(), replies.as_str(), End::Played),
    );
    Ok(())
}
