//! The mix of calls: what the callers draw from, and how a call is made of a drawn line.
use crate::words::push_word;
use anyhow::bail;
use ck_script::Line;
use ck_token::Call;
use std::alloc::{AllocError, Global};
use std::sync::atomic::{AtomicU64, Ordering};

/// How many sets of handles the callers have between them.
pub(crate) const SETS: usize = 4;

/// Calls in a row that a caller draws. They stand in the language of scripts. `$session`, `$object`
/// and `$key` are handles that all callers know, and behind `>` stands which one is replaced by the
/// handle of the reply. Between two calls of a row come those of other callers.
pub(crate) const ROWS: [&str; 47] = [
    "OpenSession 6 > $session",
    "OpenSession 6 > $session",
    "OpenSession 4 > $session",
    "CloseSession $session; OpenSession 6 > $session",
    "GetSessionInfo $session; GetTokenInfo; GetMechanismList",
    "Login $session 1 75736572",
    "Login $session 1 75736572; GetSessionInfo $session",
    "Login $session 1 75736572; FindObjectsInit $session -; FindObjects $session 5",
    "Logout $session; Login $session 1 75736572",
    "Logout $session; Login $session 0 31323334; InitPIN $session 75736572; Logout $session",
    "SetPIN $session 75736572 75736572",
    "CreateObject $session 0=0000000000000000,3=61 > $object",
    "CreateObject $session 0=0000000000000000,3=61,1=01 > $object; DestroyObject $session $object",
    "CreateObject $session 0=0000000000000000,2=01,3=62 > $object",
    "CreateObject $session 0=0000000000000000 > $object; GetAttributeValue $session $object 3:8",
    "CreateObject $session 0=0400000000000000,100=1000000000000000,11=4a656665,2=00 > $key",
    "CreateObject $session 0=0400000000000000,100=1000000000000000,11=4a656665 > $key",
    "GenerateKey $session 350 161=0400000000000000,2=00 01020304 > $key",
    "CopyObject $session $object 3=63 > $object",
    "CopyObject $session $key 3=63 > $key",
    "GetAttributeValue $session $object 3:8,11:?",
    "GetAttributeValue $session $key 80000001:8,11:64",
    "SetAttributeValue $session $object 3=64",
    "SetAttributeValue $session $key 108=00",
    "SetKeyState $session $key 2",
    "SetKeyState $session $key 5; SetKeyState $session $key 1",
    "SetKeyState $session $key 3",
    "SetKeyState $session $key 4",
    "DestroyObject $session $object",
    "DestroyObject $session $key",
    "FindObjectsInit $session 3=61; FindObjects $session 1; FindObjects $session 9",
    "FindObjects $session 2",
    "FindObjectsFinal $session",
    "DigestInit $session 250; DigestUpdate $session 61; DigestFinal $session 32",
    "DigestInit $session 260; Digest $session 616263 ?; Digest $session 616263 48",
    "DigestUpdate $session 64",
    "DigestFinal $session 64",
    "SignInit $session 251 $key; SignUpdate $session 6d; SignFinal $session 32",
    "SignInit $session 252:0800000000000000 $key; Sign $session 6d 8",
    "SignUpdate $session 6e; SignUpdate $session 6f",
    "SignFinal $session 64",
    "VerifyInit $session 252:0800000000000000 $key; \
        VerifyUpdate $session 7768617420646f2079612077616e7420666f72206e6f7468696e673f; \
        VerifyFinal $session 5bdcc146bf60754e",
    "VerifyInit $session 252:0800000000000000 $key; \
        Verify $session 7768617420646f2079612077616e7420666f72206e6f7468696e673f 5bdcc146bf60754e",
    "VerifyInit $session 251 $key; Verify $session 6d 6d",
    "VerifyUpdate $session 6e",
    "VerifyFinal $session 6d",
    "SessionCancel $session 2c00",
];

/// Rows that are drawn seldom: afterwards most calls are refused, until others have called more.
pub(crate) const SELDOM: [&str; 3] = [
    "CloseAllSessions; OpenSession 6 > $session",
    "CloseAllSessions; InitToken 31323334; OpenSession 6 > $session",
    "Login $session 1 39393939",
];

/// Rows with messages of 4 KiB to 64 KiB, whole and in pieces. They are drawn less often.
pub(crate) const LONG: [&str; 8] = [
    "DigestInit $session 250; DigestUpdate $session 61*4097; DigestFinal $session 32",
    "DigestInit $session 270; DigestUpdate $session 62*20000; DigestUpdate $session 63*30000; \
        DigestFinal $session 64",
    "DigestInit $session 260; Digest $session 64*65536 48",
    "DigestUpdate $session 65*9000",
    "SignInit $session 251 $key; SignUpdate $session 6d*33000; SignFinal $session 32",
    "SignInit $session 252:0800000000000000 $key; Sign $session 6e*12000 8",
    "SignUpdate $session 6f*4096; SignUpdate $session 70*5000",
    "VerifyInit $session 251 $key; VerifyUpdate $session 71*17000; VerifyFinal $session 6d",
];

/// Handles that all callers know, 0 where there was none yet.
#[derive(Drop)]
pub(crate) struct Handles {
    pub(crate) session: AtomicU64,
    object: AtomicU64,
    key: AtomicU64,
}

impl Handles {
    /// No handle is known yet.
    pub(crate) fn new() -> Handles {
        Handles {
            session: AtomicU64::new(0),
            object: AtomicU64::new(0),
            key: AtomicU64::new(0),
        }
    }

    /// The handle that a word stands for.
    pub(crate) fn get(&self, word: &str) -> Option<&AtomicU64> {
        match word {
            "$session" => Some(&self.session),
            "$object" => Some(&self.object),
            "$key" => Some(&self.key),
            _ => None,
        }
    }
}

/// Adds a space and a word, or the number of the handle that the word stands for.
fn push_named(line: &mut String, handles: &Handles, word: &str) -> Result<(), AllocError> {
    line.push(' ')?;
    match handles.get(word) {
        Some(handle) => write!(line, "{}", handle.load(Ordering::SeqCst)),
        None => push_word(line, word),
    }
}

/// A line of a script with these handles.
fn line_of(alloc: Global, handles: &Handles, text: &str) -> Result<String, AllocError> {
    let mut line = format!(in alloc; "1")?;
    for word in text.split(' ') {
        push_named(&mut line, handles, word)?;
    }
    Ok(line)
}

/// The call that a line stands for, with these handles.
pub(crate) fn call_of(alloc: Global, handles: &Handles, text: &str) -> anyhow::Result<Call> {
    let line = line_of(alloc, handles, text)?;
    match Line::parse(alloc, line.as_bytes())? {
        Line::Called { call, .. } => Ok(call),
        Line::Skipped => bail!("a row has no call"),
    }
}
