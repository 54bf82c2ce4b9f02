ghost use Rattle.std.specs.Prelude.{◌≡◌, map, option_map};
ghost use Rattle.std.specs.List.{find};
ghost use Rattle.ck_types.specs.Numbers.{same_bytes};
ghost use Rattle.ck_script.specs.CallNames.{names, row_named};

use std::fmt;

/// How many arguments a call takes.
#[derive(Clone, Copy, Debug, PartialEq, Eq)]
pub enum Arity {
    None,
    One,
    Two,
    Three,
    Four,
}

impl fmt::Display for Arity {
    fn fmt<W: fmt::Write>(&self, f: &mut fmt::Formatter<W>) -> fmt::Result {
        f.write_str(match self {
            Arity::None => "no arguments",
            Arity::One => "1 argument",
            Arity::Two => "2 arguments",
            Arity::Three => "3 arguments",
            Arity::Four => "4 arguments",
        })
    }
}

/// The functions that a script calls: all except `SetKeyState` are the standard's.
#[derive(Clone, Copy, Debug, PartialEq, Eq)]
pub(crate) enum Function {
    InitToken,
    InitPin,
    SetPin,
    GetTokenInfo,
    GetMechanismList,
    OpenSession,
    CloseSession,
    CloseAllSessions,
    GetSessionInfo,
    SessionCancel,
    Login,
    Logout,
    CreateObject,
    CopyObject,
    DestroyObject,
    GetAttributeValue,
    SetAttributeValue,
    FindObjectsInit,
    FindObjects,
    FindObjectsFinal,
    DigestInit,
    Digest,
    DigestUpdate,
    DigestFinal,
    SignInit,
    Sign,
    SignUpdate,
    SignFinal,
    VerifyInit,
    Verify,
    VerifyUpdate,
    VerifyFinal,
    GenerateKey,
    SetKeyState,
}

/// A function that a script calls, with its name there: where it is the standard's, that name
/// without `C_`.
#[derive(Clone, Copy, Debug, PartialEq, Eq)]
pub struct CallName(pub(crate) Function, &'static str);

impl CallName {
    /// All calls of a script.
    pub(crate) fn all() -> [CallName; 34]
        ensures { map (λ name. (name.0, name.1.now)) result ≡ names }
    {
        [
            CallName(Function::InitToken, "InitToken"),
            CallName(Function::InitPin, "InitPIN"),
            CallName(Function::SetPin, "SetPIN"),
            CallName(Function::GetTokenInfo, "GetTokenInfo"),
            CallName(Function::GetMechanismList, "GetMechanismList"),
            CallName(Function::OpenSession, "OpenSession"),
            CallName(Function::CloseSession, "CloseSession"),
            CallName(Function::CloseAllSessions, "CloseAllSessions"),
            CallName(Function::GetSessionInfo, "GetSessionInfo"),
            CallName(Function::SessionCancel, "SessionCancel"),
            CallName(Function::Login, "Login"),
            CallName(Function::Logout, "Logout"),
            CallName(Function::CreateObject, "CreateObject"),
            CallName(Function::CopyObject, "CopyObject"),
            CallName(Function::DestroyObject, "DestroyObject"),
            CallName(Function::GetAttributeValue, "GetAttributeValue"),
            CallName(Function::SetAttributeValue, "SetAttributeValue"),
            CallName(Function::FindObjectsInit, "FindObjectsInit"),
            CallName(Function::FindObjects, "FindObjects"),
            CallName(Function::FindObjectsFinal, "FindObjectsFinal"),
            CallName(Function::DigestInit, "DigestInit"),
            CallName(Function::Digest, "Digest"),
            CallName(Function::DigestUpdate, "DigestUpdate"),
            CallName(Function::DigestFinal, "DigestFinal"),
            CallName(Function::SignInit, "SignInit"),
            CallName(Function::Sign, "Sign"),
            CallName(Function::SignUpdate, "SignUpdate"),
            CallName(Function::SignFinal, "SignFinal"),
            CallName(Function::VerifyInit, "VerifyInit"),
            CallName(Function::Verify, "Verify"),
            CallName(Function::VerifyUpdate, "VerifyUpdate"),
            CallName(Function::VerifyFinal, "VerifyFinal"),
            CallName(Function::GenerateKey, "GenerateKey"),
            CallName(Function::SetKeyState, "SetKeyState"),
        ]
    }

    /// The name as a script has it.
    pub(crate) fn text(self) -> &'static str
        ensures { result.now ≡ self.1.now }
    {
        self.1
    }

    /// The call of this name.
    pub(crate) fn of(text: &[u8]) -> Option<CallName>
        ensures { option_map (λ name. (name.0, name.1.now)) result ≡ row_named text.now }
    {
        name_among(&CallName::all(), text)
    }
}

impl fmt::Display for CallName {
    fn fmt<W: fmt::Write>(&self, f: &mut fmt::Formatter<W>) -> fmt::Result {
        f.write_str(self.text())
    }
}

/// The name, among these, that has this text.
fn name_among(names: &[CallName], text: &[u8]) -> Option<CallName>
    ensures { result ≡ find (λ name. same_bytes name.1.now text.now) names.now }
{
    names
        .iter()
        .copied()
        .find(|name| name.text().as_bytes() == text)
}
