use ck_objects::Record;
use ck_types::{Pin, Sequence};
use std::alloc::Global;

/// A token object as a journal starts with it.
#[derive(Clone, Drop)]
pub struct KeptObject {
    /// The count of the objects created up to it, its own creation included.
    pub number: u64,
    pub attributes: Record,
}

/// What a journal starts from: the token's state after the calls before its first entry, at a time
/// when no session is open.
#[derive(Clone, Drop)]
pub struct Base {
    pub initialized: bool,
    /// The security officer's PIN.
    pub so: Option<Pin>,
    /// The normal user's PIN.
    pub user: Option<Pin>,
    /// How many wrong tries of the security officer's PIN were made since they last went back to 0.
    pub so_tries: u64,
    /// As `so_tries`, of the normal user's PIN.
    pub user_tries: u64,
    /// How many sessions have been opened.
    pub openings: u64,
    /// How many objects have been created.
    pub creations: u64,
    /// How many times the normal user has logged in.
    pub logins: u64,
    /// The token objects, in the order of their creations.
    pub objects: Sequence<KeptObject>,
}

impl Base {
    ghost use Rattle.std.specs.Prelude.{◌≡◌};
    ghost use Rattle.ck_journal.specs.Bases.{empty_base};

    /// The base of a new token, which takes no memory.
    pub(crate) fn empty(alloc: Global) -> Base
        ensures { result ≡ empty_base }
    {
        Base {
            initialized: false,
            so: None,
            user: None,
            so_tries: 0,
            user_tries: 0,
            openings: 0,
            creations: 0,
            logins: 0,
            objects: Sequence::new(alloc),
        }
    }
}
