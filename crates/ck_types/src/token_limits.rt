use std::marker::Model;

/// The largest limit on sessions that are open at once.
pub const MOST_SESSIONS: u64 = 64;

/// The largest limit on openings of sessions, and on creations of objects.
const MOST_HANDLES: u64 = 0xffff_ffff;

/// The largest limit on logins of the normal user.
const MOST_LOGINS: u64 = 0x7fff_ffff;

/// The limits of one token: sessions that are open at once (1 to 64), openings of sessions in all
/// (1 to 2^32 - 1), creations of objects in all (1 to 2^32 - 1; C_CreateObject, C_GenerateKey and
/// C_CopyObject) and logins of the normal user in all (1 to 2^31 - 1; each a C_Login answered
/// CKR_OK). The code for a call that would exceed the first is CKR_SESSION_COUNT, for any other
/// CKR_DEVICE_MEMORY.
#[derive(Clone, Copy, Debug, PartialEq, Eq)]
pub struct Limits {
    sessions: u64,
    openings: u64,
    creations: u64,
    logins: u64,
}

impl Model for Limits {
    ghost use Rattle.ck_types.specs.TokenLimits.{Ranges, AreInRange};

    ghost Value = { Ranges };

    ghost view = { λ l. record {
      sessions = l.sessions;
      openings = l.openings;
      creations = l.creations;
      logins = l.logins;
    } };

    ghost invariant = { λ l. AreInRange l.sessions l.openings l.creations l.logins };

    ghost inverse = { λ r. record {
      sessions = r.sessions;
      openings = r.openings;
      creations = r.creations;
      logins = r.logins;
    } };
}

impl Limits {
    ghost use Rattle.std.specs.Prelude.{◌≡◌, ◌^◌, ◌-◌, ◌↔◌, IfSome, IsSome};
    ghost use Rattle.ck_types.specs.TokenLimits.{AreInRange};

    /// Limits of these numbers, or `None` where one of them is outside its range.
    pub fn of(sessions: u64, openings: u64, creations: u64, logins: u64) -> Option<Limits>
        ensures ranges { IsSome result ↔ AreInRange sessions openings creations logins }
        ensures limits { IfSome result (λ limits. limits ≡ record {
          sessions = sessions;
          openings = openings;
          creations = creations;
          logins = logins;
        }) }
    {
        let is_in_range = (1..=MOST_SESSIONS).contains(&sessions)
            && (1..=MOST_HANDLES).contains(&openings)
            && (1..=MOST_HANDLES).contains(&creations)
            && (1..=MOST_LOGINS).contains(&logins);
        if is_in_range {
            Some(Limits {
                sessions,
                openings,
                creations,
                logins,
            })
        } else {
            None
        }
    }

    /// The largest limits.
    pub fn largest() -> Limits
        ensures { result ≡ record {
          sessions = 64;
          openings = 2 ^ 32 - 1;
          creations = 2 ^ 32 - 1;
          logins = 2 ^ 31 - 1;
        } }
    {
        Limits {
            sessions: MOST_SESSIONS,
            openings: MOST_HANDLES,
            creations: MOST_HANDLES,
            logins: MOST_LOGINS,
        }
    }

    /// The most sessions that may be open at once.
    pub fn sessions(&self) -> u64
        ensures value { result ≡ self.now.sessions }
        ensures ranges { AreInRange self.now.sessions self.now.openings self.now.creations
            self.now.logins }
    {
        self.sessions
    }

    /// The most sessions that may be opened in all.
    pub fn openings(&self) -> u64
        ensures { result ≡ self.now.openings }
    {
        self.openings
    }

    /// The most objects that may be created in all.
    pub fn creations(&self) -> u64
        ensures { result ≡ self.now.creations }
    {
        self.creations
    }

    /// The most logins of the normal user in all.
    pub fn logins(&self) -> u64
        ensures { result ≡ self.now.logins }
    {
        self.logins
    }
}
