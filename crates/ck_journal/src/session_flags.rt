ghost use Rattle.std.specs.Prelude.{◌≡◌};
ghost use Rattle.ck_journal.specs.Sessions.{has_rw_flag};

/// CKF_RW_SESSION (PKCS #11 Base 3.0, Session types).
pub const RW_SESSION: u64 = 2;

/// CKF_SERIAL_SESSION (PKCS #11 Base 3.0, Session types).
pub const SERIAL_SESSION: u64 = 4;

/// The flags of a read/write session.
pub const READ_WRITE: u64 = SERIAL_SESSION | RW_SESSION;

/// Whether a session that is opened with these flags is read/write.
pub fn is_read_write(flags: u64) -> bool
    ensures { result ≡ has_rw_flag flags }
{
    flags & RW_SESSION != 0
}
