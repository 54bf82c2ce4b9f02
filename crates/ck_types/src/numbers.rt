ghost use Rattle.std.specs.Prelude.{◌≡◌, ◌==◌, Some, None, IfSome, length, if◌then◌else◌};
ghost use Rattle.std.specs.Int.{w64, from_le_bytes};
ghost use Rattle.ck_types.specs.Numbers.{number_bytes};

/// The number that 8 bytes stand for, the least significant first (CK_ULONG), or `None` for fewer
/// or more bytes.
pub fn number_from_bytes(bytes: &[u8]) -> Option<u64>
    ensures number { result
        ≡ (if length bytes.now == 8 then Some (from_le_bytes w64 bytes.now) else None) }
    ensures bytes { IfSome result (λ number. number_bytes number ≡ bytes.now) }
{
    let bytes: [u8; 8] = bytes.try_into().ok()?;
    Some(u64::from_le_bytes(bytes))
}
