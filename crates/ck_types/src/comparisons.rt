ghost use Rattle.std.specs.Prelude.{◌≡◌};
ghost use Rattle.ck_types.specs.Numbers.{same_bytes};

/// Whether these are the same bytes. Where the lengths differ, no byte is looked at. Where they are
/// equal, the loop goes over all bytes and doesn't stop at the first difference. Nothing else is
/// claimed of the time that this takes.
#[tactic(auto, using(crate::proofs::DifferenceLemmas::same_so_far_more))]
pub fn constant_time_eq(left: &[u8], right: &[u8]) -> bool
    ensures { result ≡ same_bytes left.now right.now }
{
    if left.len() != right.len() {
        return false;
    }
    let mut difference = 0;
    for (a, b) in left.iter().zip(right) {
        difference |= a ^ b;
    }
    difference == 0
}
