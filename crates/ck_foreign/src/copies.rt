ghost use Rattle.std.specs.Prelude.{◌≡◌, length};
ghost use Rattle.ck_foreign.specs.Copies.{filled_with};

/// Copies the items, or as many of them as there is room for, and gives their count.
pub fn copy_out<T: Copy>(items: &[T], out: &mut [T]) -> usize
    ensures count { result ≡ length items.now }
    ensures copied { out.new ≡ filled_with items.now out.old }
{
    let count = items.len().min(out.len());
    out[..count].copy_from_slice(&items[..count]);
    items.len()
}
