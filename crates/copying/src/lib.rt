// Copying: items of one list at a place of another, in order. Nothing else of the other moves.
#![tactic(auto)]

ghost use Rattle.std.specs.Prelude.{◌≡◌, ◌≤◌, ◌+◌, length};
ghost use Rattle.std.proofs.lemmas.List.Edits.{sets};

// Puts items, bytes of a buffer or offsets of an index, at a place of a list. A loop: with the library's `copy_from_slice` in its place the
// archive of the C interface wants memmove from outside, and without it memcpy and memset alone.
pub fn put<T: Copy>(items: &[T], out: &mut [T], at: usize)
    requires { at + length items.now ≤ length out.old }
    ensures { out.new ≡ sets out.old at items.now }
{
    for i in 0..items.len() {
        out[at + i] = items[i];
    }
}
