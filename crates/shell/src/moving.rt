// Bytes moved within a lent buffer.
ghost use Rattle.std.specs.Prelude.{◌≡◌, ◌-◌, ◌≤◌, length, take, drop};
ghost use Rattle.std.proofs.lemmas.List.Edits.{sets};

// Moves the bytes from a place to another to the front of the buffer.
pub fn move_front(buffer: &mut [u8], from: usize, to: usize)
    requires { (from ≤ to) × (to ≤ length buffer.old) }
    ensures { buffer.new ≡ sets buffer.old 0 (take (to - from) (drop from buffer.old)) }
{
    let n = to - from;
    let mut i = 0;
    while i < n {
        buffer[i] = buffer[from + i];
        i += 1;
    }
}
