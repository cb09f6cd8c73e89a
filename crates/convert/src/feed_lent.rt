// The bytes that are lent between the feeds of a trace: block 0, and then the place of the next block.
ghost use Rattle.std.specs.Prelude.{◌≡◌, ◌+◌, ◌-◌, ◌≤◌, length, replicate};
ghost use Rattle.std.proofs.lemmas.List.Edits.{sets};
ghost use Rattle.format.specs.Blocks.{block_bytes};
ghost use Rattle.trace.specs.Contents.{every, is_zero};
ghost use Rattle.convert.specs.Feeds.{lent_bytes, part_in, padded};

use answers::copy::put_bytes;
use format::block::BLOCK;

// How many they are.
pub const LENT: usize = 1024;

// Whether all bytes of s are zero. (trace has the same for the contents of blocks, in a module of its own that is private.)
pub fn all_zero(s: &[u8]) -> bool
    requires { length s.now ≤ block_bytes }
    ensures { result ≡ every is_zero s.now }
{
    let mut sum: u32 = 0;
    for &b in s {
        sum += b as u32;
    }
    sum == 0
}

// Stores zeros from a place on.
pub fn clear(lent: &mut [u8], from: usize)
    requires { (from ≤ lent_bytes) × (lent_bytes ≤ length lent.old) }
    ensures { lent.new ≡ sets lent.old from (replicate (lent_bytes - from) 0) }
{
    lent[from..LENT].fill(0);
}

// Stores the next block as block 0.
pub fn move_block(lent: &mut [u8])
    requires { lent_bytes ≤ length lent.old }
    ensures { lent.new ≡ sets lent.old 0 (part_in lent.old) }
{
    // A loop, as in put_bytes: by split_at_mut and copy_from_slice the C library is asked for memmove.
    for i in 0..BLOCK {
        lent[i] = lent[BLOCK + i];
    }
}

// Stores what is kept of the next block, and zeros after it.
pub fn keep(lent: &mut [u8], kept: &[u8])
    requires { (length kept.now ≤ block_bytes) × (lent_bytes ≤ length lent.old) }
    ensures { lent.new ≡ sets lent.old block_bytes (padded kept.now) }
{
    put_bytes(kept, lent, BLOCK);
    clear(lent, BLOCK + kept.len());
}
