// The reports as 32-bit words.
ghost use Rattle.std.specs.Prelude.{◌≡◌, ◌+◌, ◌*◌, ◌≤◌, length};
ghost use Rattle.std.proofs.lemmas.List.Edits.{sets};
ghost use Rattle.answers.specs.Writers.{Wrote};
ghost use Rattle.report.specs.Reports.{feedback_of, summary_of, words_bytes};

use answers::Unwritten;
use format::Counts;
use numbers::big_endian::write32;

// Two 16-bit fields in one word.
fn pair(high: u16, low: u16) -> u32
    ensures { result ≡ high * 65536 + low }
{
    high as u32 * 65536 + low as u32
}

// Stores the words at the front of out, one after the other.
fn put_words(words: &[u32], out: &mut [u8])
    requires { 4 * length words.now ≤ length out.old }
    ensures { out.new ≡ sets out.old 0 (words_bytes words.now) }
{
    for (i, word) in words.iter().enumerate() {
        write32(*word, out, 4 * i);
    }
}

// The feedback packet's first word: version 2, format 8, type 205, length 7.
const FEEDBACK: u32 = 0x88CD_0007;

// The summary block's first word: type 13, length 5.
const SUMMARY: u32 = 0x0D00_0005;

// Writes the feedback packet.
pub fn feedback(
    sender: u32,
    media: u32,
    highest: u32,
    c: Counts,
    out: &mut [u8],
) -> Result<usize, Unwritten>
    ensures { Wrote None (feedback_of sender media highest c) out.old result out.new }
{
    if out.len() < 32 {
        return Err(Unwritten::Room(32));
    }
    let marked = pair(c.ce, c.notect);
    let missed = pair(c.lost, c.duplicates);
    let words = [
        FEEDBACK, sender, media, highest, c.ect0, c.ect1, marked, missed,
    ];
    put_words(&words, out);
    Ok(32)
}

// Writes the summary block.
pub fn summary(media: u32, c: Counts, out: &mut [u8]) -> Result<usize, Unwritten>
    ensures { Wrote None (summary_of media c) out.old result out.new }
{
    if out.len() < 24 {
        return Err(Unwritten::Room(24));
    }
    let marked = pair(c.ce, c.notect);
    let missed = pair(c.lost, c.duplicates);
    let words = [SUMMARY, media, c.ect0, c.ect1, marked, missed];
    put_words(&words, out);
    Ok(24)
}
