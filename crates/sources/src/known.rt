// The blocks of a piece whose SSRCs have places: each is counted where it stands. No check of the table is paid per block: the run was judged, and a counted block
// keeps the rules (`block_keeps_rules`).
ghost use Rattle.std.specs.Prelude.{◌≡◌, ◌≤◌, ◌<◌, length};
ghost use Rattle.trace.specs.declared.Block.{Block};
ghost use Rattle.trace.specs.Reading.{block_of};
ghost use Rattle.sources.specs.Runs.{run_fault};
ghost use Rattle.sources.specs.Known.{CountsHere, Renews, Onward};

use crate::finding::is_held;
use crate::judging::is_of_trace;
use crate::runs::{Run, Tally};
use crate::stepping::raised;
use crate::{Place, Table};
use engine::count_block;
use format::Form;
use format::block::{BLOCK, BODY, SSRC};
use numbers::big_endian::read32;
use source::BlockCount;
use trace::Block;
use trace::read::read_block;

// How far the loop came: the run, and the place of the next block in the piece.
#[derive(Clone, Copy)]
pub struct Known {
    pub run: Run,
    pub at: usize,
}

// The SSRCs of all places: where to look for the one of a block.
fn ssrcs_in(t: Table) -> [u32; 16] {
    let mut ssrcs = [0u32; 16];
    let mut i: usize = 0;
    while i < 16 {
        let p = t.places[i];
        ssrcs[i] = p.ssrc;
        i += 1;
    }
    ssrcs
}

// The first place that has an SSRC; the last one where none has.
fn place_of(ssrcs: [u32; 16], ssrc: u32) -> usize
    ensures { result < 16 }
{
    let mut i: usize = 0;
    while i < 15 {
        if ssrcs[i] == ssrc {
            return i;
        }
        i += 1;
    }
    i
}

// A held place with the n arrivals of a block.
fn counted(form: Form, p: Place, t: Tally, n: usize, block: &[u8]) -> Option<(Place, Tally)>
    requires { block_of block.now ≡ Ok (Block.Arrivals form n p.ssrc) }
    ensures { CountsHere form p t n block.now result }
{
    let s = p.source;
    let width = form.width();
    let end = BODY + n * width;
    match count_block(s, &block[BODY..end], width) {
        BlockCount::Refused(_, _) => None,
        BlockCount::Counted(source, jumps, restarts) => {
            let place = Place {
                ssrc: p.ssrc,
                source,
            };
            Some((place, raised(t, jumps, restarts)))
        }
    }
}

// A place with the arrivals of a block, if it is the held one of their SSRC.
fn renewed(form: Form, p: Place, t: Tally, block: &[u8]) -> Option<(Place, Tally)>
    ensures { Renews form p t block.now result }
{
    let Ok(
        Block::Arrivals {
            form: its,
            count,
            ssrc,
        },
    ) = read_block(block)
    else {
        return None;
    };
    if !is_of_trace(form, its) {
        return None;
    }
    if ssrc != p.ssrc {
        return None;
    }
    if !is_held(p) {
        return None;
    }
    counted(form, p, t, count, block)
}

// Takes the blocks of a piece from a place on: to the last, or to one that is refused or whose SSRC is new.
pub fn take(start: Run, piece: &[u8], from: usize) -> Known
    requires { (run_fault start ≡ None) × (from ≤ length piece.now) }
    ensures { Onward piece.now start from result.run result.at × (run_fault result.run ≡ None) }
{
    let form = start.form;
    let length = start.length;
    let mut table = start.table;
    let mut tallies = start.tallies;
    let ssrcs = ssrcs_in(table);
    let mut at = from;
    while BLOCK <= piece.len() - at {
        let end = at + BLOCK;
        let i = place_of(ssrcs, read32(piece, at + SSRC));
        let p = table.places[i];
        let t = tallies[i];
        match renewed(form, p, t, &piece[at..end]) {
            Some((place, tally)) => {
                table.places[i] = place;
                tallies[i] = tally;
            }
            None => {
                let run = Run {
                    form,
                    length,
                    table,
                    tallies,
                };
                return Known { run, at };
            }
        }
        at = end;
    }
    let run = Run {
        form,
        length,
        table,
        tallies,
    };
    Known { run, at }
}
