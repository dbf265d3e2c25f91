// The lines of table words, in chunks of up to 65,536 bytes.
ghost use Rattle.std.specs.Prelude.{◌≡◌, ◌+◌, ◌≤◌, length};
ghost use Rattle.tables.specs.WiringDefinitions.{domain_in};
ghost use Rattle.tables.specs.lists.GrowingLists.{WordsPut};
ghost use Rattle.listing.specs.Text.{line_of};
ghost use Rattle.listing.specs.Lines.{cursor, ChunkPut};

use crate::{Chunk, Cursor, entries, text};
use tables::{ExpanderNumber, PhyId, RouteIndex};

// Where a listing starts.
pub fn start() -> Cursor
    ensures { result ≡ cursor 0 0 0 0 }
{
    Cursor {
        expander: ExpanderNumber(0),
        phy: PhyId(0),
        index: RouteIndex(0),
        word: 0,
    }
}

// The line of a table word at a cursor, and the place after it.
fn put_line_at(out: &mut [u8], to: usize, at: Cursor, w: u64) -> usize
    requires { to + 80 ≤ length out.old }
    ensures { WordsPut out.old out.new to result (line_of at.expander.0 at.phy.0 at.index.0 w) }
{
    let i = ExpanderNumber(at.expander.0);
    let p = PhyId(at.phy.0);
    let k = RouteIndex(at.index.0);
    text::put_line(out, to, i, p, k, w)
}

// The lines of the table words of a domain in rows from a cursor on, up to the first for which no 80
// bytes are left, or no word.
pub fn put_chunk(
    rows: &[u64],
    words: &[u64],
    from: Cursor,
    out: &mut [u8; crate::CHUNK_BYTES],
) -> Chunk
    ensures { ChunkPut (domain_in rows.now) words.now from out.old out.new result.next result.end }
{
    let n = tables::expander_count(rows);
    let mut at = from;
    let mut end: usize = 0;
    // No iterator: a cursor moves on over expander, phy, index and word, and stands where the next chunk begins.
    while at.expander.0 < n {
        if at.index.0 >= entries::entry_count(rows, at) {
            at = entries::next_place(rows, at);
            continue;
        }
        let w = at.word;
        if w >= words.len() {
            return Chunk { next: at, end: end };
        }
        if end > 65456 {
            return Chunk { next: at, end: end };
        }
        end = put_line_at(out, end, at, words[w]);
        at = entries::next_index(at);
    }
    Chunk {
        next: Cursor {
            expander: ExpanderNumber(n),
            phy: PhyId(0),
            index: RouteIndex(0),
            word: at.word,
        },
        end: end,
    }
}
