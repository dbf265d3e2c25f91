// Reads a domain file on standard input and lists the entries of its routing tables. Where reading or
// writing fails, one line on standard error says so.
#![tactic(auto)]

ghost use Rattle.std.specs.Prelude.{IfOk};
ghost use Rattle.io.specs.Counts.{IsPrefixLen};

use listing::{Counted, Refusal};
use std::io::{Read, Stderr, Stdin, Stdout, Write};

// How many bytes of input are listed at most.
const MOST_INPUT: usize = 65536;

// How many table words there is room for.
const TABLE_WORDS: usize = 8192;

// One read into the start of the buffer. It reads no byte where the input ends.
fn read_some(mut input: Stdin, buf: &mut [u8]) -> std::io::Result<usize>
    ensures { IfOk result (λ n. IsPrefixLen n buf.new) }
{
    input.read(buf)
}

// Reads until the buffer is full or the input ends, and yields how many bytes were read.
fn read_input(input: Stdin, buf: &mut [u8]) -> std::io::Result<usize>
    ensures { IfOk result (λ n. IsPrefixLen n buf.new) }
{
    let mut n: usize = 0;
    // No iterator: each turn goes on by as many bytes as were read.
    while n < buf.len() {
        let more = read_some(input, &mut buf[n..])?;
        if more == 0 {
            return Ok(n);
        }
        n += more;
    }
    Ok(n)
}

// Writes a text on standard output.
fn print(mut to: Stdout, text: &[u8]) -> std::io::Result<()> {
    to.write_all(text)
}

// Writes a text on standard error, as far as that can be written.
fn tell(mut to: Stderr, text: &[u8]) {
    let _ = to.write_all(text);
}

// Writes the lines of the table words of a domain in rows, chunk by chunk until one has no line. Its buffer stands in a frame
// of its own, so that the stack does not hold it while tables are filled.
#[inline(never)]
fn print_lines(to: Stdout, rows: &[u64], words: &[u64]) -> std::io::Result<()> {
    let mut out = io::large_buffer();
    let mut at = listing::start();
    // No iterator: each turn goes on to the cursor that the chunk yields.
    while at.word < words.len() {
        let chunk = listing::put_chunk(rows, words, at, &mut out);
        if chunk.end == 0 {
            return Ok(());
        }
        print(to, &out[..chunk.end])?;
        at = chunk.next;
    }
    Ok(())
}

// Writes the lines of all entries, and the totals.
fn print_tables(to: Stdout, rows: &[u64], words: &[u64], counted: Counted) -> std::io::Result<()> {
    print_lines(to, rows, words)?;
    let mut line = [0u8; listing::LINE_BYTES];
    let end = listing::totals(
        &mut line,
        counted.table_count as u64,
        counted.word_count as u64,
    );
    print(to, &line[..end])
}

// Writes the refusal line.
fn print_refusal(to: Stdout, r: Refusal) -> std::io::Result<()> {
    let mut line = [0u8; listing::LINE_BYTES];
    let end = listing::refused(&mut line, r);
    print(to, &line[..end])
}

// Writes the listing of a domain in rows, or why there is none. A chain may have `chain` expanders.
fn print_rows(to: Stdout, rows: &[u64], chain: u8) -> std::io::Result<()> {
    let mut first = [0u16; listing::SLOTS_OF_64];
    let mut low = [0u8; listing::PHYS_OF_64];
    let mut words = [0u64; TABLE_WORDS];
    let mut bits = [0u8; TABLE_WORDS / 8];
    let given = listing::give_rows(
        rows,
        &mut first[..],
        &mut low[..],
        &mut words[..],
        &mut bits[..],
        chain,
    );
    match given {
        Err(r) => print_refusal(to, r),
        Ok(counted) => print_tables(to, rows, &words[..], counted),
    }
}

// Writes the listing of a file, which is read once, under the widest setting.
fn print_listing(to: Stdout, file: &[u8]) -> std::io::Result<()> {
    if file.len() > MOST_INPUT {
        let mut line = [0u8; listing::LINE_BYTES];
        let end = listing::too_long(&mut line);
        return print(to, &line[..end]);
    }
    let mut rows = [0u64; listing::ROWS_OF_64];
    let course = listing::widest();
    match listing::read_domain(course, file, &mut rows[..]) {
        Err(r) => print_refusal(to, r),
        Ok(n) => {
            let e = listing::ROW_WORDS * (n as usize);
            print_rows(to, &rows[..e], course.chain)
        }
    }
}

// At most 65,536 bytes of input and 8,192 table words.
fn main(rt: HostRuntime) {
    let mut file = [0u8; MOST_INPUT + 1];
    let Ok(n) = read_input(rt.stdin(), &mut file[..]) else {
        tell(rt.stderr(), b"routes: standard input cannot be read\n");
        return;
    };
    if print_listing(rt.stdout(), &file[..n]).is_err() {
        tell(rt.stderr(), b"routes: standard output cannot be written\n");
    }
}
