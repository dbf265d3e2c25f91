// 4 of a domain in rows: an expander that has the address of one before it.
ghost use Rattle.std.specs.Prelude.{◌≡◌};
ghost use Rattle.files.specs.Rows.{domain_in};
ghost use Rattle.benches.specs.BenchRows.{repeated};

use wiring::ExpanderNumber;

// The lowest expander that has the address of one before it; the count of expanders where there is none.
pub(crate) fn first_repeated(rows: &[u64]) -> u8
    ensures { result ≡ repeated (domain_in rows.now) }
{
    let n = wiring::expander_count(rows);
    for k in 0..n {
        if wiring::number_of(rows, wiring::expander_address(rows, ExpanderNumber(k))) != k {
            return k;
        }
    }
    n
}
