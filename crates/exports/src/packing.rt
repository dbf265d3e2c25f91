// Settings and answers packed into one number.
ghost use Rattle.std.specs.Prelude.{ℕ, ◌+◌, ◌*◌, ◌≡◌, ◌≤◌, ◌<◌, ◌^◌};
ghost use Rattle.shelves.specs.Shelf.{entry_at, disabled_at};
ghost use Rattle.exports.specs.Events.{moved_packed};
ghost use Rattle.exports.specs.Packing.{setting_of, packed, number, pack_end, pack_bad, pack_next, pack_reason, step_to_pack, step_packed, counts, form_packed, entry_packed, pack_fields, pack_long, general, general_sas2, discovered, route};

use forms::FormCounts;
use shelves::Shelf;
use surveys::Entry;
use tables::Moved;
use tracing::{
    Counted, Discover, Discovered, End, General, GeneralSas2, LongGeneral, Outcome, PhyId, Reason,
    Refusal, Route, RouteIndex, Setting, Step, Told,
};

// A setting: most expanders, most phys and longest chain, a byte each. A bit above these 24 makes one
// outside its range.
pub(crate) fn setting(n: u32) -> Setting
    ensures { result ≡ setting_of n }
{
    if n >= 16777216 {
        return Setting {
            expanders: 0,
            phys: 0,
            chain: 0,
        };
    }
    Setting {
        expanders: (n / 65536) as u8,
        phys: (n / 256 % 256) as u8,
        chain: (n % 256) as u8,
    }
}

// What a call yields, as a number below 2 to the power 63.
pub(crate) trait Packed {
    ghost as_number: { Self → ℕ };

    fn pack(self) -> u64
        ensures { result ≡ as_number self };
}

// What a call answers: a refusal, or what it yields.
pub(crate) fn answer<T: Packed>(outcome: Result<T, Refusal>) -> u64
    ensures { result ≡ packed T.as_number outcome }
{
    match outcome {
        Err(r) => tracing::pack_refusal(r),
        Ok(yielded) => yielded.pack(),
    }
}

// A number as it is.
impl Packed for u8 {
    ghost as_number = { number };

    fn pack(self) -> u64 {
        self as u64
    }
}

impl Packed for u64 {
    ghost as_number = { number };

    fn pack(self) -> u64 {
        self
    }
}

impl Packed for usize {
    ghost as_number = { number };

    fn pack(self) -> u64 {
        self as u64
    }
}

// Of a request that was written, its bytes.
impl Packed for () {
    ghost as_number = { λ _. 40 };

    fn pack(self) -> u64 {
        40
    }
}

// How a request ends: outcome, last expander, phy and count, a byte each.
impl Packed for End {
    ghost as_number = { λ e. pack_end e.outcome e.last.0 e.phy.0 e.count };

    fn pack(self) -> u64 {
        tracing::pack_end(self)
    }
}

// Two counts in one number: the first, times 2 to the power 32, and the second.
fn two_counts(high: u32, low: u32) -> u64
    ensures { result ≡ high * 2 ^ 32 + low }
{
    (high as u64) * 4294967296 + (low as u64)
}

// How many expanders and words a form has: the number of expanders, times 2 to the power 32, and the number of words.
impl Packed for FormCounts {
    ghost as_number = { form_packed };

    fn pack(self) -> u64 {
        two_counts(self.expander_count as u32, self.word_count)
    }
}

// How many tables and words there are: the number of tables, times 2 to the power 32, and the number of words.
impl Packed for Counted {
    ghost as_number = { counts };

    fn pack(self) -> u64 {
        two_counts(self.table_count, self.word_count) // tables, then words
    }
}

// How many tables an event touches, times 2 to the power 32, and how many words it changes.
impl Packed for Moved {
    ghost as_number = { moved_packed };

    fn pack(self) -> u64 {
        two_counts(self.table_count, self.word_count)
    }
}

// An entry of a table: expander, phy and route index.
impl Packed for Entry {
    ghost as_number = { entry_packed };

    fn pack(self) -> u64 {
        (self.expander.0 as u64) * 16777216 + (self.phy.0 as u64) * 65536 + (self.index.0 as u64)
    }
}

// 1 for BAD DESTINATION.
fn is_bad(s: Step) -> u64
    ensures { (result ≡ pack_bad (step_to_pack s)) × (result ≤ 1) }
{
    match s {
        Step::Ended(o, _) => match o {
            Outcome::Arrived => 0,
            Outcome::NoDestination => 0,
            Outcome::BadDestination => 1,
        },
        Step::Onward(_, _) => 0,
    }
}

// The expander that a step goes on to and its arrival phy, a byte each; 255 where it goes no further.
fn next(s: Step) -> u64
    ensures { (result ≡ pack_next (step_to_pack s)) × (result < 65536) }
{
    match s {
        Step::Ended(_, _) => 65535,
        Step::Onward(j, q) => (j.0 as u64) * 256 + (q.0 as u64),
    }
}

// A rule, the phy picked, and the route index that matched.
fn reason(r: Reason) -> u64
    ensures { (result ≡ pack_reason r) × (result < 2 ^ 48) }
{
    (r.rule as u64) * 1099511627776 + (r.phy.0 as u64) * 4294967296 + (r.index.0 as u64) * 65536
}

// A step and its reason.
impl Packed for Told {
    ghost as_number = { λ t. step_packed (record { reason = t.reason; step = step_to_pack t.step }) };

    fn pack(self) -> u64 {
        is_bad(self.step) * 281474976710656 + reason(self.reason) + next(self.step)
    }
}

// The fields of a REPORT GENERAL response.
fn report(g: General) -> u64
    ensures { (result ≡ general g) × (result < 2 ^ 32) }
{
    (g.route_indexes as u64) * 65536 + (g.phys as u64) * 256 + (g.configurable as u64)
}

impl Packed for General {
    ghost as_number = { general };

    fn pack(self) -> u64 {
        report(self)
    }
}

// The fields of a long REPORT GENERAL response, above those.
fn long_report(l: LongGeneral) -> u64
    ensures { (result ≡ pack_long l) × (result < 2 ^ 63) }
{
    17179869184 + (l.table_to_table as u64) * 8589934592 + (l.configures_others as u64) * 4294967296
}

impl Packed for GeneralSas2 {
    ghost as_number = { general_sas2 };

    fn pack(self) -> u64 {
        match self {
            GeneralSas2::Short(g) => report(g),
            GeneralSas2::Long(g, l) => long_report(l) + report(g),
        }
    }
}

// The fields of a DISCOVER response, without its addresses.
fn discover(d: Discover) -> u64
    ensures { result ≡ pack_fields d }
{
    (d.identifier.0 as u64) * 4294967296
        + (d.device_type as u64) * 16777216
        + (d.attribute as u64) * 65536
        + (d.attached_phy.0 as u64)
}

// The same, or bit 62 and the result of a vacant phy.
impl Packed for Discovered {
    ghost as_number = { discovered };

    fn pack(self) -> u64 {
        match self {
            Discovered::Vacant(result) => 4611686018427387904 + (result as u64),
            Discovered::Fields(d) => discover(d),
        }
    }
}

// A CONFIGURE ROUTE INFORMATION request, without its address.
impl Packed for Route {
    ghost as_number = { route };

    fn pack(self) -> u64 {
        let fields = (self.length as u64) * 16777216
            + (self.phy.0 as u64) * 65536
            + (self.index.0 as u64);
        if self.disabled {
            return 4294967296 + fields;
        }
        fields
    }
}

// An entry of a shelf, by numbers.
pub(crate) fn shelf_entry(shelf: Shelf, phy: u8, index: u16) -> u64
    ensures { result ≡ entry_at shelf phy index }
{
    shelves::entry_at(shelf, PhyId(phy), RouteIndex(index))
}

// Whether an entry of a shelf is disabled, by numbers.
pub(crate) fn shelf_disabled(shelf: Shelf, phy: u8, index: u16) -> u64
    ensures { result ≡ disabled_at shelf phy index }
{
    shelves::disabled_at(shelf, PhyId(phy), RouteIndex(index)) as u64
}
