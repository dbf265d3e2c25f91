// The C interface: each function answers one number, the packing (`specs/Packing`) of what its call
// answers.
#![tactic(auto)]

mod packing;

ghost use Rattle.std.specs.Prelude.{◌≡◌, length};
ghost use Rattle.tracing.specs.TableDefinitions.{then, general_read, general_read_sas2, discover_read, route_written, route_read, buffer_after};
ghost use Rattle.tracing.specs.TableDefinitions.{entries, room_of};
ghost use Rattle.tracing.specs.TableDefinitions.{wiring_call, bits_set, new_after, judged, expanders_in, table_call, counts_in, tables_after};
ghost use Rattle.surveys.specs.WordEntries.{word_place};
ghost use Rattle.tracing.specs.Reasons.{step_call};
ghost use Rattle.tracing.specs.Trace.{request, trace_call, report, bytes_after};
ghost use Rattle.tracing.specs.RequestLists.{request_count, list_after};
ghost use Rattle.forms.specs.FormCalls.{form_call, form_tables, form_trace, form_list};
ghost use Rattle.forms.specs.Calls.{form_counts, form_after, requests_in};
ghost use Rattle.frames.specs.Refusals.{length_of};
ghost use Rattle.cards.specs.Calls.{card_call, file_call};
ghost use Rattle.benches.specs.JoinCall.{join_call};
ghost use Rattle.events.specs.Calls.{event_call};
ghost use Rattle.exercises.specs.Call.{make_call};
ghost use Rattle.shelves.specs.Shelf.{shelf_bytes, made, stepped, entry_at, disabled_at};
ghost use Rattle.exports.specs.Shelves.{ShelfDone};
ghost use Rattle.exports.specs.Events.{event_told, EventPacked};
ghost use Rattle.exports.specs.Packing.{version, setting_of, packed, number, counts, form_packed, entry_packed, end_packed, step_packed, forty, general, general_sas2, discovered, own_address, attached_address, route, route_told, route_address};

use events::Event;
use shelves::Shelf;
use tracing::{Discovered, ExpanderNumber, PhyId, Route, RouteIndex};

// The version of this interface.
#[unsafe(no_mangle)]
pub extern "C" fn metzurgo_version() -> u64
    ensures { result ≡ version }
{
    256
}

// The wiring call: how many bits are set in all.
#[unsafe(no_mangle)]
pub extern "C" fn metzurgo_wire(setting: u32, file: &[u8], words: &mut [u64]) -> u64
    ensures { (result ≡ packed number (then (wiring_call (setting_of setting) file.now (length words.old)) bits_set))
        × (words.new ≡ new_after (wiring_call (setting_of setting) file.now (length words.old)) words.old) }
{
    let course = packing::setting(setting);
    packing::answer(tracing::wire(course, file, words))
}

// The judging call: the number of expanders.
#[unsafe(no_mangle)]
pub extern "C" fn metzurgo_judge(setting: u32, file: &[u8]) -> u64
    ensures { result ≡ packed number (then (judged (setting_of setting) file.now) expanders_in) }
{
    let course = packing::setting(setting);
    packing::answer(tracing::judge(course, file))
}

// The table call: the number of tables, times 2 to the power 32, and the number of words.
#[unsafe(no_mangle)]
pub extern "C" fn metzurgo_tables(
    setting: u32,
    file: &[u8],
    words: &mut [u64],
    bits: &mut [u8],
) -> u64
    ensures { (result ≡ packed counts (then (table_call (setting_of setting) file.now (room_of (entries words.old bits.old))) counts_in))
        × (entries words.new bits.new ≡ tables_after (table_call (setting_of setting) file.now (room_of (entries words.old bits.old))) (entries words.old bits.old)) }
{
    let course = packing::setting(setting);
    packing::answer(tracing::give_tables(course, file, words, bits))
}

// How many tables and words a file needs: the number of tables, times 2 to the power 32, and the number of words.
#[unsafe(no_mangle)]
pub extern "C" fn metzurgo_needed(setting: u32, file: &[u8]) -> u64
    ensures { result ≡ packed counts (then (judged (setting_of setting) file.now) counts_in) }
{
    let course = packing::setting(setting);
    packing::answer(surveys::needed(course, file))
}

// The entry that table word k is: expander, phy and route index; 15 where there is no word k.
#[unsafe(no_mangle)]
pub extern "C" fn metzurgo_word_place(setting: u32, file: &[u8], k: u64) -> u64
    ensures { result ≡ packed entry_packed (then (judged (setting_of setting) file.now) (word_place k)) }
{
    let course = packing::setting(setting);
    packing::answer(surveys::word_place(course, file, k))
}

// The trace call: outcome, last expander, phy and count.
#[unsafe(no_mangle)]
pub extern "C" fn metzurgo_trace(
    setting: u32,
    file: &[u8],
    words: &[u64],
    bits: &[u8],
    start: u8,
    arrival: u8,
    address: u64,
    passed: &mut [u8],
) -> u64
    ensures { (result ≡ packed end_packed (then (trace_call (setting_of setting) file.now (entries words.now bits.now) (length passed.old) (request start arrival address)) report))
        × (passed.new ≡ bytes_after (trace_call (setting_of setting) file.now (entries words.now bits.now) (length passed.old) (request start arrival address)) passed.old) }
{
    let course = packing::setting(setting);
    packing::answer(tracing::trace(
        course,
        file,
        words,
        bits,
        ExpanderNumber(start),
        PhyId(arrival),
        address,
        passed,
    ))
}

// The form of a file's domain: the number of expanders, times 2 to the power 32, and the number of words.
#[unsafe(no_mangle)]
pub extern "C" fn metzurgo_compact(setting: u32, file: &[u8], form: &mut [u64]) -> u64
    ensures { (result ≡ packed form_packed (then (form_call (setting_of setting) file.now (length form.old)) form_counts))
        × (form.new ≡ form_after (form_call (setting_of setting) file.now (length form.old)) form.old) }
{
    let course = packing::setting(setting);
    packing::answer(forms::make_form(course, file, form))
}

// The tables of a form: the number of tables, times 2 to the power 32, and the number of words.
#[unsafe(no_mangle)]
pub extern "C" fn metzurgo_compact_tables(
    setting: u32,
    form: &[u64],
    words: &mut [u64],
    bits: &mut [u8],
) -> u64
    ensures { (result ≡ packed counts (then (form_tables (setting_of setting) form.now (room_of (entries words.old bits.old))) counts_in))
        × (entries words.new bits.new ≡ tables_after (form_tables (setting_of setting) form.now (room_of (entries words.old bits.old))) (entries words.old bits.old)) }
{
    let course = packing::setting(setting);
    packing::answer(forms::form_tables(course, form, words, bits))
}

// A trace over a form: outcome, last expander, phy and count.
#[unsafe(no_mangle)]
pub extern "C" fn metzurgo_compact_trace(
    setting: u32,
    form: &[u64],
    words: &[u64],
    bits: &[u8],
    start: u8,
    arrival: u8,
    address: u64,
    passed: &mut [u8],
) -> u64
    ensures { (result ≡ packed end_packed (then (form_trace (setting_of setting) form.now (entries words.now bits.now) (length passed.old) (request start arrival address)) report))
        × (passed.new ≡ bytes_after (form_trace (setting_of setting) form.now (entries words.now bits.now) (length passed.old) (request start arrival address)) passed.old) }
{
    let course = packing::setting(setting);
    packing::answer(forms::form_trace(
        course,
        form,
        words,
        bits,
        ExpanderNumber(start),
        PhyId(arrival),
        address,
        passed,
    ))
}

// A list of requests over a form: the number of requests. Each answer is that of the trace over the form by itself.
#[unsafe(no_mangle)]
pub extern "C" fn metzurgo_compact_trace_many(
    setting: u32,
    form: &[u64],
    words: &[u64],
    bits: &[u8],
    requests: &[u64],
    answers: &mut [u64],
) -> u64
    ensures { (result ≡ packed number (then (form_list (setting_of setting) form.now (room_of (entries words.now bits.now)) (length answers.old) (request_count requests.now)) (requests_in requests.now)))
        × (answers.new ≡ list_after (form_list (setting_of setting) form.now (room_of (entries words.now bits.now)) (length answers.old) (request_count requests.now)) (entries words.now bits.now) requests.now answers.old) }
{
    let course = packing::setting(setting);
    packing::answer(forms::form_list(course, form, words, bits, requests, answers))
}

// The step of one expander and its reason: BAD DESTINATION, rule, phy picked, route index that matched, next expander and
// next arrival phy.
#[unsafe(no_mangle)]
pub extern "C" fn metzurgo_step(
    setting: u32,
    file: &[u8],
    words: &[u64],
    bits: &[u8],
    expander: u8,
    arrival: u8,
    address: u64,
) -> u64
    ensures { result ≡ packed step_packed (step_call (setting_of setting) file.now (entries words.now bits.now) (request expander arrival address)) }
{
    let course = packing::setting(setting);
    packing::answer(tracing::explain_step(
        course,
        file,
        words,
        bits,
        ExpanderNumber(expander),
        PhyId(arrival),
        address,
    ))
}

// Writes one CONFIGURE ROUTE INFORMATION request that states this REQUEST LENGTH, and answers how many
// bytes it has, 40. The entry is disabled where `disabled` is not 0; its address is kept either way.
#[unsafe(no_mangle)]
pub extern "C" fn metzurgo_write_route(
    buf: &mut [u8],
    stated: u8,
    phy: u8,
    index: u16,
    address: u64,
    disabled: u8,
) -> u64
    ensures { (result ≡ packed forty (route_written (length buf.old) (route_told stated phy index address disabled)))
        × (buf.new ≡ buffer_after buf.old (route_written (length buf.old) (route_told stated phy index address disabled))) }
{
    let request = Route {
        length: stated,
        phy: PhyId(phy),
        index: RouteIndex(index),
        address: address,
        disabled: disabled != 0,
    };
    packing::answer(tracing::put_route(buf, request))
}

// Reads one CONFIGURE ROUTE INFORMATION request: whether its entry is disabled, REQUEST LENGTH, phy and route index.
#[unsafe(no_mangle)]
pub extern "C" fn metzurgo_read_route(frame: &[u8]) -> u64
    ensures { result ≡ packed route (route_read frame.now) }
{
    packing::answer(tracing::read_route(frame))
}

// The address of one CONFIGURE ROUTE INFORMATION request, disabled or not, and 0 where it is refused.
#[unsafe(no_mangle)]
pub extern "C" fn metzurgo_read_route_address(frame: &[u8]) -> u64
    ensures { result ≡ route_address (route_read frame.now) }
{
    let answer = tracing::read_route(frame);
    match answer {
        Err(_) => 0,
        Ok(q) => q.address,
    }
}

// Reads one REPORT GENERAL response: R, number of phys, configurable bit.
#[unsafe(no_mangle)]
pub extern "C" fn metzurgo_read_general(frame: &[u8]) -> u64
    ensures { result ≡ packed general (general_read frame.now) }
{
    packing::answer(tracing::read_general(frame))
}

// Reads one REPORT GENERAL response as SAS-2 has it: the same, and of a long frame TABLE TO TABLE
// SUPPORTED and CONFIGURES OTHERS.
#[unsafe(no_mangle)]
pub extern "C" fn metzurgo_read_general_sas2(frame: &[u8]) -> u64
    ensures { result ≡ packed general_sas2 (general_read_sas2 frame.now) }
{
    packing::answer(tracing::read_general_sas2(frame))
}

// Reads one DISCOVER response: identifier, type, attribute and attached phy, or the result of a
// vacant phy.
#[unsafe(no_mangle)]
pub extern "C" fn metzurgo_read_discover(frame: &[u8]) -> u64
    ensures { result ≡ packed discovered (discover_read frame.now) }
{
    packing::answer(tracing::read_discover(frame))
}

// The own address of one DISCOVER response, and 0 where it is refused or vacant.
#[unsafe(no_mangle)]
pub extern "C" fn metzurgo_discover_own(frame: &[u8]) -> u64
    ensures { result ≡ own_address (discover_read frame.now) }
{
    let answer = tracing::read_discover(frame);
    match answer {
        Err(_) => 0,
        Ok(Discovered::Vacant(_)) => 0,
        Ok(Discovered::Fields(d)) => d.own_address,
    }
}

// The attached address of one DISCOVER response, and 0 where it is refused or vacant.
#[unsafe(no_mangle)]
pub extern "C" fn metzurgo_discover_attached(frame: &[u8]) -> u64
    ensures { result ≡ attached_address (discover_read frame.now) }
{
    let answer = tracing::read_discover(frame);
    match answer {
        Err(_) => 0,
        Ok(Discovered::Vacant(_)) => 0,
        Ok(Discovered::Fields(d)) => d.attached_address,
    }
}

// Makes a card of a file, and answers how many bytes it has: 22, 1 to 6, 16.
#[unsafe(no_mangle)]
pub extern "C" fn metzurgo_card_of_file(setting: u32, file: &[u8], card: &mut [u8]) -> u64
    ensures { (result ≡ packed number (then (card_call (setting_of setting) file.now (length card.old)) length_of))
        × (card.new ≡ new_after (card_call (setting_of setting) file.now (length card.old)) card.old) }
{
    let course = packing::setting(setting);
    packing::answer(cards::card_of_file(course, file, card))
}

// Makes a file of short frames of a card, and answers how many bytes it has: 22, 19, then 3, 4 and 6 unit by unit, 16.
#[unsafe(no_mangle)]
pub extern "C" fn metzurgo_file_of_card(setting: u32, card: &[u8], file: &mut [u8]) -> u64
    ensures { (result ≡ packed number (then (file_call (setting_of setting) card.now (length file.old)) length_of))
        × (file.new ≡ new_after (file_call (setting_of setting) card.now (length file.old)) file.old) }
{
    let course = packing::setting(setting);
    packing::answer(cards::file_of_card(course, card, file))
}

// The event call: a drive with the address plugged into the phy, or its drive pulled where the address is 0. The number of tables touched,
// times 2 to the power 32, and the number of words changed: 22, 1 to 12, 23 and 14 of the file, 20, 16, 18, then the edited file.
#[unsafe(no_mangle)]
pub extern "C" fn metzurgo_event(
    setting: u32,
    file: &mut [u8],
    words: &mut [u64],
    bits: &mut [u8],
    expander: u8,
    phy: u8,
    address: u64,
) -> u64
    ensures { EventPacked (event_call (setting_of setting) file.old (event_told expander phy address) (room_of (entries words.old bits.old))) (event_told expander phy address) result
        file.old file.new (entries words.old bits.old) (entries words.new bits.new) }
{
    let course = packing::setting(setting);
    let v = Event {
        expander: ExpanderNumber(expander),
        phy: PhyId(phy),
        address: address,
    };
    packing::answer(events::apply_event(course, file, words, bits, v))
}

// Joins two files by one cable between two subtractive phys, each named by its own file's numbers, and answers how many bytes the
// joined file has: 22, the first file, the second file (expander numbers shifted), 21, the joined file, 16.
#[unsafe(no_mangle)]
pub extern "C" fn metzurgo_join(
    setting: u32,
    first: &[u8],
    expander: u8,
    phy: u8,
    second: &[u8],
    other: u8,
    far: u8,
    out: &mut [u8],
) -> u64
    ensures { (result ≡ packed number (then (join_call (setting_of setting) first.now expander phy second.now other far (length out.old)) length_of))
        × (out.new ≡ new_after (join_call (setting_of setting) first.now expander phy second.now other far (length out.old)) out.old) }
{
    let course = packing::setting(setting);
    packing::answer(benches::join(
        course,
        first,
        ExpanderNumber(expander),
        PhyId(phy),
        second,
        ExpanderNumber(other),
        PhyId(far),
        out,
    ))
}

// Makes a file of two expanders whose one table is the words, and answers how many bytes it has: 24, 16.
#[unsafe(no_mangle)]
pub extern "C" fn metzurgo_make(first: u64, second: u64, words: &[u64], out: &mut [u8]) -> u64
    ensures { (result ≡ packed number (then (make_call first second words.now (length out.old)) length_of))
        × (out.new ≡ new_after (make_call first second words.now (length out.old)) out.old) }
{
    packing::answer(exercises::make(first, second, words, out))
}

// How many bytes a shelf takes.
#[unsafe(no_mangle)]
pub extern "C" fn metzurgo_shelf_size() -> u64
    ensures { result ≡ shelf_bytes }
{
    9240
}

// Makes a fresh shelf where the owner holds it: 0, or refusal 3.
#[unsafe(no_mangle)]
pub extern "C" fn metzurgo_shelf_fresh(
    shelf: &mut Shelf,
    phys: u8,
    route_indexes: u16,
    kinds: &[u8],
) -> u64
    ensures { ShelfDone (made shelf.old phys route_indexes kinds.now) result shelf.new }
{
    packing::answer(shelves::fresh(shelf, phys, route_indexes, kinds))
}

// Obeys one frame: the function result, or the reader's refusal.
#[unsafe(no_mangle)]
pub extern "C" fn metzurgo_shelf_obey(shelf: &mut Shelf, frame: &[u8]) -> u64
    ensures { ShelfDone (stepped shelf.old frame.now) result shelf.new }
{
    packing::answer(shelves::obey(shelf, frame))
}

// The address of an entry, 0 where there is none.
#[unsafe(no_mangle)]
pub extern "C" fn metzurgo_shelf_entry(shelf: &Shelf, phy: u8, index: u16) -> u64
    ensures { result ≡ entry_at shelf.now phy index }
{
    packing::shelf_entry(*shelf, phy, index)
}

// 1 where an entry is disabled, 0 where it is not, 2 where there is none.
#[unsafe(no_mangle)]
pub extern "C" fn metzurgo_shelf_disabled(shelf: &Shelf, phy: u8, index: u16) -> u64
    ensures { result ≡ disabled_at shelf.now phy index }
{
    packing::shelf_disabled(*shelf, phy, index)
}
