// What a fresh shelf is told.
ghost use Rattle.std.specs.Prelude.{◌≡◌, ◌≤◌, length};
ghost use Rattle.shelves.specs.Shelf.{stepped_to, are_kinds, can_be_told, sixteen, fresh_shelf, made};

use crate::{Shelf, Stepped};
use frames::Refusal;

// A shelf, and what it answered.
pub(crate) fn stepped_to(shelf: Shelf, answer: Result<u8, Refusal>) -> Stepped
    ensures { result ≡ stepped_to shelf answer }
{
    Stepped {
        shelf: shelf,
        answer: answer,
    }
}

// Whether each kind is 0 vacant, 1 table or 2 other.
fn are_kinds(kinds: &[u8]) -> bool
    ensures { result ≡ are_kinds kinds.now }
{
    kinds.iter().all(|kind| *kind <= 2)
}

// Whether a fresh shelf can be told this.
fn is_told(phys: u8, route_indexes: u16, kinds: &[u8]) -> bool
    ensures { result ≡ can_be_told phys route_indexes kinds.now }
{
    if phys < 1 {
        return false;
    }
    if phys > 16 {
        return false;
    }
    if route_indexes > 64 {
        return false;
    }
    if kinds.len() != phys as usize {
        return false;
    }
    are_kinds(kinds)
}

// The kinds of sixteen phys: vacant after those told.
fn all_kinds(kinds: &[u8]) -> [u8; crate::SHELF_PHYS]
    requires { length kinds.now ≤ 16 }
    ensures { result ≡ sixteen kinds.now }
{
    let mut all = [0u8; crate::SHELF_PHYS];
    all[..kinds.len()].copy_from_slice(kinds);
    all
}

// A shelf with all entries zero and disabled.
fn fresh_shelf(phys: u8, route_indexes: u16, kinds: &[u8]) -> Shelf
    requires { length kinds.now ≤ 16 }
    ensures { result ≡ fresh_shelf phys route_indexes kinds.now }
{
    let all = all_kinds(kinds);
    let entries = [0u64; crate::SHELF_ENTRIES];
    let disabled = [1u8; crate::SHELF_ENTRIES];
    Shelf {
        entries: entries,
        disabled: disabled,
        kinds: all,
        route_indexes: route_indexes as u32,
        phys: phys as u32,
    }
}

// The fresh shelf, or refusal 3 and the shelf that was there.
pub(crate) fn make(shelf: Shelf, phys: u8, route_indexes: u16, kinds: &[u8]) -> Stepped
    ensures { result ≡ made shelf phys route_indexes kinds.now }
{
    if !is_told(phys, route_indexes, kinds) {
        return stepped_to(shelf, Err(frames::refused(3)));
    }
    stepped_to(fresh_shelf(phys, route_indexes, kinds), Ok(0x00))
}
