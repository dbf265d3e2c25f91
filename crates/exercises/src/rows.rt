// The rows of an exercise.
ghost use Rattle.std.specs.Prelude.{◌≡◌, [], ◌∷◌, map, suc, ◌≤◌, ◌*◌, length};
ghost use Rattle.std.proofs.lemmas.List.Edits.{sets};
ghost use Rattle.files.specs.Rows.{phy_words, row_of, rows_of, row_words};
ghost use Rattle.exercises.specs.Rig.{drive, toward, first_of, second_of};

use wiring::{ExpanderUnit, Phy, PhyFields, PhyId};

// The phy of a word: direct, to the word's drive or, for a zero word, to nothing.
fn drive(word: u64) -> Phy
    ensures { result ≡ drive word }
{
    if word == 0 {
        return Phy::Present(PhyFields {
            device_type: 0,
            attribute: 0,
            address: 0,
            attached_phy: PhyId(0),
        });
    }
    Phy::Present(PhyFields {
        device_type: 1,
        attribute: 0,
        address: word,
        attached_phy: PhyId(0),
    })
}

// A phy to phy 0 of the expander with this address.
fn toward(address: u64, attribute: u8) -> Phy
    ensures { result ≡ toward address attribute }
{
    Phy::Present(PhyFields {
        device_type: 2,
        attribute: attribute,
        address: address,
        attached_phy: PhyId(0),
    })
}

// Stores the phys of the words in a row, from phy 1 on.
fn put_drives(row: &mut [u64], words: &[u64])
    requires { (length row.old ≡ row_words) × (length words.now ≤ 127) }
    ensures { row.new ≡ sets row.old 4 (phy_words (map drive words.now)) }
{
    for k in 0..words.len() {
        let f = drive(words[k]);
        let at = 4 + 2 * k;
        row[at] = wiring::phy_address(f);
        row[at + 1] = wiring::phy_word(f);
    }
}

// Writes the row of an expander: its first phy, then a phy for each of the words.
fn put_row(row: &mut [u64], unit: ExpanderUnit, link: Phy, words: &[u64])
    requires { ((length row.old ≡ row_words) × (length words.now ≤ 127)) × (unit.phys ≡ suc (length words.now)) }
    ensures { row.new ≡ row_of (record { address = unit.address; route_indexes = unit.route_indexes; configurable = unit.configurable; phys = link ∷ map drive words.now }) }
{
    let head = wiring::head_word(unit);
    wiring::clear(row);
    row[0] = unit.address;
    row[1] = head;
    row[2] = wiring::phy_address(link);
    row[3] = wiring::phy_word(link);
    put_drives(row, words);
}

// Writes the rows of the two expanders, with addresses a and b: R, and the words that have a phy.
pub(crate) fn put_rig(rows: &mut [u64], a: u64, b: u64, route_indexes: u16, words: &[u64])
    requires { (length rows.old ≡ 2 * row_words) × (length words.now ≤ 127) }
    ensures { rows.new ≡ rows_of (first_of a b route_indexes ∷ second_of a b words.now ∷ []) }
{
    let first = ExpanderUnit {
        address: a,
        route_indexes: route_indexes,
        phys: 1,
        configurable: 1,
    };
    let second = ExpanderUnit {
        address: b,
        route_indexes: 0,
        phys: words.len() as u8 + 1,
        configurable: 0,
    };
    put_row(
        &mut rows[..files::ROW_WORDS],
        first,
        toward(b, 2),
        &words[..0],
    );
    put_row(&mut rows[files::ROW_WORDS..], second, toward(a, 1), words);
}
