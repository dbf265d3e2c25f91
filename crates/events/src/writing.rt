// Writes an event into the file.
ghost use Rattle.std.specs.Prelude.{◌≡◌, cond, ◌+◌, ◌≤◌, ◌<◌, length, set, eqb};
ghost use Rattle.std.proofs.lemmas.List.Edits.{sets};
ghost use Rattle.frames.specs.Bytes.{bytes_of};
ghost use Rattle.events.specs.EventFile.{typed, frame_edited};

// Byte 12 of a DISCOVER response with this attached device type.
fn with_type(device_type: u8, b: u8) -> u8
    requires { device_type < 8 }
    ensures { result ≡ typed device_type b }
{
    b / 128 * 128 + (device_type * 16 + b % 16)
}

// The attached device type that an event with address a sets: 1, or 0 for a pull.
fn drive_type(a: u64) -> u8
    ensures { (result ≡ cond (eqb a 0) 0 1) × (result < 8) }
{
    if a > 0 {
        return 1;
    }
    0
}

// Writes attached phy 0 and attached address a into the DISCOVER response at `at`.
fn attach_at(file: &mut [u8], at: usize, a: u64)
    requires { at + 33 ≤ length file.old }
    ensures { file.new ≡ sets (set file.old (at + 32) 0) (at + 24) (bytes_of 8 a) }
{
    file[at + 32] = 0;
    wiring::put_address(&mut file[at + 24..], a);
}

// Writes what an event with address a makes of the DISCOVER response at `at`. A pull sets the type alone.
pub(crate) fn edit_frame(file: &mut [u8], at: usize, a: u64)
    requires { at + 33 ≤ length file.old }
    ensures { file.new ≡ frame_edited a at file.old }
{
    file[at + 12] = with_type(drive_type(a), file[at + 12]);
    if a == 0 {
        return;
    }
    attach_at(file, at, a);
}
