// Writes short REPORT GENERAL and DISCOVER responses: every byte and bit that reading ignores is zero.
ghost use Rattle.std.specs.Prelude.{◌≡◌, length};
ghost use Rattle.frames.specs.Sizes.{short_size};
ghost use Rattle.frames.specs.declared.Response.TheVariants.{ReportGeneral, Discover as DiscoverResponse};
ghost use Rattle.cards.specs.ShortFrames.{short_general, short_vacant, short_discover};

use wiring::{Discover, General};

// Writes a REPORT GENERAL response into 28 bytes.
pub(crate) fn put_general(frame: &mut [u8], g: General)
    requires { length frame.old ≡ short_size ReportGeneral }
    ensures { frame.new ≡ short_general g }
{
    frame.fill(0);
    frame[0] = 0x41;
    frame[6] = (g.route_indexes / 256 % 256) as u8;
    frame[7] = (g.route_indexes % 256) as u8;
    frame[9] = g.phys;
    frame[10] = g.configurable;
}

// Writes the DISCOVER response of a vacant phy into 52 bytes.
pub(crate) fn put_vacant(frame: &mut [u8], res: u8)
    requires { length frame.old ≡ short_size DiscoverResponse }
    ensures { frame.new ≡ short_vacant res }
{
    frame.fill(0);
    frame[0] = 0x41;
    frame[1] = 0x10;
    frame[2] = res;
}

// Writes the DISCOVER response of a phy that is not vacant into 52 bytes.
pub(crate) fn put_discover(frame: &mut [u8], d: Discover)
    requires { length frame.old ≡ short_size DiscoverResponse }
    ensures { frame.new ≡ short_discover d }
{
    frame.fill(0);
    frame[0] = 0x41;
    frame[1] = 0x10;
    frame[9] = d.identifier.0;
    frame[12] = d.device_type % 8 * 16;
    frame[32] = d.attached_phy.0;
    frame[44] = d.attribute % 16;
    wiring::put_address(&mut frame[16..24], d.own_address);
    wiring::put_address(&mut frame[24..32], d.attached_address);
}
