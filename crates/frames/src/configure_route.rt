// CONFIGURE ROUTE INFORMATION requests.
ghost use Rattle.std.specs.Prelude.{◌≡◌, ◌++◌, ◌≤◌, length, drop};
ghost use Rattle.frames.specs.ConfigureRoute.{is_length, disable_byte, route_frame, route_written, write_answer, buffer_after, part_after, route_fixed, is_disabled, route_read};

use crate::{PhyId, Refusal, Route, RouteIndex, bytes, refusals};

// Whether byte 3, REQUEST LENGTH, may be this: 00h or 09h.
fn is_length(b: u8) -> bool
    ensures { result ≡ is_length b }
{
    if b == 0x00 {
        return true;
    }
    b == 0x09
}

// Byte 12: bit 7 is set where the entry is disabled.
fn disable_byte(disabled: bool) -> u8
    ensures { result ≡ disable_byte disabled }
{
    if disabled {
        return 1 << 7;
    }
    0
}

// Writes the forty bytes of the request at the front of a buffer that has room for them.
fn put_frame(buf: &mut [u8], request: Route)
    requires { 40 ≤ length buf.old }
    ensures { buf.new ≡ route_frame request ++ drop 40 buf.old }
{
    let index = request.index.0;
    let disable = disable_byte(request.disabled);
    bytes::clear_front(buf, crate::ROUTE_BYTES);
    buf[0] = 0x40;
    buf[1] = 0x90;
    buf[3] = request.length;
    buf[9] = request.phy.0;
    buf[12] = disable;
    bytes::put_number(buf, 6, 2, index as u64);
    bytes::put_number(buf, 16, 8, request.address);
}

// Whether a request can be written into the buffer: REQUEST LENGTH (2), the phy (15), then the room (16).
// It is given what the writers are given, and writes nothing.
pub fn route_refusal(buf: &[u8], request: Route) -> Result<(), Refusal>
    ensures { write_answer request result ≡ route_written (length buf.now) request }
{
    let stated = is_length(request.length);
    let identifier = request.phy.0;
    if !stated {
        return Err(refusals::refused(2)); // REQUEST LENGTH
    }
    if identifier > 127 {
        return Err(refusals::refused(15));
    }
    if buf.len() < crate::ROUTE_BYTES {
        return Err(refusals::refused(16));
    }
    Ok(())
}

// Writes the request at the front of the buffer. The bytes after the forty stay, and all of them
// where it is refused.
pub fn put_route(buf: &mut [u8], request: Route) -> Result<(), Refusal>
    ensures { (write_answer request result ≡ route_written (length buf.old) request) × (buf.new ≡ buffer_after buf.old (route_written (length buf.old) request)) }
{
    route_refusal(&*buf, request)?;
    put_frame(buf, request);
    Ok(())
}

// Writes the request as put_route does, and hands back the forty bytes of the buffer that hold it:
// an empty part where it is refused.
pub fn write_route<'a>(buf: &'a mut [u8], request: Route) -> &'a mut [u8]
    ensures { (result.now ≡ part_after (route_written (length buf.old) request)) × (result.ref_ptr ≡ buf.entry.ref_ptr) }
{
    let answer = put_route(buf, request);
    match answer {
        Err(_) => &mut buf[..0],
        Ok(()) => &mut buf[..crate::ROUTE_BYTES],
    }
}

// Whether bytes 0, 1 and 3 are right.
fn is_fixed(frame: &[u8]) -> bool
    requires { length frame.now ≡ 40 }
    ensures { result ≡ route_fixed frame.now }
{
    if frame[0] != 0x40 {
        return false;
    }
    if frame[1] != 0x90 {
        return false;
    }
    is_length(frame[3])
}

// Whether the entry is disabled: bit 7 of byte 12.
fn is_disabled(frame: &[u8]) -> bool
    requires { length frame.now ≡ 40 }
    ensures { result ≡ is_disabled frame.now }
{
    (frame[12] >> 7) & 1 == 1
}

// Reads one request. Its length (1), bytes 0, 1 and 3 (2) and phy (15) are checked in this order.
pub fn read_route(frame: &[u8]) -> Result<Route, Refusal>
    ensures { result ≡ route_read frame.now }
{
    if frame.len() != crate::ROUTE_BYTES {
        return Err(refusals::refused(1));
    }
    if !is_fixed(frame) {
        return Err(refusals::refused(2));
    }
    let phy = frame[9];
    if phy > 127 {
        return Err(refusals::refused(15));
    }
    Ok(Route {
        length: frame[3],
        phy: PhyId(phy),
        index: RouteIndex(bytes::number_at(frame, 6, 2) as u16),
        address: bytes::address_at(frame, 16),
        disabled: is_disabled(frame),
    })
}
