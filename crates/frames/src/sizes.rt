// The size of a response, by its byte 3, RESPONSE LENGTH: 00h in a short frame, and in a long one the
// value of that response.
ghost use Rattle.std.specs.Prelude.{◌≡◌};
ghost use Rattle.frames.specs.Sizes.{short_size, long_size, long_length, size_stated, frame_size};

use crate::{Refusal, Response, refusals};

// Byte 3 of a long response.
fn long_length(kind: Response) -> u8
    ensures { result ≡ long_length kind }
{
    match kind {
        Response::ReportGeneral => 0x10,
        Response::Discover => 0x0f,
    }
}

// The bytes of a short response.
fn short_size(kind: Response) -> usize
    ensures { result ≡ short_size kind }
{
    match kind {
        Response::ReportGeneral => crate::GENERAL_BYTES,
        Response::Discover => crate::DISCOVER_BYTES,
    }
}

// The bytes of a long response.
fn long_size(kind: Response) -> usize
    ensures { result ≡ long_size kind }
{
    match kind {
        Response::ReportGeneral => crate::LONG_GENERAL_BYTES,
        Response::Discover => crate::LONG_DISCOVER_BYTES,
    }
}

// The size that byte 3 states. Any value but 00h and that of a long response is 2.
fn size_stated(kind: Response, b: u8) -> Result<usize, Refusal>
    ensures { result ≡ size_stated kind b }
{
    if b == 0x00 {
        return Ok(short_size(kind));
    }
    if b == long_length(kind) {
        return Ok(long_size(kind));
    }
    Err(refusals::refused(2))
}

// The size of the frame that starts with these bytes. Fewer than four are 1; byte 3 states the size (2).
pub fn frame_size(kind: Response, frame: &[u8]) -> Result<usize, Refusal>
    ensures { result ≡ frame_size kind frame.now }
{
    if frame.len() < 4 {
        return Err(refusals::refused(1));
    }
    size_stated(kind, frame[3])
}
