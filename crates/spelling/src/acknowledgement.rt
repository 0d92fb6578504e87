// ACK, and NAK with a code, written at the start of the reply buffer.
ghost use Rattle.std.specs.Prelude.{◌<◌, ◌≤◌, length};
ghost use Rattle.text.specs.Written.{Wrote};
ghost use Rattle.spelling.specs.Acknowledgement.{ack, nak};

use text::written::put_bytes;

pub fn put_ack(reply: &mut [u8]) -> usize
    requires { 2 ≤ length reply.old }
    ensures { Wrote reply.old 0 ack result reply.new }
{
    let text = [0x06, 0x0D];
    put_bytes(reply, 0, &text)
}

pub fn put_nak(reply: &mut [u8], code: u8) -> usize
    requires code_bound { code < 100 }
    requires in_bounds { 4 ≤ length reply.old }
    ensures { Wrote reply.old 0 (nak code) result reply.new }
{
    let text = [0x15, b'0' + code / 10, b'0' + code % 10, 0x0D];
    put_bytes(reply, 0, &text)
}
