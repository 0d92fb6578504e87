// What C lends: the port as 66 bytes.
ghost use Rattle.std.specs.Prelude.{cond, ◌≡◌, ◌≤◌};
ghost use Rattle.capi.specs.Port.{port_of};
ghost use Rattle.capi.specs.Port.Bytes.{bytes_of};

use serial_port::port::Port;
use text::written::put_bytes;

// A byte as a count.
pub(crate) fn count(b: u8) -> usize
    ensures { result ≡ b }
{
    b as usize
}

// The port that 66 bytes say.
pub(crate) fn port_of(port: &[u8; 66]) -> Port
    ensures { result ≡ port_of port.now }
{
    let mut held = [0u8; 64];
    let bytes: &[u8] = port;
    put_bytes(&mut held, 0, &bytes[2..]);
    Port {
        held: held,
        len: count(port[0]),
        overrun: port[1] != 0,
    }
}

// The byte of a flag.
pub(crate) fn flag_byte(is: bool) -> u8
    ensures { result ≡ cond is 1 0 }
{
    if is { 1 } else { 0 }
}

// Stores a port in 66 bytes.
pub(crate) fn store(port: &mut [u8; 66], q: Port)
    requires { q.len ≤ 64 }
    ensures { port.new ≡ bytes_of q }
{
    let held = q.held;
    let bytes: &mut [u8] = port;
    bytes[0] = q.len as u8;
    bytes[1] = flag_byte(q.overrun);
    put_bytes(bytes, 2, &held);
}
