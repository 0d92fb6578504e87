// The port: it collects bytes into lines, and answers each line once.
ghost use Rattle.std.specs.Prelude.{true, [], ◌∷◌, ◌≡◌, ◌≤◌, length};
ghost use Rattle.room.specs.Table.{record_limit, sound};
ghost use Rattle.syntax.specs.Shape.{line_limit};
ghost use Rattle.values.specs.Room.{room_of};
ghost use Rattle.values.specs.Values.{values_sound};
ghost use Rattle.serial_port.specs.Call.{Answers};
ghost use Rattle.serial_port.specs.Call.Finishing.{Finishes};
ghost use Rattle.serial_port.specs.Call.Rules.{refusal};
ghost use Rattle.serial_port.specs.Port.{Gathers, fresh, view};
ghost use Rattle.serial_port.specs.Refusal.{reply_limit};
ghost use Rattle.serial_port.specs.Server.{control_space};
ghost use Rattle.serial_port.specs.Port.Collecting.{Collects};

use crate::refusal::{check_call, check_claim};
use line::answer::{Answered, answer_line};
use spelling::acknowledgement::put_nak;
use syntax::cause::{Cause, Malformed};
use text::cut::find;
use text::written::put_bytes;

// The bytes of the unfinished line, how many they are, and whether the line has overrun.
#[derive(Clone, Copy)]
pub struct Port {
    pub held: [u8; Port::HELD],
    pub len: usize,
    pub overrun: bool,
}

// The port with the longer line, how many bytes were consumed, and whether they finished the line.
#[derive(Clone, Copy)]
pub struct Gathered {
    pub port: Port,
    pub consumed: usize,
    pub finished: bool,
}

// The port handed back, how many bytes were consumed and how many sent as the reply, why that is 99, and the number of a refusal or 0.
#[derive(Clone, Copy)]
pub struct Called {
    pub port: Port,
    pub consumed: usize,
    pub sent: usize,
    pub fault: Option<Malformed>,
    pub number: u8,
}

impl Port {
    // How many bytes a port may hold, how many bytes a reply buffer must have, and how many modules a table may have.
    pub const HELD: usize = crate::refusal::HELD;

    pub const REPLY: usize = crate::refusal::REPLY;

    pub const MODULES: usize = room::table::MODULES;

    // The three limits, for a caller that sizes its buffers: bytes held, bytes of a reply buffer, modules of a table.
    pub fn limits() -> [usize; 3]
        ensures { result ≡ line_limit ∷ reply_limit ∷ record_limit ∷ [] }
    {
        [Port::HELD, Port::REPLY, Port::MODULES]
    }

    // The port that holds nothing; what is stored past the held bytes is left open.
    pub fn fresh() -> Port
        ensures { (view result ≡ fresh) × (result.len ≡ 0) }
    {
        Port {
            held: [0; Port::HELD],
            len: 0,
            overrun: false,
        }
    }

    // The port with a longer line: bytes past the limit are not held, and the line has overrun.
    fn collect(self, more: &[u8]) -> Port
        requires { self.len ≤ 64 }
        ensures { Collects self more.now result }
    {
        let len = self.len;
        let mut held = self.held;
        if self.overrun {
            return self;
        }
        if more.len() <= Port::HELD - len {
            let end = put_bytes(&mut held, len, more);
            return Port {
                held: held,
                len: end,
                overrun: false,
            };
        }
        Port {
            held: held,
            len: len,
            overrun: true,
        }
    }

    // Collects the given bytes up to the first 0D, and tells whether there is one; no line is answered.
    pub fn gather(self, given: &[u8]) -> Gathered
        requires { self.len ≤ 64 }
        ensures { Gathers self given.now result }
    {
        let end = find(given, 0x0D);
        let port = self.collect(&given[..end]);
        if end == given.len() {
            return Gathered {
                port: port,
                consumed: end,
                finished: false,
            };
        }
        Gathered {
            port: port,
            consumed: end + 1,
            finished: true,
        }
    }

    // Answers the line that was collected; an overrun one gets 99.
    fn finish(self, table: &[u8], values: &mut [i64], reply: &mut [u8]) -> Answered
        requires table_value { (sound table.now ≡ true) × (values_sound (room_of table.now) values.old ≡ true) }
        requires in_bounds { (64 ≤ length reply.old) × (self.len ≤ 64) }
        ensures { Finishes (control_space (room_of table.now)) values.old self reply.old result values.new reply.new }
    {
        if self.overrun {
            return Answered {
                sent: put_nak(reply, 99),
                fault: Some(Malformed {
                    cause: Cause::Overrun,
                    place: 64,
                }),
            };
        }
        let len = self.len;
        let held = self.held;
        answer_line(table, values, &held[..len], reply)
    }

    // A call to which no refusal applies: gathers the given bytes, and answers the line that they finish.
    pub(crate) fn serve(
        self,
        table: &[u8],
        values: &mut [i64],
        given: &[u8],
        reply: &mut [u8],
    ) -> Called
        requires table_value { (sound table.now ≡ true) × (values_sound (room_of table.now) values.old ≡ true) }
        requires in_bounds { (64 ≤ length reply.old) × (self.len ≤ 64) }
        ensures { Answers (room_of table.now) values.old self given.now reply.old result values.new reply.new }
    {
        let gathered = self.gather(given);
        let port = gathered.port;
        if !gathered.finished {
            let fault = None;
            return Called {
                port,
                consumed: gathered.consumed,
                sent: 0,
                fault,
                number: 0,
            };
        }
        let answered = port.finish(table, values, reply);
        let fault = answered.fault;
        let next = Port::fresh();
        Called {
            port: next,
            consumed: gathered.consumed,
            sent: answered.sent,
            fault,
            number: 0,
        }
    }

    // The answer of a refusal: the port as it was given, zeros and no fault.
    fn refused(self, number: u8) -> Called
        ensures { result ≡ refusal self number }
    {
        Called {
            port: self,
            consumed: 0,
            sent: 0,
            fault: None,
            number: number,
        }
    }

    // A call whose table, values and reply buffer were tested already: refused with 4 where the port claims too much, or served.
    #[tactic(auto, using(crate::specs::Call::Serving::taking_tested))]
    pub fn take_tested(
        self,
        table: &[u8],
        values: &mut [i64],
        given: &[u8],
        reply: &mut [u8],
    ) -> Called
        requires { (sound table.now ≡ true) × (values_sound (room_of table.now) values.old ≡ true) × (64 ≤ length reply.old) }
        ensures { Answers (room_of table.now) values.old self given.now reply.old result values.new reply.new }
    {
        if let Err(refusal) = check_claim(self.len) {
            return self.refused(refusal.into());
        }
        self.serve(table, values, given, reply)
    }

    // A call: refused with the first number that applies in its order, or served.
    #[tactic(auto, using(crate::specs::Call::Serving::taking))]
    pub fn take(self, table: &[u8], values: &mut [i64], given: &[u8], reply: &mut [u8]) -> Called
        ensures { Answers (room_of table.now) values.old self given.now reply.old result values.new reply.new }
    {
        if let Err(refusal) = check_call(table, values, reply.len(), self.len) {
            return self.refused(refusal.into());
        }
        self.serve(table, values, given, reply)
    }
}
