// Replies, written into the lent buffer from a place on: the line of one register, and the block print.
ghost use Rattle.std.specs.Prelude.{◌≡◌, true, ◌<◌, nat_abs};
ghost use Rattle.register.specs.Registers.{count};
ghost use Rattle.total.specs.Total.{Timed, in_range};
ghost use Rattle.config.specs.Config.{node_rule, places_rule};
ghost use Rattle.line.specs.Buffer.{answer, after};
ghost use Rattle.effect.specs.Reply.{style, read_reply, print_reply};
ghost use Rattle.effect.specs.Values.{values};
ghost use Rattle.effect.specs.Able.{Able};

use block::Values;
use config::{Places, Talking, Working};
use instrument::Instrument;
use line::Style;

// The node as the byte that lines and addresses have it.
pub fn own_node(node: i32) -> u8
    requires { node_rule node ≡ true }
    ensures { result ≡ nat_abs node }
{
    node as u8
}

fn style(talking: Talking) -> Style
    requires { node_rule talking.node ≡ true }
    ensures { result ≡ style talking }
{
    Style {
        node: own_node(talking.node),
        abbreviated: talking.abbreviated,
    }
}

// T: the line of one register.
#[tactic(auto, using(crate::proofs::Shows::writable), unfolding(crate::specs::Reply::read_reply))]
pub fn read(
    talking: Talking,
    working: Working,
    i: Instrument,
    register: usize,
    buffer: &mut [u8],
    place: usize,
) -> Option<usize>
    requires able { Able talking working i }
    requires register_lt_count { register < count }
    ensures value { result ≡ answer buffer.old place (read_reply talking working i register) }
    ensures buffer_after { buffer.new ≡ after buffer.old place (read_reply talking working i register) }
{
    let places = operating::places_at(talking.places, register);
    let shown = operating::shown_at(working, i, register);
    line::write_line(buffer, place, style(talking), register, places, shown)
}

// What a block shows.
fn values(places: Places, working: Working, i: Instrument) -> Values
    requires places_value { places_rule places ≡ true }
    requires timed { Timed working.totalizer }
    requires total_value { in_range working.totalizer i.measured.total ≡ true }
    ensures { result ≡ values places working i }
{
    let shown = block::Places {
        input: operating::places_at(places, register::INP),
        total: operating::places_at(places, register::TOT),
    };
    let input = operating::shown_at(working, i, register::INP);
    let total = operating::shown_at(working, i, register::TOT);
    let max = operating::shown_at(working, i, register::MAX);
    let min = operating::shown_at(working, i, register::MIN);
    Values {
        places: shown,
        input,
        total,
        max,
        min,
        setpoints: alarms::setpoints(i.alarms),
    }
}

// P and key 6: the block.
#[tactic(auto, using(crate::proofs::Shows::printable, crate::proofs::Shows::block_is))]
pub fn print(
    talking: Talking,
    working: Working,
    i: Instrument,
    buffer: &mut [u8],
    place: usize,
) -> Option<usize>
    requires { Able talking working i }
    ensures value { result ≡ answer buffer.old place (print_reply talking working i) }
    ensures buffer_after { buffer.new ≡ after buffer.old place (print_reply talking working i) }
{
    let values = values(talking.places, working, i);
    block::write_block(buffer, place, style(talking), talking.print, values)
}
