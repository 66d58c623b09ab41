// The receiving end's call in numbers.
ghost use Rattle.std.specs.Prelude.{◌≡◌};
ghost use Rattle.receive_answer.specs.Answer.{arrival_of};
ghost use Rattle.receive.specs.Receive.{received};
ghost use Rattle.exports.specs.Numbers.{network_of, reception_done, reception_done_of};

use receive_answer::{Arrival, Network};

// The network of a number: 0 is network A, any other number network B.
fn network_of(number: u8) -> Network
    ensures { result ≡ network_of number }
{
    if number == 0 { Network::A } else { Network::B }
}

// Receives a frame on a link and a network: returns the number of the answer; the link's memory changes in place.
#[unsafe(no_mangle)]
pub extern "C" fn ashthulgo_receive(
    link: u16,
    network: u8,
    number: u8,
    time: u64,
    rows: &[u8],
    memory: &mut [u64],
) -> u8
    ensures { reception_done result memory.new
        ≡ reception_done_of (received rows.now memory.old (arrival_of link (network_of network) number time)) }
{
    let frame = Arrival {
        link,
        network: network_of(network),
        number,
        time,
    };
    receive::receive(frame, rows, memory).into()
}
