ghost use Rattle.std.specs.Prelude.{◌≡◌};
ghost use Rattle.values.specs.Writing.{written};
ghost use Rattle.messages.specs.Bytes.{message_bytes};
ghost use Rattle.messages.specs.RoundTrip.{itself, RoundTripHolds};
ghost use Rattle.messages.specs.Examples.{ShareReplyOfPage5WithCount300, InvalidateRequestOfPage258};

use crate::codec::{read, write};
use crate::message::Message;
use values::buffer::TooShort;
use values::kind::Value;

// The theorem of writing and reading messages, for every message and all bytes.
fn round_trip_holds<V: Value>()
    ensures { RoundTripHolds V.bytes V.width }
{}

// Writes the message at the front of `out` and reads what was written, which is the message itself.
pub fn read_back<V: Value>(
    message: &Message<V>,
    out: &mut [u8],
) -> Result<Option<Message<V>>, TooShort>
    ensures answer { result ≡ itself V.bytes message.now out.old }
    ensures buffer { out.new ≡ written (message_bytes V.bytes message.now) out.old }
    ensures theorem { RoundTripHolds V.bytes V.width }
{
    round_trip_holds::<V>();
    let size = write(message, out)?;
    Ok(read(&out[0..size]))
}

// Worked examples of messages in bytes.
pub fn examples_hold()
    ensures reply { ShareReplyOfPage5WithCount300 }
    ensures request { InvalidateRequestOfPage258 }
{}
