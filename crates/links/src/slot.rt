ghost use Rattle.std.specs.Prelude.{◌≡◌, ℕ, ◌/◌, ◌<◌, length, slice_index_or, slice_set};
ghost use Rattle.messages.specs.Bytes.{max_size};
ghost use Rattle.links.specs.Slots.{front_message, slots};

use messages::codec::{PLAIN_SIZE, max_size, read, write};
use messages::message::{Kind, Message};
use values::kind::Value;

// How many slots so many bytes have.
pub(crate) fn slot_count<V: Value>(size: usize) -> usize
    ensures { result ≡ size / max_size V.width }
{
    size / max_size::<V>()
}

// The message in a slot.
#[tactic(auto, using(crate::proofs::Slots::slot_ends))]
pub(crate) fn read_slot<V: Value>(memory: &[u8], place: usize) -> Message<V>
    requires { place < length (slots V.bytes V.reads V.width memory.now) }
    ensures { result ≡ slice_index_or (slots V.bytes V.reads V.width memory.now) place result }
{
    let size = max_size::<V>();
    let start = place * size;
    front_message(&memory[start..start + size])
}

// Puts a message into a slot, by the slot's bounds: of what is written through `chunks_exact_mut` a proof knows the length
// alone.
#[tactic(auto, using(crate::proofs::Slots::slot_ends))]
pub(crate) fn write_slot<V: Value>(memory: &mut [u8], place: usize, message: &Message<V>)
    requires { place < length (slots V.bytes V.reads V.width memory.old) }
    ensures { slots V.bytes V.reads V.width memory.new ≡ slice_set (slots V.bytes V.reads V.width memory.old) place message.now }
{
    let size = max_size::<V>();
    let start = place * size;
    // A slot is never too short.
    let _ = write(message, &mut memory[start..start + size]);
}

// The message at the front of a slot; one without a value leaves the end of its slot as it was.
fn front_message<V: Value>(slot: &[u8]) -> Message<V>
    requires { length slot.now ≡ max_size V.width }
    ensures { result ≡ front_message V.bytes V.reads V.width slot.now }
{
    if let Some(message) = read(slot) {
        return message;
    }
    // Where there is none, no message was written here.
    read(&slot[0..PLAIN_SIZE]).unwrap_or(Message {
        page: 0,
        kind: Kind::ShReq,
    })
}
