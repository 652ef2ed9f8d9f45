ghost use Rattle.std.specs.Prelude.{◌≡◌, ℕ, List, ◌∷◌, ◌++◌};
ghost use Rattle.std.specs.Option.{option_map};
ghost use Rattle.values.specs.Writing.{answered, written};
ghost use Rattle.messages.specs.Bytes.{word, kind_and_page, kind_number, value_tag, field, message_bytes, max_size};
ghost use Rattle.messages.specs.Reading.{Reads};

use crate::field::take_field;
use crate::message::{Kind, Message};
use values::buffer::{TooShort, put_front};
use values::kind::Value;

// The tag of each field.
#[derive(Clone, Copy)]
enum Tag {
    Kind = 1,
    Page = 2,
    Value = 3,
}

// How many bytes a kind and a page have.
const KIND_SIZE: u8 = 1;

const PAGE_SIZE: u8 = 2;

// How many bytes a message without a value has.
pub const PLAIN_SIZE: usize = 9;

// How many bytes of a message stand before its value.
const HEADER_SIZE: usize = 12;

// How many bytes a message has at the most.
pub fn max_size<V: Value>() -> usize
    ensures { result ≡ max_size V.width }
{
    V::width() + HEADER_SIZE
}

// Writes the message's bytes at the front of `out` and says how many; a buffer too short is left as it was.
pub fn write<V: Value>(message: &Message<V>, out: &mut [u8]) -> Result<usize, TooShort>
    ensures answer { result ≡ answered (message_bytes V.bytes message.now) out.old }
    ensures buffer { out.new ≡ written (message_bytes V.bytes message.now) out.old }
{
    let header = header(message);
    match message.kind.value() {
        None => put_front(&header[0..PLAIN_SIZE], out),
        Some(value) => put_header_and_value(&header, value, out),
    }
}

// The bytes before the value of a message. One without a value has all but the last three.
fn header<V: Value>(message: &Message<V>) -> [u8; HEADER_SIZE]
    ensures { result ≡ kind_and_page (kind_number message.now.kind) message.now.page (value_tag ∷ word V.width) }
{
    let number = message.kind.number();
    let [page_high, page_low] = two_bytes(message.page);
    let [high, low] = two_bytes(V::width() as u16);
    // The zeros are the high bytes of sizes below 256.
    [
        Tag::Kind as u8,
        0,
        KIND_SIZE,
        number,
        Tag::Page as u8,
        0,
        PAGE_SIZE,
        page_high,
        page_low,
        Tag::Value as u8,
        high,
        low,
    ]
}

// The number in two bytes, highest first. It stands apart, because the proof of `header` has no bound of the width.
fn two_bytes(number: u16) -> [u8; 2]
    ensures { result ≡ word number }
{
    number.to_be_bytes()
}

// Writes the header and then the value's bytes, as `write` does a message's.
fn put_header_and_value<V: Value>(
    header: &[u8],
    value: &V,
    out: &mut [u8],
) -> Result<usize, TooShort>
    ensures answer { result ≡ answered (header.now ++ V.bytes value.now) out.old }
    ensures buffer { out.new ≡ written (header.now ++ V.bytes value.now) out.old }
{
    let start = header.len();
    if out.len() < start {
        return Err(TooShort);
    }
    // The value goes first, since it alone may still be refused.
    let size = value.write(&mut out[start..])?;
    out[0..start].copy_from_slice(header);
    Ok(start + size)
}

// The message whose bytes these are, if there is one.
pub fn read<V: Value>(from: &[u8]) -> Option<Message<V>>
    ensures { Reads (message_bytes V.bytes) from.now result }
{
    let (number, page, rest) = read_kind_and_page(from)?;
    let value = match rest {
        [] => None,
        field => Some(read_value(field)?),
    };
    let kind = Kind::from_parts(number, value)?;
    Some(Message { page, kind })
}

// The number of the kind, the page and what follows their fields.
fn read_kind_and_page(from: &[u8]) -> Option<(u8, u16, &[u8])>
    ensures { Reads (λ (p : ℕ × ℕ × List ℕ). kind_and_page p.0 p.1 p.2) from.now (option_map (λ p. (p.0, p.1, p.2.now)) result) }
{
    let (number, rest) = take_field(from, Tag::Kind as u8)?;
    let (page, rest) = take_field(rest, Tag::Page as u8)?;
    let [number] = number else {
        return None;
    };
    let page = u16::from_be_bytes(page.try_into().ok()?);
    Some((*number, page, rest))
}

// The value in the field that these bytes are.
fn read_value<V: Value>(from: &[u8]) -> Option<V>
    ensures { Reads (λ value. field value_tag (V.bytes value)) from.now result }
{
    let (body, rest) = take_field(from, Tag::Value as u8)?;
    if rest.is_empty() { V::read(body) } else { None }
}
