ghost use Rattle.std.specs.Prelude.{◌≡◌, ℕ, ◌+◌, ◌*◌, List};
ghost use Rattle.std.specs.Option.{option_map};
ghost use Rattle.messages.specs.Bytes.{field_and_rest};
ghost use Rattle.messages.specs.Reading.{Reads};

// The body of the field with this tag at the front of `from`, and what follows it. A field is a tag, the
// length of its body in two bytes, highest first, and the body.
pub fn take_field(from: &[u8], tag: u8) -> Option<(&[u8], &[u8])>
    ensures { Reads (λ (p : List ℕ × List ℕ). field_and_rest tag p.0 p.1) from.now (option_map (λ p. (p.0.now, p.1.now)) result) }
{
    let (first, body, rest) = split_field(from)?;
    if first == tag {
        Some((body, rest))
    } else {
        None
    }
}

// The tag and the body of the field at the front of `from`, and what follows it.
pub fn split_field(from: &[u8]) -> Option<(u8, &[u8], &[u8])>
    ensures { Reads (λ (p : ℕ × List ℕ × List ℕ). field_and_rest p.0 p.1 p.2) from.now (option_map (λ p. (p.0, p.1.now, p.2.now)) result) }
{
    let [tag, high, low, rest @ ..] = from else {
        return None;
    };
    let size = usize::from(u16::from_be_bytes([*high, *low]));
    let (body, after) = rest.split_at_checked(size)?;
    Some((*tag, body, after))
}
