ghost use Rattle.std.specs.Prelude.{◌≡◌, List, ℕ, ◌++◌, OnOk, OnErr, IfOk, string_bytes};
ghost use Rattle.listing.specs.Words.{meaning};
ghost use Rattle.listing.specs.Lines.{record_line, fault_line, Listing};

use crate::words::{Listed, Meaning};
use script::fault::Fault;
use script::field::Reader;
use script::record::Record;
use script::records::decode;
use std::alloc::{AllocError, Global};
use std::fmt;
use values::kind::Value;

// Writes the line of a record: its number, the byte where its field begins and what it means. Where memory wants, nothing is
// known of the text.
fn write_record<V: Value + fmt::Display>(
    text: &mut String,
    number: u32,
    at: usize,
    record: Record<V>,
) -> Result<(), AllocError>
    ensures { (said : List ℕ) → meaning V.output «record» ≡ Some said → OnOk result (string_bytes text.new ≡ string_bytes text.old ++ record_line number at said) }
{
    let meaning = Meaning { record };
    write!(text, "{number} byte {at}: {meaning}\n")
}

// Writes the line of a fault: the number that its record would have had, its byte, its layer and number, and what they mean.
fn write_fault(text: &mut String, number: u32, fault: Fault) -> Result<(), AllocError>
    ensures { OnOk result (string_bytes text.new ≡ string_bytes text.old ++ fault_line number fault) }
{
    let at = fault.at;
    let kind = fault.kind;
    let layer = u8::from(kind.layer());
    let code = u8::from(kind);
    write!(text, "{number} byte {at}: fault {layer} {code}: {kind}\n")
}

// Adds the line of a record to the text. The line is made apart, so that where memory wants the text is as it was.
pub fn record_line<V: Value + fmt::Display>(
    text: &mut String,
    number: u32,
    at: usize,
    record: Record<V>,
) -> Result<(), AllocError>
    ensures written { (said : List ℕ) → meaning V.output «record» ≡ Some said → OnOk result (string_bytes text.new ≡ string_bytes text.old ++ record_line number at said) }
    ensures kept { OnErr result (string_bytes text.new ≡ string_bytes text.old) }
{
    let mut line = String::new(*text.allocator());
    write_record(&mut line, number, at, record)?;
    text.push_str(line.as_str())
}

// Adds the line of a fault to the text; where memory wants, the text is as it was.
pub fn fault_line(text: &mut String, number: u32, fault: Fault) -> Result<(), AllocError>
    ensures written { OnOk result (string_bytes text.new ≡ string_bytes text.old ++ fault_line number fault) }
    ensures kept { OnErr result (string_bytes text.new ≡ string_bytes text.old) }
{
    let mut line = String::new(*text.allocator());
    write_fault(&mut line, number, fault)?;
    text.push_str(line.as_str())
}

// The listing of a script of values of the kind `V`. Want of memory is the one error, and no contract can say
// when it comes.
pub fn list<V: Listed>(heap: Global, script: &[u8]) -> Result<String, AllocError>
    ensures { IfOk result (λ text. Listing V.width V.reads V.output script.now (string_bytes text)) }
{
    let mut text = String::new(heap);
    let mut reader = match Reader::new(script) {
        Ok(reader) => reader,
        Err(fault) => {
            write_fault(&mut text, 0, fault)?;
            return Ok(text);
        }
    };
    let mut number = 1;
    // A fault ends the text and is no error of this call, so no `?` serves here; and a `for` over `1..` has an end, at the
    // top of its type, that would have to be shown not to be reached.
    loop {
        let found = match reader.next_record::<V>() {
            Ok(found) => found,
            Err(fault) => {
                write_fault(&mut text, number, fault)?;
                return Ok(text);
            }
        };
        let Some(next) = found else {
            return Ok(text);
        };
        let Some(record) = decode::<V>(next.record) else {
            unreachable!()
        };
        write_record(&mut text, number, next.at, record)?;
        number += 1;
    }
}
