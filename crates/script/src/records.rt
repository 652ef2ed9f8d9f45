ghost use Rattle.std.specs.Prelude.{◌≡◌, ◌+◌, ◌*◌, ◌<◌, IfOk, IfErr};
ghost use Rattle.script.specs.Records.{readable, Holds, Fails, Says, seen, ValueSays, piece_seen, outcome, Next, decoded, record_as, piece_of};

use crate::fault::{Fault, FaultKind};
use crate::field::{Field, Reader};
use crate::record::{Entry, Part, Record};
use protocol::firing::FiringKind;
use values::kind::Value;

// The page that these two bytes say.
fn page(high: u8, low: u8) -> u16
    ensures { result ≡ high * 256 + low }
{
    u16::from_be_bytes([high, low])
}

const PADDING: u8 = 0;

impl<'a> Field<'a> {
    // A value's part of the script, where it has the width of its kind and reads.
    fn value<V: Value>(self, bytes: &'a [u8]) -> Result<Part<'a>, FaultKind>
        ensures { ValueSays V.width (readable V.reads) bytes.entry.now self.entry.at (piece_seen result) }
    {
        if bytes.len() != V::width() {
            return Err(FaultKind::WrongLength);
        }
        if V::read(bytes).is_none() {
            return Err(FaultKind::Unreadable);
        }
        Ok(Part { bytes, at: self.at })
    }

    // The record that the field holds, where it is no padding, or what is wrong with it.
    fn read<V: Value>(self) -> Result<Record<Part<'a>>, FaultKind>
        ensures holds { IfOk result (λ r. Holds V.width (readable V.reads) self.entry.tag self.entry.body.now self.entry.at (record_as piece_of r)) }
        ensures fails { 0 < self.entry.tag → IfErr result (Fails V.width (readable V.reads) self.entry.tag self.entry.body.now self.entry.at) }
    {
        match (self.tag, self.body) {
            (1, [stations, high, low, room]) => Ok(Record::Prepare {
                stations: *stations,
                pages: page(*high, *low),
                room: *room,
            }),
            (2, [high, low, bytes @ ..]) => Ok(Record::Set {
                page: page(*high, *low),
                value: self.value::<V>(bytes)?,
            }),
            (3, []) => Ok(Record::Start),
            (4, [station, high, low]) => Ok(Record::Load {
                station: *station,
                page: page(*high, *low),
            }),
            (5, [station, high, low, bytes @ ..]) => Ok(Record::Store {
                station: *station,
                page: page(*high, *low),
                value: self.value::<V>(bytes)?,
            }),
            (6, [kind, station]) => Ok(Record::Fire {
                kind: FiringKind::try_from(*kind)?,
                station: *station,
            }),
            (7, []) => Ok(Record::Close),
            (8, [high, low]) => Ok(Record::Readout {
                page: page(*high, *low),
            }),
            (1..=8, _) => Err(FaultKind::WrongLength),
            _ => Err(FaultKind::UnknownTag),
        }
    }

    // The same, and the byte of the field beside a fault.
    fn record<V: Value>(self) -> Result<Record<Part<'a>>, Fault>
        ensures { 0 < self.entry.tag → Says V.width (readable V.reads) self.entry.tag self.entry.body.now self.entry.at (seen result) }
    {
        self.read::<V>().map_err(|kind| kind.at(self.at))
    }
}

impl<'a> Reader<'a> {
    // The next record, past any padding, or nothing at the end of the script.
    pub fn next_record<V: Value>(&mut self) -> Result<Option<Entry<'a>>, Fault>
        ensures next { Next V.width (readable V.reads) self.old.script.now self.old.at (outcome result) self.new.at }
        ensures script { self.new.script.now ≡ self.old.script.now }
    {
        while let Some(field) = self.next_field()? {
            if field.tag != PADDING {
                let record = field.record::<V>()?;
                return Ok(Some(Entry {
                    at: field.at,
                    record,
                }));
            }
        }
        Ok(None)
    }
}

// The record with its value in place of the value's bytes, where they read.
pub fn decode<V: Value>(coded: Record<Part<'_>>) -> Option<Record<V>>
    ensures { result ≡ decoded V.reads (record_as piece_of coded.entry) }
{
    Some(match coded {
        Record::Prepare {
            stations,
            pages,
            room,
        } => Record::Prepare {
            stations,
            pages,
            room,
        },
        Record::Set { page, value } => Record::Set {
            page,
            value: V::read(value.bytes)?,
        },
        Record::Start => Record::Start,
        Record::Load { station, page } => Record::Load { station, page },
        Record::Store {
            station,
            page,
            value,
        } => Record::Store {
            station,
            page,
            value: V::read(value.bytes)?,
        },
        Record::Fire { kind, station } => Record::Fire { kind, station },
        Record::Close => Record::Close,
        Record::Readout { page } => Record::Readout { page },
    })
}
