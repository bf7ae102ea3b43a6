// The lines in which the tests write lives, and the events that they represent.
ghost use Rattle.std.specs.Prelude.{◌≡◌, length, All, IfOk, IfSome};
ghost use Rattle.silt_event.specs.Events.{HasValueOf};

use silt_event::Event;
use silt_fixtures::key;
use silt_frame::Value;
use std::alloc::{AllocError, Global};

/// One event of a life. A key is given by its first byte, and a value by the number that its two
/// bytes make. In a swap 0 stands for no value.
#[derive(Clone, Copy, Debug, PartialEq, Eq)]
pub enum Line {
    Put(u8, u16),
    Delete(u8),
    Swap(u8, u16, u16),
    Get(u8),
    Flush,
    Convert,
    Merge,
}

// The value that a number in a swap stands for.
fn value_or_none(alloc: Global, number: u16) -> Result<Option<Value>, AllocError>
    ensures { IfOk result (λ value. IfSome value (λ bytes. length bytes ≡ 2)) }
{
    if number == 0 {
        return Ok(None);
    }
    let bytes = number.to_be_bytes().to_vec(alloc)?;
    Ok(Some(Value::new(bytes)))
}

/// The event that a line represents.
pub fn event(alloc: Global, line: Line) -> Result<Event, AllocError>
    ensures { IfOk result (HasValueOf 2) }
{
    match line {
        Line::Put(first, value) => {
            let value = value.to_be_bytes().to_vec(alloc)?;
            Ok(Event::Put(key(first), Value::new(value)))
        }
        Line::Delete(first) => Ok(Event::Delete(key(first))),
        Line::Swap(first, old, new) => {
            let old = value_or_none(alloc, old)?;
            let new = value_or_none(alloc, new)?;
            Ok(Event::Swap(key(first), old, new))
        }
        Line::Get(first) => Ok(Event::Get(key(first))),
        Line::Flush => Ok(Event::Flush),
        Line::Convert => Ok(Event::Convert),
        Line::Merge => Ok(Event::Merge),
    }
}

/// The events of a life.
pub fn events(alloc: Global, lines: &[Line]) -> Result<Vec<Event>, AllocError>
    ensures { IfOk result (λ events. All (HasValueOf 2) events.items) }
{
    let mut events = Vec::new(alloc);
    for line in lines {
        let event = event(alloc, *line)?;
        events.push(event)?;
    }
    Ok(events)
}
