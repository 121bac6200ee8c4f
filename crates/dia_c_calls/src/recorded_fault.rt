//! A fault as C has it.

ghost use Rattle.std.specs.Prelude.{◌≡◌, ◌≤◌, ◌<◌, None, IsSome, IfSome, length, map, slice_get};
ghost use Rattle.dia_c_calls.specs.Avps.{in_array};
ghost use Rattle.dia_c_calls.specs.PlainFaults.{IsRecordedFault, IsRecordedName, IsRecordedPlace, plain_fault};

use crate::findings::TextFault;
use crate::names::copied_from;
use dia_terms::MAX_NAME;

/// A fault of a dictionary's text.
#[repr(C)]
#[derive(Clone, Copy)]
pub struct RecordedFault {
    /// Its place in bytes.
    pub at: usize,
    pub name_count: usize,
    pub slot_count: usize,
    pub kind: u32,
    pub token: u32,
    /// 1, or 0 where the text has the fault as a whole: then `at` is 0.
    pub has_place: u32,
    pub name: [u8; MAX_NAME],
    pub slot: [u8; MAX_NAME],
}

impl TextFault {
    /// The fault as C has it.
    pub fn recorded(&self) -> RecordedFault
        ensures { IsRecordedFault (plain_fault self.now) result }
    {
        let (has_place, at) = recorded_place(self.at);
        let (name_count, name) = cut_name(self.name.as_str());
        let (slot_count, slot) = cut_name(self.slot.as_str());
        RecordedFault {
            at,
            name_count,
            slot_count,
            kind: self.kind,
            token: self.token,
            has_place,
            name,
            slot,
        }
    }
}

/// The fault at a place of a list.
#[tactic(auto, using(crate::proofs::Places::mapped_at))]
pub fn recorded_at(faults: &[TextFault], index: usize) -> Option<RecordedFault>
    ensures some { IfSome result (λ recorded. IfSome (slice_get (map plain_fault faults.now) index)
        (λ f. IsRecordedFault f recorded)) }
    ensures within { IsSome result → index < length faults.now }
    ensures none { result ≡ None → length faults.now ≤ index }
{
    let fault = faults.get(index)?;
    Some(fault.recorded())
}

/// Whether there is a place, and where it is.
fn recorded_place(at: Option<usize>) -> (u32, usize)
    ensures { IsRecordedPlace at result.0 result.1 }
{
    match at {
        Some(place) => (1, place),
        None => (0, 0),
    }
}

/// The front of a name, as much as there is room for, with zeros after it, and how many bytes these are.
pub fn cut_name(name: &str) -> (usize, [u8; MAX_NAME])
    ensures recorded { IsRecordedName name.now result.0 result.1 }
    ensures bytes { result.1 ≡ in_array name.now }
{
    let mut room = [0; MAX_NAME];
    let count = copied_from(name.as_bytes(), 0, &mut room);
    (count, room)
}
