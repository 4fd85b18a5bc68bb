ghost use Rattle.std.specs.Prelude.{◌≡◌, Some, Option};
ghost use Rattle.serde_json.specs.Data.{Data};
ghost use Rattle.serde_json.specs.View.{view};
ghost use Rattle.tb_info.specs.Reading.{Gives, path_found, digest_found, rows_found, member_found, item_found, text_found, number_found, signature_found, target_of, edge_found, digits_from, code_of, code_in, code_found, finding_found, reach_found, entry_found, info_found};

use crate::faults::Unread;
use hex::FromHex;
use serde_json::Value;
use std::alloc::Global;
use tb_face::{Entry, Info, Reach};
use tb_text::{Code, Digest, Edge, Finding, List, Name, Path, PathFault, Target};

/// What is read from a place in an info.
pub(crate) trait Read: Sized + Drop {
    ghost found: { Data → Option Self };

    fn read(alloc: Global, value: &Value) -> Result<Self, Unread>
        ensures { Gives result (found (view value.now)) };
}

impl Read for Path {
    ghost found = { path_found };

    fn read(alloc: Global, value: &Value) -> Result<Path, Unread> {
        let text = value.as_str().ok_or(Unread::NotRead)?;
        match Path::read(alloc, text) {
            Ok(path) => Ok(path),
            Err(PathFault::BadPath) => Err(Unread::NotRead),
            Err(PathFault::NoMemory) => Err(Unread::NoMemory),
        }
    }
}

impl Read for Digest {
    ghost found = { digest_found };

    fn read(_alloc: Global, value: &Value) -> Result<Digest, Unread> {
        let text = value.as_str().ok_or(Unread::NotRead)?;
        match <[u8; 32] as FromHex>::from_hex(text) {
            Ok(bytes) => Ok(Digest::from_bytes(bytes)),
            Err(_) => Err(Unread::NotRead),
        }
    }
}

impl<X: Read> Read for List<X> {
    ghost found = { rows_found X.found };

    fn read(alloc: Global, value: &Value) -> Result<List<X>, Unread> {
        let values = value.as_array().ok_or(Unread::NotRead)?;
        let mut rows = Vec::new(alloc);
        for item in values {
            rows.push(X::read(alloc, item)?)?;
        }
        Ok(List::from_vec(rows))
    }
}

fn member_of<X: Read>(alloc: Global, object: &Value, name: &str) -> Result<X, Unread>
    ensures { Gives result (member_found X.found name.now (view object.now)) }
{
    let value = object.get(name).ok_or(Unread::NotRead)?;
    X::read(alloc, value)
}

fn item_of<X: Read>(alloc: Global, array: &Value, at: usize) -> Result<X, Unread>
    ensures { Gives result (item_found X.found at (view array.now)) }
{
    let value = array.get(at).ok_or(Unread::NotRead)?;
    X::read(alloc, value)
}

impl Read for Name {
    ghost found = { text_found };

    fn read(alloc: Global, value: &Value) -> Result<Name, Unread> {
        let text = value.as_str().ok_or(Unread::NotRead)?;
        Ok(Name::copy_of(alloc, text)?)
    }
}

impl Read for u64 {
    ghost found = { number_found };

    fn read(_alloc: Global, value: &Value) -> Result<u64, Unread> {
        value.as_u64().ok_or(Unread::NotRead)
    }
}

impl Read for Option<Digest> {
    ghost found = { signature_found };

    fn read(alloc: Global, value: &Value) -> Result<Option<Digest>, Unread> {
        if value.is_null() {
            return Ok(None);
        }
        let digest = <Digest as Read>::read(alloc, value)?;
        Ok(Some(digest))
    }
}

fn target_of(kind: u64, place: Path) -> Result<Target, Unread>
    ensures { Gives result (target_of kind place) }
{
    if kind == 0 {
        Ok(Target::Found(place))
    } else if kind == 1 {
        Ok(Target::Elsewhere(place))
    } else if kind == 2 {
        Ok(Target::Missing)
    } else {
        Err(Unread::NotRead)
    }
}

#[tactic(auto, unfolding(crate::specs::Reading::edge_found))]
impl Read for Edge {
    ghost found = { edge_found };

    fn read(alloc: Global, value: &Value) -> Result<Edge, Unread> {
        let spec = item_of(alloc, value, 0)?;
        let kind = item_of(alloc, value, 1)?;
        let place = item_of(alloc, value, 2)?;
        let to = target_of(kind, place)?;
        Ok(Edge { spec, to })
    }
}

fn number_in(digits: &[u8]) -> Option<u16>
    ensures { result ≡ digits_from 0 digits.now }
{
    let mut number = 0u32;
    for digit in digits {
        if *digit < 48 || *digit > 57 {
            return None;
        }
        let next = number * 10 + (*digit - 48) as u32;
        if next >= 65536 {
            return None;
        }
        number = next;
    }
    Some(number as u16)
}

fn code_of(own: bool, number: Option<u16>) -> Option<Code>
    ensures { result ≡ code_of own number }
{
    match number {
        Some(number) => Some(Code { own, number }),
        None => None,
    }
}

fn code_in(text: &[u8]) -> Option<Code>
    ensures { result ≡ code_in text.now }
{
    let [first, second, digits @ ..] = text else {
        return None;
    };
    if *first == b'T' && *second == b'B' {
        code_of(true, number_in(digits))
    } else if *first == b'T' && *second == b'S' {
        code_of(false, number_in(digits))
    } else {
        None
    }
}

impl Read for Code {
    ghost found = { code_found };

    fn read(_alloc: Global, value: &Value) -> Result<Code, Unread> {
        let text = value.as_str().ok_or(Unread::NotRead)?;
        code_in(text.as_bytes()).ok_or(Unread::NotRead)
    }
}

#[tactic(auto, unfolding(crate::specs::Reading::finding_found))]
impl Read for Finding {
    ghost found = { finding_found };

    fn read(alloc: Global, value: &Value) -> Result<Finding, Unread> {
        let offset = item_of(alloc, value, 0)?;
        let code = item_of(alloc, value, 1)?;
        let first = item_of(alloc, value, 2)?;
        let second = item_of(alloc, value, 3)?;
        Ok(Finding {
            offset,
            code,
            first,
            second,
        })
    }
}

#[tactic(auto, unfolding(crate::specs::Reading::reach_found))]
impl Read for Reach {
    ghost found = { reach_found };

    fn read(alloc: Global, value: &Value) -> Result<Reach, Unread> {
        let path = item_of(alloc, value, 0)?;
        let signature = item_of(alloc, value, 1)?;
        let edges = item_of(alloc, value, 2)?;
        Ok(Reach {
            path,
            signature,
            edges,
        })
    }
}

#[tactic(auto, unfolding(crate::specs::Reading::entry_found))]
impl Read for Entry {
    ghost found = { entry_found };

    fn read(alloc: Global, value: &Value) -> Result<Entry, Unread> {
        let edges = member_of(alloc, value, "edges")?;
        let findings = member_of(alloc, value, "findings")?;
        let path = member_of(alloc, value, "path")?;
        let reach = member_of(alloc, value, "reach")?;
        let signature = member_of(alloc, value, "signature")?;
        let version = member_of(alloc, value, "version")?;
        Ok(Entry {
            path,
            version,
            signature,
            edges,
            reach,
            findings,
        })
    }
}

#[tactic(auto, unfolding(crate::specs::Reading::info_found))]
pub(crate) fn info_of(alloc: Global, value: &Value) -> Result<Info, Unread>
    ensures { Gives result (info_found (view value.now)) }
{
    let files = member_of(alloc, value, "files")?;
    let options = member_of(alloc, value, "options")?;
    let pending = member_of(alloc, value, "pending")?;
    let project = member_of(alloc, value, "project")?;
    let root = member_of(alloc, value, "root")?;
    Ok(Info {
        project,
        root,
        options,
        files,
        pending,
    })
}
