ghost use Rattle.std.specs.Prelude.{◌≡◌, IfOk, string_bytes};
ghost use Rattle.serde_json.specs.Data.{Data, string, number, unsigned};
ghost use Rattle.serde_json.specs.View.{view};
ghost use Rattle.tb_face.specs.Infos.{rows_data, digest_data, signature_data, kind_of, place_of, edge_data, code_text, finding_data, reach_data, entry_data, info_data, spelling};

use serde_json::{Map, Value, put};
use std::alloc::Global;
use std::fmt::Write;
use tb_face::{BUILDER, Entry, Info, Reach};
use tb_text::{Code, Digest, Edge, Finding, NoMemory, Path, Target, Text};

/// What has a place in an info.
pub(crate) trait Spelled: Sized {
    ghost spelled: { Self → Data };

    fn written(&self, alloc: Global) -> Result<Value, NoMemory>
        ensures { IfOk result (λ v. view v ≡ spelled self.now) };
}

impl Spelled for Path {
    ghost spelled = { λ p. string p };

    fn written(&self, alloc: Global) -> Result<Value, NoMemory> {
        text_value(alloc, self.as_str())
    }
}

impl Spelled for Digest {
    ghost spelled = { λ d. digest_data d };

    fn written(&self, alloc: Global) -> Result<Value, NoMemory> {
        Ok(Value::String(hex::encode(alloc, self.as_slice())?))
    }
}

fn text_value(alloc: Global, text: &str) -> Result<Value, NoMemory>
    ensures { IfOk result (λ v. view v ≡ string text.now) }
{
    Ok(Value::String(String::from_str(alloc, text)?))
}

fn rows_value<X: Spelled>(alloc: Global, rows: &[X]) -> Result<Value, NoMemory>
    ensures { IfOk result (λ v. view v ≡ rows_data X.spelled rows.now) }
{
    let mut values = Vec::new(alloc);
    for row in rows {
        values.push(row.written(alloc)?)?;
    }
    Ok(Value::Array(values))
}

fn number_value(n: u64) -> Value
    ensures { view result ≡ number (unsigned n) }
{
    Value::from(n)
}

fn signature_value(alloc: Global, signature: &Option<Digest>) -> Result<Value, NoMemory>
    ensures { IfOk result (λ v. view v ≡ signature_data signature.now) }
{
    match signature {
        Some(digest) => digest.written(alloc),
        None => Ok(Value::Null),
    }
}

fn kind_value(target: &Target) -> Value
    ensures { view result ≡ number (unsigned (kind_of target.now)) }
{
    match target {
        Target::Found(_) => number_value(0),
        Target::Elsewhere(_) => number_value(1),
        Target::Missing => number_value(2),
    }
}

fn place_value(alloc: Global, target: &Target) -> Result<Value, NoMemory>
    ensures { IfOk result (λ v. view v ≡ string (place_of target.now)) }
{
    match target {
        Target::Found(path) => path.written(alloc),
        Target::Elsewhere(path) => path.written(alloc),
        Target::Missing => text_value(alloc, ""),
    }
}

#[tactic(auto, unfolding(tb_face::specs::Infos::edge_data))]
impl Spelled for Edge {
    ghost spelled = { edge_data };

    fn written(&self, alloc: Global) -> Result<Value, NoMemory> {
        let spec = text_value(alloc, self.spec.as_str())?;
        let place = place_value(alloc, &self.to)?;
        let mut items = Vec::new(alloc);
        items.push(spec)?;
        items.push(kind_value(&self.to))?;
        items.push(place)?;
        Ok(Value::Array(items))
    }
}

fn code_value(alloc: Global, code: Code) -> Result<Value, NoMemory>
    ensures { IfOk result (λ v. view v ≡ string (code_text code)) }
{
    let mut text = String::from_str(alloc, if code.own { "TB" } else { "TS" })?;
    write!(text, "{}", code.number)?;
    Ok(Value::String(text))
}

#[tactic(auto, unfolding(tb_face::specs::Infos::finding_data))]
impl Spelled for Finding {
    ghost spelled = { finding_data };

    fn written(&self, alloc: Global) -> Result<Value, NoMemory> {
        let code = code_value(alloc, self.code)?;
        let first = text_value(alloc, self.first.as_str())?;
        let second = text_value(alloc, self.second.as_str())?;
        let mut items = Vec::new(alloc);
        items.push(number_value(self.offset))?;
        items.push(code)?;
        items.push(first)?;
        items.push(second)?;
        Ok(Value::Array(items))
    }
}

#[tactic(auto, unfolding(tb_face::specs::Infos::reach_data))]
impl Spelled for Reach {
    ghost spelled = { reach_data };

    fn written(&self, alloc: Global) -> Result<Value, NoMemory> {
        let path = self.path.written(alloc)?;
        let signature = signature_value(alloc, &self.signature)?;
        let edges = rows_value(alloc, self.edges.as_slice())?;
        let mut items = Vec::new(alloc);
        items.push(path)?;
        items.push(signature)?;
        items.push(edges)?;
        Ok(Value::Array(items))
    }
}

#[tactic(auto, unfolding(tb_face::specs::Infos::entry_data))]
impl Spelled for Entry {
    ghost spelled = { entry_data };

    fn written(&self, alloc: Global) -> Result<Value, NoMemory> {
        let edges = rows_value(alloc, self.edges.as_slice())?;
        let findings = rows_value(alloc, self.findings.as_slice())?;
        let path = self.path.written(alloc)?;
        let reach = rows_value(alloc, self.reach.as_slice())?;
        let signature = signature_value(alloc, &self.signature)?;
        let version = self.version.written(alloc)?;
        let mut members = Map::new(alloc);
        put(&mut members, alloc, "edges", edges)?;
        put(&mut members, alloc, "findings", findings)?;
        put(&mut members, alloc, "path", path)?;
        put(&mut members, alloc, "reach", reach)?;
        put(&mut members, alloc, "signature", signature)?;
        put(&mut members, alloc, "version", version)?;
        Ok(Value::Object(members))
    }
}

#[tactic(auto, unfolding(tb_face::specs::Infos::info_data))]
fn info_value(alloc: Global, info: &Info) -> Result<Value, NoMemory>
    ensures { IfOk result (λ v. view v ≡ info_data info.now) }
{
    let builder = text_value(alloc, BUILDER)?;
    let files = rows_value(alloc, info.files.as_slice())?;
    let options = info.options.written(alloc)?;
    let pending = rows_value(alloc, info.pending.as_slice())?;
    let project = info.project.written(alloc)?;
    let root = info.root.written(alloc)?;
    let mut members = Map::new(alloc);
    put(&mut members, alloc, "builder", builder)?;
    put(&mut members, alloc, "files", files)?;
    put(&mut members, alloc, "options", options)?;
    put(&mut members, alloc, "pending", pending)?;
    put(&mut members, alloc, "project", project)?;
    put(&mut members, alloc, "root", root)?;
    Ok(Value::Object(members))
}

/// The one text of the info, whatever is in it: compact JSON without a line end, in the format that `BUILDER` names.
pub fn write_info(alloc: Global, info: &Info) -> Result<Text, NoMemory>
    ensures { IfOk result (λ t. t ≡ spelling info.now) }
{
    let value = info_value(alloc, info)?;
    let text = value.to_string(alloc)?;
    Ok(Text::from_vec(text.into_bytes()))
}
