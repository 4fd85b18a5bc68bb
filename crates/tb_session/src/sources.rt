ghost use Rattle.std.specs.Prelude.{◌≡◌, ◌∷◌, [], ℕ, true, false, List, IfOk, IfSome, IsNone, IsTrue, Option, Some, None, codes, map};
ghost use Rattle.tb_text.specs.Paths.{is_path};
ghost use Rattle.tb_text.specs.declared.findings.Finding.{Finding};
ghost use Rattle.tb_face.specs.Digests.{sha};
ghost use Rattle.tb_face.specs.Outputs.{output_text, stem_text};
ghost use Rattle.tb_plain.specs.Plain.{IsPlain};
ghost use Rattle.tb_outside.specs.declared.disks.DiskStep.TheVariants.{Write};
ghost use Rattle.tb_parse_file.specs.Files.{ReadsFile, HasFault};
ghost use Rattle.tb_tree.specs.declared.items.File.{File};
ghost use Rattle.tb_session.specs.declared.sources.Made.TheVariants as made;
ghost use Rattle.tb_session.specs.Builds.{js_of, declaration_of};
ghost use Rattle.tb_session.specs.Sources as spec;
ghost use Rattle.tb_session.specs.Sources.{Reading, ReadsAs, Source, HasFile, IsSource, AreSources};
ghost use Rattle.tb_session.specs.Emitted.{content_of, emitted_of, emitted_with, made_of};
ghost use Rattle.tb_session.specs.Placed.{HasOutputPaths, HaveOutputPaths};

use std::alloc::Global;
use tb_emit_dts::dts;
use tb_emit_js::js;
use tb_face::{DECLARATION, Entry, SCRIPT, output_path, signature, stem_text, version};
use tb_outside::DiskStep;
use tb_parse_file::{FileFault, read_decl, read_file};
use tb_plain::is_plain;
use tb_surface::surface;
use tb_text::{Digest, Finding, List, Name, NoMemory, Path, PathFault, Text, Texts};
use tb_tree::File;

/// The steps that write the outputs of an input.
#[derive(Drop)]
pub struct Outputs {
    /// The input's path relative to the root, without its `.ts`.
    pub stem: Name,
    pub js: DiskStep,
    pub declaration: DiskStep,
}

/// What is made of an input: what the info records of it, and what it writes.
#[derive(Drop)]
pub struct Emitted {
    pub entry: Entry,
    /// None where the input has a fault: then what stands at its output paths stays.
    pub outputs: Option<Outputs>,
}

/// What is made of a text that was read: the stem and the texts of its outputs, or its one fault.
#[derive(Drop)]
pub enum Made {
    Outputs {
        stem: Name,
        js: Text,
        declaration: Text,
    },
    Fault(Finding),
}

/// What is left of a text that was read.
#[derive(Drop)]
pub struct Content {
    pub version: Digest,
    pub made: Made,
}

// The stem of an input: none where the path ends in `.d.ts`.
fn stem_of(alloc: Global, root: &Path, path: &Path) -> Result<Option<Name>, NoMemory>
    ensures { IfOk result (λ stem. stem ≡ stem_text root.now path.now) }
{
    match stem_text(root, path) {
        Some(stem) => Ok(Some(Name::copy_of(alloc, stem)?)),
        None => Ok(None),
    }
}

/// The paths of the outputs of a stem.
#[derive(Drop)]
struct OutputPaths {
    js: Path,
    declaration: Path,
}

// The path of an output, whose text is one.
fn output_at(alloc: Global, folder: &Path, stem: &Name, ending: &str) -> Result<Path, NoMemory>
    requires { IsTrue (is_path (output_text folder.now stem.now ending.now)) }
    ensures { IfOk result (λ path. path ≡ output_text folder.now stem.now ending.now) }
{
    match output_path(alloc, folder, stem.as_str(), ending) {
        Ok(path) => Ok(path),
        Err(PathFault::NoMemory) => Err(NoMemory),
        Err(PathFault::BadPath) => unreachable!(),
    }
}

fn output_paths(alloc: Global, folder: &Path, stem: &Name) -> Result<OutputPaths, NoMemory>
    requires { HasOutputPaths folder.now stem.now }
    ensures js { IfOk result (λ paths. paths.js ≡ output_text folder.now stem.now (codes ".js")) }
    ensures declaration { IfOk result (λ paths. paths.declaration ≡ output_text folder.now stem.now (codes ".d.ts")) }
{
    Ok(OutputPaths {
        js: output_at(alloc, folder, stem, SCRIPT)?,
        declaration: output_at(alloc, folder, stem, DECLARATION)?,
    })
}

// The text of the declaration file of a file.
fn declaration_text(alloc: Global, file: &File) -> Result<Text, NoMemory>
    ensures { IfOk result (λ text. text ≡ declaration_of file.now) }
{
    let surface = surface(alloc, file)?;
    dts(alloc, &surface)
}

// The outputs of a file with this stem.
fn emit(alloc: Global, stem: Name, file: &File) -> Result<Made, NoMemory>
    ensures { IfOk result (λ own. own ≡ made.Outputs stem (js_of file.now) (declaration_of file.now)) }
{
    Ok(Made::Outputs {
        stem,
        js: js(alloc, file)?,
        declaration: declaration_text(alloc, file)?,
    })
}

// The stem of the outputs of a file that a text reads as, where it is plain.
fn plain_stem(
    alloc: Global,
    root: &Path,
    path: &Path,
    text: &[u8],
    file: &File,
) -> Result<Option<Name>, NoMemory>
    ensures stem { IfOk result (λ found. IfSome found (λ stem. stem_text root.now path.now ≡ Some stem)) }
    ensures plain { IfOk result (λ found. IfSome found (λ stem. IsPlain text.now file.now)) }
    ensures none { IfOk result (λ found. IsNone found → (stem : List ℕ) → stem_text root.now path.now ≡ Some stem → IsPlain text.now file.now → ⊥) }
{
    let Some(stem) = stem_of(alloc, root, path)? else {
        return Ok(None);
    };
    if !is_plain(alloc, text, file)? {
        return Ok(None);
    }
    Ok(Some(stem))
}

// What is made of the text of the input at a path, which reads as this file and no other, where it is plain.
fn emit_plain(
    alloc: Global,
    root: &Path,
    path: &Path,
    text: &[u8],
    file: &File,
) -> Result<Option<Made>, NoMemory>
    requires source { spec.is_declaration path.now ≡ false }
    requires reads { ReadsFile text.now file.now }
    requires only { (other : File) → ReadsFile text.now other → file.now ≡ other }
    requires right { (finding : Finding) → HasFault text.now finding → ⊥ }
    ensures found { IfOk result (λ found. IfSome found (λ own. (reading : Reading) × ReadsAs root.now path.now text.now reading × (own ≡ made_of reading))) }
    ensures none { IfOk result (λ found. IsNone found → (reading : Reading) → ReadsAs root.now path.now text.now reading → ⊥) }
{
    let Some(stem) = plain_stem(alloc, root, path, text, file)? else {
        return Ok(None);
    };
    Ok(Some(emit(alloc, stem, file)?))
}

// What is made of the text of an input that is no declaration file, where it is plain or has a fault.
fn read_source(
    alloc: Global,
    root: &Path,
    path: &Path,
    text: &[u8],
) -> Result<Option<Made>, NoMemory>
    requires { spec.is_declaration path.now ≡ false }
    ensures found { IfOk result (λ found. IfSome found (λ own. (reading : Reading) × ReadsAs root.now path.now text.now reading × (own ≡ made_of reading))) }
    ensures none { IfOk result (λ found. IsNone found → (reading : Reading) → ReadsAs root.now path.now text.now reading → ⊥) }
{
    match read_file(alloc, text) {
        Ok(file) => emit_plain(alloc, root, path, text, &file),
        Err(FileFault::Syntax(finding)) => Ok(Some(Made::Fault(finding))),
        Err(FileFault::NoMemory) => Err(NoMemory),
    }
}

// What is made of the text of a declaration file, where it has a fault.
fn read_declaration(
    alloc: Global,
    root: &Path,
    path: &Path,
    text: &[u8],
) -> Result<Option<Made>, NoMemory>
    requires { spec.is_declaration path.now ≡ true }
    ensures found { IfOk result (λ found. IfSome found (λ own. (reading : Reading) × ReadsAs root.now path.now text.now reading × (own ≡ made_of reading))) }
    ensures none { IfOk result (λ found. IsNone found → (reading : Reading) → ReadsAs root.now path.now text.now reading → ⊥) }
{
    match read_decl(alloc, text) {
        Ok(_) => Ok(None),
        Err(FileFault::Syntax(finding)) => Ok(Some(Made::Fault(finding))),
        Err(FileFault::NoMemory) => Err(NoMemory),
    }
}

fn is_declaration(path: &Path) -> bool
    ensures { result ≡ spec.is_declaration path.now }
{
    path.as_str().as_bytes().ends_with(b".d.ts")
}

// What is made of the text of an input, where it is built.
fn read(alloc: Global, root: &Path, path: &Path, text: &[u8]) -> Result<Option<Made>, NoMemory>
    ensures found { IfOk result (λ found. IfSome found (λ own. (reading : Reading) × ReadsAs root.now path.now text.now reading × (own ≡ made_of reading))) }
    ensures none { IfOk result (λ found. IsNone found → (reading : Reading) → ReadsAs root.now path.now text.now reading → ⊥) }
{
    if is_declaration(path) {
        read_declaration(alloc, root, path, text)
    } else {
        read_source(alloc, root, path, text)
    }
}

fn entry(
    alloc: Global,
    path: Path,
    version: Digest,
    signature: Option<Digest>,
    findings: List<Finding>,
) -> Entry
    ensures { result ≡ record { path = path; version = version; signature = signature; edges = []; reach = []; findings = findings } }
{
    Entry {
        path,
        version,
        signature,
        edges: List::new(alloc),
        reach: List::new(alloc),
        findings,
    }
}

// What is made of an input whose text has outputs.
fn with_outputs(
    alloc: Global,
    folder: &Path,
    path: Path,
    version: Digest,
    stem: Name,
    js: Text,
    declaration: Text,
) -> Result<Emitted, NoMemory>
    requires { HasOutputPaths folder.now stem }
    ensures { IfOk result (λ emitted. emitted ≡ record {
      entry = record { path = path; version = version; signature = Some (sha declaration); edges = []; reach = []; findings = [] };
      outputs = Some (record {
        stem = stem;
        js = Write (output_text folder.now stem (codes ".js")) js;
        declaration = Write (output_text folder.now stem (codes ".d.ts")) declaration;
      });
    }) }
{
    let paths = output_paths(alloc, folder, &stem)?;
    let signature = Some(signature(declaration.as_slice()));
    Ok(Emitted {
        entry: entry(alloc, path, version, signature, List::new(alloc)),
        outputs: Some(Outputs {
            stem,
            js: DiskStep::Write(paths.js, js),
            declaration: DiskStep::Write(paths.declaration, declaration),
        }),
    })
}

// What is made of an input whose text has a fault.
fn with_fault(
    alloc: Global,
    path: Path,
    version: Digest,
    finding: Finding,
) -> Result<Emitted, NoMemory>
    ensures { IfOk result (λ emitted. emitted ≡ record {
      entry = record { path = path; version = version; signature = None; edges = []; reach = []; findings = finding ∷ [] };
      outputs = None;
    }) }
{
    let mut findings = List::new(alloc);
    findings.push(finding)?;
    Ok(Emitted {
        entry: entry(alloc, path, version, None, findings),
        outputs: None,
    })
}

// What is made of an input with this content.
fn put_together(
    alloc: Global,
    folder: &Path,
    path: Path,
    content: Content,
) -> Result<Emitted, NoMemory>
    requires { (stem js declaration : List ℕ) → content.made ≡ made.Outputs stem js declaration → HasOutputPaths folder.now stem }
    ensures { IfOk result (λ emitted. emitted ≡ emitted_with folder.now path content) }
{
    let Content { version, made } = content;
    match made {
        Made::Outputs {
            stem,
            js,
            declaration,
        } => with_outputs(alloc, folder, path, version, stem, js, declaration),
        Made::Fault(finding) => with_fault(alloc, path, version, finding),
    }
}

// What is left of the file at a path, where it is built.
fn content_at(
    alloc: Global,
    texts: &Texts,
    root: &Path,
    path: &Path,
) -> Result<Option<Content>, NoMemory>
    ensures found { IfOk result (λ found. IfSome found (λ content. (text : List ℕ) × (reading : Reading) × HasFile texts.now root.now path.now text reading × (content ≡ content_of text reading))) }
    ensures none { IfOk result (λ found. IsNone found → (text : List ℕ) (reading : Reading) → HasFile texts.now root.now path.now text reading → ⊥) }
{
    let Some(text) = texts.get(path) else {
        return Ok(None);
    };
    let Some(made) = read(alloc, root, path, text.as_slice())? else {
        return Ok(None);
    };
    Ok(Some(Content {
        version: version(text.as_slice()),
        made,
    }))
}

// What is made of the input at a path, where it is a source.
fn emit_input(
    alloc: Global,
    texts: &Texts,
    root: &Path,
    folder: &Path,
    path: &Path,
) -> Result<Option<Emitted>, NoMemory>
    requires { (stem : List ℕ) → stem_text root.now path.now ≡ Some stem → HasOutputPaths folder.now stem }
    ensures found { IfOk result (λ found. IfSome found (λ each. (source : Source) × IsSource texts.now root.now path.now source × (each ≡ emitted_of folder.now source))) }
    ensures none { IfOk result (λ found. IsNone found → (source : Source) → IsSource texts.now root.now path.now source → ⊥) }
{
    let Some(content) = content_at(alloc, texts, root, path)? else {
        return Ok(None);
    };
    let path = path.clone()?;
    let emitted = put_together(alloc, folder, path, content)?;
    Ok(Some(emitted))
}

/// What is made of the inputs at these paths, in an output folder, where all are sources.
pub fn emit_inputs(
    alloc: Global,
    texts: &Texts,
    root: &Path,
    folder: &Path,
    paths: &[Path],
) -> Result<Option<List<Emitted>>, NoMemory>
    requires { HaveOutputPaths root.now folder.now paths.now }
    ensures found { IfOk result (λ found. IfSome found (λ emitted. (sources : List Source) × AreSources texts.now root.now paths.now sources × (emitted ≡ map (emitted_of folder.now) sources))) }
    ensures none { IfOk result (λ found. IsNone found → (sources : List Source) → AreSources texts.now root.now paths.now sources → ⊥) }
{
    let mut emitted = List::new(alloc);
    for path in paths {
        let Some(each) = emit_input(alloc, texts, root, folder, path)? else {
            return Ok(None);
        };
        emitted.push(each)?;
    }
    Ok(Some(emitted))
}
