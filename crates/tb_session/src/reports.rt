//! What is printed of a generation.

ghost use Rattle.std.specs.Prelude.{◌≡◌, ◌≤◌, ◌<◌, ◌+◌, ◌++◌, ◌∷◌, [], ℕ, if◌then◌else◌, IfOk, OnOk, List, None, Contains, length, get_or, set, map};
ghost use Rattle.std.specs.List.{concat};
ghost use Rattle.tb_text.specs.Messages.{diag_line, without_mark};
ghost use Rattle.tb_text.specs.declared.findings.Diag.{Diag};
ghost use Rattle.tb_outside.specs.Told.{bytes_at};
ghost use Rattle.tb_plan.specs.Limits.{most_bytes};
ghost use Rattle.tb_session.specs.Reports.{diag_report, errors_of, project_line, project_lines, last_line, status_by};

use std::alloc::Global;
use std::fmt::Write;
use tb_plan::Project;
use tb_text::{Diag, NoMemory, Path, Status, Text, Texts, diag_text};

// The last line of a report: `generation g: m errors in p projects`.
fn last_line(
    alloc: Global,
    generation: u64,
    errors: usize,
    projects: usize,
) -> Result<Text, NoMemory>
    ensures { IfOk result (λ text. text ≡ last_line generation errors projects) }
{
    let mut text = String::from_str(alloc, "generation ")?;
    write!(text, "{}", generation)?;
    text.push_str(": ")?;
    write!(text, "{}", errors)?;
    text.push_str(" errors in ")?;
    write!(text, "{}", projects)?;
    text.push_str(" projects\n")?;
    Ok(Text::from_vec(text.into_bytes()))
}

// The line of a project: `project P: n files, m errors`.
fn project_line(alloc: Global, config: &Path, files: usize, errors: usize) -> Result<Text, NoMemory>
    ensures { IfOk result (λ text. text ≡ project_line config.now files errors) }
{
    let mut text = String::from_str(alloc, "project ")?;
    text.push_str(config.as_str())?;
    text.push_str(": ")?;
    write!(text, "{}", files)?;
    text.push_str(" files, ")?;
    write!(text, "{}", errors)?;
    text.push_str(" errors\n")?;
    Ok(Text::from_vec(text.into_bytes()))
}

fn push_line(report: &mut Vec<u8>, line: &Text) -> Result<(), NoMemory>
    ensures { OnOk result (report.new.items ≡ report.old.items ++ line.now) }
{
    report.extend_from_slice(line.as_slice())?;
    Ok(())
}

// Counts one more at this number, where it has a count. None is above `most`.
fn count_one(counts: &mut Vec<usize>, number: usize, most: usize)
    requires { number < length counts.now.items → get_or counts.now.items number 0 < most }
    ensures counted { number < length counts.old.items → counts.new.items ≡ set counts.old.items number (get_or counts.old.items number 0 + 1) }
    ensures other { length counts.old.items ≤ number → counts.new.items ≡ counts.old.items }
{
    if number < counts.len() {
        counts[number] += 1;
    }
}

// How many of the diagnostics each project has, the first of which has the number 0.
fn count_errors(alloc: Global, diags: &[Diag], projects: usize) -> Result<Vec<usize>, NoMemory>
    ensures all { IfOk result (λ counts. length counts.items ≡ projects) }
    ensures each { IfOk result (λ counts. (number : ℕ) → number < projects → get_or counts.items number 0 ≡ errors_of number diags.now) }
{
    let mut counts = vec![in alloc; 0; projects]?;
    let most = diags.len();
    for diag in diags {
        count_one(&mut counts, diag.project as usize, most);
    }
    Ok(counts)
}

fn push_project_lines(
    alloc: Global,
    report: &mut Vec<u8>,
    projects: &[Project],
    diags: &[Diag],
) -> Result<(), NoMemory>
    ensures { OnOk result (report.new.items ≡ report.old.items ++ project_lines 0 diags.now projects.now) }
{
    let counts = count_errors(alloc, diags, projects.len())?;
    let mut number = 0;
    for project in projects {
        let errors = counts[number];
        let line = project_line(alloc, &project.setting.config, project.inputs.len(), errors)?;
        push_line(report, &line)?;
        number += 1;
    }
    Ok(())
}

// Adds the line of a diagnostic, which is counted in this text.
fn push_diag(alloc: Global, report: &mut Vec<u8>, diag: &Diag, text: &[u8]) -> Result<(), NoMemory>
    requires { length (without_mark text.now) ≤ most_bytes }
    ensures { OnOk result (report.new.items ≡ report.old.items ++ diag_line diag.now text.now ++ 10 ∷ []) }
{
    let line = diag_text(alloc, diag, text)?;
    push_line(report, &line)?;
    report.push(b'\n')?;
    Ok(())
}

// The text at a path; an empty one where there is none.
fn text_at<'a>(texts: &'a Texts, path: &Path) -> &'a [u8]
    ensures { result.now ≡ bytes_at texts.now path.now }
{
    match texts.get(path) {
        Some(text) => text.as_slice(),
        None => &[],
    }
}

// Adds the lines of the diagnostics, each counted in its file's text.
fn push_diags(
    alloc: Global,
    report: &mut Vec<u8>,
    texts: &Texts,
    diags: &[Diag],
) -> Result<(), NoMemory>
    requires { (diag : Diag) → Contains diags.now diag → length (without_mark (bytes_at texts.now diag.path)) ≤ most_bytes }
    ensures { OnOk result (report.new.items ≡ report.old.items ++ concat (map (diag_report None texts.now) diags.now)) }
{
    for diag in diags {
        push_diag(alloc, report, diag, text_at(texts, &diag.path))?;
    }
    Ok(())
}

/// The report of generation 0 where these projects were built, with these diagnostics.
pub fn built_report(
    alloc: Global,
    verbose: bool,
    texts: &Texts,
    projects: &[Project],
    diags: &[Diag],
) -> Result<Text, NoMemory>
    requires { (diag : Diag) → Contains diags.now diag → length (without_mark (bytes_at texts.now diag.path)) ≤ most_bytes }
    ensures { IfOk result (λ text. text ≡ concat (map (diag_report None texts.now) diags.now) ++ (if verbose then project_lines 0 diags.now projects.now else [])
        ++ last_line 0 (length diags.now) (length projects.now)) }
{
    let mut report = Vec::new(alloc);
    push_diags(alloc, &mut report, texts, diags)?;
    if verbose {
        push_project_lines(alloc, &mut report, projects, diags)?;
    }
    let last = last_line(alloc, 0, diags.len(), projects.len())?;
    push_line(&mut report, &last)?;
    Ok(Text::from_vec(report))
}

/// The report of generation 0 where the plan has these faults, which are counted in no text.
pub fn faulted_report(alloc: Global, faults: &[Diag]) -> Result<Text, NoMemory>
    ensures { IfOk result (λ text. text ≡ concat (map (λ fault. diag_line fault [] ++ 10 ∷ []) faults.now) ++ last_line 0 (length faults.now) 0) }
{
    let mut report = Vec::new(alloc);
    for fault in faults {
        push_diag(alloc, &mut report, fault, &[])?;
    }
    let last = last_line(alloc, 0, faults.len(), 0)?;
    push_line(&mut report, &last)?;
    Ok(Text::from_vec(report))
}

/// The status of a generation that was built with these diagnostics.
pub fn built_status(diags: &[Diag]) -> Status
    ensures { result ≡ status_by None diags.now }
{
    if diags.is_empty() {
        Status::Clean
    } else {
        Status::Generated
    }
}
