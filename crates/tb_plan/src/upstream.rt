//! Which projects are upstream of a project.
ghost use Rattle.std.specs.Prelude.{◌≡◌, ◌<◌, ◌^◌, ◌==◌, [], ◌∷◌, ◌++◌, cond, false, length, slice_index_or, IfOk, OnOk};
ghost use Rattle.std.specs.List.{filter, list_any, range_with_len};
ghost use Rattle.tb_plan.specs.Projects.{is_behind};
ghost use Rattle.tb_plan.specs.Upstream.{AreConfigs, Marks, is_met_by};

use crate::keys::{member_at, numbers_at};
use crate::plans::Project;
use std::alloc::Global;
use std::collections::BTreeMap;
use tb_text::{List, NoMemory, Path};

/// The numbers of the projects to which references lead, directly or through others, ascending.
pub fn upstream_of(
    alloc: Global,
    configs: &BTreeMap<Path, List<usize>>,
    before: &[Project],
    references: &[Path],
) -> Result<List<u32>, NoMemory>
    requires configs { AreConfigs before.now configs.now }
    requires few { length before.now < 2 ^ 32 }
    ensures { IfOk result (λ upstream. upstream ≡ filter (λ number. list_any (is_behind before.now number) references.now) (range_with_len 0 (length before.now))) }
{
    let mut marks = vec![in alloc; false; before.len()]?;
    mark_references(configs, before, references, &mut marks);
    let upstream = marked(alloc, marks.as_slice())?;
    Ok(upstream)
}

fn mark_references(
    configs: &BTreeMap<Path, List<usize>>,
    before: &[Project],
    references: &[Path],
    marks: &mut Vec<bool>,
)
    requires { AreConfigs before.now configs.now }
    ensures { Marks (λ number. list_any (is_behind before.now number) references.now) marks.old.items marks.new.items }
{
    for reference in references {
        mark_projects(before, numbers_at(configs, reference), marks);
    }
}

/// Marks these projects, and what is upstream of them.
fn mark_projects(before: &[Project], projects: &[usize], marks: &mut Vec<bool>)
    ensures { Marks (λ number. list_any (λ project. is_met_by before.now project number) projects.now) marks.old.items marks.new.items }
{
    for project in projects {
        mark_project(before, *project, marks);
    }
}

fn mark_project(before: &[Project], project: usize, marks: &mut Vec<bool>)
    ensures { Marks (is_met_by before.now project) marks.old.items marks.new.items }
{
    mark(project, marks);
    if let Some(project) = member_at(before, project) {
        mark_numbers(project.upstream.as_slice(), marks);
    }
}

fn mark_numbers(numbers: &[u32], marks: &mut Vec<bool>)
    ensures { Marks (λ number. list_any (λ up. up == number) numbers.now) marks.old.items marks.new.items }
{
    for number in numbers {
        mark(*number as usize, marks);
    }
}

fn mark(number: usize, marks: &mut Vec<bool>)
    ensures { Marks (λ n. number == n) marks.old.items marks.new.items }
{
    if number < marks.len() {
        marks[number] = true;
    }
}

/// The numbers that are marked.
fn marked(alloc: Global, marks: &[bool]) -> Result<List<u32>, NoMemory>
    requires { length marks.now < 2 ^ 32 }
    ensures { IfOk result (λ numbers. numbers ≡ filter (λ number. slice_index_or marks.now number false) (range_with_len 0 (length marks.now))) }
{
    let mut numbers = Vec::new(alloc);
    for number in 0..marks.len() {
        add_marked(number as u32, marks[number], &mut numbers)?;
    }
    Ok(List::from_vec(numbers))
}

fn add_marked(number: u32, is_marked: bool, numbers: &mut Vec<u32>) -> Result<(), NoMemory>
    ensures { OnOk result (numbers.new.items ≡ numbers.old.items ++ cond is_marked (number ∷ []) []) }
{
    if is_marked {
        numbers.push(number)?;
    }
    Ok(())
}
