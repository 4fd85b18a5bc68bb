//! Declarations: variables, functions and classes with `declare`; interfaces and aliases need none.

ghost use Rattle.std.specs.Prelude.{◌≡◌, ◌++◌, OnOk, string_bytes};
ghost use Rattle.tb_layout.specs.Pieces.{text_of};
ghost use Rattle.tb_layout.specs.Dts as spec;

use crate::bodies::{write_class, write_interface};
use crate::headings::{write_colon, write_params, write_variables};
use crate::texts::{kind_text, put};
use tb_show::write_type;
use tb_text::NoMemory;
use tb_tree::{Alias, Declared};

#[tactic(auto, using(tb_show::proofs::Joins::assoc, crate::proofs::Forms::variable_text, crate::proofs::Forms::function_text))]
pub(crate) fn write_declared(out: &mut String, of: &Declared) -> Result<(), NoMemory>
    ensures { OnOk result (string_bytes out.new ≡ string_bytes out.old ++ text_of (spec.declared_pieces of.now)) }
{
    match of {
        Declared::Variable {
            kind,
            name,
            shape,
            ..
        } => {
            put(out, "declare ")?;
            put(out, kind_text(*kind))?;
            put(out, " ")?;
            put(out, name.as_str())?;
            write_colon(out, shape)?;
            put(out, ";")?;
            Ok(())
        }
        Declared::Function {
            name,
            variables,
            params,
            result,
            ..
        } => {
            put(out, "declare function ")?;
            put(out, name.as_str())?;
            write_variables(out, variables.as_slice())?;
            write_params(out, params.as_slice())?;
            write_colon(out, result)?;
            put(out, ";")?;
            Ok(())
        }
        Declared::Class(class) => write_class(out, class),
        Declared::Interface(interface) => write_interface(out, interface),
        Declared::Alias(alias) => write_alias(out, alias),
    }
}

#[tactic(auto, using(tb_show::proofs::Joins::assoc, crate::proofs::Forms::alias_text))]
fn write_alias(out: &mut String, of: &Alias) -> Result<(), NoMemory>
    ensures { OnOk result (string_bytes out.new ≡ string_bytes out.old ++ text_of (spec.alias_pieces of.now)) }
{
    put(out, "type ")?;
    put(out, of.name.as_str())?;
    write_variables(out, of.variables.as_slice())?;
    put(out, " = ")?;
    write_type(out, &of.shape)?;
    put(out, ";")?;
    Ok(())
}
