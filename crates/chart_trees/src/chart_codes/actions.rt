//! Actions.
ghost use Rattle.std.specs.Prelude.{◌≡◌, true, IfOk, OnOk};
ghost use Rattle.action_program.specs.Named as named;
ghost use Rattle.action_program.specs.Numbered as numbered;
ghost use Rattle.action_lang.specs.action_check.Answers.{Grows};
ghost use Rattle.chart_trees.specs.chart_codes.Codes.{action_of, bound_of, names_bound};
ghost use Rattle.chart_trees.specs.chart_codes.Progress.{progress, after_action};

use crate::chart_codes::marks::Marks;
use crate::chart_codes::parse::program;
use crate::chart_codes::text::code_bytes;
use action_lang::action_check::{ServiceNames, check_action};
use action_program::{ActionFault, Bound, Program};
use room_ast::{Code, Scope};
use std::alloc::{AllocError, Global};

/// The program without a statement.
pub fn no_action(alloc: Global) -> Bound
    ensures { numbered.program_view result ≡ numbered.no_stmt }
{
    Bound {
        statements: Vec::new(alloc),
    }
}

/// A program in the class; the empty one, and a mark, where it names what the class doesn't have.
fn checked(
    alloc: Global,
    program: &Program,
    scope: &Scope,
    names: &mut ServiceNames,
    marks: &mut Marks,
) -> Result<Bound, AllocError>
    requires { marks.old.codes_fit ≡ true }
    ensures program { IfOk result (λ b.
        numbered.program_view b ≡ bound_of scope.now names.old (named.program_view program.now)) }
    ensures progress { OnOk result (progress marks.new names.new
        ≡ record {
          events_fit = marks.old.events_fit;
          names = names_bound scope.now names.old (named.program_view program.now);
        }) }
    ensures grown { Grows names.old names.new }
{
    match check_action(alloc, program, scope, names) {
        Ok(program) => Ok(program),
        Err(ActionFault::Memory) => Err(AllocError),
        Err(_) => {
            marks.codes_fit = false;
            Ok(no_action(alloc))
        }
    }
}

/// The action of a code that may be missing. Where it isn't a program, or names what the class
/// doesn't have, that is marked; then and from then on each action is the empty program, and the
/// service names are of no use. Whatever it answers, names were added at the end alone.
pub fn action(
    alloc: Global,
    code: &Option<Code>,
    scope: &Scope,
    names: &mut ServiceNames,
    marks: &mut Marks,
) -> Result<Bound, AllocError>
    ensures program { IfOk result (λ b.
        numbered.program_view b
        ≡ action_of scope.now (progress marks.old names.old).names code.now) }
    ensures progress { OnOk result (progress marks.new names.new
        ≡ after_action scope.now (progress marks.old names.old) code.now) }
    ensures grown { Grows names.old names.new }
{
    let Some(code) = code else {
        return Ok(no_action(alloc));
    };
    if !marks.codes_fit {
        return Ok(no_action(alloc));
    }
    let bytes = code_bytes(alloc, code)?;
    match program(alloc, bytes.as_slice())? {
        Some(program) => checked(alloc, &program, scope, names, marks),
        None => {
            marks.codes_fit = false;
            Ok(no_action(alloc))
        }
    }
}
