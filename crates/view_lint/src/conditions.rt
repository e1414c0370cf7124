//! Conditions that are the same whatever happens.
use action_lang::{ActionFault, BoundExpr, Effects, Moment, Vars, check_cond, parse_cond, test};
use room_ast::Scope;
use room_kinds::{Generation, Incarnation, Payload, SlotId};
use room_lexer::{TokenKind, Word};
use std::alloc::{AllocError, Global};
use view_charts::Code;

/// Whether a condition names nothing: it is made of numbers, `true`, `false` and operators.
fn names_nothing(code: &Code) -> bool {
    code.tokens().iter().all(|token| {
        matches!(
            token.kind,
            TokenKind::Number(_)
                | TokenKind::Mark(_)
                | TokenKind::Ident(Some(Word::True | Word::False))
        )
    })
}

/// What actions see where there is nothing to be named.
fn no_names(alloc: Global) -> Scope {
    Scope {
        attributes: Vec::new(alloc),
        ports: Vec::new(alloc),
        references: Vec::new(alloc),
    }
}

fn no_message(alloc: Global) -> Moment {
    Moment {
        payload: Payload::empty(alloc),
        place: 0,
        me: Incarnation {
            slot: SlotId(0),
            generation: Generation(0),
        },
        has_message: false,
    }
}

/// A condition that names nothing, made ready.
fn bound_in(alloc: Global, code: &Code) -> Result<BoundExpr, ActionFault> {
    let condition = parse_cond(alloc, code.text())?;
    check_cond(alloc, &condition, &no_names(alloc))
}

/// Whether a condition that names nothing holds.
fn holds(alloc: Global, condition: &BoundExpr) -> Result<bool, AllocError> {
    let vars = Vars::new(alloc, &[])?;
    let mut told = Effects::new(alloc);
    test(condition, &vars, &no_message(alloc), &mut told)
}

/// Whether a condition always holds, or never does; none where that isn't known from its text.
pub(crate) fn always(alloc: Global, code: &Code) -> Result<Option<bool>, AllocError> {
    if !names_nothing(code) {
        return Ok(None);
    }
    match bound_in(alloc, code) {
        Ok(condition) => Ok(Some(holds(alloc, &condition)?)),
        Err(ActionFault::Memory) => Err(AllocError),
        // an accepted model has no such condition
        Err(_) => Ok(None),
    }
}
