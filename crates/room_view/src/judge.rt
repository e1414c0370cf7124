//! Whether a fault is gone from a text.
use room_inherit::{BaseRule, InheritFault, flatten};
use room_lexer::{LexFault, lex};
use room_outside::MAX_TEXT;
use room_parser::{ParseFault, parse};
use room_run::{ModelFault, read_wiring};
use std::alloc::{AllocError, Global};
use view_causes::Judge;

/// Where in the order of the faults a fault stands, and which of its kind it is.
fn rank(fault: &ModelFault) -> (u8, u8) {
    match fault {
        ModelFault::Memory => (0, 0),
        ModelFault::Byte(_) => (1, 0),
        ModelFault::Syntax { .. } => (2, 0),
        ModelFault::Bases(rule) => (3, rule.number()),
        ModelFault::Rule(rule) => (4, rule.number()),
        ModelFault::Wiring(fault) => (5, fault.number()),
        ModelFault::Chart { fault, .. } => (6, fault.number()),
    }
}

/// Whether a fault is told only of a model that doesn't have the other one.
fn comes_after(fault: &ModelFault, other: &ModelFault) -> bool {
    let (kind, number) = rank(fault);
    let (other_kind, other_number) = rank(other);
    if kind != other_kind {
        return kind > other_kind;
    }
    match (fault, other) {
        (ModelFault::Chart { class, .. }, ModelFault::Chart { class: before, .. }) => {
            number > other_number || !class.is(before.as_bytes())
        }
        _ => number > other_number,
    }
}

/// Who knows whether a text has a fault of a model.
#[derive(Clone, Copy)]
pub(crate) struct FaultOf<'a> {
    pub alloc: Global,
    pub fault: &'a ModelFault,
}

/// How far a text gets that has a fault, in the order of the faults.
fn reached(fault: &ModelFault) -> u32 {
    let (kind, number) = rank(fault);
    u32::from(kind)
        .saturating_mul(1_000)
        .saturating_add(u32::from(number))
}

/// How far a text gets whose fault comes after the one that is looked at; no answer where it doesn't.
fn reached_behind(other: &ModelFault, fault: &ModelFault) -> Option<u32> {
    if comes_after(other, fault) {
        Some(reached(other))
    } else {
        None
    }
}

/// Whether a text breaks no rule on bases but those that are told after this one. These rules are asked before all
/// others, of the text as it is written.
fn keeps_bases(alloc: Global, text: &[u8], rule: BaseRule) -> Result<bool, AllocError> {
    let tokens = match lex(alloc, text) {
        Ok(tokens) => tokens,
        Err(LexFault::Memory) => return Err(AllocError),
        Err(
            LexFault::BadByte(_)
            | LexFault::OpenString(_)
            | LexFault::OpenComment(_)
            | LexFault::NumberTooLarge(_),
        ) => return Ok(false),
    };
    let written = match parse(alloc, text, tokens.as_slice()) {
        Ok(written) => written,
        Err(ParseFault::Memory) => return Err(AllocError),
        Err(ParseFault::Syntax { .. }) => return Ok(false),
    };
    match flatten(alloc, written) {
        Ok(_) => Ok(true),
        Err(InheritFault::Memory) => Err(AllocError),
        Err(InheritFault::Rule(other)) => Ok(other.number() > rule.number()),
    }
}

impl<'a> Judge for FaultOf<'a> {
    fn is_mended(&self, text: &[u8]) -> Result<bool, AllocError> {
        match self.fault {
            ModelFault::Bases(rule) => keeps_bases(self.alloc, text, *rule),
            _ => Ok(self.reached(text)?.is_some()),
        }
    }

    fn reached(&self, text: &[u8]) -> Result<Option<u32>, AllocError> {
        if text.len() as u64 > MAX_TEXT {
            return Ok(None);
        }
        // A text that keeps this rule just so is dear to read whole.
        if let ModelFault::Bases(BaseRule::SmallModel) = self.fault {
            let kept = keeps_bases(self.alloc, text, BaseRule::SmallModel)?;
            return Ok(kept.then_some(u32::MAX));
        }
        match read_wiring(self.alloc, text) {
            Ok(_) => Ok(Some(u32::MAX)),
            Err(ModelFault::Memory) => Err(AllocError),
            Err(other) => Ok(reached_behind(&other, self.fault)),
        }
    }
}
