//! The stack of the thread on which the work is done.
ghost use Rattle.std.specs.Prelude.{◌≡◌, ◌+◌, ◌*◌, ◌==◌, min, count_by};

/// The stack of a text without braces.
const LEAST_STACK: usize = 8 << 20;

/// What a brace adds. Reading a model, checking it and letting go of its tree call themselves as deep
/// as its graphs and mappings nest, and nothing else does so without a limit of its own. A graph in a
/// graph opens two braces; it took 3 KiB of stack in an optimized build, and 34 KiB in one that checks
/// each use of memory.
const FOR_A_BRACE: usize = 20 << 10;

/// The braces that are counted. The greatest text nests 61,680 graphs, which open 123,360.
const MOST_BRACES: usize = 131_072;

/// How large a stack the work on a model of this text takes at most; no text, no braces. It is so many
/// addresses: a page of it takes memory once it is used.
pub fn stack_of(text: &[u8]) -> usize
    ensures { result
        ≡ LEAST_STACK + min (count_by (λ b. b == 123) text.now) MOST_BRACES * FOR_A_BRACE }
{
    let braces = text.iter().filter(|b| **b == b'{').count();
    LEAST_STACK + braces.min(MOST_BRACES) * FOR_A_BRACE
}
