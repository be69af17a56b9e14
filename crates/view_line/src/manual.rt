// What the words of a command line are.
ghost use Rattle.std.specs.Prelude.{◌≡◌, IfOk};
ghost use Rattle.view_line.specs.HelpText.{help_text, usage_text};

use base::{Mem, push_text};
use std::alloc::Global;

const HELP: &str = "ivyview: what ivycheck finds of a protocol's model, as a person wants to see it

    ivyview check FILE              is the model inductive?
    ivyview bmc FILE --steps K      does a run with at most K actions (0 to 12) go wrong?
    ivyview houdini FILE            which of the conjectures are inductive together?
    ivyview why FILE                which conjectures carry which group of goals?
    ivyview replay MODEL REPORT     is a report that `ivycheck check` printed right?

A FILE may be -, for standard input. Options, anywhere among the words:

    --terms N       a goal may have so many ground terms (400, up to 100000)
    --ground N      its ground formulas may have this size (2000000, up to 50000000)
    --conflicts N   so many clauses may be learnt for it (100000, up to 100000000)
    --lean          the first two are on lean counts (check, bmc, houdini)
    --dot           pictures (check, bmc, houdini): ivyview check FILE --dot >F.dot; dot -Tsvg -O F.dot
    --json          the whole outcome as one JSON value
    --help, --version

The status is 0 where all is well, 1 where something fails, 2 for words that are no command line,
3 where something is left open, 4 for a faulty or too long file, 5 where a file or a stream fails,
6 where a word is not UTF-8, 7 for want of memory.
";

/// What a command line is.
pub fn help(alloc: Global) -> Mem<Vec<u8>>
    ensures { IfOk result (λ text. text.items ≡ help_text) }
{
    let mut out = Vec::new(alloc);
    push_text(&mut out, HELP)?;
    Ok(out)
}

/// The same for words that are none.
pub fn usage(alloc: Global) -> Mem<Vec<u8>>
    ensures { IfOk result (λ text. text.items ≡ usage_text) }
{
    let mut out = Vec::new(alloc);
    push_text(&mut out, "ivyview: these words are no command line\n\n")?;
    push_text(&mut out, HELP)?;
    Ok(out)
}
