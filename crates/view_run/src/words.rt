// What is answered with words alone: what the words of a command line are, which version this is, and that these are
// none.
ghost use Rattle.std.specs.Prelude.{◌≡◌, IfOk};
ghost use Rattle.view_run.specs.Words.{words_due};

use base::Mem;
use command_parts::{complaint, shown};
use commands::Said;
use std::alloc::Global;
use view_line::{help, usage};

/// Which words are asked for.
#[derive(Clone, Copy)]
pub enum Words {
    Help,
    Version,
    Usage,
}

/// What is said to them.
pub fn words_said(alloc: Global, words: Words) -> Mem<Said>
    ensures { IfOk result (λ s. s ≡ words_due words) }
{
    match words {
        Words::Help => Ok(shown(help(alloc)?, 0)),
        Words::Version => Ok(shown(
            "ivyview 1, for models of rml 1 and 2\n"
                .as_bytes()
                .to_vec(alloc)?,
            0,
        )),
        Words::Usage => Ok(complaint(usage(alloc)?, 2)),
    }
}
