// Why a run stopped.
ghost use Rattle.std.specs.Prelude.{◌≡◌};
ghost use Rattle.trace.specs.declared.fault.RunFault.TheVariants.{Text, Call};

use table::fault::Fault as WatchFault;
use text::fault::Fault as TextFault;

// What the watch answered to a call, and the line of the call.
#[derive(Clone, Copy)]
pub struct CallFault {
    pub line: u64,
    pub fault: WatchFault,
}

// A fault of the text, or of the watch. It has no words of its own: the verdict's line and the sentence tell it.
#[derive(Clone, Copy)]
pub enum RunFault {
    Text(TextFault),
    Call(CallFault),
}

// This and the next are written out, since the clauses of a run name the error that `?` makes.
impl From<TextFault> for RunFault {
    ghost from_gives = { λ x r. r ≡ Text x };

    fn from(fault: TextFault) -> RunFault {
        RunFault::Text(fault)
    }
}

impl From<CallFault> for RunFault {
    ghost from_gives = { λ x r. r ≡ Call x };

    fn from(fault: CallFault) -> RunFault {
        RunFault::Call(fault)
    }
}
