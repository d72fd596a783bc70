// The verdict on a whole text.
ghost use Rattle.std.specs.Prelude.{◌≡◌, Err};
ghost use Rattle.trace.specs.Verdicts.{by_watch, verdict_of, verdict_on_text, ConsistentWhereClean};

use crate::fault::{CallFault, RunFault};
use crate::run::run_text;
use table::fault::Fault;
use verdict::verdict::Verdict;

// The verdict that the answer of a watch to a call means.
impl From<CallFault> for Verdict {
    ghost from_gives = { λ c v. v ≡ by_watch c.line c.fault };

    fn from(call: CallFault) -> Verdict {
        let CallFault { line, fault } = call;
        match fault {
            Fault::Refused(refusal) => Verdict::Refused { line, refusal },
            Fault::Convicted(conviction) => Verdict::Convicted { line, conviction },
        }
    }
}

// The verdict that the fault of a run means.
impl From<RunFault> for Verdict {
    ghost from_gives = { λ f v. v ≡ verdict_of (Err f) };

    fn from(fault: RunFault) -> Verdict {
        match fault {
            RunFault::Text(fault) => Verdict::Garbled(fault),
            RunFault::Call(call) => Verdict::from(call),
        }
    }
}

// The verdict on a text. Where it is clean, the trace that the text writes down is consistent under the rule that it names.
pub fn verdict_on(text: &[u8]) -> Verdict
    ensures answer { result ≡ verdict_on_text text.now }
    ensures consistent { ConsistentWhereClean text.now result }
{
    match run_text(text) {
        Ok(line) => Verdict::Clean { line },
        Err(fault) => Verdict::from(fault),
    }
}
