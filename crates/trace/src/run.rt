// The run of a whole text, event by event, up to its first fault.
ghost use Rattle.std.specs.Prelude.{◌≡◌};
ghost use Rattle.semantics.specs.Laws.{by_rule};
ghost use Rattle.text.specs.Readers.{left};
ghost use Rattle.trace.specs.Promises.{ConsistentIfClean};
ghost use Rattle.trace.specs.Runs.{run, rule_of, run_text};

use crate::fault::{CallFault, RunFault};
use crate::play::play;
use ordering::named::NamedRule;
use ordering::rule::OrderingRule;
use setup::setup::RuleName;
use table::fault::Fault;
use text::reader::Reader;
use watch::threads::Threads;
use watch::watch::Watch;

// The line of the last heading.
const NAMES_LINE: u64 = 3;
// The line that makes the watch.
const SETUP_LINE: u64 = 2;

// Plays what is left of a text on a watch, and gives the line of the close.
fn run_events<R: OrderingRule>(
    watch: &mut Watch<R>,
    reader: &mut Reader<'_>,
) -> Result<u64, RunFault>
    ensures answer { result ≡ run (by_rule (R.OrderingRule.orders watch.old.rule)) watch.old.state 3 (left reader.old) }
{
    let mut line = NAMES_LINE;
    while let Some(entry) = reader.next()? {
        line = entry.line;
        play(watch, entry.event).map_err(|fault| CallFault { line, fault })?;
    }
    Ok(line)
}

// The rule that a text names: each name of a text is one of a rule.
fn rule_named(name: RuleName) -> NamedRule
    ensures { result ≡ rule_of name }
{
    match name.name().parse() {
        Ok(rule) => rule,
        Err(_) => unreachable(),
    }
}

// Runs a text: gives the line of its close where it ends clean, or its first fault.
pub fn run_text(text: &[u8]) -> Result<u64, RunFault>
    ensures answer { result ≡ run_text text.now }
    ensures consistent { ConsistentIfClean text.now result }
{
    let mut reader = Reader::new(text);
    let setup = reader.setup()?;
    let threads = Threads::try_from(setup.threads).map_err(|refusal| CallFault {
        line: SETUP_LINE,
        fault: Fault::from(refusal),
    })?;
    reader.names()?;
    let mut watch = Watch::new(rule_named(setup.rule), threads);
    run_events(&mut watch, &mut reader)
}
