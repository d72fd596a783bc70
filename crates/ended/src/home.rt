// How a home judges an ended epoch: functions of the two, as the laws of the meaning are.
ghost use Rattle.std.specs.Prelude.{◌≡◌, Some, None, MatchResult};
ghost use Rattle.semantics.specs.Judging.{bar, home_laws, judged_home};

use crate::row::EndedRow;
use semantics::row::Home;
use semantics::verdict::{Conviction, Law};

// Laws 27 and 28. The two convictions are written out: they share two fields of four.
// A home and a row are two parameters here and below, as in the laws of the meaning.
pub fn keeps_home(home: Home, row: EndedRow) -> Result<(), Conviction>
    ensures { MatchResult result (λ _. home_laws home row ≡ None) (λ c. home_laws home row ≡ Some c) }
{
    let latest = latest_end(home, row);
    if row.span.begin() < latest {
        return Err(Conviction {
            law: Law::Overlap,
            thread: row.thread,
            number: row.number,
            other: latest,
        });
    }
    if row.start != home.value {
        return Err(Conviction {
            law: Law::WrongBeginValue,
            thread: row.thread,
            number: row.number,
            other: home.value,
        });
    }
    Ok(())
}

// The end that an epoch may not begin before: of a write the later of both latest ends, of a read the latest write end.
fn latest_end(home: Home, row: EndedRow) -> u64
    ensures { result ≡ bar home row }
{
    if row.writes {
        return home.read_end.max(home.write_end);
    }
    home.write_end
}

// The home after the epoch is judged: a write sets value and write end, a read raises the read end.
pub fn judged_home(home: Home, row: EndedRow) -> Home
    ensures { result ≡ judged_home home row }
{
    if row.writes {
        return Home {
            value: row.last,
            write_end: row.span.end(),
            ..home
        };
    }
    Home {
        read_end: home.read_end.max(row.span.end()),
        ..home
    }
}
