// The conversion for hosts, with record and answer as numbers. (02, M-109.) Nothing is asked beforehand, and what is trusted of the pointers is
// what host.rt says.
ghost use Rattle.std.specs.Prelude.{◌≡◌};
ghost use Rattle.editor.specs.Wording.Promise.{stores};
ghost use Rattle.window.specs.Rules.HostConversion.{handed_back};
ghost use Rattle.window.specs.Wording.Conversion.{HostConvertPromise};

use crate::Session;
use crate::conversion::{convert, convertible_stores};
use crate::host::{HostReply, Record, bare, refused};
use editor::refusals::Refusal;

// Converts an old session: its stores are only read, and the new side store is written.
pub fn chidukwore_convert(
    n: Record,
    text: &[u8],
    recall: &[u8],
    held: &[u8],
    old: &[u8],
    side: &mut [u8],
) -> HostReply
    ensures { HostConvertPromise n (stores text.now recall.now held.now old.now) side.old
        (handed_back result side.new) }
{
    let mode = n.mode;
    let rows = n.rows;
    let columns = n.columns;
    if 1 < mode {
        if convertible_stores(rows, columns, text, recall, held, old, side) {
            return refused(Refusal::Session, n);
        }
        return refused(Refusal::Size, n);
    }
    match convert(Session::from(n), text, recall, held, old, side) {
        Ok(()) => bare(0, 0, n),
        Err(why) => refused(why, n),
    }
}
