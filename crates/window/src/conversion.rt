// The conversion: an old session, whose quarters are shorter, gets a side store as this layer's calls ask for it. (02, M-109.)
ghost use Rattle.std.specs.Prelude.{◌≡◌};
ghost use Rattle.editor.specs.Wording.Promise.{stores};
ghost use Rattle.window.specs.Rules.Conversion.{convertible};
ghost use Rattle.window.specs.Wording.Conversion.{conversion, convert_reply, ConvertPromise};

use crate::Session;
use crate::calls::{rows_and_columns, session_test};
use editor::QUARTER;
use editor::conversion::{OLD_QUARTER, lengthen};
use editor::refusals::Refusal;
use editor::stores::sized_stores;

// The old stores have the old lengths, the new side store has the new one, and H and W are as tabled.
pub fn convertible_stores(
    h: usize,
    w: usize,
    text: &[u8],
    recall: &[u8],
    held: &[u8],
    old: &[u8],
    side: &[u8],
) -> bool
    ensures { result ≡ convertible h w (stores text.now recall.now held.now old.now) side.now }
{
    sized_stores(OLD_QUARTER, text, recall, held, old)
        & (rows_and_columns(h, w) & (side.len() == 4 * QUARTER))
}

// The conversion: SIZE, SESSION by the old rule, or the same plain state in the new side store. Everything else is only read, and the record
// stays as it is.
pub fn convert(
    s: Session,
    text: &[u8],
    recall: &[u8],
    held: &[u8],
    old: &[u8],
    side: &mut [u8],
) -> Result<(), Refusal>
    ensures { ConvertPromise s (stores text.now recall.now held.now old.now) side.old
        (conversion (convert_reply s result) side.new) }
{
    let h = s.frame.h;
    let w = s.frame.w;
    if !convertible_stores(h, w, text, recall, held, old, side) {
        return Err(Refusal::Size);
    }
    let Some(_) = session_test(OLD_QUARTER, s, text, recall, held, old) else {
        return Err(Refusal::Session);
    };
    lengthen(s.lengths.quoted.l, s.lengths.quoted.r, old, side);
    Ok(())
}
