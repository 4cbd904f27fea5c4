//! What has a text of its own, which is written at the front of a buffer.
ghost use Rattle.std.specs.Prelude.{◌≡◌, ℕ, List, length, MatchResult};
ghost use Rattle.traces.specs.Pages.{Room, Wrote};
ghost use Rattle.traces.specs.Reports.{Printed, Cramped};

use crate::faults::{Fault, FaultKind};
use crate::page::Page;

/// What has a text of its own.
pub trait Printable {
    ghost text_of: { Self → List ℕ };

    /// How many bytes the text has.
    fn text_len(&self) -> usize
        ensures { result ≡ length (text_of self.now) };

    /// Writes the text. It is reached from `write_text` alone, since a page is made nowhere else.
    fn put(&self, page: &mut Page<'_>)
        requires { Room (text_of self.now) page.old }
        ensures { Wrote (text_of self.now) page.old page.new };
}

/// Writes the text of an item at the front of a buffer, and answers how many bytes it takes; or leaves the buffer as it
/// was, and answers that there is no room.
pub fn write_text<T: Printable>(item: &T, out: &mut [u8]) -> Result<usize, Fault>
    ensures { MatchResult result
        (λ n. Printed (T.text_of item.now) out.old out.new n)
        (λ f. Cramped (T.text_of item.now) out.old out.new f) }
{
    if item.text_len() > out.len() {
        return Err(Fault {
            kind: FaultKind::Room,
            line: 0,
            column: 0,
        });
    }
    let mut page = Page::new(out);
    item.put(&mut page);
    Ok(page.len())
}
