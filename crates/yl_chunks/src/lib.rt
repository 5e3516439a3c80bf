//! Lists in chunks, and a store of lines in chunks. An edit moves the items of the chunks that it
//! touches, and at most those of one chunk next to them.
#![tactic(auto)]

ghost use Rattle.std.specs.Prelude.{◌≡◌};
ghost use Rattle.yl_text.specs.Lines.{text_of};
ghost use Rattle.yl_text.specs.Store.{AreLines};

use yl_text::{LineStore, one_list_of_lines};

mod chunk_store;
mod chunks;
mod counting;
mod cutting;
mod places;
mod room;
mod spliced;
mod spreading;
mod turning;

pub use chunk_store::ChunkStore;
pub use chunks::Chunks;
pub use spliced::Spliced;

/// The maximum number of items of a chunk.
pub const MOST: usize = 256;

/// A law: two stores of one text have the same rows, however they store them. So whatever follows
/// from the rows, such as all that a session shows, is the same for both.
pub fn one_list_of_rows<S: LineStore, T: LineStore>(_one: &S, _other: &T)
    requires one { AreLines (S.rows _one.now) }
    requires other { AreLines (T.rows _other.now) }
    requires text { text_of (S.rows _one.now) ≡ text_of (T.rows _other.now) }
    ensures { S.rows _one.now ≡ T.rows _other.now }
{
    one_list_of_lines();
}
