ghost use Rattle.std.specs.Prelude.{ℕ, ◌<◌, ◌≤◌, length, vec_capacity};
ghost use Rattle.image.specs.Image.{most_states};
ghost use Rattle.image.specs.Stored.{Inside};

use self::row::Row;
use crate::records::{HEADER, LINK_RECORD, MOST_LINKS, MOST_STATES, STATE_RECORD};

/// How many bytes the longest image has: 256 states and 4,096 links (docs/FORMATS.md, "The stored image"). A longer one is refused: by 3 where its header is in order,
/// else by 2 (docs/REFUSALS.md, "Causes").
pub const LONGEST_IMAGE: usize = HEADER + STATE_RECORD * MOST_STATES + LINK_RECORD * MOST_LINKS;

const _: () = prove!(LONGEST_IMAGE == 18_440);

/// A model in memory, with labels L, as an image described it (docs/FORMATS.md, "The stored image").
///
/// Its states, 1 to 256, and the 1 to 16 successors of each are asked by the trait `Model`. The room for all of them is reserved
/// when the holder is made, so that loading asks for none.
#[derive(Drop)]
pub struct StoredModel<L> {
    rows: Vec<Row<L>>,
    initial: u16,
    ghost room: { most_states ≤ vec_capacity rows },
    ghost some: { 1 ≤ length rows.items },
    ghost few: { length rows.items ≤ most_states },
    ghost begins: { initial < length rows.items },
    ghost inside: { Inside rows.items },
}

mod asks;
mod load;
mod row;
