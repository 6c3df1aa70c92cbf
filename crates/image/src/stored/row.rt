ghost use Rattle.std.specs.Prelude.{◌≤◌, length};
ghost use Rattle.image.specs.Image.{most_successors};

use crate::chain::MOST_SUCCESSORS;
use arrayvec::ArrayVec;

// One state: its label and its successors, at least one.
#[derive(Drop)]
pub(crate) struct Row<L> {
    pub(crate) label: L,
    pub(crate) next: ArrayVec<u16, MOST_SUCCESSORS>,
    ghost some: { 1 ≤ length next.items },
    ghost narrow: { length next.items ≤ most_successors },
}
