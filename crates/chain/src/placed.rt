// A chain on its boards.
use super::chains::Chain;

// A chain on its boards, stage by stage. The boards stay a row beside the stages, since a placement
// is a row of boards, and one chain has many.
#[derive(Clone, Copy)]
pub(super) struct Placed<'a, const S: usize, const B: u8> {
    pub chain: &'a Chain<S, B>,
    pub boards: &'a [u8],
}
