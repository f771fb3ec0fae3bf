// A finished chain. Its fields may be read by anyone; its limits stand in its type.
ghost use Rattle.std.specs.Prelude.{◌≡◌, ◌+◌, ◌≤◌, max, true, vec_len};
ghost use Rattle.chain.specs.Limits.{all_kept, length_kept, stage_kept};

use super::headings::Heading;
use super::stages::Stage;

// A chain of at most `S` stages, with pins to boards 1 to `B`: message k stands between the
// stages k and k + 1. Two rows and not one of pairs, since there is a message fewer, and each rule
// counts both from the stage.
#[derive(Drop)]
pub struct Chain<const S: usize, const B: u8> {
    pub heading: Heading,
    pub stages: Vec<Stage>,
    pub messages: Vec<u32>,
    ghost stages_kept: { all_kept (stage_kept B) stages.items ≡ true },
    ghost messages_kept: { all_kept length_kept messages.items ≡ true },
    ghost between: { vec_len messages + 1 ≡ vec_len stages },
    ghost few: { vec_len stages ≤ max S 1 },
}
